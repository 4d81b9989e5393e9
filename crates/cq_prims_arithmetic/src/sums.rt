//! Exact sums of the numbers at selected places.
ghost use Rattle.std.specs.Prelude.{length, nat_abs, pos, slice_index, ℕ, ◌*ℤ◌, ◌*◌, ◌+ℤ◌, ◌<◌, ◌^◌, ◌≡◌, ◌≤◌};
ghost use Rattle.cq_prims_arithmetic.specs.Sums.{sum_at, sum_of};

use cq_values::{Lent, Total};
use cq_vectors::{Form, Vector};
use cq_vectors_masks::Selection;

/// Adds the numbers at the places, exactly. NULL adds nothing.
pub fn sum_into(a: &Vector<'_>, places: &Selection, total: &mut Total)
    requires there { (k : ℕ) → k < length places.now → slice_index places.now k < length a.now }
    requires bounded { nat_abs total.old ≤ 2 ^ 249 }
    ensures { total.new ≡ total.old +ℤ sum_of a.now places.now }
{
    if let Some(numbers) = a.numbers() {
        return total.add(sum_places(numbers.values(), places.places()));
    }
    match a.form() {
        Form::Wide(numbers) => {
            let (low, high) = sum_halves(numbers.values(), places.places());
            total.add(low);
            total.add_times(high, 1 << 64);
        }
        _ => sum_each(a, places.places(), total),
    }
}

/// The sum of at most 1,024 numbers of 64 bits.
fn sum_places(values: &[i64], places: &[u16]) -> i128
    requires few { length places.now ≤ 1024 }
    requires there { (k : ℕ) → k < length places.now → slice_index places.now k < length values.now }
    ensures sum { result ≡ sum_at values.now places.now }
    ensures small { nat_abs result ≤ 2 ^ 74 }
{
    let mut sum = 0;
    for i in 0..places.len() {
        sum += i128::from(values[places[i] as usize]);
    }
    sum
}

/// The sums of the lower and of the upper halves of at most 1,024 numbers: 128 bits are enough for each.
fn sum_halves(values: &[i128], places: &[u16]) -> (i128, i128)
    requires few { length places.now ≤ 1024 }
    requires there { (k : ℕ) → k < length places.now → slice_index places.now k < length values.now }
    ensures sum { result.0 +ℤ result.1 *ℤ pos (2 ^ 64) ≡ sum_at values.now places.now }
    ensures low { nat_abs result.0 ≤ 2 ^ 74 }
    ensures high { nat_abs result.1 ≤ 2 ^ 73 }
{
    let mut low = 0;
    let mut high = 0;
    for i in 0..places.len() {
        let (lower, upper) = halves(values[places[i] as usize]);
        low += i128::from(lower);
        high += i128::from(upper);
    }
    (low, high)
}

/// The lower 64 bits of a number, and what it has above them.
fn halves(n: i128) -> (u64, i64)
    ensures { pos result.0 +ℤ result.1 *ℤ pos (2 ^ 64) ≡ n }
{
    let upper = n >> 64;
    ((n - upper * 18446744073709551616) as u64, upper as i64)
}

/// One place after the other, in whatever form they are.
fn sum_each(a: &Vector<'_>, places: &[u16], total: &mut Total)
    requires few { length places.now ≤ 1024 }
    requires bounded { nat_abs total.old ≤ 2 ^ 249 }
    ensures { total.new ≡ total.old +ℤ sum_of a.now places.now }
{
    for i in 0..places.len() {
        if let Lent::Number(n) = a.lend(places[i] as usize) {
            total.add(n);
        }
    }
}
