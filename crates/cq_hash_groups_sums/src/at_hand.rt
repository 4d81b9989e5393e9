//! Values that all go into one group.
//!
//! The group's sum is at hand while its values are added up, and is written to its place once, at the end. So a value costs
//! an addition, where a sum that is read and written for each one waits for what was written last.
ghost use Rattle.std.specs.Bool.{OnTrue};
ghost use Rattle.std.specs.Prelude.{◌<◌, ◌≡◌, ◌≤◌, IfSome, length, map};
ghost use Rattle.cq_values.specs.declared.value.Value.TheVariants.{Number};
ghost use Rattle.cq_model.specs.Totals.{total_of};
ghost use Rattle.cq_hash_groups_sums.specs.NumberColumns.{AreSmall};
ghost use Rattle.cq_hash_groups_sums.specs.Puts.{AreNumbers, AreOfOne, AreSumsWithin, PutFrom, PutNumbers, most_before};

use crate::number_columns::NumberColumn;
use crate::small_sums::SmallSum;
use cq_vectors_masks::Plane;

/// The group of the numbers, where it is one. Where there is one group in all, only the first number is looked at.
pub fn one_group(groups: usize, numbers: &[usize]) -> Option<usize>
    requires { AreNumbers groups numbers.now }
    ensures there { IfSome result (λ group. group < groups) }
    ensures one { IfSome result (λ group. AreOfOne group numbers.now) }
{
    let group = *numbers.first()?;
    if groups == 1 || are_of(group, numbers) {
        Some(group)
    } else {
        None
    }
}

/// Whether each number is that of the group.
fn are_of(group: usize, numbers: &[usize]) -> bool
    ensures { OnTrue result (AreOfOne group numbers.now) }
{
    for place in 0..numbers.len() {
        if numbers[place] != group {
            return false;
        }
    }
    true
}

/// Puts the numbers at the places that are not NULL into one group, up to the first that finds no room in 64 bits. Tells
/// its place, or how many numbers there are.
pub(crate) fn put_at_hand<C: NumberColumn>(
    sums: &mut [SmallSum],
    group: usize,
    numbers: &[usize],
    column: &C,
    nulls: &Plane,
) -> usize
    requires group { group < length sums.old }
    requires one { AreOfOne group numbers.now }
    requires there { AreNumbers (length sums.old) numbers.now }
    requires same { length numbers.now ≡ length (C.numbers column.now) }
    requires flags { length nulls.now ≡ length (C.numbers column.now) }
    requires room { AreSumsWithin (most_before (length numbers.now)) sums.old }
    ensures few { result ≤ length numbers.now }
    ensures put { PutNumbers 0 result numbers.now (C.numbers column.now) nulls.now sums.old sums.new }
{
    if nulls.is_clear() {
        return put_known_at_hand(sums, group, numbers, column);
    }
    let mut sum = sums[group].again();
    for place in 0..nulls.len() {
        let number = column.at(place);
        let Some(more) = sum.with_number_unless(number, nulls.get(place)) else {
            sums[group] = sum;
            return place;
        };
        sum = more;
    }
    sums[group] = sum;
    nulls.len()
}

/// The same where none is NULL. Small numbers are added up by themselves, in lanes, and put in together.
fn put_known_at_hand<C: NumberColumn>(
    sums: &mut [SmallSum],
    group: usize,
    numbers: &[usize],
    column: &C,
) -> usize
    requires group { group < length sums.old }
    requires one { AreOfOne group numbers.now }
    requires there { AreNumbers (length sums.old) numbers.now }
    requires same { length numbers.now ≡ length (C.numbers column.now) }
    requires room { AreSumsWithin (most_before (length numbers.now)) sums.old }
    ensures few { result ≤ length numbers.now }
    ensures put { PutFrom 0 result numbers.now (map Number (C.numbers column.now)) sums.old sums.new }
{
    let many = numbers.len();
    if 0 < many && many <= 1024 && column.are_small() {
        let total = total_at_hand(many, column);
        if let Some(sum) = sums[group].with_total(many, total) {
            sums[group] = sum;
            return many;
        }
    }
    put_each_at_hand(sums, group, numbers, column)
}

/// The total of up to 1,024 small numbers.
fn total_at_hand<C: NumberColumn>(many: usize, column: &C) -> i64
    requires many { many ≡ length (C.numbers column.now) }
    requires few { many ≤ 1024 }
    requires small { AreSmall (C.numbers column.now) }
    ensures { result ≡ total_of (map Number (C.numbers column.now)) }
{
    let mut total = 0;
    for place in 0..many {
        total += column.at(place);
    }
    total
}

/// Puts the numbers one by one into one group.
fn put_each_at_hand<C: NumberColumn>(
    sums: &mut [SmallSum],
    group: usize,
    numbers: &[usize],
    column: &C,
) -> usize
    requires group { group < length sums.old }
    requires one { AreOfOne group numbers.now }
    requires there { AreNumbers (length sums.old) numbers.now }
    requires same { length numbers.now ≡ length (C.numbers column.now) }
    requires room { AreSumsWithin (most_before (length numbers.now)) sums.old }
    ensures few { result ≤ length numbers.now }
    ensures put { PutFrom 0 result numbers.now (map Number (C.numbers column.now)) sums.old sums.new }
{
    let mut sum = sums[group].again();
    for place in 0..numbers.len() {
        let Some(more) = sum.with_number(column.at(place)) else {
            sums[group] = sum;
            return place;
        };
        sum = more;
    }
    sums[group] = sum;
    numbers.len()
}
