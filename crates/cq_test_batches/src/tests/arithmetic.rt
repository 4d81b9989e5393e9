//! Results of each place at the lengths where words of flags begin and end, with NULLs at both ends.
ghost use Rattle.std.specs.Bool.{OnTrue};
ghost use Rattle.std.specs.Prelude.{length, slice_index_or, ℕ, ◌^◌, ◌≡◌, ◌≤◌};
ghost use Rattle.cq_values.specs.Lent.{owned};
ghost use Rattle.cq_values.specs.declared.value.Value.TheVariants.{Null};
ghost use Rattle.cq_model.specs.Width.{value_size};

use super::columns::{counted, is_number};
use cq_prims_arithmetic::{add, mul, neg};
use cq_values::{Lent, Row};
use cq_vectors::{Buffers, Vector};
use std::alloc::{AllocError, Global};
use std::process::Abort;
use std::test::Fail;

/// Whether 64 bits hold the size of each number, so that each result fits 128 bits.
fn are_small(numbers: &Vector<'_>) -> bool
    ensures { OnTrue result ((k : ℕ) → value_size (slice_index_or numbers.now k Null) ≤ 2 ^ 63) }
{
    for place in 0..numbers.len() {
        if !is_small(&numbers.lend(place)) {
            return false;
        }
    }
    true
}

fn is_small(value: &Lent<'_>) -> bool
    ensures { OnTrue result (value_size (owned value.now) ≤ 2 ^ 63) }
{
    match value {
        Lent::Number(n) => n.unsigned_abs() <= 1 << 63,
        _ => true,
    }
}

/// What an operation gives, by its sign. `~` is the other sign of the first number.
fn result_of<'a>(
    alloc: Global,
    sign: char,
    a: &Vector<'_>,
    b: &Vector<'_>,
) -> Result<Vector<'a>, AllocError>
    requires same { length a.now ≡ length b.now }
    requires left { (k : ℕ) → value_size (slice_index_or a.now k Null) ≤ 2 ^ 63 }
    requires right { (k : ℕ) → value_size (slice_index_or b.now k Null) ≤ 2 ^ 63 }
{
    let mut buffers = Buffers::new(alloc);
    let buffers = &mut buffers;
    match sign {
        '+' => add(alloc, buffers, a, b),
        '*' => mul(alloc, buffers, a, b),
        _ => neg(alloc, buffers, a),
    }
}

/// A base, a length, the last place with a number, and there the sum, product and other sign.
type Case = (i64, usize, usize, [i128; 3]);

const CASES: &[Case] = &[
    (0, 63, 61, [0, -3721, -61]),
    (0, 64, 62, [0, -3844, -62]),
    (0, 65, 63, [0, -3969, -63]),
    (0, 1023, 1021, [0, -1042441, -1021]),
    (0, 1024, 1022, [0, -1044484, -1022]),
    (
        1 << 62,
        63,
        61,
        [
            9223372036854775808,
            21267647932558653966460912964485509495,
            -4611686018427387965,
        ],
    ),
    (
        1 << 62,
        64,
        62,
        [
            9223372036854775808,
            21267647932558653966460912964485509372,
            -4611686018427387966,
        ],
    ),
    (
        1 << 62,
        65,
        63,
        [
            9223372036854775808,
            21267647932558653966460912964485509247,
            -4611686018427387967,
        ],
    ),
    (
        1 << 62,
        1023,
        1021,
        [
            9223372036854775808,
            21267647932558653966460912964484470775,
            -4611686018427388925,
        ],
    ),
    (
        1 << 62,
        1024,
        1022,
        [
            9223372036854775808,
            21267647932558653966460912964484468732,
            -4611686018427388926,
        ],
    ),
];

/// Asks for the results of numbers above a base and as far below it, and for NULL at both ends.
fn check_results(
    rt: &impl Abort,
    alloc: Global,
    a: &Vector<'_>,
    b: &Vector<'_>,
    (_, len, place, results): &Case,
) -> Result<(), Fail> {
    assert!(rt; a.len() == b.len() && are_small(a) && are_small(b) && *place < 1024);
    for (sign, result) in "+*~".chars().zip(results) {
        let made = result_of(alloc, sign, a, b)?;
        assert!(rt;
            made.len() == *len && made.lend(0).is_null() && made.lend(*place + 1).is_null(),
            "{sign} of {len}"
        );
        assert!(rt; is_number(&made.lend(*place), *result), "{sign} of {len}");
        drop(made);
    }
    Ok(())
}

/// The same of the columns of rows.
fn check_columns(
    rt: &impl Abort,
    alloc: Global,
    rows: &[Row],
    others: &[Row],
    case: &Case,
) -> Result<(), Fail>
    requires rows { length rows.now ≤ 1024 }
    requires others { length others.now ≤ 1024 }
{
    let a = Vector::gather(alloc, rows, 0)?;
    match Vector::gather(alloc, others, 0) {
        Ok(b) => {
            let checked = check_results(rt, alloc, &a, &b, case);
            drop(b);
            drop(a);
            checked
        }
        Err(fault) => {
            drop(a);
            Err(Fail::from(fault))
        }
    }
}

/// The same of the rows of a base.
fn check_case(rt: &impl Abort, alloc: Global, case: &Case) -> Result<(), Fail> {
    let (base, len, _, _) = case;
    let rows = counted(alloc, *base, true, *len)?;
    match counted(alloc, *base, false, *len) {
        Ok(others) => {
            assert!(rt; rows.len() <= 1024 && others.len() <= 1024);
            let checked = check_columns(rt, alloc, &rows, &others, case);
            drop(others);
            drop(rows);
            checked
        }
        Err(fault) => {
            drop(rows);
            Err(Fail::from(fault))
        }
    }
}

#[test]
fn operations_give_the_result_of_each_place(rt: HostRuntime) -> Result<(), Fail> {
    for case in CASES {
        check_case(&rt, rt.alloc(), case)?;
    }
    Ok(())
}

#[test]
fn without_a_number_there_is_no_result(rt: HostRuntime) -> Result<(), Fail> {
    for len in [0, 1] {
        let rows = counted(rt.alloc(), 7, true, len)?;
        assert!(rt; rows.len() <= 1024);
        let a = Vector::gather(rt.alloc(), rows.as_slice(), 0)?;
        assert!(rt; are_small(&a));
        for sign in ['+', '*', '~'] {
            let made = result_of(rt.alloc(), sign, &a, &a)?;
            assert!(rt;
                made.len() == len && made.lend(0).is_null(),
                "{sign} of {len}"
            );
        }
    }
    Ok(())
}
