//! Vectors without NULLs, as their numbers.
ghost use Rattle.std.specs.Prelude.{replicate};
ghost use Rattle.cq_values.specs.Lent.{owned};
ghost use Rattle.cq_prims_arithmetic.specs.Unbroken.{AreHeld};

use cq_values::Lent;
use cq_vectors::{Form, Vector};

/// The numbers of a vector in which each value is a number.
#[derive(Drop)]
pub(crate) enum Unbroken<'b> {
    Numbers(&'b [i64]),
    Wide(&'b [i128]),
    One(i128, usize),
    /// There may be NULLs, or values that are no numbers.
    Broken,
}

pub(crate) fn numbers_in<'b>(vector: &'b Vector<'_>) -> Unbroken<'b>
    ensures { AreHeld result vector.now }
{
    if let Some(values) = vector.whole_numbers() {
        return Unbroken::Numbers(values);
    }
    match vector.form() {
        Form::Wide(numbers) => match numbers.whole() {
            Some(values) => Unbroken::Wide(values),
            None => Unbroken::Broken,
        },
        Form::Constant(value, len) => one_number(value, *len),
        _ => Unbroken::Broken,
    }
}

fn one_number<'b>(value: &Lent<'_>, len: usize) -> Unbroken<'b>
    ensures { AreHeld result (replicate len (owned value.now)) }
{
    match value {
        Lent::Number(n) => Unbroken::One(*n, len),
        _ => Unbroken::Broken,
    }
}
