//! Sides of comparisons of numbers in 64 bits.
ghost use Rattle.std.specs.Int.{w64};
ghost use Rattle.std.specs.Prelude.{◌+◌, ◌<◌, ◌≡◌, ◌≤◌, IfSome, drop, false, length, pos, replicate, slice_index_or, take};
ghost use Rattle.cq_values.specs.Lent.{owned};
ghost use Rattle.cq_prims.specs.Numbers.{ShowsNumbers};
ghost use Rattle.cq_vectors_stored.specs.Columns.{AllFit};

use cq_values::Lent;
use cq_vectors::{Form, Vector};
use std::marker::Model;
use std::simd::prelude::*;

/// One side of a comparison, which contracts see as the number of each place.
#[derive(Drop)]
pub(crate) struct NumberSide<'a> {
    form: NumberForm<'a>,
}

#[derive(Drop)]
enum NumberForm<'a> {
    Column(&'a [i64]),
    /// One number for so many places.
    Constant(i64, usize),
}

impl<'a> Model for NumberSide<'a> {
    ghost use Rattle.std.specs.Int.{w64};
    ghost use Rattle.std.specs.Prelude.{List, ℤ};
    ghost use Rattle.cq_vectors_stored.specs.Columns.{AllFit};
    ghost use Rattle.cq_prims.specs.NumberSide.{numbers_in};

    ghost Value = { List ℤ };

    ghost view = { λ s. numbers_in s.form };

    ghost invariant = { λ s. AllFit w64 (numbers_in s.form) };
}

impl<'a> NumberSide<'a> {
    /// The numbers of the vector, where 64 bits hold each.
    pub(crate) fn of(vector: &'a Vector<'_>) -> Option<NumberSide<'a>>
        ensures { IfSome result (λ side. ShowsNumbers false side vector.now) }
    {
        if let Some(numbers) = vector.numbers() {
            return Some(NumberSide::column(numbers.values()));
        }
        match vector.form() {
            Form::Constant(value, len) => NumberSide::of_constant(value, *len),
            _ => None,
        }
    }

    fn of_constant(value: &Lent<'_>, len: usize) -> Option<NumberSide<'a>>
        ensures { IfSome result (λ side. ShowsNumbers false side (replicate len (owned value.now))) }
    {
        let Lent::Number(value) = value else {
            return None;
        };
        match i64::try_from(*value) {
            Ok(value) => Some(NumberSide::constant(value, len)),
            Err(_) => None,
        }
    }

    pub(crate) fn column(values: &'a [i64]) -> NumberSide<'a>
        requires { AllFit w64 values.now }
        ensures { result ≡ values.now }
    {
        NumberSide {
            form: NumberForm::Column(values),
        }
    }

    pub(crate) fn constant(value: i64, len: usize) -> NumberSide<'a>
        ensures { result ≡ replicate len value }
    {
        NumberSide {
            form: NumberForm::Constant(value, len),
        }
    }

    pub(crate) fn at(&self, place: usize) -> i64
        requires { place < length self.now }
        ensures { result ≡ slice_index_or self.now place (pos 0) }
    {
        match &self.form {
            NumberForm::Column(values) => {
                let values = *values;
                values[place]
            }
            NumberForm::Constant(value, _) => *value,
        }
    }

    /// The numbers of sixteen places.
    pub(crate) fn lanes(&self, from: usize) -> i64x16
        requires { from + 16 ≤ length self.now }
        ensures value { result ≡ take 16 (drop from self.now) }
        ensures fit { AllFit w64 self.now }
    {
        match &self.form {
            NumberForm::Column(values) => i64x16::from_slice(&values[from..]),
            NumberForm::Constant(value, _) => i64x16::splat(*value),
        }
    }

    /// The numbers of four places.
    pub(crate) fn four(&self, from: usize) -> i64x4
        requires { from + 4 ≤ length self.now }
        ensures value { result ≡ take 4 (drop from self.now) }
        ensures fit { AllFit w64 self.now }
    {
        match &self.form {
            NumberForm::Column(values) => i64x4::from_slice(&values[from..]),
            NumberForm::Constant(value, _) => i64x4::splat(*value),
        }
    }
}
