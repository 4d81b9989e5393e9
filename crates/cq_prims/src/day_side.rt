//! Sides of comparisons of days.
ghost use Rattle.std.specs.Int.{w32};
ghost use Rattle.std.specs.Prelude.{◌+◌, ◌<◌, ◌≡◌, ◌≤◌, IfSome, drop, length, pos, replicate, slice_index_or, take, true};
ghost use Rattle.cq_values.specs.Lent.{owned};
ghost use Rattle.cq_prims.specs.Numbers.{ShowsNumbers};
ghost use Rattle.cq_vectors_stored.specs.Columns.{AllFit};

use cq_values::Lent;
use cq_vectors::{Form, Vector};
use std::marker::Model;
use std::simd::prelude::*;

/// One side of a comparison, which contracts see as the day of each place, by its number.
#[derive(Drop)]
pub(crate) struct DaySide<'a> {
    form: DayForm<'a>,
}

#[derive(Drop)]
enum DayForm<'a> {
    Column(&'a [i32]),
    /// One day for so many places.
    Constant(i32, usize),
}

impl<'a> Model for DaySide<'a> {
    ghost use Rattle.std.specs.Int.{w32};
    ghost use Rattle.std.specs.Prelude.{List, ℤ};
    ghost use Rattle.cq_vectors_stored.specs.Columns.{AllFit};
    ghost use Rattle.cq_prims.specs.DaySide.{days_in};

    ghost Value = { List ℤ };

    ghost view = { λ s. days_in s.form };

    ghost invariant = { λ s. AllFit w32 (days_in s.form) };
}

impl<'a> DaySide<'a> {
    /// The days of the vector, if it is one of days.
    pub(crate) fn of(vector: &'a Vector<'_>) -> Option<DaySide<'a>>
        ensures { IfSome result (λ side. ShowsNumbers true side vector.now) }
    {
        if let Some(days) = vector.days() {
            return Some(DaySide::column(days.values()));
        }
        match vector.form() {
            Form::Constant(value, len) => DaySide::of_constant(value, *len),
            _ => None,
        }
    }

    fn of_constant(value: &Lent<'_>, len: usize) -> Option<DaySide<'a>>
        ensures { IfSome result (λ side. ShowsNumbers true side (replicate len (owned value.now))) }
    {
        match value {
            Lent::Day(day) => Some(DaySide::constant(day.number(), len)),
            _ => None,
        }
    }

    pub(crate) fn column(values: &'a [i32]) -> DaySide<'a>
        requires { AllFit w32 values.now }
        ensures { result ≡ values.now }
    {
        DaySide {
            form: DayForm::Column(values),
        }
    }

    pub(crate) fn constant(value: i32, len: usize) -> DaySide<'a>
        ensures { result ≡ replicate len value }
    {
        DaySide {
            form: DayForm::Constant(value, len),
        }
    }

    pub(crate) fn at(&self, place: usize) -> i32
        requires { place < length self.now }
        ensures { result ≡ slice_index_or self.now place (pos 0) }
    {
        match &self.form {
            DayForm::Column(values) => {
                let values = *values;
                values[place]
            }
            DayForm::Constant(value, _) => *value,
        }
    }

    /// The days of sixteen places.
    pub(crate) fn lanes(&self, from: usize) -> i32x16
        requires { from + 16 ≤ length self.now }
        ensures value { result ≡ take 16 (drop from self.now) }
        ensures fit { AllFit w32 self.now }
    {
        match &self.form {
            DayForm::Column(values) => i32x16::from_slice(&values[from..]),
            DayForm::Constant(value, _) => i32x16::splat(*value),
        }
    }
}
