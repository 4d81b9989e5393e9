//! Sides of comparisons of numbers, or of days, that stand in any width.
ghost use Rattle.std.specs.Prelude.{◌<◌, ◌≡◌, IfSome, false, length, pos, replicate, slice_index_or, true};
ghost use Rattle.cq_values.specs.Lent.{owned};
ghost use Rattle.cq_prims.specs.Numbers.{ShowsNumbers, above};
ghost use Rattle.cq_vectors_stored.specs.Offsets.{offsets_in};

use cq_values::Lent;
use cq_vectors::{Form, Vector};
use cq_vectors_stored::{Narrow, NarrowDays, Offsets};
use std::marker::Model;

/// One side of a comparison, which contracts see as the number of each place.
#[derive(Drop)]
pub(crate) struct WideSide<'a> {
    form: WideForm<'a>,
}

#[derive(Drop)]
enum WideForm<'a> {
    Column(&'a [i128]),
    Numbers(&'a [i64]),
    Days(&'a [i32]),
    /// A base, and how far each number stands above it.
    Above(i64, Offsets<'a>),
    /// One number for so many places.
    Constant(i128, usize),
}

impl<'a> Model for WideSide<'a> {
    ghost use Rattle.std.specs.Prelude.{List, ℤ};
    ghost use Rattle.cq_prims.specs.WideSide.{wide_numbers_in};

    ghost Value = { List ℤ };

    ghost view = { λ s. wide_numbers_in s.form };
}

impl<'a> WideSide<'a> {
    /// The numbers of the vector, if it is one of numbers.
    pub(crate) fn of(vector: &'a Vector<'_>) -> Option<WideSide<'a>>
        ensures { IfSome result (λ side. ShowsNumbers false side vector.now) }
    {
        if let Some(numbers) = vector.numbers() {
            return Some(WideSide::numbers(numbers.values()));
        }
        match vector.form() {
            Form::Wide(numbers) => Some(WideSide::column(numbers.values())),
            Form::Narrow(numbers) => Some(WideSide::of_narrow(numbers)),
            Form::Constant(value, len) => WideSide::of_constant(value, *len),
            _ => None,
        }
    }

    /// The numbers of the days of the vector, if it is one of days.
    pub(crate) fn of_days(vector: &'a Vector<'_>) -> Option<WideSide<'a>>
        ensures { IfSome result (λ side. ShowsNumbers true side vector.now) }
    {
        if let Some(days) = vector.days() {
            return Some(WideSide::days(days.values()));
        }
        match vector.form() {
            Form::NarrowDays(days) => Some(WideSide::of_narrow_days(days)),
            _ => None,
        }
    }

    fn of_narrow(numbers: &'a Narrow<'_>) -> WideSide<'a>
        ensures { ShowsNumbers false result numbers.now }
    {
        let (base, offsets) = numbers.parts();
        WideSide::above(base, offsets)
    }

    fn of_narrow_days(days: &'a NarrowDays<'_>) -> WideSide<'a>
        ensures { ShowsNumbers true result days.now }
    {
        let (base, offsets) = days.parts();
        WideSide::above(i64::from(base), offsets)
    }

    fn of_constant(value: &Lent<'_>, len: usize) -> Option<WideSide<'a>>
        ensures { IfSome result (λ side. ShowsNumbers false side (replicate len (owned value.now))) }
    {
        match value {
            Lent::Number(value) => Some(WideSide::constant(*value, len)),
            _ => None,
        }
    }

    pub(crate) fn column(values: &'a [i128]) -> WideSide<'a>
        ensures { result ≡ values.now }
    {
        WideSide {
            form: WideForm::Column(values),
        }
    }

    pub(crate) fn numbers(values: &'a [i64]) -> WideSide<'a>
        ensures { result ≡ values.now }
    {
        WideSide {
            form: WideForm::Numbers(values),
        }
    }

    pub(crate) fn days(values: &'a [i32]) -> WideSide<'a>
        ensures { result ≡ values.now }
    {
        WideSide {
            form: WideForm::Days(values),
        }
    }

    pub(crate) fn above(base: i64, offsets: Offsets<'a>) -> WideSide<'a>
        ensures { result ≡ above base (offsets_in offsets.entry) }
    {
        WideSide {
            form: WideForm::Above(base, offsets),
        }
    }

    pub(crate) fn constant(value: i128, len: usize) -> WideSide<'a>
        ensures { result ≡ replicate len value }
    {
        WideSide {
            form: WideForm::Constant(value, len),
        }
    }

    pub(crate) fn at(&self, place: usize) -> i128
        requires { place < length self.now }
        ensures { result ≡ slice_index_or self.now place (pos 0) }
    {
        match &self.form {
            WideForm::Column(values) => {
                let values = *values;
                values[place]
            }
            WideForm::Numbers(values) => {
                let values = *values;
                i128::from(values[place])
            }
            WideForm::Days(values) => {
                let values = *values;
                i128::from(values[place])
            }
            WideForm::Above(base, offsets) => above_at(*base, offsets, place),
            WideForm::Constant(value, _) => *value,
        }
    }
}

/// The number of a place above the base.
fn above_at(base: i64, offsets: &Offsets<'_>, place: usize) -> i128
    requires { place < length (offsets_in offsets.now) }
    ensures { result ≡ slice_index_or (above base (offsets_in offsets.now)) place (pos 0) }
{
    i128::from(base) + i128::from(offsets.at(place))
}
