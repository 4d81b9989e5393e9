//! Comparisons of numbers and days above a base with a constant.
//!
//! The constant is moved by the base once, and then the offsets are compared as they stand, in lanes of their width.
ghost use Rattle.std.specs.Prelude.{IfSome, length, ℕ, ◌≡◌};
ghost use Rattle.cq_prims.specs.Beside.{AreBeside, AreBesideOne, AreTruthsBeside, answers_of, is_at_most, is_below, is_constant};
ghost use Rattle.cq_prims_lanes.specs.UpTo.{is_up_to};
ghost use Rattle.cq_values.specs.declared.value.Value.TheVariants.{Day, Number};

use crate::comparisons::constant_of;
use crate::narrow_side::NarrowSide;
use cq_prims_lanes::{
    set_equal_8, set_equal_16, set_equal_32, set_never, set_up_to_8, set_up_to_16, set_up_to_32,
};
use cq_values::{Comparison, Lent};
use cq_vectors::{Form, Vector};
use cq_vectors_masks::TruthMask;
use cq_vectors_stored::{Narrow, NarrowDays, Offsets};

impl<'a> NarrowSide<'a> {
    /// The column and the constant, if they are such and of one kind.
    pub(crate) fn of(column: &'a Vector<'_>, other: &'a Vector<'_>) -> Option<NarrowSide<'a>>
        requires { length column.now ≡ length other.now }
        ensures { IfSome result (λ side. AreBeside side column.now other.now) }
    {
        let Some(value) = constant_of(other) else {
            return None;
        };
        match (column.form(), value) {
            (Form::Narrow(numbers), Lent::Number(value)) => {
                Some(NarrowSide::of_numbers(numbers, *value))
            }
            (Form::NarrowDays(days), Lent::Day(day)) => Some(NarrowSide::of_days(
                days,
                day.number(),
            )),
            _ => None,
        }
    }

    fn of_numbers(numbers: &'a Narrow<'_>, value: i128) -> NarrowSide<'a>
        ensures { AreBesideOne result numbers.now (Number value) }
    {
        let (base, offsets) = numbers.parts();
        NarrowSide {
            base,
            offsets,
            nulls: numbers.nulls(),
            value,
        }
    }

    fn of_days(days: &'a NarrowDays<'_>, value: i32) -> NarrowSide<'a>
        ensures { AreBesideOne result days.now (Day value) }
    {
        let (base, offsets) = days.parts();
        NarrowSide {
            base: i64::from(base),
            offsets,
            nulls: days.nulls(),
            value: i128::from(value),
        }
    }

    /// The truth of the comparison in each place.
    pub(crate) fn compare(&self, comparison: Comparison, to: &mut TruthMask)
        ensures { AreTruthsBeside self.now comparison to.new }
    {
        match comparison {
            Comparison::Less => self.set_up_to(self.last_below(), to),
            Comparison::LessOrEqual => self.set_up_to(self.last_up_to(), to),
            Comparison::Equal => self.set_equal(to),
            Comparison::NotEqual => {
                self.set_equal(to);
                to.negate();
            }
            Comparison::Greater => {
                self.set_up_to(self.last_up_to(), to);
                to.negate();
            }
            Comparison::GreaterOrEqual => {
                self.set_up_to(self.last_below(), to);
                to.negate();
            }
        }
    }

    /// The greatest offset that stands below the constant.
    fn last_below(&self) -> Option<u128>
        ensures { (o : ℕ) → is_up_to result o ≡ is_below self.now o }
    {
        let base = i128::from(self.base);
        if base < self.value {
            Some(self.value.abs_diff(base) - 1)
        } else {
            None
        }
    }

    /// The greatest offset that does not stand above the constant.
    fn last_up_to(&self) -> Option<u128>
        ensures { (o : ℕ) → is_up_to result o ≡ is_at_most self.now o }
    {
        let base = i128::from(self.base);
        if base <= self.value {
            Some(self.value.abs_diff(base))
        } else {
            None
        }
    }

    fn set_up_to(&self, last: Option<u128>, to: &mut TruthMask)
        ensures { to.new ≡ answers_of self.now (is_up_to last) }
    {
        match last {
            None => set_never(self.nulls, to),
            Some(last) => match self.offsets {
                Offsets::One(offsets) => set_up_to_8(offsets, last, self.nulls, to),
                Offsets::Two(offsets) => set_up_to_16(offsets, last, self.nulls, to),
                Offsets::Four(offsets) => set_up_to_32(offsets, last, self.nulls, to),
            },
        }
    }

    fn set_equal(&self, to: &mut TruthMask)
        ensures { to.new ≡ answers_of self.now (is_constant self.now) }
    {
        let base = i128::from(self.base);
        if self.value < base {
            return set_never(self.nulls, to);
        }
        let offset = self.value.abs_diff(base);
        match self.offsets {
            Offsets::One(offsets) => set_equal_8(offsets, offset, self.nulls, to),
            Offsets::Two(offsets) => set_equal_16(offsets, offset, self.nulls, to),
            Offsets::Four(offsets) => set_equal_32(offsets, offset, self.nulls, to),
        }
    }
}
