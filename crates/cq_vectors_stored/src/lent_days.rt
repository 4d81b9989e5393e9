//! Days that are lent.
//!
//! They are made and read as numbers that are lent ([`crate::LentNumbers`]), each day by its number.
ghost use Rattle.std.specs.Int.{w32};
ghost use Rattle.std.specs.Prelude.{length, map, slice_index_or, ◌≡◌, ◌≤◌};
ghost use Rattle.std.specs.Simd.Lanes.{zip2};
ghost use Rattle.cq_model.specs.Condition.{is_null};
ghost use Rattle.cq_values.specs.Days.{IsDay};
ghost use Rattle.cq_values.specs.Lent.{owned};
ghost use Rattle.cq_values.specs.Order.{number};
ghost use Rattle.cq_values.specs.declared.value.Value.TheVariants.{Day as DayOf, Null};
ghost use Rattle.cq_vectors_stored.specs.Columns.{AllFit, AreDays, ZeroWhere, day_unless};

use cq_values::{Day, Lent};
use cq_vectors_masks::Plane;
use std::marker::Model;

/// At most 1,024 days and NULLs, each day by its number. Where NULL stands the number is 0.
#[derive(Drop)]
pub struct LentDays<'a> {
    values: &'a [i32],
    nulls: &'a Plane,
}

impl<'a> Model for LentDays<'a> {
    ghost use Rattle.std.specs.Prelude.{List};
    ghost use Rattle.std.specs.Simd.Lanes.{zip2};
    ghost use Rattle.cq_values.specs.declared.value.Value.{Value as Datum};
    ghost use Rattle.cq_vectors_stored.specs.Columns.{AreDates, day_unless};

    ghost Value = { List Datum };

    ghost view = { λ c. zip2 day_unless c.values.now c.nulls.now };

    ghost invariant = { λ c. AreDates c.values.now c.nulls.now };
}

impl<'a> LentDays<'a> {
    pub fn new(values: &'a [i32], nulls: &'a Plane) -> LentDays<'a>
        requires few { length values.now ≤ 1024 }
        requires same { length nulls.now ≡ length values.now }
        requires zero { ZeroWhere nulls.now values.now }
        requires days { AreDays values.now }
        ensures { result ≡ zip2 day_unless values.now nulls.now }
    {
        LentDays { values, nulls }
    }

    /// The same column, lent again.
    pub fn lend_all(&self) -> LentDays<'a>
        ensures { result ≡ self.now }
    {
        LentDays {
            values: self.values,
            nulls: self.nulls,
        }
    }

    pub fn len(&self) -> usize
        ensures len { result ≡ length self.now }
        ensures few { result ≤ 1024 }
    {
        self.values.len()
    }

    /// The numbers of the days, for kernels: 0 where NULL stands.
    pub fn values(&self) -> &'a [i32]
        ensures values { result.now ≡ map number self.now }
        ensures days { AreDays result.now }
        ensures fit { AllFit w32 result.now }
        ensures few { length result.now ≤ 1024 }
        ensures whole { self.now ≡ zip2 day_unless result.now (map is_null self.now) }
    {
        self.values
    }

    pub fn nulls(&self) -> &'a Plane
        ensures { result.now ≡ map is_null self.now }
    {
        self.nulls
    }

    /// The value of a place, and NULL past the end.
    pub fn lend(&self, place: usize) -> Lent<'_>
        ensures { owned result ≡ slice_index_or self.now place Null }
    {
        let values = self.values;
        if place < values.len() && !self.nulls.get(place) {
            lend_day(values[place])
        } else {
            Lent::Null
        }
    }
}

/// The day of a number.
pub fn lend_day<'a>(number: i32) -> Lent<'a>
    requires { IsDay number }
    ensures { owned result ≡ DayOf number }
{
    match Day::new(number) {
        Some(day) => Lent::Day(day),
        None => unreachable!(),
    }
}
