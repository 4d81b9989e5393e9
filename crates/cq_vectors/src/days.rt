//! Days as their numbers.
//!
//! A column of days is made whole, by `new` or by `gather`, and does not change. Kernels read `values` and `nulls` as
//! they stand; `lend` gives the value of one place. Readers take no memory.
ghost use Rattle.std.specs.Int.{w32};
ghost use Rattle.std.specs.Prelude.{FitsSigned, IfOk, IfSome, length, map, slice_index_or, ◌≡◌, ◌≤◌};
ghost use Rattle.std.specs.Simd.Lanes.{zip2};
ghost use Rattle.cq_values.specs.Lent.{owned};
ghost use Rattle.cq_values.specs.Order.{number};
ghost use Rattle.cq_values.specs.declared.value.Value.TheVariants.{Day as DayOf, Null};
ghost use Rattle.cq_model.specs.Condition.{is_null};
ghost use Rattle.cq_values.specs.Value.{column as column_at};
ghost use Rattle.cq_vectors_stored.specs.Columns.{AllFit, AreDays, ZeroWhere, day_unless};
ghost use Rattle.cq_vectors.specs.Gathered.{IsDate, column_of, lent_rows};

use cq_values::{Day, Lent, Row, Value};
use cq_vectors_masks::Plane;
use cq_vectors_stored::{LentDays, lend_day};
use std::alloc::{AllocError, Global};
use std::marker::Model;

/// At most 1,024 days and NULLs, each day by its number. Where NULL stands the number is 0.
#[derive(Drop)]
pub struct Days {
    values: Vec<i32>,
    nulls: Plane,
}

impl Model for Days {
    ghost use Rattle.std.specs.Prelude.{List};
    ghost use Rattle.std.specs.Simd.Lanes.{zip2};
    ghost use Rattle.cq_values.specs.declared.value.Value.{Value as Datum};
    ghost use Rattle.cq_vectors_stored.specs.Columns.{AreDates, day_unless};

    ghost Value = { List Datum };

    ghost view = { λ c. zip2 day_unless c.values.items c.nulls };

    ghost invariant = { λ c. AreDates c.values.items c.nulls };
}

impl Days {
    /// Takes no memory.
    pub fn new(values: Vec<i32>, nulls: Plane) -> Days
        requires few { length values.items ≤ 1024 }
        requires same { length nulls ≡ length values.items }
        requires zero { ZeroWhere nulls values.items }
        requires days { AreDays values.items }
        ensures { result ≡ zip2 day_unless values.items nulls }
    {
        Days { values, nulls }
    }

    /// The days of a column, or None where a value is no day.
    pub(crate) fn gather(
        alloc: Global,
        rows: &[&Row],
        column: usize,
    ) -> Result<Option<Days>, AllocError>
        requires { length rows.now ≤ 1024 }
        ensures { IfOk result (λ found. IfSome found (λ c. c ≡ column_of (lent_rows rows.now) column)) }
    {
        let mut values = Vec::new(alloc);
        values.reserve(rows.len())?;
        let mut nulls = Plane::new();
        for row in rows {
            match day_at(row, column) {
                Some((number, is_null)) => {
                    values.push(number)?;
                    nulls.push(is_null);
                }
                None => return Ok(None),
            }
        }
        Ok(Some(Days::new(values, nulls)))
    }

    pub fn len(&self) -> usize
        ensures len { result ≡ length self.now }
        ensures few { result ≤ 1024 }
    {
        self.values.len()
    }

    /// The numbers of the days, for kernels: 0 where NULL stands.
    pub fn values(&self) -> &[i32]
        ensures values { result.now ≡ map number self.now }
        ensures days { AreDays result.now }
        ensures fit { AllFit w32 result.now }
        ensures few { length result.now ≤ 1024 }
        ensures whole { self.now ≡ zip2 day_unless result.now (map is_null self.now) }
    {
        self.values.as_slice()
    }

    pub fn nulls(&self) -> &Plane
        ensures { result.now ≡ map is_null self.now }
    {
        &self.nulls
    }

    /// The same column, lent.
    pub fn lend_all(&self) -> LentDays<'_>
        ensures { result ≡ self.now }
    {
        LentDays::new(self.values(), self.nulls())
    }

    /// The value of a place, and NULL past the end.
    pub fn lend(&self, place: usize) -> Lent<'_>
        ensures { owned result ≡ slice_index_or self.now place Null }
    {
        let values = self.values.as_slice();
        if place < values.len() && !self.nulls.get(place) {
            lend_day(values[place])
        } else {
            Lent::Null
        }
    }
}

/// The number of the day, or 0 of NULL, and whether it is NULL.
fn day_at(row: &Row, column: usize) -> Option<(i32, bool)>
    ensures number { IfSome result (λ part. part.0 ≡ number (column_at row.now column)) }
    ensures null { IfSome result (λ part. part.1 ≡ is_null (column_at row.now column)) }
    ensures kind { IfSome result (λ part. IsDate (column_at row.now column)) }
    ensures fits { IfSome result (λ part. FitsSigned w32 part.0) }
{
    match row.as_slice().get(column) {
        Some(Value::Day(day)) => match Day::new(day.number()) {
            Some(day) => Some((day.number(), false)),
            None => None,
        },
        None | Some(Value::Null) => Some((0, true)),
        Some(_) => None,
    }
}
