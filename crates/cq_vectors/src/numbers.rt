//! Numbers of 64 bits.
//!
//! A column of numbers is made whole, by `new` or by `gather`, and does not change. Kernels read `values` and `nulls`
//! as they stand, or `whole` where no place may be NULL; `lend` gives the value of one place. `sized` tells the column how
//! far its numbers are from zero, which whoever worked them out may know. Readers take no memory, and `whole` looks at
//! 16 words.
ghost use Rattle.std.specs.Int.{w64};
ghost use Rattle.std.specs.Prelude.{IfOk, IfSome, length, map, slice_index_or, ◌≡◌, ◌≤◌};
ghost use Rattle.std.specs.Simd.Lanes.{zip2};
ghost use Rattle.cq_values.specs.Lent.{owned};
ghost use Rattle.cq_values.specs.Order.{number};
ghost use Rattle.cq_values.specs.declared.value.Value.TheVariants.{Null, Number};
ghost use Rattle.cq_model.specs.Condition.{is_null};
ghost use Rattle.cq_values.specs.Value.{column as column_at};
ghost use Rattle.cq_vectors_stored.specs.Columns.{AllFit, ZeroWhere, number_unless};
ghost use Rattle.cq_vectors_stored.specs.Sizes.{AreUpTo};
ghost use Rattle.cq_vectors.specs.Gathered.{IsNumber, column_of, lent_rows};

use cq_values::{Lent, Row, Value};
use cq_vectors_masks::Plane;
use cq_vectors_stored::LentNumbers;
use std::alloc::{AllocError, Global};
use std::marker::Model;

/// At most 1,024 numbers and NULLs. Where NULL stands the number is 0.
#[derive(Drop)]
pub struct Numbers {
    values: Vec<i64>,
    nulls: Plane,
    /// No number is farther from zero.
    size: u64,
}

impl Model for Numbers {
    ghost use Rattle.std.specs.Prelude.{List};
    ghost use Rattle.std.specs.Simd.Lanes.{zip2};
    ghost use Rattle.cq_values.specs.declared.value.Value.{Value as Datum};
    ghost use Rattle.cq_vectors_stored.specs.Columns.{number_unless};
    ghost use Rattle.cq_vectors_stored.specs.Sizes.{AreSized};

    ghost Value = { List Datum };

    ghost view = { λ c. zip2 number_unless c.values.items c.nulls };

    ghost invariant = { λ c. AreSized c.size c.values.items c.nulls };
}

impl Numbers {
    /// Of the size, no more is known than that each number has 64 bits. Takes no memory.
    pub fn new(values: Vec<i64>, nulls: Plane) -> Numbers
        requires few { length values.items ≤ 1024 }
        requires same { length nulls ≡ length values.items }
        requires zero { ZeroWhere nulls values.items }
        requires fit { AllFit w64 values.items }
        ensures { result ≡ zip2 number_unless values.items nulls }
    {
        Numbers {
            values,
            nulls,
            size: 1 << 63,
        }
    }

    /// The same column, of which it is known that no number is farther from zero than the size.
    pub fn sized(self, size: u64) -> Numbers
        requires { AreUpTo size (map number self) }
        ensures { result ≡ self }
    {
        Numbers {
            values: self.values,
            nulls: self.nulls,
            size,
        }
    }

    /// The numbers of a column, or None where a value is no number of 64 bits.
    pub(crate) fn gather(
        alloc: Global,
        rows: &[&Row],
        column: usize,
    ) -> Result<Option<Numbers>, AllocError>
        requires { length rows.now ≤ 1024 }
        ensures { IfOk result (λ found. IfSome found (λ c. c ≡ column_of (lent_rows rows.now) column)) }
    {
        let mut values = Vec::new(alloc);
        values.reserve(rows.len())?;
        let mut nulls = Plane::new();
        for row in rows {
            match number_at(row, column) {
                Some((number, is_null)) => {
                    values.push(number)?;
                    nulls.push(is_null);
                }
                None => return Ok(None),
            }
        }
        Ok(Some(Numbers::new(values, nulls)))
    }

    pub fn len(&self) -> usize
        ensures len { result ≡ length self.now }
        ensures few { result ≤ 1024 }
    {
        self.values.len()
    }

    /// The numbers, for kernels: 0 where NULL stands.
    pub fn values(&self) -> &[i64]
        ensures values { result.now ≡ map number self.now }
        ensures fit { AllFit w64 result.now }
        ensures few { length result.now ≤ 1024 }
        ensures whole { self.now ≡ zip2 number_unless result.now (map is_null self.now) }
    {
        self.values.as_slice()
    }

    /// The list in which the numbers stood, for its memory.
    pub(crate) fn into_values(self) -> Vec<i64> {
        self.values
    }

    /// A size of all the numbers, for kernels to choose their width by: none is farther from zero.
    pub fn size(&self) -> u64
        ensures { AreUpTo result (map number self.now) }
    {
        self.size
    }

    pub fn nulls(&self) -> &Plane
        ensures { result.now ≡ map is_null self.now }
    {
        &self.nulls
    }

    /// The same column, lent.
    pub fn lend_all(&self) -> LentNumbers<'_>
        ensures { result ≡ self.now }
    {
        LentNumbers::new(self.values(), self.nulls()).sized(self.size())
    }

    /// The numbers, if no place is NULL.
    pub fn whole(&self) -> Option<&[i64]>
        ensures { IfSome result (λ values. self.now ≡ map Number values.now) }
    {
        if self.nulls().is_clear() {
            Some(self.values())
        } else {
            None
        }
    }

    /// The value of a place, and NULL past the end.
    pub fn lend(&self, place: usize) -> Lent<'_>
        ensures { owned result ≡ slice_index_or self.now place Null }
    {
        let values = self.values.as_slice();
        if place < values.len() && !self.nulls.get(place) {
            Lent::Number(i128::from(values[place]))
        } else {
            Lent::Null
        }
    }
}

/// The number, or 0 of NULL, and whether it is NULL.
fn number_at(row: &Row, column: usize) -> Option<(i64, bool)>
    ensures number { IfSome result (λ part. part.0 ≡ number (column_at row.now column)) }
    ensures null { IfSome result (λ part. part.1 ≡ is_null (column_at row.now column)) }
    ensures kind { IfSome result (λ part. IsNumber w64 (column_at row.now column)) }
{
    match row.as_slice().get(column) {
        Some(Value::Number(n)) => match i64::try_from(*n) {
            Ok(n) => Some((n, false)),
            Err(_) => None,
        },
        None | Some(Value::Null) => Some((0, true)),
        Some(_) => None,
    }
}
