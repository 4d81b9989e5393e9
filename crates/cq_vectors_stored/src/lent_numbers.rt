//! Numbers of 64 bits that are lent.
//!
//! A column is made of a slice of numbers and a plane of NULLs that a segment keeps, and does not change. Kernels read
//! `values` and `nulls` as they stand, or `whole` where no place may be NULL; `lend` gives the value of one place. `sized`
//! tells the column how far its numbers are from zero, and `size` tells kernels, so that none has to look at all of them.
//! No call takes memory.
ghost use Rattle.std.specs.Int.{w64};
ghost use Rattle.std.specs.Prelude.{IfSome, length, map, slice_index_or, ◌≡◌, ◌≤◌};
ghost use Rattle.std.specs.Simd.Lanes.{zip2};
ghost use Rattle.cq_model.specs.Condition.{is_null};
ghost use Rattle.cq_values.specs.Lent.{owned};
ghost use Rattle.cq_values.specs.Order.{number};
ghost use Rattle.cq_values.specs.declared.value.Value.TheVariants.{Null, Number};
ghost use Rattle.cq_vectors_stored.specs.Columns.{AllFit, ZeroWhere, number_unless};
ghost use Rattle.cq_vectors_stored.specs.Sizes.{AreUpTo};

use cq_values::Lent;
use cq_vectors_masks::Plane;
use std::marker::Model;

/// At most 1,024 numbers and NULLs. Where NULL stands the number is 0.
#[derive(Drop)]
pub struct LentNumbers<'a> {
    values: &'a [i64],
    nulls: &'a Plane,
    /// No number is farther from zero.
    size: u64,
}

impl<'a> Model for LentNumbers<'a> {
    ghost use Rattle.std.specs.Prelude.{List};
    ghost use Rattle.std.specs.Simd.Lanes.{zip2};
    ghost use Rattle.cq_values.specs.declared.value.Value.{Value as Datum};
    ghost use Rattle.cq_vectors_stored.specs.Columns.{number_unless};
    ghost use Rattle.cq_vectors_stored.specs.Sizes.{AreSized};

    ghost Value = { List Datum };

    ghost view = { λ c. zip2 number_unless c.values.now c.nulls.now };

    ghost invariant = { λ c. AreSized c.size c.values.now c.nulls.now };
}

impl<'a> LentNumbers<'a> {
    /// Of the size, no more is known than that each number has 64 bits.
    pub fn new(values: &'a [i64], nulls: &'a Plane) -> LentNumbers<'a>
        requires few { length values.now ≤ 1024 }
        requires same { length nulls.now ≡ length values.now }
        requires zero { ZeroWhere nulls.now values.now }
        requires fit { AllFit w64 values.now }
        ensures { result ≡ zip2 number_unless values.now nulls.now }
    {
        LentNumbers {
            values,
            nulls,
            size: 1 << 63,
        }
    }

    /// The same column, of which it is known that no number is farther from zero than the size.
    pub fn sized(self, size: u64) -> LentNumbers<'a>
        requires { AreUpTo size (map number self) }
        ensures { result ≡ self.entry }
    {
        LentNumbers {
            values: self.values,
            nulls: self.nulls,
            size,
        }
    }

    /// The same column, lent again.
    pub fn lend_all(&self) -> LentNumbers<'a>
        ensures { result ≡ self.now }
    {
        LentNumbers {
            values: self.values,
            nulls: self.nulls,
            size: self.size,
        }
    }

    pub fn len(&self) -> usize
        ensures len { result ≡ length self.now }
        ensures few { result ≤ 1024 }
    {
        self.values.len()
    }

    /// The numbers, for kernels: 0 where NULL stands.
    pub fn values(&self) -> &'a [i64]
        ensures values { result.now ≡ map number self.now }
        ensures fit { AllFit w64 result.now }
        ensures few { length result.now ≤ 1024 }
        ensures whole { self.now ≡ zip2 number_unless result.now (map is_null self.now) }
    {
        self.values
    }

    /// A size of all the numbers, for kernels to choose their width by: none is farther from zero.
    pub fn size(&self) -> u64
        ensures { AreUpTo result (map number self.now) }
    {
        self.size
    }

    pub fn nulls(&self) -> &'a Plane
        ensures { result.now ≡ map is_null self.now }
    {
        self.nulls
    }

    /// The numbers, if no place is NULL.
    pub fn whole(&self) -> Option<&'a [i64]>
        ensures { IfSome result (λ values. self.now ≡ map Number values.now) }
    {
        if self.nulls().is_clear() {
            Some(self.values())
        } else {
            None
        }
    }

    /// The value of a place, and NULL past the end.
    pub fn lend(&self, place: usize) -> Lent<'_>
        ensures { owned result ≡ slice_index_or self.now place Null }
    {
        let values = self.values;
        if place < values.len() && !self.nulls.get(place) {
            Lent::Number(i128::from(values[place]))
        } else {
            Lent::Null
        }
    }
}
