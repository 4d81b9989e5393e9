//! Days above a base, lent in 8, 16 or 32 bits each.
//!
//! A column is made of a base, a slice of offsets and a plane of NULLs that a segment keeps, and does not change.
//! Kernels read `parts` and `nulls` as they stand; `lend` gives the value of one place. No call takes memory.
ghost use Rattle.std.specs.Prelude.{length, map, slice_index_or, ◌≡◌, ◌≤◌};
ghost use Rattle.cq_model.specs.Condition.{is_null};
ghost use Rattle.cq_values.specs.Lent.{owned};
ghost use Rattle.cq_values.specs.declared.value.Value.TheVariants.{Null};
ghost use Rattle.cq_vectors_stored.specs.LentColumns.{DaysAbove, NothingWhere, days_above};
ghost use Rattle.cq_vectors_stored.specs.Offsets.{offsets_in};

use crate::lent_days::lend_day;
use crate::offsets::Offsets;
use cq_values::Lent;
use cq_vectors_masks::Plane;
use std::marker::Model;

/// At most 1,024 days and NULLs, each day by its number. Where NULL stands the offset is 0.
#[derive(Drop)]
pub struct NarrowDays<'a> {
    base: i32,
    offsets: Offsets<'a>,
    nulls: &'a Plane,
}

impl<'a> Model for NarrowDays<'a> {
    ghost use Rattle.std.specs.Prelude.{List};
    ghost use Rattle.cq_values.specs.declared.value.Value.{Value as Datum};
    ghost use Rattle.cq_vectors_stored.specs.LentColumns.{AreDaysAbove, days_above};
    ghost use Rattle.cq_vectors_stored.specs.Offsets.{offsets_in};

    ghost Value = { List Datum };

    ghost view = { λ c. days_above c.base (offsets_in c.offsets) c.nulls.now };

    ghost invariant = { λ c. AreDaysAbove c.base (offsets_in c.offsets) c.nulls.now };
}

impl<'a> NarrowDays<'a> {
    pub fn new(base: i32, offsets: Offsets<'a>, nulls: &'a Plane) -> NarrowDays<'a>
        requires few { length (offsets_in offsets) ≤ 1024 }
        requires same { length nulls.now ≡ length (offsets_in offsets) }
        requires clear { NothingWhere 0 nulls.now (offsets_in offsets) }
        requires fit { DaysAbove base (offsets_in offsets) }
        ensures { result ≡ days_above base (offsets_in offsets.entry) nulls.now }
    {
        NarrowDays {
            base,
            offsets,
            nulls,
        }
    }

    pub fn len(&self) -> usize
        ensures len { result ≡ length self.now }
        ensures few { result ≤ 1024 }
    {
        self.offsets.len()
    }

    /// The base and the offsets, for kernels: the base alone where NULL stands.
    pub fn parts(&self) -> (i32, Offsets<'a>)
        ensures whole { self.now ≡ days_above result.0 (offsets_in result.1) (map is_null self.now) }
        ensures long { length (offsets_in result.1) ≡ length self.now }
        ensures clear { NothingWhere 0 (map is_null self.now) (offsets_in result.1) }
        ensures fit { DaysAbove result.0 (offsets_in result.1) }
        ensures few { length self.now ≤ 1024 }
    {
        (self.base, self.offsets)
    }

    pub fn nulls(&self) -> &Plane
        ensures { result.now ≡ map is_null self.now }
    {
        self.nulls
    }

    /// The value of a place, and NULL past the end.
    pub fn lend(&self, place: usize) -> Lent<'_>
        ensures { owned result ≡ slice_index_or self.now place Null }
    {
        if place < self.offsets.len() && !self.nulls.get(place) {
            let number = i64::from(self.base) + i64::from(self.offsets.at(place));
            lend_day(number as i32)
        } else {
            Lent::Null
        }
    }
}
