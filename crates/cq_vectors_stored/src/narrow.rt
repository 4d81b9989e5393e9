//! Numbers above a base, in 8, 16 or 32 bits each.
//!
//! A column is made of a base, a slice of offsets and a plane of NULLs that a segment keeps, or of offsets and a plane of
//! its own, which were read at some places of these; it does not change. Kernels read `parts` and `nulls` as they stand;
//! `lend` gives the value of one place. `own` alone takes memory.
ghost use Rattle.std.specs.Prelude.{IfOk, length, map, slice_index_or, ◌≡◌, ◌≤◌};
ghost use Rattle.cq_model.specs.Condition.{is_null};
ghost use Rattle.cq_values.specs.Lent.{owned};
ghost use Rattle.cq_values.specs.declared.value.Value.TheVariants.{Null};
ghost use Rattle.cq_vectors_stored.specs.LentColumns.{AreAbove, FitAbove, IsAt, NothingWhere, numbers_above};
ghost use Rattle.cq_vectors_stored.specs.Offsets.{offsets_in, own_offsets_in};

use crate::flagged_offsets::FlaggedOffsets;
use crate::offsets::Offsets;
use crate::own_offsets::OwnOffsets;
use cq_values::Lent;
use cq_vectors_masks::Plane;
use std::alloc::{AllocError, Global};
use std::marker::Model;

/// At most 1,024 numbers and NULLs. Where NULL stands the offset is 0.
#[derive(Drop)]
pub struct Narrow<'a> {
    base: i64,
    offsets: FlaggedOffsets<'a>,
}

impl<'a> Model for Narrow<'a> {
    ghost use Rattle.std.specs.Prelude.{List};
    ghost use Rattle.cq_values.specs.declared.value.Value.{Value as Datum};
    ghost use Rattle.cq_vectors_stored.specs.LentColumns.{AreAbove, numbers_above};
    ghost use Rattle.cq_vectors_stored.specs.FlaggedOffsets.{flagged_offsets, offset_flags};

    ghost Value = { List Datum };

    ghost view = { λ c. numbers_above c.base (flagged_offsets c.offsets) (offset_flags c.offsets) };

    ghost invariant = { λ c. AreAbove c.base (flagged_offsets c.offsets) (offset_flags c.offsets) };
}

impl<'a> Narrow<'a> {
    pub fn new(base: i64, offsets: Offsets<'a>, nulls: &'a Plane) -> Narrow<'a>
        requires few { length (offsets_in offsets) ≤ 1024 }
        requires same { length nulls.now ≡ length (offsets_in offsets) }
        requires clear { NothingWhere 0 nulls.now (offsets_in offsets) }
        requires fit { FitAbove base (offsets_in offsets) }
        ensures { result ≡ numbers_above base (offsets_in offsets.entry) nulls.now }
    {
        Narrow {
            base,
            offsets: FlaggedOffsets::Lent(offsets, nulls),
        }
    }

    /// The same of offsets and a plane of its own.
    pub fn own(
        alloc: Global,
        base: i64,
        offsets: OwnOffsets,
        nulls: Plane,
    ) -> Result<Narrow<'a>, AllocError>
        requires few { length (own_offsets_in offsets) ≤ 1024 }
        requires same { length nulls ≡ length (own_offsets_in offsets) }
        requires clear { NothingWhere 0 nulls (own_offsets_in offsets) }
        requires fit { FitAbove base (own_offsets_in offsets) }
        ensures { IfOk result (λ own. own ≡ numbers_above base (own_offsets_in offsets) nulls) }
    {
        let offsets = FlaggedOffsets::own(alloc, offsets, nulls)?;
        Ok(Narrow { base, offsets })
    }

    pub fn len(&self) -> usize
        ensures len { result ≡ length self.now }
        ensures few { result ≤ 1024 }
    {
        self.offsets.offsets().len()
    }

    /// The base and the offsets, for kernels: the base alone where NULL stands.
    pub fn parts(&self) -> (i64, Offsets<'_>)
        ensures whole { self.now ≡ numbers_above result.0 (offsets_in result.1) (map is_null self.now) }
        ensures long { length (offsets_in result.1) ≡ length self.now }
        ensures clear { NothingWhere 0 (map is_null self.now) (offsets_in result.1) }
        ensures fit { FitAbove result.0 (offsets_in result.1) }
        ensures few { length self.now ≤ 1024 }
    {
        (self.base, self.offsets.offsets())
    }

    pub fn nulls(&self) -> &Plane
        ensures { result.now ≡ map is_null self.now }
    {
        self.offsets.nulls()
    }

    /// The value of a place, and NULL past the end.
    pub fn lend(&self, place: usize) -> Lent<'_>
        ensures { owned result ≡ slice_index_or self.now place Null }
    {
        match &self.offsets {
            FlaggedOffsets::Lent(offsets, nulls) => lend_above(self.base, *offsets, nulls, place),
            FlaggedOffsets::Own(own) => {
                lend_above(self.base, own.offsets.lend(), &own.nulls, place)
            }
        }
    }
}

/// The number at the offset of a place, and NULL past the end.
#[inline(always)]
fn lend_above<'b>(base: i64, offsets: Offsets<'_>, nulls: &Plane, place: usize) -> Lent<'b>
    requires { AreAbove base (offsets_in offsets) nulls.now }
    ensures { IsAt (numbers_above base (offsets_in offsets.entry) nulls.now) place (owned result) }
{
    if place < offsets.len() && !nulls.get(place) {
        let number = base + i64::from(offsets.at(place));
        Lent::Number(i128::from(number))
    } else {
        Lent::Null
    }
}
