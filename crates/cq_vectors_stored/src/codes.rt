//! Texts by the codes of their entries.
//!
//! A column is made of a run of entries, a slice of codes and a plane of NULLs that a segment keeps, or of codes and a
//! plane of its own, which were read at some places of these; it does not change. Kernels read `parts` and `nulls` as
//! they stand; `lend` gives the value of one place. `own` alone takes memory.
ghost use Rattle.std.specs.Prelude.{IfOk, length, map, slice_index_or, ◌≡◌, ◌≤◌};
ghost use Rattle.cq_model.specs.Condition.{is_null};
ghost use Rattle.cq_values.specs.Lent.{owned};
ghost use Rattle.cq_values.specs.declared.value.Value.TheVariants.{Null};
ghost use Rattle.cq_vectors_stored.specs.LentColumns.{AreCodes, AreEntries, IsAt, NothingWhere, entries_at};
ghost use Rattle.cq_vectors_stored.specs.Offsets.{offsets_in, own_offsets_in};

use crate::flagged_offsets::FlaggedOffsets;
use crate::offsets::Offsets;
use crate::own_offsets::OwnOffsets;
use crate::text_run::TextRun;
use cq_values::Lent;
use cq_vectors_masks::Plane;
use std::alloc::{AllocError, Global};
use std::marker::Model;

/// At most 1,024 texts and NULLs, each text by its place among the entries. Where NULL stands the code is 0.
#[derive(Drop)]
pub struct Codes<'a> {
    entries: &'a TextRun,
    codes: FlaggedOffsets<'a>,
}

impl<'a> Model for Codes<'a> {
    ghost use Rattle.std.specs.Prelude.{List};
    ghost use Rattle.cq_values.specs.declared.value.Value.{Value as Datum};
    ghost use Rattle.cq_vectors_stored.specs.LentColumns.{AreEntries, entries_at};
    ghost use Rattle.cq_vectors_stored.specs.FlaggedOffsets.{flagged_offsets, offset_flags};

    ghost Value = { List Datum };

    ghost view = { λ c. entries_at c.entries.now (flagged_offsets c.codes) (offset_flags c.codes) };

    ghost invariant = { λ c. AreEntries c.entries.now (flagged_offsets c.codes) (offset_flags c.codes) };
}

impl<'a> Codes<'a> {
    pub fn new(entries: &'a TextRun, codes: Offsets<'a>, nulls: &'a Plane) -> Codes<'a>
        requires few { length (offsets_in codes) ≤ 1024 }
        requires same { length nulls.now ≡ length (offsets_in codes) }
        requires clear { NothingWhere 0 nulls.now (offsets_in codes) }
        requires known { AreCodes entries.now (offsets_in codes) }
        ensures { result ≡ entries_at entries.now (offsets_in codes.entry) nulls.now }
    {
        Codes {
            entries,
            codes: FlaggedOffsets::Lent(codes, nulls),
        }
    }

    /// The same of codes and a plane of its own.
    pub fn own(
        alloc: Global,
        entries: &'a TextRun,
        codes: OwnOffsets,
        nulls: Plane,
    ) -> Result<Codes<'a>, AllocError>
        requires few { length (own_offsets_in codes) ≤ 1024 }
        requires same { length nulls ≡ length (own_offsets_in codes) }
        requires clear { NothingWhere 0 nulls (own_offsets_in codes) }
        requires known { AreCodes entries.now (own_offsets_in codes) }
        ensures { IfOk result (λ own. own ≡ entries_at entries.now (own_offsets_in codes) nulls) }
    {
        let codes = FlaggedOffsets::own(alloc, codes, nulls)?;
        Ok(Codes { entries, codes })
    }

    pub fn len(&self) -> usize
        ensures len { result ≡ length self.now }
        ensures few { result ≤ 1024 }
    {
        self.codes.offsets().len()
    }

    /// The entries and the codes, for kernels: the first entry where NULL stands.
    pub fn parts(&self) -> (&'a TextRun, Offsets<'_>)
        ensures whole { self.now ≡ entries_at result.0.now (offsets_in result.1) (map is_null self.now) }
        ensures long { length (offsets_in result.1) ≡ length self.now }
        ensures clear { NothingWhere 0 (map is_null self.now) (offsets_in result.1) }
        ensures known { AreCodes result.0.now (offsets_in result.1) }
        ensures few { length self.now ≤ 1024 }
    {
        (self.entries, self.codes.offsets())
    }

    pub fn nulls(&self) -> &Plane
        ensures { result.now ≡ map is_null self.now }
    {
        self.codes.nulls()
    }

    /// The value of a place, and NULL past the end.
    pub fn lend(&self, place: usize) -> Lent<'_>
        ensures { owned result ≡ slice_index_or self.now place Null }
    {
        match &self.codes {
            FlaggedOffsets::Lent(codes, nulls) => lend_entry(self.entries, *codes, nulls, place),
            FlaggedOffsets::Own(own) => {
                lend_entry(self.entries, own.offsets.lend(), &own.nulls, place)
            }
        }
    }
}

/// The entry that the code of a place names, and NULL past the end.
#[inline(always)]
fn lend_entry<'b>(entries: &'b TextRun, codes: Offsets<'_>, nulls: &Plane, place: usize) -> Lent<'b>
    requires { AreEntries entries.now (offsets_in codes) nulls.now }
    ensures { IsAt (entries_at entries.now (offsets_in codes.entry) nulls.now) place (owned result) }
{
    if place < codes.len() && !nulls.get(place) {
        Lent::Text(entries.get(codes.at(place) as usize))
    } else {
        Lent::Null
    }
}
