//! Offsets at some places of those that are lent.
ghost use Rattle.std.specs.Prelude.{IfOk, length, ◌≡◌};
ghost use Rattle.cq_encodings_vectors.specs.Places.{AreBelow, items_at};
ghost use Rattle.cq_vectors_stored.specs.Offsets.{offsets_in, own_offsets_in};

use crate::places::copies_at;
use cq_vectors_stored::{Offsets, OwnOffsets};
use std::alloc::{AllocError, Global};

/// Copies of them, in the width that they have.
pub(crate) fn offsets_at(
    alloc: Global,
    offsets: Offsets<'_>,
    places: &[u16],
) -> Result<OwnOffsets, AllocError>
    requires { AreBelow (length (offsets_in offsets)) places.now }
    ensures { IfOk result (λ o. own_offsets_in o ≡ items_at (offsets_in offsets.entry) places.now 0) }
{
    match offsets {
        Offsets::One(bytes) => Ok(OwnOffsets::One(copies_at(alloc, bytes, places)?)),
        Offsets::Two(pairs) => Ok(OwnOffsets::Two(copies_at(alloc, pairs, places)?)),
        Offsets::Four(fours) => Ok(OwnOffsets::Four(copies_at(alloc, fours, places)?)),
    }
}
