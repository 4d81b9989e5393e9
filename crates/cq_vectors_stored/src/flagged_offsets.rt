//! Offsets with a flag for each, lent or of one's own.
ghost use Rattle.std.specs.Prelude.{IfOk, ◌≡◌};
ghost use Rattle.cq_vectors_stored.specs.FlaggedOffsets.{flagged_offsets, offset_flags};
ghost use Rattle.cq_vectors_stored.specs.Offsets.{offsets_in, own_offsets_in};

use crate::offsets::Offsets;
use crate::own_offsets::OwnOffsets;
use cq_vectors_masks::Plane;
use std::alloc::{AllocError, Global};

/// Those of a part of a segment, or those that were read at some places of it.
#[derive(Drop)]
pub(crate) enum FlaggedOffsets<'a> {
    Lent(Offsets<'a>, &'a Plane),
    Own(Box<OwnFlagged>),
}

/// They stand apart, so that what is lent is not as large.
#[derive(Drop)]
pub(crate) struct OwnFlagged {
    pub(crate) offsets: OwnOffsets,
    pub(crate) nulls: Plane,
}

impl<'a> FlaggedOffsets<'a> {
    pub(crate) fn own(
        alloc: Global,
        offsets: OwnOffsets,
        nulls: Plane,
    ) -> Result<FlaggedOffsets<'a>, AllocError>
        ensures offsets { IfOk result (λ own. flagged_offsets own ≡ own_offsets_in offsets) }
        ensures flags { IfOk result (λ own. offset_flags own ≡ nulls) }
    {
        let own = Box::new(alloc, OwnFlagged { offsets, nulls })?;
        Ok(FlaggedOffsets::Own(own))
    }

    pub(crate) fn offsets(&self) -> Offsets<'_>
        ensures { offsets_in result ≡ flagged_offsets self.now }
    {
        match self {
            FlaggedOffsets::Lent(offsets, _) => *offsets,
            FlaggedOffsets::Own(own) => own.offsets.lend(),
        }
    }

    pub(crate) fn nulls(&self) -> &Plane
        ensures { result.now ≡ offset_flags self.now }
    {
        match self {
            FlaggedOffsets::Lent(_, nulls) => nulls,
            FlaggedOffsets::Own(own) => &own.nulls,
        }
    }
}
