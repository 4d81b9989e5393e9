//! Truths of entries that are kept for many vectors, with what is told of them.
ghost use Rattle.cq_prims_texts.specs.Named.{named_unless};
ghost use Rattle.cq_vectors_stored.specs.Offsets.{offsets_in};
ghost use Rattle.std.specs.List.{All};
ghost use Rattle.std.specs.Prelude.{length, ◌<◌, ◌≡◌};
ghost use Rattle.std.specs.Simd.Lanes.{zip2};

use crate::by_codes::{Trues, set_told, trues_of};
use cq_values::Truth;
use cq_vectors_masks::{Plane, TruthMask};
use cq_vectors_stored::Offsets;
use std::marker::Model;

/// The truth of each entry. Which are True is found out once.
#[derive(Drop)]
pub(crate) struct ToldTruths {
    truths: Vec<Truth>,
    trues: Trues,
}

impl Model for ToldTruths {
    ghost use Rattle.std.specs.Prelude.{List};
    ghost use Rattle.cq_values.specs.declared.truth.Truth.{Truth as Known};
    ghost use Rattle.cq_prims_texts.specs.Named.{IsTold};

    ghost Value = { List Known };

    ghost view = { λ t. t.truths.items };

    ghost invariant = { λ t. IsTold t.truths.items t.trues };
}

impl ToldTruths {
    pub(crate) fn of(truths: Vec<Truth>) -> ToldTruths
        ensures { result ≡ truths.items }
    {
        let trues = trues_of(truths.as_slice());
        ToldTruths { truths, trues }
    }

    /// The truth of the entry of each code, and Unknown where NULL stands.
    pub(crate) fn set(&self, codes: Offsets<'_>, nulls: &Plane, to: &mut TruthMask)
        requires known { All (λ code. code < length self.now) (offsets_in codes) }
        requires same { length nulls.now ≡ length (offsets_in codes) }
        ensures { to.new ≡ zip2 (named_unless self.now) (offsets_in codes.entry) nulls.now }
    {
        set_told(self.trues, self.truths.as_slice(), codes, nulls, to)
    }
}
