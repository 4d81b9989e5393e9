//! What is known of the entries that numbers name.
ghost use Rattle.cq_prims_texts.specs.Named.{is_unknown, truth_named};
ghost use Rattle.cq_values.specs.Truth.{is_true};
ghost use Rattle.std.specs.List.{All};
ghost use Rattle.std.specs.Prelude.{◌<◌, length, slice_index_or};

use crate::named::Naming;
use cq_values::Truth;
use cq_vectors_masks::{PlaceTest, WordTest, answers};

/// Whether a place names an entry that is True.
#[derive(Drop)]
pub(crate) struct NamesTrue<'a, N: Naming> {
    pub(crate) entries: &'a [Truth],
    pub(crate) numbers: &'a [N],
    ghost known: { All (λ n. n < length entries.now) (N.numbers numbers.now) },
}

impl<'a, N: Naming> PlaceTest for NamesTrue<'a, N> {
    ghost places = { λ t. length (N.numbers t.numbers.now) };

    ghost holds = { λ t i. is_true (truth_named t.entries.now (slice_index_or (N.numbers t.numbers.now) i 0)) };

    fn at(&self, i: usize) -> bool {
        let entries = self.entries;
        entries[N::at(self.numbers, i)].is_true()
    }
}

impl<'a, N: Naming> WordTest for NamesTrue<'a, N> {
    fn word(&self, from: usize) -> u64 {
        answers(self, from, 64)
    }
}

/// Whether a place names an entry that is Unknown.
#[derive(Drop)]
pub(crate) struct NamesUnknown<'a, N: Naming> {
    pub(crate) entries: &'a [Truth],
    pub(crate) numbers: &'a [N],
    ghost known: { All (λ n. n < length entries.now) (N.numbers numbers.now) },
}

impl<'a, N: Naming> PlaceTest for NamesUnknown<'a, N> {
    ghost places = { λ t. length (N.numbers t.numbers.now) };

    ghost holds = { λ t i. is_unknown (truth_named t.entries.now (slice_index_or (N.numbers t.numbers.now) i 0)) };

    fn at(&self, i: usize) -> bool {
        let entries = self.entries;
        matches!(entries[N::at(self.numbers, i)], Truth::Unknown)
    }
}

impl<'a, N: Naming> WordTest for NamesUnknown<'a, N> {
    fn word(&self, from: usize) -> u64 {
        answers(self, from, 64)
    }
}
