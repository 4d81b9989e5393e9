//! Whether the entries that codes name fit a pattern, each asked where it stands.
ghost use Rattle.cq_prims_texts.specs.TextSide.{coded_bytes};
ghost use Rattle.cq_prims_texts.specs.Fits.{fits_at};
ghost use Rattle.cq_vectors_stored.specs.Offsets.{offsets_in};
ghost use Rattle.std.specs.Prelude.{length};

use crate::plain_texts::{CodedTexts, PlainTexts};
use cq_prims_like::Pattern;
use cq_vectors_masks::{PlaceTest, WordTest, answers};

/// Whether the text of a place fits the pattern.
#[derive(Drop)]
pub(crate) struct CodedFits<'a> {
    pub(crate) texts: CodedTexts<'a>,
    pub(crate) pattern: &'a Pattern<'a>,
}

impl<'a> PlaceTest for CodedFits<'a> {
    ghost places = { λ t. length (offsets_in t.texts.codes) };

    ghost holds = { λ t. fits_at t.pattern.now (coded_bytes t.texts) };

    fn at(&self, i: usize) -> bool {
        self.pattern.fits(self.texts.at(i))
    }
}

impl<'a> WordTest for CodedFits<'a> {
    fn word(&self, from: usize) -> u64 {
        answers(self, from, 64)
    }
}
