//! Whether a text fits a pattern.
ghost use Rattle.cq_model.specs.Condition.{liked};
ghost use Rattle.cq_values.specs.Truth.{is_true};
ghost use Rattle.cq_values.specs.declared.value.Value.TheVariants.{Null};
ghost use Rattle.std.specs.Prelude.{length, slice_index_or};

use cq_prims_like::Pattern;
use cq_values::Lent;
use cq_vectors::Vector;
use cq_vectors_masks::{PlaceTest, WordTest, answers};

/// Whether the text of a place fits the pattern.
#[derive(Drop)]
pub(crate) struct FitsTest<'a> {
    pub(crate) a: &'a Vector<'a>,
    pub(crate) pattern: &'a Pattern<'a>,
}

impl<'a> PlaceTest for FitsTest<'a> {
    ghost places = { λ t. length t.a.now };

    ghost holds = { λ t i. is_true (liked (slice_index_or t.a.now i Null) t.pattern.now) };

    fn at(&self, i: usize) -> bool {
        match self.a.lend(i) {
            Lent::Text(text) => self.pattern.fits(text),
            _ => false,
        }
    }
}

impl<'a> WordTest for FitsTest<'a> {
    fn word(&self, from: usize) -> u64 {
        answers(self, from, 64)
    }
}
