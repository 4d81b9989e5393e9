//! Whether there is no text in a place.
ghost use Rattle.cq_prims_texts.specs.NoText.{is_no_text};
ghost use Rattle.cq_values.specs.declared.value.Value.TheVariants.{Null};
ghost use Rattle.std.specs.Prelude.{length, slice_index_or};

use cq_values::Lent;
use cq_vectors::Vector;
use cq_vectors_masks::{PlaceTest, WordTest, answers};

/// Whether the value of a place is NULL, or no text.
#[derive(Drop)]
pub(crate) struct NoTextTest<'a> {
    pub(crate) a: &'a Vector<'a>,
}

impl<'a> PlaceTest for NoTextTest<'a> {
    ghost places = { λ t. length t.a.now };

    ghost holds = { λ t i. is_no_text (slice_index_or t.a.now i Null) };

    fn at(&self, i: usize) -> bool {
        !matches!(self.a.lend(i), Lent::Text(_))
    }
}

impl<'a> WordTest for NoTextTest<'a> {
    fn word(&self, from: usize) -> u64 {
        answers(self, from, 64)
    }
}
