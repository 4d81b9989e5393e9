//! Whether a value that is lent is NULL.
ghost use Rattle.cq_model.specs.Condition.{is_null};
ghost use Rattle.cq_values.specs.Lent.{owned};
ghost use Rattle.cq_values.specs.declared.value.Value.TheVariants.{Null};
ghost use Rattle.std.specs.Prelude.{length, map, slice_index_or};

use cq_values::Lent;
use cq_vectors_masks::{PlaceTest, WordTest, answers};

/// Whether the value of a place is NULL.
#[derive(Drop)]
pub(crate) struct NullTest<'a> {
    pub(crate) values: &'a [Lent<'a>],
}

impl<'a> PlaceTest for NullTest<'a> {
    ghost places = { λ t. length t.values.now };

    ghost holds = { λ t i. is_null (slice_index_or (map owned t.values.now) i Null) };

    fn at(&self, i: usize) -> bool {
        let values = self.values;
        values[i].is_null()
    }
}

impl<'a> WordTest for NullTest<'a> {
    fn word(&self, from: usize) -> u64 {
        answers(self, from, 64)
    }
}
