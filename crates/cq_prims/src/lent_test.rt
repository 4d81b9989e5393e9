//! Comparisons of values place by place, whatever their kinds.
ghost use Rattle.cq_values.specs.Comparison.{compared};
ghost use Rattle.cq_values.specs.Truth.{is_true};
ghost use Rattle.cq_values.specs.Value.{column};
ghost use Rattle.std.specs.Prelude.{◌≡◌, length};

use cq_model_eval::compare;
use cq_values::Comparison;
use cq_vectors::Vector;
use cq_vectors_masks::{PlaceTest, WordTest, answers};

/// Whether the comparison of the two values of a place is True.
#[derive(Drop)]
pub(crate) struct LentTest<'a> {
    pub(crate) comparison: Comparison,
    pub(crate) a: &'a Vector<'a>,
    pub(crate) b: &'a Vector<'a>,
}

impl<'a> PlaceTest for LentTest<'a> {
    ghost places = { λ t. length t.a.now };

    ghost holds = { λ t i. is_true (compared t.comparison (column t.a.now i) (column t.b.now i)) };

    fn at(&self, i: usize) -> bool {
        compare(self.comparison, &self.a.lend(i), &self.b.lend(i)).is_true()
    }
}

impl<'a> WordTest for LentTest<'a> {
    fn word(&self, from: usize) -> u64 {
        answers(self, from, 64)
    }
}
