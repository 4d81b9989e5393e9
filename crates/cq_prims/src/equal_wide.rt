//! Whether a number equals another, whatever their widths.
ghost use Rattle.std.specs.Ordering.{int_eq};
ghost use Rattle.std.specs.Prelude.{◌≡◌, length, pos, slice_index_or};

use crate::wide_side::WideSide;
use cq_vectors_masks::{PlaceTest, WordTest, answers};

/// Whether the left number equals the right one.
#[derive(Drop)]
pub(crate) struct EqualWide<'a> {
    pub(crate) a: WideSide<'a>,
    pub(crate) b: WideSide<'a>,
    ghost same: { length a ≡ length b },
}

impl<'a> PlaceTest for EqualWide<'a> {
    ghost places = { λ t. length t.a };

    ghost holds = { λ t i. int_eq (slice_index_or t.a i (pos 0)) (slice_index_or t.b i (pos 0)) };

    fn at(&self, i: usize) -> bool {
        self.a.at(i) == self.b.at(i)
    }
}

impl<'a> WordTest for EqualWide<'a> {
    fn word(&self, from: usize) -> u64 {
        answers(self, from, 64)
    }
}
