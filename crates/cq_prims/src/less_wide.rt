//! Whether a number is less than another, whatever their widths.
ghost use Rattle.std.specs.Prelude.{int_lt};
ghost use Rattle.std.specs.Prelude.{◌≡◌, length, pos, slice_index_or};

use crate::wide_side::WideSide;
use cq_vectors_masks::{PlaceTest, WordTest, answers};

/// Whether the left number is less than the right one.
#[derive(Drop)]
pub(crate) struct LessWide<'a> {
    pub(crate) a: WideSide<'a>,
    pub(crate) b: WideSide<'a>,
    ghost same: { length a ≡ length b },
}

impl<'a> PlaceTest for LessWide<'a> {
    ghost places = { λ t. length t.a };

    ghost holds = { λ t i. int_lt (slice_index_or t.a i (pos 0)) (slice_index_or t.b i (pos 0)) };

    fn at(&self, i: usize) -> bool {
        self.a.at(i) < self.b.at(i)
    }
}

impl<'a> WordTest for LessWide<'a> {
    fn word(&self, from: usize) -> u64 {
        answers(self, from, 64)
    }
}
