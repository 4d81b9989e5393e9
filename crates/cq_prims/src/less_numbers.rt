//! Whether a number is less than another.
ghost use Rattle.std.specs.Prelude.{◌≡◌, int_lt, length, pos, slice_index_or};

use crate::number_side::NumberSide;
use cq_prims_lanes::{LaneTest, word_by_lanes};
use cq_vectors_masks::{PlaceTest, WordTest};
use std::simd::prelude::*;

/// Whether the left number is less than the right one.
#[derive(Drop)]
pub(crate) struct LessNumbers<'a> {
    pub(crate) a: NumberSide<'a>,
    pub(crate) b: NumberSide<'a>,
    ghost same: { length a ≡ length b },
}

impl<'a> PlaceTest for LessNumbers<'a> {
    ghost places = { λ t. length t.a };

    ghost holds = { λ t i. int_lt (slice_index_or t.a i (pos 0)) (slice_index_or t.b i (pos 0)) };

    fn at(&self, i: usize) -> bool {
        self.a.at(i) < self.b.at(i)
    }
}

impl<'a> LaneTest for LessNumbers<'a> {
    ghost lanes = { 4 };

    fn lanes(&self) -> usize {
        4
    }

    fn turns(&self) -> usize {
        16
    }

    fn some(&self, from: usize) -> u64 {
        self.a.four(from).simd_lt(self.b.four(from)).to_bitmask()
    }
}

impl<'a> WordTest for LessNumbers<'a> {
    fn word(&self, from: usize) -> u64 {
        word_by_lanes(self, from)
    }
}
