//! Whether a day is before another.
ghost use Rattle.std.specs.Prelude.{◌≡◌, int_lt, length, pos, slice_index_or};

use crate::day_side::DaySide;
use cq_prims_lanes::{LaneTest, word_by_lanes};
use cq_vectors_masks::{PlaceTest, WordTest};
use std::simd::prelude::*;

/// Whether the left day is before the right one.
#[derive(Drop)]
pub(crate) struct LessDays<'a> {
    pub(crate) a: DaySide<'a>,
    pub(crate) b: DaySide<'a>,
    ghost same: { length a ≡ length b },
}

impl<'a> PlaceTest for LessDays<'a> {
    ghost places = { λ t. length t.a };

    ghost holds = { λ t i. int_lt (slice_index_or t.a i (pos 0)) (slice_index_or t.b i (pos 0)) };

    fn at(&self, i: usize) -> bool {
        self.a.at(i) < self.b.at(i)
    }
}

impl<'a> LaneTest for LessDays<'a> {
    ghost lanes = { 16 };

    fn lanes(&self) -> usize {
        16
    }

    fn turns(&self) -> usize {
        4
    }

    fn some(&self, from: usize) -> u64 {
        self.a.lanes(from).simd_lt(self.b.lanes(from)).to_bitmask()
    }
}

impl<'a> WordTest for LessDays<'a> {
    fn word(&self, from: usize) -> u64 {
        word_by_lanes(self, from)
    }
}
