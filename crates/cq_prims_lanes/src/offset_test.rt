//! Tests of offsets of any width.
ghost use Rattle.std.specs.Prelude.{Bool, length, nat_eq, nat_le, slice_index_or, ℕ, ◌+◌, ◌≡◌, ◌≤◌};
ghost use Rattle.cq_prims_lanes.specs.UpTo.{at_place, of_sixteen};

use crate::lane_test::{LaneTest, word_by_lanes};
use crate::offset::OffsetLanes;
use cq_vectors_masks::{PlaceTest, WordTest};

/// A test of an offset by a number.
pub(crate) trait NumberTest: Drop {
    ghost number: { Self → ℕ };

    ghost passes: { ℕ → ℕ → Bool };

    fn one(&self, offset: u32) -> bool
        ensures { result ≡ passes offset (number self.now) };

    /// The answers of sixteen offsets, the first in the lowest bit.
    fn sixteen<T: OffsetLanes>(&self, offsets: &[T], from: usize) -> u64
        requires there { from + 16 ≤ length (T.numbers offsets.now) }
        requires fits { number self.now ≤ T.greatest }
        ensures { result ≡ of_sixteen (at_place passes (T.numbers offsets.now) (number self.now)) from };
}

/// Whether an offset is the number.
#[derive(Drop)]
pub(crate) struct Equal {
    pub(crate) number: u32,
}

impl NumberTest for Equal {
    ghost number = { λ t. t.number };

    ghost passes = { nat_eq };

    fn one(&self, offset: u32) -> bool {
        offset == self.number
    }

    fn sixteen<T: OffsetLanes>(&self, offsets: &[T], from: usize) -> u64 {
        T::sixteen_equal(offsets, from, self.number)
    }
}

/// Whether an offset is no greater than the last one.
#[derive(Drop)]
pub(crate) struct UpTo {
    pub(crate) last: u32,
}

impl NumberTest for UpTo {
    ghost number = { λ t. t.last };

    ghost passes = { nat_le };

    fn one(&self, offset: u32) -> bool {
        offset <= self.last
    }

    fn sixteen<T: OffsetLanes>(&self, offsets: &[T], from: usize) -> u64 {
        T::sixteen_up_to(offsets, from, self.last)
    }
}

/// Whether the offset of each place passes a test.
#[derive(Drop)]
pub(crate) struct OffsetTest<'a, T: OffsetLanes, N: NumberTest> {
    pub(crate) offsets: &'a [T],
    pub(crate) test: N,
    ghost fits: { N.number test ≤ T.greatest },
}

impl<'a, T: OffsetLanes, N: NumberTest> PlaceTest for OffsetTest<'a, T, N> {
    ghost places = { λ t. length (T.numbers t.offsets.now) };

    ghost holds = { λ t i. N.passes (slice_index_or (T.numbers t.offsets.now) i 0) (N.number t.test) };

    fn at(&self, i: usize) -> bool {
        self.test.one(T::at(self.offsets, i))
    }
}

impl<'a, T: OffsetLanes, N: NumberTest> LaneTest for OffsetTest<'a, T, N> {
    ghost lanes = { 16 };

    fn lanes(&self) -> usize {
        16
    }

    fn turns(&self) -> usize {
        4
    }

    fn some(&self, from: usize) -> u64 {
        self.test.sixteen(self.offsets, from)
    }
}

impl<'a, T: OffsetLanes, N: NumberTest> WordTest for OffsetTest<'a, T, N> {
    fn word(&self, from: usize) -> u64 {
        word_by_lanes(self, from)
    }
}
