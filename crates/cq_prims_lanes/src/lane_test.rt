//! Tests of some places at a time.
ghost use Rattle.std.specs.List.{range_with_len};
ghost use Rattle.std.specs.Prelude.{◌*◌, ◌+◌, ◌<◌, ◌^◌, ◌≡◌, ◌≤◌, map, ℕ};
ghost use Rattle.std.specs.Simd.Lanes.{mask_l};

use cq_vectors_masks::PlaceTest;

/// A test of each place, so many at a time: sixteen mostly, and four where they have 64 bits, which is quicker.
pub trait LaneTest: PlaceTest {
    /// How many places are tested at a time.
    ghost lanes: { ℕ };

    fn lanes(&self) -> usize
        ensures { result ≡ lanes };

    /// How often to test so many places for a word of 64.
    fn turns(&self) -> usize
        ensures { lanes * result ≡ 64 };

    /// The answers of so many places, the first in the lowest bit.
    fn some(&self, from: usize) -> u64
        requires there { from + lanes ≤ Self.places self.now }
        requires small { from + lanes < 2 ^ 64 }
        ensures value { result ≡ mask_l (map (Self.holds self.now) (range_with_len from lanes)) }
        ensures small { result < 2 ^ lanes };
}

/// The answers of 64 places, some at a time.
pub fn word_by_lanes<T: LaneTest>(test: &T, from: usize) -> u64
    requires there { from + 64 ≤ T.places test.now }
    requires small { from + 64 < 2 ^ 64 }
    ensures { result ≡ mask_l (map (T.holds test.now) (range_with_len from 64)) }
{
    let lanes = test.lanes();
    let mut word = 0;
    for k in 0..test.turns() {
        word |= at_bit(lanes, test.some(from + lanes * k), lanes * k);
    }
    word
}

/// So many bits from a place on.
fn at_bit(lanes: usize, word: u64, at: usize) -> u64
    requires few { word < 2 ^ lanes }
    requires there { 0 < lanes }
    requires room { at + lanes ≤ 64 }
    ensures { result ≡ word * 2 ^ at }
{
    word << at
}
