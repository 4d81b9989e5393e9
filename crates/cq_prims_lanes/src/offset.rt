//! Offsets of one width, and tests of sixteen of them in lanes.
ghost use Rattle.std.specs.Prelude.{List, length, nat_eq, nat_le, slice_index_or, ℕ, ◌+◌, ◌<◌, ◌≡◌, ◌≤◌};
ghost use Rattle.cq_prims_lanes.specs.UpTo.{at_place, of_sixteen};

use std::simd::prelude::*;

/// A number of one width. Contracts see a list of them as natural numbers.
pub trait Offset: Copy {
    ghost numbers: { List Self → List ℕ };

    /// The greatest number of the width.
    ghost greatest: { ℕ };

    /// The greatest number of the width. None of the offsets is above it.
    fn greatest_of(offsets: &[Self]) -> u32
        ensures value { result ≡ greatest }
        ensures above { (k : ℕ) → slice_index_or (numbers offsets.now) k 0 ≤ result };

    fn at(offsets: &[Self], place: usize) -> u32
        requires { place < length (numbers offsets.now) }
        ensures { result ≡ slice_index_or (numbers offsets.now) place 0 };
}

/// An offset of which sixteen are tested in lanes.
pub(crate) trait OffsetLanes: Offset {
    /// Which of sixteen offsets are the number, the first in the lowest bit.
    fn sixteen_equal(offsets: &[Self], from: usize, number: u32) -> u64
        requires there { from + 16 ≤ length (Self.numbers offsets.now) }
        requires fits { number ≤ Self.greatest }
        ensures { result ≡ of_sixteen (at_place nat_eq (Self.numbers offsets.now) number) from };

    /// Which of sixteen offsets are no greater than the number, the first in the lowest bit.
    fn sixteen_up_to(offsets: &[Self], from: usize, number: u32) -> u64
        requires there { from + 16 ≤ length (Self.numbers offsets.now) }
        requires fits { number ≤ Self.greatest }
        ensures { result ≡ of_sixteen (at_place nat_le (Self.numbers offsets.now) number) from };
}

impl Offset for u8 {
    ghost numbers = { λ offsets. offsets };

    ghost greatest = { 255 };

    fn greatest_of(_offsets: &[u8]) -> u32 {
        255
    }

    fn at(offsets: &[u8], place: usize) -> u32 {
        u32::from(offsets[place])
    }
}

impl OffsetLanes for u8 {
    fn sixteen_equal(offsets: &[u8], from: usize, number: u32) -> u64 {
        let lanes = u8x16::from_slice(&offsets[from..]);
        lanes.simd_eq(u8x16::splat(number as u8)).to_bitmask()
    }

    fn sixteen_up_to(offsets: &[u8], from: usize, number: u32) -> u64 {
        let lanes = u8x16::from_slice(&offsets[from..]);
        lanes.simd_le(u8x16::splat(number as u8)).to_bitmask()
    }
}

impl Offset for u16 {
    ghost numbers = { λ offsets. offsets };

    ghost greatest = { 65_535 };

    fn greatest_of(_offsets: &[u16]) -> u32 {
        65_535
    }

    fn at(offsets: &[u16], place: usize) -> u32 {
        u32::from(offsets[place])
    }
}

impl OffsetLanes for u16 {
    fn sixteen_equal(offsets: &[u16], from: usize, number: u32) -> u64 {
        let lanes = u16x16::from_slice(&offsets[from..]);
        lanes.simd_eq(u16x16::splat(number as u16)).to_bitmask()
    }

    fn sixteen_up_to(offsets: &[u16], from: usize, number: u32) -> u64 {
        let lanes = u16x16::from_slice(&offsets[from..]);
        lanes.simd_le(u16x16::splat(number as u16)).to_bitmask()
    }
}

impl Offset for u32 {
    ghost numbers = { λ offsets. offsets };

    ghost greatest = { 4_294_967_295 };

    fn greatest_of(_offsets: &[u32]) -> u32 {
        u32::MAX
    }

    fn at(offsets: &[u32], place: usize) -> u32 {
        offsets[place]
    }
}

impl OffsetLanes for u32 {
    fn sixteen_equal(offsets: &[u32], from: usize, number: u32) -> u64 {
        let lanes = u32x16::from_slice(&offsets[from..]);
        lanes.simd_eq(u32x16::splat(number)).to_bitmask()
    }

    fn sixteen_up_to(offsets: &[u32], from: usize, number: u32) -> u64 {
        let lanes = u32x16::from_slice(&offsets[from..]);
        lanes.simd_le(u32x16::splat(number)).to_bitmask()
    }
}
