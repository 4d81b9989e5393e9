//! A list of numbers of a few bits each.
//!
//! It is made whole, by `of`, and does not change. `at` reads one number in the time of two words; `read` unpacks many,
//! a quarter to one and a half nanoseconds each, and fastest at widths 8, 16, 32 and 64. Readers take no memory.
ghost use Rattle.std.specs.Prelude.{IfOk, drop, length, slice_index, take, ◌+◌, ◌<◌, ◌≡◌, ◌≤◌};
ghost use Rattle.cq_bits.specs.Packed.{IsWidthOf};

use crate::packing::{pack, width_of};
use crate::unpacking::{unpack_at, unpack_into};
use std::alloc::{AllocError, Global};
use std::marker::Model;

/// Numbers side by side, each in as many bits as the widest of them takes.
#[derive(Drop)]
pub struct Bits {
    words: Vec<u64>,
    width: u32,
    len: usize,
}

impl Model for Bits {
    ghost use Rattle.std.specs.Prelude.{List, ℕ};
    ghost use Rattle.cq_bits.specs.Packed.{AreBits, values_from};

    ghost Value = { List ℕ };

    ghost view = { λ b. values_from b.width b.words.items 0 b.len };

    ghost invariant = { λ b. AreBits b.width b.words.items b.len };
}

impl Bits {
    /// The numbers at the least width. An error comes where there is no memory for the words.
    pub fn of(alloc: Global, numbers: &[u64]) -> Result<Bits, AllocError>
        ensures { IfOk result (λ bits. bits ≡ numbers.now) }
    {
        let width = width_of(numbers);
        let mut words = Vec::new(alloc);
        pack(numbers, width, &mut words)?;
        Ok(Bits {
            words,
            width,
            len: numbers.len(),
        })
    }

    pub fn len(&self) -> usize
        ensures { result ≡ length self.now }
    {
        self.len
    }

    /// How many bits each number takes.
    pub fn width(&self) -> u32
        ensures narrow { result ≤ 64 }
        ensures is { IsWidthOf result self.now }
    {
        self.width
    }

    /// The number at a place.
    pub fn at(&self, place: usize) -> u64
        requires { place < length self.now }
        ensures { result ≡ slice_index self.now place }
    {
        unpack_at(&self.words, self.width, place)
    }

    /// As many numbers as `to` has places, from the place `start` on.
    pub fn read(&self, start: usize, to: &mut [u64])
        requires { start + length to.old ≤ length self.now }
        ensures { to.new ≡ take (length to.old) (drop start self.now) }
    {
        unpack_into(&self.words, self.width, start, to);
    }
}
