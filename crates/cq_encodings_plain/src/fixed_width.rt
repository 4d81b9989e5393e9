//! Typed lists of numbers that are all one, two, four or eight bytes wide.
ghost use Rattle.std.specs.Bool.{OnTrue};
ghost use Rattle.std.specs.Prelude.{
  [],
  IfOk,
  List,
  vec_capacity,
  vec_len,
  ℕ,
  ◌++◌,
  ◌+◌,
  ◌-◌,
  ◌<◌,
  ◌∷◌,
  ◌≡◌,
  ◌≤◌,
};
ghost use Rattle.cq_bits.specs.Packed.{Fit};
ghost use Rattle.cq_encodings_plain.specs.PackedNumbers.{numbers_in};

use crate::packed_numbers::Widths;
use std::alloc::{AllocError, Global};

/// A list of numbers of one width, made with room for all of them.
pub trait FixedWidth: Drop {
    ghost numbers: { Self → List ℕ };

    /// How many numbers it takes without memory.
    ghost room: { Self → ℕ };

    fn with_room(alloc: Global, len: usize) -> Result<Self, AllocError>
        ensures empty { IfOk result (λ list. numbers list ≡ []) }
        ensures room { IfOk result (λ list. len ≤ room list) };

    /// Puts a number behind the others, if it fits the width.
    fn push_number(&mut self, number: u64) -> bool
        requires { 0 < room self.old }
        ensures pushed { OnTrue result (numbers self.new ≡ numbers self.old ++ number ∷ []) }
        ensures room { room self.old ≤ room self.new + 1 };

    /// How many bits each number takes.
    fn width(&self) -> u32
        ensures { Fit result (numbers self.now) };

    fn into_widths(self) -> Widths
        ensures { numbers_in result ≡ numbers self };
}

impl FixedWidth for Vec<u8> {
    ghost numbers = { λ list. list.items };

    ghost room = { λ list. vec_capacity list - vec_len list };

    fn with_room(alloc: Global, len: usize) -> Result<Vec<u8>, AllocError> {
        let mut list = Vec::new(alloc);
        list.reserve(len)?;
        Ok(list)
    }

    fn push_number(&mut self, number: u64) -> bool {
        match u8::try_from(number) {
            Ok(number) => {
                self.push_reserved(number);
                true
            }
            Err(_) => false,
        }
    }

    fn width(&self) -> u32 {
        8
    }

    fn into_widths(self) -> Widths {
        Widths::One(self)
    }
}

impl FixedWidth for Vec<u16> {
    ghost numbers = { λ list. list.items };

    ghost room = { λ list. vec_capacity list - vec_len list };

    fn with_room(alloc: Global, len: usize) -> Result<Vec<u16>, AllocError> {
        let mut list = Vec::new(alloc);
        list.reserve(len)?;
        Ok(list)
    }

    fn push_number(&mut self, number: u64) -> bool {
        match u16::try_from(number) {
            Ok(number) => {
                self.push_reserved(number);
                true
            }
            Err(_) => false,
        }
    }

    fn width(&self) -> u32 {
        16
    }

    fn into_widths(self) -> Widths {
        Widths::Two(self)
    }
}

impl FixedWidth for Vec<u32> {
    ghost numbers = { λ list. list.items };

    ghost room = { λ list. vec_capacity list - vec_len list };

    fn with_room(alloc: Global, len: usize) -> Result<Vec<u32>, AllocError> {
        let mut list = Vec::new(alloc);
        list.reserve(len)?;
        Ok(list)
    }

    fn push_number(&mut self, number: u64) -> bool {
        match u32::try_from(number) {
            Ok(number) => {
                self.push_reserved(number);
                true
            }
            Err(_) => false,
        }
    }

    fn width(&self) -> u32 {
        32
    }

    fn into_widths(self) -> Widths {
        Widths::Four(self)
    }
}

impl FixedWidth for Vec<u64> {
    ghost numbers = { λ list. list.items };

    ghost room = { λ list. vec_capacity list - vec_len list };

    fn with_room(alloc: Global, len: usize) -> Result<Vec<u64>, AllocError> {
        let mut list = Vec::new(alloc);
        list.reserve(len)?;
        Ok(list)
    }

    fn push_number(&mut self, number: u64) -> bool {
        self.push_reserved(number);
        true
    }

    fn width(&self) -> u32 {
        64
    }

    fn into_widths(self) -> Widths {
        Widths::Eight(self)
    }
}
