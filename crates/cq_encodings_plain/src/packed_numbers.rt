//! Numbers of one width.
//!
//! Widths of whole bytes are typed lists, which loops read as they stand; numbers of every other width stand side by
//! side in words. Readers take no memory.
ghost use Rattle.std.specs.Prelude.{[], IfOk, IfSome, length, slice_index, ◌<◌, ◌≡◌, ◌≤◌, ◌^◌};
ghost use Rattle.std.specs.Bool.{OnTrue};
ghost use Rattle.cq_bits.specs.Packed.{Fit};
ghost use Rattle.cq_encodings_plain.specs.PackedNumbers.{numbers_in};

use crate::fixed_width::FixedWidth;
use cq_bits::Bits;
use std::alloc::{AllocError, Global};
use std::marker::Model;

/// The lists that numbers of one width stand in.
#[derive(Drop)]
pub enum Widths {
    One(Vec<u8>),
    Two(Vec<u16>),
    Four(Vec<u32>),
    Eight(Vec<u64>),
    Bits(Bits),
}

/// Numbers, to contracts a list of them whatever their width.
#[derive(Drop)]
pub struct PackedNumbers {
    widths: Widths,
}

impl Model for PackedNumbers {
    ghost use Rattle.std.specs.Prelude.{List, ℕ};
    ghost use Rattle.cq_encodings_plain.specs.PackedNumbers.{numbers_in};

    ghost Value = { List ℕ };

    ghost view = { λ p. numbers_in p.widths };
}

impl PackedNumbers {
    /// The numbers at a width of bits that is asked for: 8, 16, 32 or 64 where each of them fits it, and else the least.
    pub fn of(alloc: Global, numbers: &[u64], width: u32) -> Result<PackedNumbers, AllocError>
        ensures { IfOk result (λ packed. packed ≡ numbers.now) }
    {
        let widths = match at_width(alloc, numbers, width)? {
            Some(widths) => widths,
            None => Widths::Bits(Bits::of(alloc, numbers)?),
        };
        Ok(PackedNumbers { widths })
    }

    /// The numbers that stand in a list.
    pub fn from_widths(widths: Widths) -> PackedNumbers
        ensures { result ≡ numbers_in widths }
    {
        PackedNumbers { widths }
    }

    pub fn len(&self) -> usize
        ensures { result ≡ length self.now }
    {
        match &self.widths {
            Widths::One(numbers) => numbers.len(),
            Widths::Two(numbers) => numbers.len(),
            Widths::Four(numbers) => numbers.len(),
            Widths::Eight(numbers) => numbers.len(),
            Widths::Bits(numbers) => numbers.len(),
        }
    }

    /// How many bits each number takes.
    pub fn width(&self) -> u32
        ensures { Fit result self.now }
    {
        match &self.widths {
            Widths::One(numbers) => numbers.width(),
            Widths::Two(numbers) => numbers.width(),
            Widths::Four(numbers) => numbers.width(),
            Widths::Eight(numbers) => numbers.width(),
            Widths::Bits(numbers) => numbers.width(),
        }
    }

    /// The lists where they stand, for loops.
    pub fn widths(&self) -> &Widths
        ensures { numbers_in result.now ≡ self.now }
    {
        &self.widths
    }

    /// The number at a place.
    pub fn at(&self, place: usize) -> u64
        requires { place < length self.now }
        ensures { result ≡ slice_index self.now place }
    {
        match &self.widths {
            Widths::One(numbers) => u64::from(numbers[place]),
            Widths::Two(numbers) => u64::from(numbers[place]),
            Widths::Four(numbers) => u64::from(numbers[place]),
            Widths::Eight(numbers) => numbers[place],
            Widths::Bits(numbers) => numbers.at(place),
        }
    }
}

/// The width of whole bytes that the widest of some numbers fits: 8, 16, 32 or 64 bits.
pub fn width_of(numbers: &[u64]) -> u32
    ensures { Fit result numbers.now }
{
    let mut greatest = 0;
    for number in numbers {
        if greatest < *number {
            greatest = *number;
        }
    }
    width_up_to(greatest)
}

/// The width of whole bytes that numbers up to the greatest fit.
pub fn width_up_to(greatest: u64) -> u32
    ensures { greatest < 2 ^ result }
{
    if greatest < 1 << 8 {
        8
    } else if greatest < 1 << 16 {
        16
    } else if greatest < 1 << 32 {
        32
    } else {
        64
    }
}

/// The numbers in a typed list of the width, or None where one does not fit, or no type has the width.
fn at_width(alloc: Global, numbers: &[u64], width: u32) -> Result<Option<Widths>, AllocError>
    ensures { IfOk result (λ found. IfSome found (λ widths. numbers_in widths ≡ numbers.now)) }
{
    match width {
        8 => in_list::<Vec<u8>>(alloc, numbers),
        16 => in_list::<Vec<u16>>(alloc, numbers),
        32 => in_list::<Vec<u32>>(alloc, numbers),
        64 => in_list::<Vec<u64>>(alloc, numbers),
        _ => Ok(None),
    }
}

fn in_list<W: FixedWidth>(alloc: Global, numbers: &[u64]) -> Result<Option<Widths>, AllocError>
    ensures { IfOk result (λ found. IfSome found (λ widths. numbers_in widths ≡ numbers.now)) }
{
    let mut list = W::with_room(alloc, numbers.len())?;
    if copy_into(numbers, &mut list) {
        Ok(Some(list.into_widths()))
    } else {
        Ok(None)
    }
}

/// Copies the numbers, if each of them fits the width.
fn copy_into<W: FixedWidth>(numbers: &[u64], to: &mut W) -> bool
    requires empty { W.numbers to.old ≡ [] }
    requires room { length numbers.now ≤ W.room to.old }
    ensures { OnTrue result (W.numbers to.new ≡ numbers.now) }
{
    for number in numbers {
        if !to.push_number(*number) {
            return false;
        }
    }
    true
}
