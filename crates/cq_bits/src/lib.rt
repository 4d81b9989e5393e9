//! Numbers of a few bits each, side by side in words of 64 bits, with no gap between them.
//!
//! The value at place i takes the bits from i * width on; bit b is bit b mod 64, counted from the least, of word
//! b div 64. To its callers [`pack`] and [`unpack_into`] undo each other, and [`Bits`] is its list of numbers.
#![tactic(auto)]

mod bits;
mod packing;
#[cfg(test)]
mod tests;
mod unpacking;

pub use bits::Bits;
pub use packing::{pack, words_for};
pub use unpacking::{unpack_at, unpack_into};
