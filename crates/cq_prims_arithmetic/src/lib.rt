//! Arithmetic and sums over vectors, exactly, in 64 bits where the sizes of the numbers allow it.
//!
//! To its callers each operation is that of the language at each place, whatever form the vectors have.
#![tactic(auto)]

mod above;
mod arithmetic;
mod clear;
mod columns;
mod combined;
mod constants;
mod in_64_bits;
mod operands;
mod operation;
mod parts;
mod places;
mod side;
mod sizes;
mod sums;
mod taker;
mod unbroken;
mod wide;
mod wide_side;
mod widened;

pub use arithmetic::{add, mul, neg, sub};
pub use parts::extract;
pub use sizes::largest_size;
pub use sums::sum_into;
