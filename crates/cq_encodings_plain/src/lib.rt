//! Columns of a table's segments as they are, and what every form of a column has: flags where NULL stands, numbers of
//! one width, and the list of values that it is.
//!
//! A form of a column is an [`Encoded`]: it is made whole, does not change, is read in place, and 1,024 of its values at
//! a time are decoded into room that is made once ([`Decoded`]).
#![tactic(auto)]

mod decoded;
mod encoded;
mod fixed_width;
mod kind;
mod nulls;
mod packed_numbers;
mod plain;
mod plain_numbers;
mod plain_texts;
#[cfg(test)]
mod tests;

pub use decoded::Decoded;
pub use encoded::Encoded;
pub use fixed_width::FixedWidth;
pub use kind::{Kind, is_of, kind_of, lend_number, lend_unless, number_of};
pub use nulls::Nulls;
pub use packed_numbers::{PackedNumbers, Widths, width_of, width_up_to};
pub use plain::Plain;
pub use plain_numbers::PlainNumbers;
pub use plain_texts::PlainTexts;
