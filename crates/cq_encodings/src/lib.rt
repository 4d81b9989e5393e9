//! Columns of a table's segments, each in the form that takes least memory for it and is read fast.
//!
//! To its callers each form is the list of its values; [`choose`] picks one whose list is the values that it is given.
//! The forms of numbers alone are those of `cq_encodings_numbers`.
#![tactic(auto)]

mod any_encoded;
mod choosing;
mod dict;
mod known_texts;
mod numbers;
mod rising;
mod runs;
#[cfg(test)]
mod tests;
mod text_codes;
mod texts;

pub use any_encoded::AnyEncoded;
pub use choosing::{choose, choose_lent};
pub use cq_encodings_numbers::{Deltas, Packed};
pub use dict::Dict;
pub use numbers::choose_numbers;
pub use runs::Runs;
pub use texts::choose_texts;
