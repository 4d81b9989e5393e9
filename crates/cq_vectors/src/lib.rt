//! Vectors: at most 1,024 values of one column, in the narrowest form that holds them.
//!
//! To its callers a [`Vector`] is its list of values, whatever its form, so a new form changes no clause above. Some
//! forms hold their values, and some lend those of a stored column.
//! [`Buffers`] keep the memory of vectors that are done with, for the next ones.
//! A [`Batch`] is several vectors of the same rows, and the places of those that still count.
#![tactic(auto)]

mod batch;
mod buffers;
mod days;
mod numbers;
mod texts;
mod vector;
mod wide_numbers;

pub use batch::Batch;
pub use buffers::Buffers;
pub use days::Days;
pub use numbers::Numbers;
pub use texts::Texts;
pub use vector::{Form, Vector};
pub use wide_numbers::WideNumbers;
