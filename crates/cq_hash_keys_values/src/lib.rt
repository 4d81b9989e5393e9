//! Numbers of a column's values: each value once, with a number.
//!
//! To its callers [`Values`] is the list of the values that were met, each once, as they were first met. The number of
//! a value is its place in the list.
#![tactic(auto)]

mod coded;
mod dictionary;
mod kept;
mod kind;
mod texts;
mod values;
mod whole;
mod widened;
mod window;

pub use values::Values;
