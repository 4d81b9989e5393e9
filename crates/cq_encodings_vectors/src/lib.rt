//! Columns that are kept in some form, as vectors.
//!
//! To its callers a vector of an encoding is 1,024 of its values, or those of them at some places.
#![tactic(auto)]

mod at_places;
mod column_nulls;
mod column_numbers;
mod column_texts;
mod columns;
mod days_at;
mod narrow;
mod nulls_at;
mod numbers;
mod numbers_at;
mod offsets;
mod offsets_at;
mod places;
mod run_at;
mod runs;
mod texts;
mod texts_at;
mod values;
mod vectors;
mod widths;

pub use columns::column_at;
pub use narrow::narrowed;
pub use places::copies_at;
pub use vectors::{vector_at, vector_of};
