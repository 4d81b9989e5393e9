//! Segments: up to 65,536 rows of a table that were built once, column by column, with a mark on each deleted one.
//!
//! A [`Segment`] keeps each column in one encoding, with its least and its greatest value. Its rows are read in pieces of
//! 1,024. It is built of rows where they stand. To its callers a segment is the list of its rows with their marks.
#![tactic(auto)]

mod building;
mod column_test;
mod gathered;
mod held_bounds;
mod in_order;
mod number_bounds;
mod numbers;
mod pieces_numbers;
mod pieces_texts;
mod segment;
mod sorting;
mod text_bounds;

pub use column_test::{ColumnTest, may_match};
pub use segment::Segment;
