//! Rows that a statement brings to a table, on their way to its write store.
//!
//! To its callers [`NewRows`] is the list of these rows. Those of an INSERT come as rows; those of a file are put into
//! columns as they are read, 1,024 to a piece, and the last ones, which fill no piece, become rows at its end. The rows of
//! a query's groups are kept in the same way, and so are many rows that are copied to wait.
#![tactic(auto)]

mod copying;
mod filling;
mod new_rows;
mod number_column;
#[cfg(test)]
mod tests;
mod text_column;
mod typed_column;

pub use copying::copies;
pub use filling::Filling;
pub use new_rows::NewRows;
