//! A query over rows that have the columns alone which it reads.
//!
//! Of the rows of its sources a query may read a few columns only. [`NarrowQuery::of`] gives these columns, source by
//! source, and the query with its columns renamed to where they stand in such narrower rows. Over these rows it means
//! what the query means over the whole ones.
#![tactic(auto)]

mod columns;
mod laws;
mod narrow_query;
mod places;
mod reads;
mod renamed;

pub use columns::SourceColumns;
pub use laws::{narrow_rows_go_along, renamed_means_same};
pub use narrow_query::NarrowQuery;
