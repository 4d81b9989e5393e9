//! What an accepted statement is answered with.
use cq_values::{Seq, Text};
use cq_values_rows::RowList;

/// An answer.
#[derive(Debug, Drop)]
pub enum Answer {
    /// The statement was carried out.
    Done,
    /// So many rows were written.
    Count(u64),
    /// The rows of a result in their order, below the names of its columns.
    Rows { header: Seq<Text>, rows: RowList },
}
