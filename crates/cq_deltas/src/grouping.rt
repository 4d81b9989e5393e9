//! How rows are put into groups.
use cq_model::Aggregate;

/// Rows with the same values in the key columns are one group, and these aggregates are kept of it.
#[derive(Clone, Copy)]
pub struct Grouping<'a> {
    pub columns: &'a [usize],
    pub aggregates: &'a [Aggregate],
}
