//! Keys of an order.

/// One key of ORDER BY: a column of the result by its place, from the least value on or from the greatest.
#[derive(Clone, Copy, Debug, PartialEq, Eq)]
pub struct SortKey {
    pub column: usize,
    pub descending: bool,
}
