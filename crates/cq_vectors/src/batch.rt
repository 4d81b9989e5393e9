//! Batches: several columns of the same rows, and which of the rows count.
//!
//! One batch is made for a query, with no columns, and filled anew in each step; its fields are read as they are. To
//! contracts it is the list of its rows: at each place that is selected, the values of the columns there.
use crate::vector::Vector;
use cq_vectors_masks::Selection;

/// Columns of as many values as there are rows, and the places of the rows that still count.
#[derive(Drop)]
pub struct Batch<'a> {
    pub columns: Vec<Vector<'a>>,
    pub selection: Selection,
}
