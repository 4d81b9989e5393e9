//! How far a query is worked out.
use cq_model::ShowFault;
use cq_values_rows::RowList;

/// How far a query is worked out.
#[derive(Clone, Copy)]
pub(crate) enum Progress<'a> {
    /// Nothing is.
    Opened,
    /// The list is, and its rows from this place on were not given.
    Listed(&'a RowList, usize),
    /// A fault ended it.
    Broken(ShowFault),
}
