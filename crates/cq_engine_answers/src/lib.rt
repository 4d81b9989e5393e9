//! Answers: the listing of a query on the tables and views that it names.
//!
//! A query is planned and worked out on the rows of its sources, those of tables where they are.
//! [`select_from`] answers the one list that stands for what the query means, or that a total cannot be shown.
//! [`select_at_hand`] does so from a view whose core the query has.
//! [`rows_there`] tells whoever builds a view where a table's rows are.
#![tactic(auto)]

mod at_hand;
mod gathered;
mod reading;
mod selection;
mod widths;

pub use at_hand::select_at_hand;
pub use gathered::rows_there;
pub use reading::select_from;
