//! The rows of an answer: each in a list of its own, the values of all of them in one list, or column by column.
//!
//! To make a row in a list of its own takes a block of memory. What a view shows is made anew for each read, and so these
//! rows are [`FlatRows`]. What a listing gives is copied in its order, column by column, and so it has a [`ValueColumn`]
//! for each. An answer has either as a [`RowList`], which lends each row as a [`LentRow`].
#![tactic(auto)]

mod flat;
mod laws;
mod lent_row;
mod list;
mod value_column;

pub use flat::FlatRows;
pub use laws::rows_come_in_turn;
pub use lent_row::LentRow;
pub use list::RowList;
pub use value_column::ValueColumn;
