//! A table: a bag of rows, each of which fits the table's columns, in segments and in a write store.
//!
//! Rows come and go through a [`Table`] alone, which takes no row that its columns cannot have, and never more of them
//! than it may hold. A write that it refuses leaves it as it was. Rows are deleted by a mark where they stand; a move
//! step takes the first rows of the write store to segments, and a merge step makes segments anew without marks. To its
//! callers a [`Table`] is the list of its stored rows with their marks, and its bag that of the live ones.
#![tactic(auto)]

mod building;
mod fault;
mod finding;
mod found;
mod images;
mod moving;
mod placing;
mod table;
mod updating;
mod whole;

pub use fault::TableFault;
pub use found::Found;
pub use table::{Layout, Table, check_room};
pub use updating::Exchange;
