//! Groups of rows, as they are added.
//!
//! To its callers a [`GroupTable`] stands for the rows that were added to it: [`GroupTable::rows`] gives the row of each
//! group of them, in the order in which the groups were first met.
#![tactic(auto)]

mod adding;
mod arguments;
mod group_table;
mod keys;
mod lead;
mod reading;
mod shown;
mod told;

pub use group_table::GroupTable;
