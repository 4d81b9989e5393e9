//! Keys of groups, joins and DISTINCT: each once, with a number.
//!
//! To its callers a [`KeyTable`] is the list of the keys that were met, each once, as they were first met. The number
//! of a key is its place in the list.
#![tactic(auto)]

mod columns;
mod grid;
mod key_table;
mod pairs;
mod stage;
mod stages;

pub use columns::key_columns;
pub use key_table::KeyTable;
