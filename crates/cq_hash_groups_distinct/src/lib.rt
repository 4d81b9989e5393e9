//! The different values of each group.
//!
//! To its callers a [`ValueSets`] is the list of the different values of each group, by its number, as they were first
//! met. NULL is no value.
#![tactic(auto)]

mod counting;
mod group_column;
mod meeting;
mod value_sets;

pub use value_sets::ValueSets;
