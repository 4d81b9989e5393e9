//! The total of each group.
//!
//! To its callers a [`Sums`] is the sum of each group, by its number: how many values it has, and their exact total.
#![tactic(auto)]

mod at_hand;
mod number_columns;
mod small_sums;
mod sums;
mod wide_sums;

pub use at_hand::one_group;
pub use number_columns::{Above, NumberColumn, Plain};
pub use sums::Sums;
