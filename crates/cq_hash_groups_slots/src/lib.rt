//! What is kept of each group for an aggregate.
//!
//! To its callers a [`Slots`] is what is kept of all groups for one aggregate, by their numbers: how many values each
//! has, their exact total, the best of them, or each of them once.
#![tactic(auto)]

mod bests;
mod counts;
mod slots;

pub use slots::Slots;
