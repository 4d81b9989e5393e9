//! Whether a query has the core of another: whether it asks for what the other one gives, but for DISTINCT, ORDER BY and LIMIT.
//!
//! [`same_core`] compares two queries where they stand, and takes no memory: so a SELECT can be held against each view.
#![tactic(auto)]

mod conds;
mod cores;
mod exprs;
mod lists;

pub use cores::same_core;
