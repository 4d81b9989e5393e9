//! The core of a query, and what holds of queries with one core.
//!
//! A query without HAVING has the core of another one if both are alike but for DISTINCT, ORDER BY and LIMIT: then one means
//! the rows of the other. Names play no part, since a query has places in their stead. Definitions and laws alone.
#![tactic(auto)]

mod laws;

pub use laws::{core_answers, core_is_told};
