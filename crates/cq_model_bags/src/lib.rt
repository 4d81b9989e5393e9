//! Bags of rows, and the two lists that stand for them: the canonical one of a table, and the listing of a result.
//!
//! A list of rows with whole weights names the bag that gives each row the sum of its weights. A bag without negative
//! rows has one listing in each order.
#![tactic(auto)]

mod laws;
mod sort_key;

pub use laws::{
    distinct_respects, distinct_weight, join_law, joined_weight, linear_operators, one_listing,
    projected_weight, sizes_depend_on_bag, sums_depend_on_bag,
};
pub use sort_key::SortKey;
