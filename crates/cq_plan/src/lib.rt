//! Plans of queries: what is worked out of a query before any row is read, and what holds of its joins and conditions.
//!
//! A [`Plan`] is of a whole query: its sources, each with the parts of WHERE that are asked of its rows before any join,
//! then what is asked of the joined rows, and behind these the query's groups, HAVING, items, DISTINCT, ORDER BY and
//! LIMIT. To its callers it means the query: WHERE keeps the same joined rows. An [`own_condition`] is for a view.
#![tactic(auto)]

mod columns;
mod each_own;
mod laws;
mod own;
mod own_test;
mod planning;
mod plans;

pub use columns::columns_of_condition;
pub use laws::{
    chain_of_lists, chains_in_parts, own_conditions_are_all, own_conditions_are_exact,
    own_conditions_below_joins,
};
pub use own::own_conditions;
pub use own_test::own_condition;
pub use planning::plan;
pub use plans::{Plan, PlannedSource};
