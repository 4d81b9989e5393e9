//! The meaning of queries: typed expressions and conditions, groups, queries, and what a view's name stands for.
//!
//! A query means a bag of rows. Here stand its types and definitions; no text and no name of a column is known here.
#![tactic(auto)]

mod assignment;
mod expr;
mod fault;
mod limits;
mod query;

pub use assignment::Assignment;
pub use expr::{Cond, CondTree, Expr, ExprTree};
pub use fault::ShowFault;
pub use limits::{COUNT_SIZE, MAX_TEXT, STORED_SIZE, TOO_WIDE};
pub use query::{
    Aggregate, Equality, Join, Order, Query, Shape, Source, left_columns, right_columns,
};
