//! Walks over expressions, conditions and FROM: what they read, and the same ones with their columns elsewhere.
//!
//! A condition of joined rows is asked of rows that have fewer columns: those of one source, or those that a query reads.
//! [`renamed_cond`] and [`renamed_expr`] give the same tree with each column where a [`Naming`] says that it stands there;
//! it means in such a row what the tree means in the joined one. [`reads_in`], [`tests_only`] and their kin tell which
//! columns a tree reads.
#![tactic(auto)]

mod columns;
mod exact;
mod laws;
mod named;
mod naming;
mod reading;
mod renamed;
mod sources;

pub use columns::{add_columns, columns_of};
pub use exact::is_always_exact;
pub use laws::{named_columns_are_read, renamed_terms_are_as_wide, renamed_terms_mean_same};
pub use named::tests_only;
pub use naming::{Naming, place_in};
pub use reading::{reads, reads_in};
pub use renamed::{renamed_cond, renamed_expr};
pub use sources::sources_of;
