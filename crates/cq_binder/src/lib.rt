//! The binder: names become places, constants become values, and the first fault of the walk refuses.
//!
//! [`bind`] makes the command that a statement is, with the names that a [`Catalog`] knows. The functions below it walk one
//! stretch of the statement's places each, in their order: a stretch is either passed, with what it gives, or refused with
//! its first fault (`Walked`); want of memory may come at any point. What reads is bound by `cq_binder_queries`.
#![tactic(auto)]

mod binding;
mod columns;
mod constants;
mod copying;
mod laws;
mod literals;
mod moving;
mod updating;
mod writing;

pub use binding::{BindFault, bind};
pub use cq_binder_queries::{Catalog, TableEntry, ViewEntry};
pub use laws::checked_rows_fit;
