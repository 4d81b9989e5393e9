//! The plain evaluator: the definition of a query, carried out as it stands.
//!
//! Joins are nested loops, groups and DISTINCT are found by looking through a list, and what is kept is copied. It is
//! slow, and faster bodies are measured by it. [`answer`] gives a query's bag in a [`Database`], [`answer_on`] its bag on
//! rows that are lent, and [`listing`] the one list that stands for a bag; [`left_by`] and [`updated`] are the rows
//! that a DELETE and an UPDATE leave.
#![tactic(auto)]

mod aggregates;
mod answering;
mod database;
mod evaluation;
mod fault;
mod filtering;
mod groups;
mod joining;
mod lent;
mod lists;
mod repeats;
mod source_rows;
mod write;

pub use answering::{answer, answer_listed, answer_on};
pub use database::Database;
pub use fault::PlainFault;
pub use lists::listing;
pub use source_rows::Lent;
pub use write::{left_by, updated};
