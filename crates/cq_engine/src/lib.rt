//! The engine: tables in memory, and one statement after the other.
//!
//! The binder makes a command of a statement, or refuses it; the engine carries the command out. A refused statement
//! leaves every table as it was. To its callers an [`Engine`] is the state that [`Engine::step`] moves by the relation `Step`,
//! and beside it what is stored of each view.
#![tactic(auto)]

mod answer_source;
mod catalog;
mod commands;
mod cores;
mod creation;
mod engine;
mod gathering;
mod limits;
mod reading;
mod table_widths;

pub use answer_source::AnswerSource;
pub use catalog::EngineCatalog;
pub use cq_binder_rules::{SourceFault, Sources};
pub use cq_engine_tables::View;
pub use engine::{Command, Engine};
pub use limits::Limits;
