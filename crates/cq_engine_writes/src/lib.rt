//! Writes: what INSERT, DELETE and UPDATE do to a table.
//!
//! Each write is made ready first, and then carried out by a call that may fail and then leaves the table as it was. So
//! a write that is refused leaves its table as it was. What an accepted one changed is told where that is asked for, for
//! the queue of changes.
#![tactic(auto)]

mod changing;
mod deletion;
mod insertion;
mod updating;
mod writing;

pub use writing::{delete_in, insert_in, update_in};
