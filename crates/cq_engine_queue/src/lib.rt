//! Changes of tables that views may still have to take in.
//!
//! A [`Change`] is what one accepted write did: the rows that left the table of a number, and those that came to it. A
//! [`Queue`] has the changes of the last writes, in their order: `note` puts one behind them, where room was made, and
//! `trim` drops those at its front that each view has passed. `take_all_on` takes views on to their [`Goal`]s.
#![tactic(auto)]

mod change;
mod goal;
mod noting;
mod queue;
mod taking;

pub use change::Change;
pub use goal::Goal;
pub use noting::{note, trim};
pub use queue::Queue;
pub use taking::take_all_on;
