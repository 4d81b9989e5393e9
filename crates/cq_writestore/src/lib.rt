//! The write store: the newest rows of a table, in order of insertion, with a mark on each deleted one.
//!
//! Writes go here first, and the tuple mover takes rows from the front and builds segments of them. They are kept in pieces
//! of 1,024, and the newest as rows. To its callers a [`WriteStore`] is the list of its rows with their marks, and room for
//! so many more.
#![tactic(auto)]

mod front;
mod piece_store;
mod refilled;
mod spot;
mod store;
mod tail;
mod tail_store;
#[cfg(test)]
mod tests;
mod written;

pub use front::WrittenFront;
pub use store::WriteStore;
pub use tail::Tail;
pub use written::Written;
