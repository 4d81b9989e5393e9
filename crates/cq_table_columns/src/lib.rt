//! Rows where they are stored, of which queries read columns.
//!
//! First come those of segments, column by column, and behind them those of the write store: in columns too, and the
//! newest each a row of its own. A [`Stored`] lends those of them that have no mark. They are read in a [`Front`] of at
//! most 1,024 rows after the other, or one by one, each a `StoredRow`. In which form rows are stored is not seen by those
//! who read them: to them they are lists of live rows.
#![tactic(auto)]

mod front;
mod gathering;
mod stored;
mod stored_source;

pub use front::Front;
pub use gathering::gather;
pub use stored::Stored;
pub use stored_source::{StoredSource, rows_of};
