//! Rows at places of those that are stored.
//!
//! What is left of a front behind a condition is [`Chosen`] at its places; what passes in a source that stands in one segment
//! is [`Placed`] there; of one that stands in several it is a list of positions: which piece or list, and which row there. To
//! those who go on with them they are all [`StoredRows`], of which columns are gathered. No row is copied. Of a piece with
//! marks [`live_true`] takes the rows without one of which something is True.
#![tactic(auto)]

mod chosen;
mod live;
mod placed;
mod places;
mod stored_rows;
mod whole_numbers;

pub use chosen::Chosen;
pub use live::{live_rows, live_true, marked_piece};
pub use placed::Placed;
pub use stored_rows::StoredRows;
pub use whole_numbers::append_whole;
