//! Pieces: up to 1,024 rows that are stored column by column, with a mark on each deleted one.
//!
//! The [`Columns`] of rows are a part of encoded columns, which several may share, and a [`Piece`] has them with a plane of
//! marks. Columns of rows are read as vectors, and one row where it stands, as a [`StoredRow`]. To its callers columns are
//! the list of their rows, and a piece is that with a mark for each.
#![tactic(auto)]

mod columns;
mod lending;
mod marking;
mod piece;
mod places_from;
mod room;
mod stored_row;

pub use columns::Columns;
pub use lending::lend_column;
pub use piece::Piece;
pub use room::widened;
pub use stored_row::StoredRow;
