//! Rows of a write store, lent with their marks.
//!
//! They stand in pieces, and the newest in a tail behind these. `at` finds one of them in some steps.
ghost use Rattle.std.proofs.Props.{props};
ghost use Rattle.std.specs.Prelude.{[], drop, length, slice_index_or, ◌++◌, ◌+◌, ◌<◌, ◌^◌, ◌≡◌, ◌≤◌};
ghost use Rattle.cq_segments_pieces.specs.Pieces.{joined};
ghost use Rattle.cq_writestore_rows.specs.NewRows.{AreWhole};

use crate::spot::{Spot, rows_in, spot_of};
use crate::tail::Tail;
use cq_segments_pieces::{Piece, StoredRow};
use cq_values::Row;
use cq_writestore_rows::NewRows;

/// Rows in order of insertion, each with its mark: first those in pieces, and behind them a tail.
#[derive(Clone, Copy)]
pub struct Written<'a> {
    pub pieces: &'a [Piece],
    pub tail: Tail<'a>,
    ghost whole: { AreWhole (drop 1 pieces.now) } by { Prim.hlevel props },
    ghost few: { length (joined pieces.now) + length tail.rows.now < 2 ^ 64 },
}

impl<'a> Written<'a> {
    ghost use Rattle.cq_segments_pieces.specs.Marked.{rows_of, unmarked};
    ghost use Rattle.cq_segments_pieces.specs.Rows.{row_of};
    ghost use Rattle.cq_writestore.specs.Writes.{tail_rows, written_rows};

    /// Rows of a list, none of which has a mark.
    pub fn of(rows: &'a [Row]) -> Written<'a>
        ensures { written_rows result ≡ unmarked rows.now }
    {
        Written::of_tail(Tail::of(rows))
    }

    /// Rows on their way to a store, none of which has a mark.
    pub fn of_new(rows: &'a NewRows) -> Written<'a>
        ensures { written_rows result ≡ unmarked rows.now }
    {
        let (pieces, tail) = rows.as_parts();
        Written {
            pieces,
            tail: Tail::of(tail),
        }
    }

    /// Rows of which none stands in a piece.
    pub fn of_tail(tail: Tail<'a>) -> Written<'a>
        ensures rows { written_rows result ≡ tail_rows tail.entry }
        ensures tail { result.tail ≡ tail.entry }
        ensures none { result.pieces.now ≡ [] }
    {
        let _len = tail.rows.len();
        Written { pieces: &[], tail }
    }

    /// The rows behind the first pieces.
    pub fn behind(&self, pieces: usize) -> Written<'a>
        requires { pieces ≤ length self.now.pieces.now }
        ensures { written_rows result ≡ joined (drop pieces self.now.pieces.now) ++ tail_rows self.now.tail }
    {
        let (_, behind) = self.pieces.split_at(pieces);
        Written {
            pieces: behind,
            tail: self.tail,
        }
    }

    pub fn len(&self) -> usize
        ensures { result ≡ length (written_rows self.now) }
    {
        rows_in(self.pieces) + self.tail.len()
    }

    /// The row at a place, where it stands.
    pub fn at(&self, place: usize) -> StoredRow<'a>
        requires { place < length (written_rows self.now) }
        ensures { row_of result ≡ slice_index_or (rows_of (written_rows self.now)) place [] }
    {
        let (pieces, rows) = (self.pieces, self.tail.rows);
        match spot_of(pieces, place) {
            Spot::InPiece(piece, at) => pieces[piece].columns().row(at),
            Spot::Behind(at) => StoredRow::Alone(row_at(rows, at)),
        }
    }
}

fn row_at(rows: &[Row], place: usize) -> &Row
    requires { place < length rows.now }
    ensures { result.now ≡ slice_index_or rows.now place [] }
{
    &rows[place]
}
