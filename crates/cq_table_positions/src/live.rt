//! Rows of a piece that have no mark.
//!
//! [`live_rows`] lists their places once. [`live_true`] takes those of them of which something is True: it was asked of all
//! rows of the piece where they stand, and no row was copied. It costs the words of a mask, and a step a row that is taken.
ghost use Rattle.std.specs.Prelude.{◌≡◌, IfOk, IfSome, length};
ghost use Rattle.std.specs.Simd.Lanes.{zip2};
ghost use Rattle.cq_encodings_vectors.specs.Places.{AreBelow, rows_at};
ghost use Rattle.cq_segments_pieces.specs.Marked.{live, marks_of, rows_of};
ghost use Rattle.cq_table_positions.specs.Live.{live_true, unless_marked};
ghost use Rattle.cq_table_positions.specs.Rows.{rows_in};

use crate::stored_rows::StoredRows;
use cq_segments_pieces::Piece;
use cq_table_columns::Front;
use cq_vectors_masks::{Plane, Selection, TruthMask};
use std::alloc::{AllocError, Global};

/// The piece of which the rows are those without a mark, where some of its rows have one.
pub fn marked_piece<'a>(rows: &StoredRows<'a>) -> Option<&'a Piece>
    ensures { IfSome result (λ piece. rows_in rows.now ≡ live piece.now) }
{
    match rows {
        StoredRows::Front(Front::Marked(piece)) => Some(*piece),
        _ => None,
    }
}

/// The rows of a piece without a mark, at their places where some have one.
pub fn live_rows<'a>(alloc: Global, piece: &'a Piece) -> Result<StoredRows<'a>, AllocError>
    ensures { IfOk result (λ rows. rows_in rows ≡ live piece.now) }
{
    match Front::of_piece(piece) {
        Front::Marked(piece) => {
            let places = piece.live_places(alloc)?;
            rows_of_piece(alloc, piece, places.as_slice())
        }
        front => Ok(StoredRows::Front(front)),
    }
}

/// The rows of a piece without a mark of which something is True: what is told here of all of its rows.
pub fn live_true<'a>(
    alloc: Global,
    mut truths: TruthMask,
    piece: &'a Piece,
) -> Result<StoredRows<'a>, AllocError>
    requires { length truths ≡ length piece.now }
    ensures { IfOk result (λ rows. rows_in rows ≡ live_true truths piece.now) }
{
    leave_out(&mut truths, piece.marks());
    let mut kept = Selection::new();
    kept.set_true(&truths);
    rows_of_piece(alloc, piece, kept.places())
}

/// The rows at some places of a piece, with a mark or without.
fn rows_of_piece<'a>(
    alloc: Global,
    piece: &'a Piece,
    places: &[u16],
) -> Result<StoredRows<'a>, AllocError>
    requires { AreBelow (length piece.now) places.now }
    ensures { IfOk result (λ rows. rows_in rows ≡ rows_at (rows_of piece.now) places.now) }
{
    StoredRows::Front(Front::Columns(piece.columns())).at(alloc, places)
}

/// Makes False what is told of the rows that have a mark.
fn leave_out(truths: &mut TruthMask, marks: &Plane)
    requires { length truths.old ≡ length marks.now }
    ensures { truths.new ≡ zip2 unless_marked truths.old marks.now }
{
    let mut clear = Plane::new();
    clear.set_neither(marks, marks);
    let mut unmarked = TruthMask::new();
    unmarked.set_tested(&clear);
    truths.and_with(&unmarked);
}
