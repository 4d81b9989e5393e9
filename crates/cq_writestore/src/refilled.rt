//! Rows that are put into columns anew, and become pieces there.
//!
//! Each value goes from where it stands to where it stays: a row is made of the last ones alone, which fill no piece.
ghost use Rattle.std.specs.Prelude.{IfOk, OnOk, length, ◌++◌, ◌≡◌};
ghost use Rattle.cq_segments_pieces.specs.Columns.{AreWide};
ghost use Rattle.cq_segments_pieces.specs.Marked.{rows_of};
ghost use Rattle.cq_segments_pieces.specs.Pieces.{joined};
ghost use Rattle.cq_writestore_rows.specs.Filling.{Adds, CanTake};

use cq_segments_pieces::{Columns, Piece, StoredRow};
use cq_values::{ColumnDef, Row};
use cq_writestore_rows::{Filling, NewRows};
use std::alloc::{AllocError, Global};

/// The rows of a list and those that come behind them, 1,024 to a piece.
pub(crate) fn refilled(
    alloc: Global,
    front: &[Row],
    rows: NewRows,
    columns: &[ColumnDef],
) -> Result<NewRows, AllocError>
    requires { AreWide (length columns.now) (front.now ++ rows) }
    ensures { IfOk result (λ all. all ≡ front.now ++ rows) }
{
    if front.is_empty() && rows.as_rows().is_none() {
        return Ok(rows);
    }
    let mut filling = Filling::new(alloc, columns)?;
    put_rows(&mut filling, front)?;
    let (pieces, behind) = rows.into_parts();
    put_pieces(&mut filling, pieces)?;
    put_rows(&mut filling, behind.as_slice())?;
    filling.finish()
}

/// Puts rows behind the others.
fn put_rows(filling: &mut Filling, rows: &[Row]) -> Result<(), AllocError>
    requires { CanTake rows.now filling.old }
    ensures { OnOk result (Adds rows.now filling.old filling.new) }
{
    for row in rows {
        filling.push_row(&StoredRow::Alone(row))?;
    }
    Ok(())
}

/// Puts the rows of pieces behind the others, and gives each piece up as soon as they are there.
fn put_pieces(filling: &mut Filling, pieces: Vec<Piece>) -> Result<(), AllocError>
    requires { CanTake (rows_of (joined pieces.items)) filling.old }
    ensures { OnOk result (Adds (rows_of (joined pieces.items)) filling.old filling.new) }
{
    for piece in pieces {
        put_columns(filling, piece.columns())?;
    }
    Ok(())
}

/// Puts the rows of columns behind the others.
fn put_columns(filling: &mut Filling, columns: &Columns) -> Result<(), AllocError>
    requires { CanTake columns.now filling.old }
    ensures { OnOk result (Adds columns.now filling.old filling.new) }
{
    for place in 0..columns.len() {
        filling.push_row(&columns.row(place))?;
    }
    Ok(())
}
