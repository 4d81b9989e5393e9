//! Rows in the order in which they stand in a segment that is built of them.
ghost use Rattle.std.specs.Prelude.{IfOk, OnOk, map, ◌++◌, ◌≡◌};
ghost use Rattle.cq_segments.specs.Gathered.{AreOfKind, gathered_values};
ghost use Rattle.cq_segments.specs.InOrder.{rows_in_order};
ghost use Rattle.cq_segments_pieces.specs.Marked.{rows_of};
ghost use Rattle.cq_segments_pieces.specs.Pieces.{joined};
ghost use Rattle.cq_segments_pieces.specs.Rows.{stored_rows};
ghost use Rattle.cq_values.specs.Lent.{owned};
ghost use Rattle.cq_vectors.specs.Gathered.{column_of};

use crate::gathered::Gathered;
use crate::numbers::numbers_in_column;
use crate::pieces_numbers::numbers_in_pieces;
use crate::pieces_texts::texts_in_pieces;
use cq_segments_pieces::{Columns, Piece, StoredRow, lend_column};
use std::alloc::{AllocError, Global};

/// Rows, or all of those of pieces.
#[derive(Drop)]
pub(crate) enum InOrder<'a> {
    Rows(Vec<StoredRow<'a>>),
    Pieces(&'a [Piece]),
}

impl<'a> InOrder<'a> {
    /// The values of a column, as numbers or texts where all are such.
    pub(crate) fn gather(&self, alloc: Global, column: usize) -> Result<Gathered<'_>, AllocError>
        ensures values { IfOk result (λ g. gathered_values g ≡ column_of (rows_in_order self.now) column) }
        ensures kind { IfOk result AreOfKind }
    {
        match self {
            InOrder::Rows(rows) => gather_rows(alloc, rows, column),
            InOrder::Pieces(pieces) => gather_pieces(alloc, *pieces, column),
        }
    }
}

fn gather_rows<'a>(
    alloc: Global,
    rows: &[StoredRow<'a>],
    column: usize,
) -> Result<Gathered<'a>, AllocError>
    ensures values { IfOk result (λ g. gathered_values g ≡ column_of (stored_rows rows.now) column) }
    ensures kind { IfOk result AreOfKind }
{
    if let Some((kind, numbers)) = numbers_in_column(alloc, rows, column)? {
        return Ok(Gathered::Numbers(kind, numbers));
    }
    Ok(Gathered::Values(lend_column(alloc, rows, column)?))
}

fn gather_pieces<'a>(
    alloc: Global,
    pieces: &'a [Piece],
    column: usize,
) -> Result<Gathered<'a>, AllocError>
    ensures values { IfOk result (λ g. gathered_values g ≡ column_of (rows_of (joined pieces.now)) column) }
    ensures kind { IfOk result AreOfKind }
{
    if let Some((kind, numbers)) = numbers_in_pieces(alloc, pieces, column)? {
        return Ok(Gathered::Numbers(kind, numbers));
    }
    if let Some(texts) = texts_in_pieces(alloc, pieces, column)? {
        return Ok(Gathered::Texts(texts));
    }
    let rows = lend_pieces(alloc, pieces)?;
    Ok(Gathered::Values(lend_column(alloc, &rows, column)?))
}

/// The rows of pieces, where they stand.
fn lend_pieces<'a>(alloc: Global, pieces: &'a [Piece]) -> Result<Vec<StoredRow<'a>>, AllocError>
    ensures { IfOk result (λ rows. stored_rows rows.items ≡ rows_of (joined pieces.now)) }
{
    let mut rows: Vec<StoredRow<'a>> = Vec::new(alloc);
    for piece in pieces {
        lend_behind(&mut rows, piece.columns())?;
    }
    Ok(rows)
}

/// Lends the rows of columns behind the others.
fn lend_behind<'a>(rows: &mut Vec<StoredRow<'a>>, columns: &'a Columns) -> Result<(), AllocError>
    ensures { OnOk result (stored_rows rows.new.items ≡ stored_rows rows.old.items ++ columns.now) }
{
    rows.reserve(columns.len())?;
    for place in 0..columns.len() {
        rows.push_reserved(columns.row(place));
    }
    Ok(())
}
