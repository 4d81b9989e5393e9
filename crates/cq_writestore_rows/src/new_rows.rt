//! Rows that a statement brings.
//!
//! `of` takes rows as they are. `as_rows` lends them where all stand as rows, `copies` and `into_rows` make rows of all;
//! `as_parts` lends and `into_parts` hands over what they are made of. `share` gives the same rows once more. Only it,
//! `copies` and `into_rows` take memory.
ghost use Rattle.std.specs.Prelude.{IfOk, IfSome, length, ◌++◌, ◌+◌, ◌<◌, ◌^◌, ◌≡◌};
ghost use Rattle.cq_segments_pieces.specs.Marked.{rows_of};
ghost use Rattle.cq_segments_pieces.specs.Pieces.{joined};
ghost use Rattle.cq_writestore_rows.specs.NewRows.{AreFresh, AreWhole, NoneMarked};

use cq_segments_pieces::Piece;
use cq_values::{Row, copy_row};
use std::alloc::{AllocError, Global};
use std::marker::Model;

/// Rows in their order: first those in pieces, 1,024 in each, and behind them the others.
#[derive(Drop)]
pub struct NewRows {
    pieces: Vec<Piece>,
    tail: Vec<Row>,
}

impl Model for NewRows {
    ghost use Rattle.std.specs.Prelude.{List, ◌++◌};
    ghost use Rattle.cq_values.specs.Value.{Row as Values};
    ghost use Rattle.cq_segments_pieces.specs.Marked.{rows_of};
    ghost use Rattle.cq_segments_pieces.specs.Pieces.{joined};
    ghost use Rattle.cq_writestore_rows.specs.NewRows.{AreFresh};

    ghost Value = { List Values };

    ghost view = { λ n. rows_of (joined n.pieces.items) ++ n.tail.items };

    ghost invariant = { λ n. AreFresh n.pieces.items n.tail.items };
}

impl NewRows {
    /// Rows of pieces, and those behind them.
    pub(crate) fn new(pieces: Vec<Piece>, tail: Vec<Row>) -> NewRows
        requires { AreFresh pieces.items tail.items }
        ensures { result ≡ rows_of (joined pieces.items) ++ tail.items }
    {
        NewRows { pieces, tail }
    }

    /// Rows as they are.
    pub fn of(rows: Vec<Row>) -> NewRows
        ensures { result ≡ rows.items }
    {
        NewRows {
            pieces: Vec::new(*rows.allocator()),
            tail: rows,
        }
    }

    pub fn len(&self) -> usize
        ensures len { result ≡ length self.now }
        ensures small { result < 2 ^ 63 }
    {
        1024 * self.pieces.len() + self.tail.len()
    }

    /// The rows, where none of them stands in a piece.
    pub fn as_rows(&self) -> Option<&[Row]>
        ensures { IfSome result (λ rows. rows.now ≡ self.now) }
    {
        if self.pieces.is_empty() {
            Some(self.tail.as_slice())
        } else {
            None
        }
    }

    /// The same rows once more: those in pieces share their columns, and the others are copied.
    pub fn share(&self, alloc: Global) -> Result<NewRows, AllocError>
        ensures { IfOk result (λ rows. rows ≡ self.now) }
    {
        let pieces = shared(alloc, &self.pieces)?;
        let tail = copied(alloc, &self.tail)?;
        Ok(NewRows { pieces, tail })
    }

    /// Copies of all rows.
    pub fn copies(&self, alloc: Global) -> Result<Vec<Row>, AllocError>
        ensures { IfOk result (λ rows. rows.items ≡ self.now) }
    {
        let mut rows = Vec::new(alloc);
        for piece in &self.pieces {
            let columns = piece.columns();
            for place in 0..columns.len() {
                rows.push(columns.row(place).to_row(alloc)?)?;
            }
        }
        for row in &self.tail {
            rows.push(copy_row(alloc, row.as_slice())?)?;
        }
        Ok(rows)
    }

    /// All rows as rows. Where some stand in pieces, they are copies.
    pub fn into_rows(self, alloc: Global) -> Result<Vec<Row>, AllocError>
        ensures { IfOk result (λ rows. rows.items ≡ self) }
    {
        if self.pieces.is_empty() {
            return Ok(self.tail);
        }
        self.copies(alloc)
    }

    /// What they are made of, where it stands: pieces, each of 1,024 rows without a mark, and the rows behind them.
    pub fn as_parts(&self) -> (&[Piece], &[Row])
        ensures rows { rows_of (joined result.0.now) ++ result.1.now ≡ self.now }
        ensures whole { AreWhole result.0.now }
        ensures fresh { NoneMarked (joined result.0.now) }
        ensures small { length (joined result.0.now) + length result.1.now < 2 ^ 63 }
    {
        (self.pieces.as_slice(), self.tail.as_slice())
    }

    /// The pieces, each of 1,024 rows without a mark, and the rows behind them.
    pub fn into_parts(self) -> (Vec<Piece>, Vec<Row>)
        ensures rows { rows_of (joined result.0.items) ++ result.1.items ≡ self }
        ensures whole { AreWhole result.0.items }
        ensures fresh { NoneMarked (joined result.0.items) }
    {
        (self.pieces, self.tail)
    }
}

/// The same pieces once more, which share their columns.
fn shared(alloc: Global, pieces: &[Piece]) -> Result<Vec<Piece>, AllocError>
    ensures { IfOk result (λ shared. shared.items ≡ pieces.now) }
{
    let mut shared = Vec::with_capacity(alloc, pieces.len())?;
    for piece in pieces {
        shared.push(piece.share()?)?;
    }
    Ok(shared)
}

/// Copies of the rows.
fn copied(alloc: Global, rows: &[Row]) -> Result<Vec<Row>, AllocError>
    ensures { IfOk result (λ copies. copies.items ≡ rows.now) }
{
    let mut copies = Vec::with_capacity(alloc, rows.len())?;
    for row in rows {
        copies.push(copy_row(alloc, row.as_slice())?)?;
    }
    Ok(copies)
}
