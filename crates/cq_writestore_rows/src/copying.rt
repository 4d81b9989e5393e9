//! Rows that are copied, many of them into columns.
//!
//! `of_stored` copies rows from where they stand. `in_columns` and `share_in` do so with rows that came as rows; `share_in`
//! leaves these as they are. From 1,024 rows on copies stand in columns, where each row takes the room of its values alone:
//! so are rows kept that may stay for long.
ghost use Rattle.std.specs.Bool.{OnTrue};
ghost use Rattle.std.specs.Prelude.{IfOk, length, ◌≡◌};
ghost use Rattle.cq_segments_pieces.specs.Columns.{AreWide};
ghost use Rattle.cq_segments_pieces.specs.Rows.{stored_rows};

use crate::filling::Filling;
use crate::new_rows::NewRows;
use cq_segments_pieces::StoredRow;
use cq_values::{ColumnDef, Row};
use std::alloc::{AllocError, Global};

impl NewRows {
    /// Copies of stored rows. Many of them stand in columns, where each has a value for each of these.
    pub fn of_stored(
        alloc: Global,
        columns: &[ColumnDef],
        rows: &[StoredRow<'_>],
    ) -> Result<NewRows, AllocError>
        ensures { IfOk result (λ new. new ≡ stored_rows rows.now) }
    {
        if rows.len() < 1024 || !are_wide(columns.len(), rows) {
            return Ok(NewRows::of(copies(alloc, rows)?));
        }
        filled(alloc, columns, rows)
    }

    /// The same rows. Many that came as rows are copied into these columns, and given up.
    pub fn in_columns(self, alloc: Global, columns: &[ColumnDef]) -> Result<NewRows, AllocError>
        ensures { IfOk result (λ rows. rows ≡ self) }
    {
        match self.as_rows() {
            Some(rows) if 1024 <= rows.len() => copied_in(alloc, columns, rows),
            _ => Ok(self),
        }
    }

    /// The same rows once more, as `share` gives them, but that many which came as rows are copied into these columns.
    pub fn share_in(&self, alloc: Global, columns: &[ColumnDef]) -> Result<NewRows, AllocError>
        ensures { IfOk result (λ rows. rows ≡ self.now) }
    {
        match self.as_rows() {
            Some(rows) if 1024 <= rows.len() => copied_in(alloc, columns, rows),
            _ => self.share(alloc),
        }
    }
}

/// Copies of rows of a list.
fn copied_in(alloc: Global, columns: &[ColumnDef], rows: &[Row]) -> Result<NewRows, AllocError>
    ensures { IfOk result (λ new. new ≡ rows.now) }
{
    let stored = stored_in(alloc, rows)?;
    NewRows::of_stored(alloc, columns, &stored)
}

/// The rows of a list, where they stand.
fn stored_in(alloc: Global, rows: &[Row]) -> Result<Vec<StoredRow<'_>>, AllocError>
    ensures { IfOk result (λ stored. stored_rows stored.items ≡ rows.now) }
{
    let mut stored = Vec::with_capacity(alloc, rows.len())?;
    for row in rows {
        stored.push(StoredRow::Alone(row))?;
    }
    Ok(stored)
}

/// Whether each of the rows has so many values.
fn are_wide(width: usize, rows: &[StoredRow<'_>]) -> bool
    ensures { OnTrue result (AreWide width (stored_rows rows.now)) }
{
    for row in rows {
        if row.len() != width {
            return false;
        }
    }
    true
}

/// Copies of the rows in columns.
fn filled(
    alloc: Global,
    columns: &[ColumnDef],
    rows: &[StoredRow<'_>],
) -> Result<NewRows, AllocError>
    requires { AreWide (length columns.now) (stored_rows rows.now) }
    ensures { IfOk result (λ new. new ≡ stored_rows rows.now) }
{
    let mut filling = Filling::new(alloc, columns)?;
    for row in rows {
        filling.push_row(row)?;
    }
    filling.finish()
}

/// Copies of the rows.
pub fn copies(alloc: Global, rows: &[StoredRow<'_>]) -> Result<Vec<Row>, AllocError>
    ensures { IfOk result (λ copies. copies.items ≡ stored_rows rows.now) }
{
    let mut copies = Vec::with_capacity(alloc, rows.len())?;
    for row in rows {
        copies.push(row.to_row(alloc)?)?;
    }
    Ok(copies)
}
