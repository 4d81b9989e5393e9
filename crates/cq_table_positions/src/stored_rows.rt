//! Rows where they are stored.
//!
//! What a scan goes on with: rows of a list, a whole front, or some places of one or of a segment. `gather` gives a column
//! as a vector, `at` keeps the rows at some places, and `into_rows` lists them. Of a front a column is read as it stands,
//! and no call copies a value that it does not give.
ghost use Rattle.std.specs.Prelude.{◌≡◌, ◌≤◌, IfOk, IfSome, length};
ghost use Rattle.cq_encodings_vectors.specs.Places.{AreBelow, rows_at};
ghost use Rattle.cq_segments_pieces.specs.Rows.{stored_rows};
ghost use Rattle.cq_table_positions.specs.Rows.{rows_in};
ghost use Rattle.cq_table_columns.specs.Stored.{front_rows};
ghost use Rattle.cq_vectors.specs.Gathered.{column_of};

use crate::chosen::Chosen;
use crate::placed::Placed;
use crate::places::{are_all, lent_at};
use cq_segments_pieces::StoredRow;
use cq_table_columns::{Front, gather};
use cq_vectors::Vector;
use std::alloc::{AllocError, Global};

/// Rows where they are stored: those of a list, those of a front, or those at some places of a front or of a segment.
#[derive(Drop)]
pub enum StoredRows<'a> {
    Listed(Vec<StoredRow<'a>>),
    Front(Front<'a>),
    Chosen(Chosen<'a>),
    Placed(Placed<'a>),
}

impl<'a> StoredRows<'a> {
    pub fn len(&self) -> usize
        ensures { result ≡ length (rows_in self.now) }
    {
        match self {
            StoredRows::Listed(rows) => rows.len(),
            StoredRows::Front(front) => front.len(),
            StoredRows::Chosen(chosen) => chosen.len(),
            StoredRows::Placed(placed) => placed.len(),
        }
    }

    /// The values of a column, where a row that is too short has NULL.
    pub fn gather(&self, alloc: Global, column: usize) -> Result<Vector<'a>, AllocError>
        requires { length (rows_in self.now) ≤ 1024 }
        ensures { IfOk result (λ vector. vector ≡ column_of (rows_in self.now) column) }
    {
        match self {
            StoredRows::Listed(rows) => gather(alloc, rows, column),
            StoredRows::Front(front) => front.gather(alloc, column),
            StoredRows::Chosen(chosen) => chosen.gather(alloc, column),
            StoredRows::Placed(placed) => placed.gather(alloc, column),
        }
    }

    /// Those at some places. All of a front stay where they are.
    pub fn at(&self, alloc: Global, places: &[u16]) -> Result<StoredRows<'a>, AllocError>
        requires { AreBelow (length (rows_in self.now)) places.now }
        ensures { IfOk result (λ rows. rows_in rows ≡ rows_at (rows_in self.now) places.now) }
    {
        match self {
            StoredRows::Listed(rows) => Ok(StoredRows::Listed(lent_at(alloc, rows, places)?)),
            StoredRows::Front(front) => match all_of(front, places) {
                Some(all) => Ok(StoredRows::Front(all)),
                None => Ok(StoredRows::Chosen(Chosen::of(alloc, front, places)?)),
            },
            StoredRows::Chosen(chosen) => Ok(StoredRows::Chosen(chosen.at(alloc, places)?)),
            StoredRows::Placed(placed) => Ok(StoredRows::Placed(placed.at(alloc, places)?)),
        }
    }

    /// The same once more. Of a front or a segment no row is copied.
    pub fn copy(&self, alloc: Global) -> Result<StoredRows<'a>, AllocError>
        ensures { IfOk result (λ rows. rows_in rows ≡ rows_in self.now) }
    {
        match self {
            StoredRows::Listed(rows) => {
                let mut copied: Vec<StoredRow<'a>> = Vec::new(alloc);
                copied.extend_from_slice(rows)?;
                Ok(StoredRows::Listed(copied))
            }
            StoredRows::Front(front) => Ok(StoredRows::Front(*front)),
            StoredRows::Chosen(chosen) => Ok(StoredRows::Chosen(chosen.copy(alloc)?)),
            StoredRows::Placed(placed) => Ok(StoredRows::Placed(placed.copy(alloc)?)),
        }
    }

    /// A list of them: no new one where they stand in one.
    pub fn into_rows(self, alloc: Global) -> Result<Vec<StoredRow<'a>>, AllocError>
        ensures { IfOk result (λ rows. stored_rows rows.items ≡ rows_in self.entry) }
    {
        match self {
            StoredRows::Listed(rows) => Ok(rows),
            StoredRows::Front(front) => front.rows(alloc),
            StoredRows::Chosen(chosen) => chosen.rows(alloc),
            StoredRows::Placed(placed) => placed.rows(alloc),
        }
    }
}

/// The rows of a front at some places, where it stands in columns and these are all of them.
fn all_of<'a>(front: &Front<'a>, places: &[u16]) -> Option<Front<'a>>
    ensures { IfSome result (λ all. front_rows all ≡ rows_at (front_rows front.now) places.now) }
{
    match front {
        Front::Columns(columns) => if are_all(places, columns.len()) {
            Some(Front::Columns(*columns))
        } else {
            None
        },
        _ => None,
    }
}
