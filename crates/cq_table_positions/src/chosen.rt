//! Rows at some places of a front.
//!
//! What a condition keeps of a front is `of` its places; `at` keeps some of these, and `gather` gives a column of them.
//! It costs two bytes a row; no row is copied. Places count all rows that stand there, so that marks are read once.
ghost use Rattle.std.specs.Prelude.{◌≡◌, ◌≤◌, IfOk, length};
ghost use Rattle.cq_encodings_vectors.specs.Places.{AreBelow, rows_at};
ghost use Rattle.cq_segments_pieces.specs.Rows.{stored_rows};
ghost use Rattle.cq_table_columns.specs.Stored.{front_rows};
ghost use Rattle.cq_vectors.specs.Gathered.{column_of};

use cq_encodings_vectors::copies_at;
use cq_segments_pieces::StoredRow;
use cq_table_columns::{Front, gather};
use cq_vectors::Vector;
use std::alloc::{AllocError, Global};
use std::marker::Model;

/// The rows at some places of a front.
#[derive(Drop)]
pub struct Chosen<'a> {
    front: Front<'a>,
    places: Vec<u16>,
}

impl<'a> Model for Chosen<'a> {
    ghost use Rattle.std.specs.Prelude.{List, length};
    ghost use Rattle.cq_values.specs.Value.{Row as Values};
    ghost use Rattle.cq_encodings_vectors.specs.Places.{AreBelow, rows_at};
    ghost use Rattle.cq_table_columns.specs.Stored.{front_rows};

    ghost Value = { List Values };

    ghost view = { λ c. rows_at (front_rows c.front) c.places.items };

    ghost invariant = { λ c. AreBelow (length (front_rows c.front)) c.places.items };
}

impl<'a> Chosen<'a> {
    /// Those at these places.
    pub fn of(alloc: Global, front: &Front<'a>, places: &[u16]) -> Result<Chosen<'a>, AllocError>
        requires { AreBelow (length (front_rows front.now)) places.now }
        ensures { IfOk result (λ chosen. chosen ≡ rows_at (front_rows front.now) places.now) }
    {
        let places = front.places_at(alloc, places)?;
        Ok(Chosen::new(front.with_all(), places))
    }

    /// The same once more, where no row is copied.
    pub fn copy(&self, alloc: Global) -> Result<Chosen<'a>, AllocError>
        ensures { IfOk result (λ chosen. chosen ≡ self.now) }
    {
        Chosen::of(alloc, &self.front, &self.places)
    }

    pub fn len(&self) -> usize
        ensures { result ≡ length self.now }
    {
        self.places.len()
    }

    /// The values of a column, where a row that is too short has NULL.
    pub fn gather(&self, alloc: Global, column: usize) -> Result<Vector<'a>, AllocError>
        requires { length self.now ≤ 1024 }
        ensures { IfOk result (λ vector. vector ≡ column_of self.now column) }
    {
        gather_chosen(alloc, &self.front, &self.places, column)
    }

    /// Those of them that stand at some places.
    pub fn at(&self, alloc: Global, places: &[u16]) -> Result<Chosen<'a>, AllocError>
        requires { AreBelow (length self.now) places.now }
        ensures { IfOk result (λ chosen. chosen ≡ rows_at self.now places.now) }
    {
        let places = copies_at(alloc, &self.places, places)?;
        Ok(Chosen::new(self.front, places))
    }

    /// All of them, one by one.
    pub fn rows(&self, alloc: Global) -> Result<Vec<StoredRow<'a>>, AllocError>
        ensures { IfOk result (λ rows. stored_rows rows.items ≡ self.now) }
    {
        self.front.rows_at(alloc, &self.places)
    }

    fn new(front: Front<'a>, places: Vec<u16>) -> Chosen<'a>
        requires { AreBelow (length (front_rows front)) places.items }
        ensures { result ≡ rows_at (front_rows front.entry) places.items }
    {
        Chosen { front, places }
    }
}

/// The values of a column in the rows at some places of a front.
fn gather_chosen<'a>(
    alloc: Global,
    front: &Front<'a>,
    places: &[u16],
    column: usize,
) -> Result<Vector<'a>, AllocError>
    requires few { length places.now ≤ 1024 }
    requires there { AreBelow (length (front_rows front.now)) places.now }
    ensures { IfOk result (λ v. v ≡ column_of (rows_at (front_rows front.now) places.now) column) }
{
    match front {
        Front::Columns(columns) => columns.gather_at(alloc, places, column),
        _ => {
            let rows = front.rows_at(alloc, places)?;
            gather(alloc, &rows, column)
        }
    }
}
