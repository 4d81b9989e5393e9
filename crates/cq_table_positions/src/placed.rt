//! Rows at some places of a segment.
//!
//! What passes in a source that stands in one segment is `of` its places there, and so is what a join finds of it. `at`
//! and `at_each` keep some of these, and `gather` gives a column of them. It costs two bytes a row; no row is copied.
ghost use Rattle.std.specs.Prelude.{◌≡◌, ◌≤◌, IfOk, length};
ghost use Rattle.cq_encodings_vectors.specs.Places.{AreBelow, rows_at};
ghost use Rattle.cq_segments_pieces.specs.Marked.{rows_of};
ghost use Rattle.cq_segments_pieces.specs.Rows.{stored_rows};
ghost use Rattle.cq_vectors.specs.Gathered.{column_of};

use crate::places::copies_each;
use cq_encodings_vectors::copies_at;
use cq_segments::Segment;
use cq_segments_pieces::StoredRow;
use cq_vectors::Vector;
use std::alloc::{AllocError, Global};
use std::marker::Model;

/// The rows at some places of a segment, with a mark or without: one may come again.
#[derive(Drop)]
pub struct Placed<'a> {
    segment: &'a Segment,
    places: Vec<u16>,
}

impl<'a> Model for Placed<'a> {
    ghost use Rattle.std.specs.Prelude.{List, length};
    ghost use Rattle.cq_values.specs.Value.{Row as Values};
    ghost use Rattle.cq_encodings_vectors.specs.Places.{AreBelow, rows_at};
    ghost use Rattle.cq_segments_pieces.specs.Marked.{rows_of};

    ghost Value = { List Values };

    ghost view = { λ p. rows_at (rows_of p.segment.now) p.places.items };

    ghost invariant = { λ p. AreBelow (length p.segment.now) p.places.items };
}

impl<'a> Placed<'a> {
    /// Those at these places.
    pub fn of(segment: &'a Segment, places: Vec<u16>) -> Placed<'a>
        requires { AreBelow (length segment.now) places.items }
        ensures { result ≡ rows_at (rows_of segment.now) places.items }
    {
        Placed { segment, places }
    }

    /// The same once more, where no row is copied.
    pub fn copy(&self, alloc: Global) -> Result<Placed<'a>, AllocError>
        ensures { IfOk result (λ placed. placed ≡ self.now) }
    {
        let places = self.places.to_vec(alloc)?;
        Ok(Placed::of(self.segment, places))
    }

    pub fn len(&self) -> usize
        ensures { result ≡ length self.now }
    {
        self.places.len()
    }

    /// The values of a column, where a row that is too short has NULL.
    pub fn gather(&self, alloc: Global, column: usize) -> Result<Vector<'a>, AllocError>
        requires { length self.now ≤ 1024 }
        ensures { IfOk result (λ vector. vector ≡ column_of self.now column) }
    {
        self.segment.gather_at(alloc, &self.places, column)
    }

    /// Those of them that stand at some places.
    pub fn at(&self, alloc: Global, places: &[u16]) -> Result<Placed<'a>, AllocError>
        requires { AreBelow (length self.now) places.now }
        ensures { IfOk result (λ placed. placed ≡ rows_at self.now places.now) }
    {
        let places = copies_at(alloc, &self.places, places)?;
        Ok(Placed::of(self.segment, places))
    }

    /// The same by places of any size.
    pub fn at_each(&self, alloc: Global, places: &[usize]) -> Result<Placed<'a>, AllocError>
        requires { AreBelow (length self.now) places.now }
        ensures { IfOk result (λ placed. placed ≡ rows_at self.now places.now) }
    {
        let places = copies_each(alloc, &self.places, places)?;
        Ok(Placed::of(self.segment, places))
    }

    /// All of them, one by one.
    pub fn rows(&self, alloc: Global) -> Result<Vec<StoredRow<'a>>, AllocError>
        ensures { IfOk result (λ rows. stored_rows rows.items ≡ self.now) }
    {
        segment_at(alloc, self.segment, &self.places)
    }
}

/// The rows of a segment at some places.
fn segment_at<'a>(
    alloc: Global,
    segment: &'a Segment,
    places: &[u16],
) -> Result<Vec<StoredRow<'a>>, AllocError>
    requires { AreBelow (length segment.now) places.now }
    ensures { IfOk result (λ f. stored_rows f.items ≡ rows_at (rows_of segment.now) places.now) }
{
    let mut found: Vec<StoredRow<'a>> = Vec::new(alloc);
    found.reserve(places.len())?;
    for place in places {
        found.push_reserved(segment.row(usize::from(*place)));
    }
    Ok(found)
}
