//! Rows at the front of a source.
//!
//! A front lends the live rows of a piece of a segment or of the write store: `row` and `rows` one by one, and `gather` a
//! column of them as a vector. Where a row has a mark, `live_places` tells where the others stand, and `span` how many
//! stand there with it. To find one live row costs a step a row before it, all of them one step each.
ghost use Rattle.std.specs.List.{range_with_len};
ghost use Rattle.std.specs.Prelude.{◌<◌, ◌≡◌, ◌≤◌, IfOk, IfSome, [], length, slice_index_or, take};
ghost use Rattle.cq_segments_pieces.specs.Marked.{live, live_from, rows_of};
ghost use Rattle.cq_encodings_vectors.specs.Places.{AreBelow, rows_at};
ghost use Rattle.cq_segments_pieces.specs.Rows.{row_of, stored_rows};
ghost use Rattle.cq_table_columns.specs.Stored.{StandAt, front_rows, marked_rows};
ghost use Rattle.cq_vectors.specs.Gathered.{column_of};
ghost use Rattle.cq_writestore.specs.Writes.{tail_rows};

use crate::gathering::gather;
use cq_encodings_vectors::copies_at;
use cq_segments_pieces::{Columns, Piece, StoredRow};
use cq_values::Row;
use cq_vectors::Vector;
use cq_writestore::WrittenFront;
use std::alloc::{AllocError, Global};

/// Rows at the front of a source, where they are stored: at most 1,024 where they were split off.
#[derive(Clone, Copy)]
pub enum Front<'a> {
    /// They stand in a list.
    Rows(&'a [Row]),
    /// They stand in columns.
    Columns(&'a Columns),
    /// They stand in a piece, and some of its rows may have a mark.
    Marked(&'a Piece),
    /// They stand at the end of the write store, and some of its rows may have a mark.
    Written(WrittenFront<'a>),
}

impl<'a> Front<'a> {
    /// All rows of a piece.
    pub fn of_piece(piece: &'a Piece) -> Front<'a>
        ensures stored { marked_rows result ≡ piece.now }
        ensures rows { front_rows result ≡ live piece.now }
        ensures some { 0 < length piece.now }
        ensures few { length piece.now ≤ 1024 }
    {
        let _count = piece.len();
        if piece.is_whole() {
            Front::Columns(piece.columns())
        } else {
            Front::Marked(piece)
        }
    }

    /// The first rows of the tail of a write store.
    pub fn of_written(written: WrittenFront<'a>) -> Front<'a>
        ensures stored { marked_rows result ≡ tail_rows written.entry.written }
        ensures rows { front_rows result ≡ live (tail_rows written.entry.written) }
    {
        if written.is_whole() {
            Front::Rows(written.rows())
        } else {
            Front::Written(written)
        }
    }

    pub fn len(&self) -> usize
        ensures { result ≡ length (front_rows self.now) }
    {
        match self {
            Front::Rows(rows) => rows.len(),
            Front::Columns(columns) => columns.len(),
            Front::Marked(piece) => piece.live_len(),
            Front::Written(written) => written.live_len(),
        }
    }

    /// How many rows stand there, with a mark or without.
    pub fn span(&self) -> usize
        ensures { result ≡ length (marked_rows self.now) }
    {
        match self {
            Front::Rows(rows) => rows.len(),
            Front::Columns(columns) => columns.len(),
            Front::Marked(piece) => piece.len(),
            Front::Written(written) => written.rows().len(),
        }
    }

    /// The places of the rows without a mark among those that stand there, rising.
    pub fn live_places(&self, alloc: Global) -> Result<Vec<u16>, AllocError>
        requires { length (marked_rows self.now) ≤ 1024 }
        ensures { IfOk result (λ places. places.items ≡ live_from 0 (marked_rows self.now)) }
    {
        match self {
            Front::Rows(rows) => first_places(alloc, rows.len()),
            Front::Columns(columns) => first_places(alloc, columns.len()),
            Front::Marked(piece) => piece.live_places(alloc),
            Front::Written(written) => written.live_places(alloc),
        }
    }

    /// The row at a place.
    pub fn row(&self, place: usize) -> StoredRow<'a>
        requires { place < length (front_rows self.now) }
        ensures { row_of result ≡ slice_index_or (front_rows self.now) place [] }
    {
        match self {
            Front::Rows(rows) => StoredRow::Alone(row_at(*rows, place)),
            Front::Columns(columns) => columns.row(place),
            Front::Marked(piece) => piece.columns().row(piece.live_place(place)),
            Front::Written(written) => {
                StoredRow::Alone(row_at(written.rows(), written.live_place(place)))
            }
        }
    }

    /// All of the rows.
    pub fn rows(&self, alloc: Global) -> Result<Vec<StoredRow<'a>>, AllocError>
        ensures { IfOk result (λ rows. stored_rows rows.items ≡ front_rows self.now) }
    {
        match self {
            Front::Rows(rows) => lend_rows(alloc, *rows),
            Front::Columns(columns) => lend_columns(alloc, *columns),
            Front::Marked(piece) => {
                let places = piece.live_places(alloc)?;
                Front::Columns(piece.columns()).rows_at(alloc, &places)
            }
            Front::Written(written) => {
                let places = written.live_places(alloc)?;
                Front::Rows(written.rows()).rows_at(alloc, &places)
            }
        }
    }

    /// The rows at some places.
    pub fn rows_at(&self, alloc: Global, places: &[u16]) -> Result<Vec<StoredRow<'a>>, AllocError>
        requires { AreBelow (length (front_rows self.now)) places.now }
        ensures { IfOk result (λ f. stored_rows f.items ≡ rows_at (front_rows self.now) places.now) }
    {
        let mut found: Vec<StoredRow<'a>> = Vec::new(alloc);
        found.reserve(places.len())?;
        for place in places {
            found.push_reserved(self.row(usize::from(*place)));
        }
        Ok(found)
    }

    /// Those of the rows that are among so many that stand there first, with a mark or without.
    pub(crate) fn first_live(
        &self,
        alloc: Global,
        count: usize,
    ) -> Result<Vec<StoredRow<'a>>, AllocError>
        requires { length (marked_rows self.now) ≤ 1024 }
        ensures { IfOk result (λ r. stored_rows r.items ≡ live (take count (marked_rows self.now))) }
    {
        let places = self.live_places(alloc)?;
        let len = len_below(&places, count);
        self.with_all().rows_at(alloc, &places[..len])
    }

    /// The values of a column, where a row that is too short has NULL.
    pub fn gather(&self, alloc: Global, column: usize) -> Result<Vector<'a>, AllocError>
        requires { length (front_rows self.now) ≤ 1024 }
        ensures { IfOk result (λ vector. vector ≡ column_of (front_rows self.now) column) }
    {
        match self {
            Front::Rows(rows) => Vector::gather(alloc, *rows, column),
            Front::Columns(columns) => columns.gather(alloc, column),
            Front::Marked(piece) => {
                let places = piece.live_places(alloc)?;
                piece.columns().gather_at(alloc, &places, column)
            }
            Front::Written(_) => {
                let rows = self.rows(alloc)?;
                gather(alloc, &rows, column)
            }
        }
    }

    /// The rows that stand there, as if none had a mark.
    pub fn with_all(&self) -> Front<'a>
        ensures { front_rows result ≡ rows_of (marked_rows self.now) }
    {
        match self {
            Front::Rows(rows) => Front::Rows(*rows),
            Front::Columns(columns) => Front::Columns(*columns),
            Front::Marked(piece) => Front::Columns(piece.columns()),
            Front::Written(written) => Front::Rows(written.rows()),
        }
    }

    /// The columns in which the rows stand, with a mark or without, where they stand in columns.
    pub fn columns(&self) -> Option<&'a Columns>
        ensures { IfSome result (λ c. c.now ≡ rows_of (marked_rows self.now)) }
    {
        match self {
            Front::Columns(columns) => Some(*columns),
            Front::Marked(piece) => Some(piece.columns()),
            Front::Rows(_) | Front::Written(_) => None,
        }
    }

    /// Where the live rows at these places stand among all that stand there.
    pub fn places_at(&self, alloc: Global, places: &[u16]) -> Result<Vec<u16>, AllocError>
        requires { AreBelow (length (front_rows self.now)) places.now }
        ensures rows { IfOk result (λ p. StandAt self.now places.now p.items) }
        ensures there { IfOk result (λ p. AreBelow (length (marked_rows self.now)) p.items) }
    {
        match self {
            Front::Rows(_) => places.to_vec(alloc),
            Front::Columns(_) => places.to_vec(alloc),
            Front::Marked(piece) => {
                let live = piece.live_places(alloc)?;
                copies_at(alloc, &live, places)
            }
            Front::Written(written) => {
                let live = written.live_places(alloc)?;
                copies_at(alloc, &live, places)
            }
        }
    }
}

/// How many of the first places are below an end.
fn len_below(places: &[u16], end: usize) -> usize
    ensures few { result ≤ length places.now }
    ensures below { AreBelow end (take result places.now) }
    ensures next { result < length places.now → end ≤ slice_index_or places.now result 0 }
{
    let mut len = 0;
    for place in places {
        if usize::from(*place) >= end {
            return len;
        }
        len += 1;
    }
    len
}

fn first_places(alloc: Global, len: usize) -> Result<Vec<u16>, AllocError>
    requires { len ≤ 1024 }
    ensures { IfOk result (λ places. places.items ≡ range_with_len 0 len) }
{
    let mut places: Vec<u16> = Vec::new(alloc);
    places.reserve(len)?;
    for place in 0..len {
        places.push_reserved(place as u16);
    }
    Ok(places)
}

fn row_at<'a>(rows: &'a [Row], place: usize) -> &'a Row
    requires { place < length rows.now }
    ensures { result.now ≡ slice_index_or rows.now place [] }
{
    &rows[place]
}

fn lend_rows<'a>(alloc: Global, rows: &'a [Row]) -> Result<Vec<StoredRow<'a>>, AllocError>
    ensures { IfOk result (λ lent. stored_rows lent.items ≡ rows.now) }
{
    let mut lent: Vec<StoredRow<'a>> = Vec::new(alloc);
    lent.reserve(rows.len())?;
    for row in rows {
        lent.push_reserved(StoredRow::Alone(row));
    }
    Ok(lent)
}

fn lend_columns<'a>(alloc: Global, columns: &'a Columns) -> Result<Vec<StoredRow<'a>>, AllocError>
    ensures { IfOk result (λ lent. stored_rows lent.items ≡ columns.now) }
{
    let mut lent: Vec<StoredRow<'a>> = Vec::new(alloc);
    lent.reserve(columns.len())?;
    for place in 0..columns.len() {
        lent.push_reserved(columns.row(place));
    }
    Ok(lent)
}
