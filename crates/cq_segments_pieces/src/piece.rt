//! A piece of a segment, or of the rows that are not yet in one.
//!
//! It is made of the columns of its rows, none of which has a mark; `mark` sets one, and none is taken back. `columns`
//! and `marks` lend what it is made of, and `live_places` lists the places without a mark. `cut_front` drops rows at the
//! front. A mark costs some steps a word of the plane, a cut its rows; how many rows are live is known at once.
ghost use Rattle.std.specs.Bool.{OnTrue};
ghost use Rattle.std.specs.Prelude.{IfOk, drop, false, length, slice_index_or, take, ◌<◌, ◌≡◌, ◌≤◌};
ghost use Rattle.cq_segments_pieces.specs.Columns.{AreColumns, columns_in, encoded_rows};
ghost use Rattle.cq_segments_pieces.specs.Marked.{live, live_from, marked_count, marks_of, rows_of, unmarked, with_mark};

use crate::columns::Columns;
use crate::marking::{drop_flags, set_flag};
use cq_encodings::AnyEncoded;
use cq_vectors_masks::Plane;
use std::alloc::{AllocError, Global};
use std::marker::Model;
use std::rc::Rc;

/// At least one row and at most 1,024, each with its mark.
#[derive(Drop)]
pub struct Piece {
    columns: Columns,
    marks: Plane,
    marked: usize,
}

impl Model for Piece {
    ghost use Rattle.std.specs.Prelude.{List};
    ghost use Rattle.cq_segments_pieces.specs.Marked.{AreCounted, MarkedRow, with_flags};

    ghost Value = { List MarkedRow };

    ghost view = { λ p. with_flags p.columns p.marks };

    ghost invariant = { λ p. AreCounted p.columns p.marks p.marked };
}

impl Piece {
    /// Rows without a mark.
    pub fn of(columns: Columns) -> Piece
        ensures { result ≡ unmarked columns }
    {
        let mut marks = Plane::new();
        marks.set_all(false, columns.len());
        Piece {
            columns,
            marks,
            marked: 0,
        }
    }

    /// The rows of encoded columns, without a mark.
    pub fn of_columns(
        alloc: Global,
        encoded: Vec<AnyEncoded>,
        len: usize,
    ) -> Result<Piece, AllocError>
        requires { AreColumns (columns_in encoded.items) len }
        ensures { IfOk result (λ p. p ≡ unmarked (encoded_rows encoded.items len)) }
    {
        let columns = Columns::of(Rc::new(alloc, encoded)?, 0, len);
        Ok(Piece::of(columns))
    }

    /// The same rows with the same marks. Both share the columns, and neither the marks of the other.
    pub fn share(&self) -> Result<Piece, AllocError>
        ensures { IfOk result (λ p. p ≡ self.now) }
    {
        let columns = self.columns.share()?;
        let mut marks = Plane::new();
        marks.set_copy(&self.marks);
        Ok(Piece {
            columns,
            marks,
            marked: self.marked,
        })
    }

    /// All of its rows, with a mark or without.
    pub fn columns(&self) -> &Columns
        ensures { result.now ≡ rows_of self.now }
    {
        &self.columns
    }

    /// The mark of each row.
    pub fn marks(&self) -> &Plane
        ensures { result.now ≡ marks_of self.now }
    {
        &self.marks
    }

    pub fn len(&self) -> usize
        ensures len { result ≡ length self.now }
        ensures some { 0 < result }
        ensures few { result ≤ 1024 }
    {
        self.columns.len()
    }

    /// How many rows have a mark.
    pub fn marked_len(&self) -> usize
        ensures len { result ≡ marked_count self.now }
        ensures few { result ≤ length self.now }
    {
        self.marked
    }

    /// How many have none.
    pub fn live_len(&self) -> usize
        ensures { result ≡ length (live self.now) }
    {
        self.columns.len() - self.marked
    }

    /// Whether no row has a mark.
    pub fn is_whole(&self) -> bool
        ensures { OnTrue result (self.now ≡ unmarked (rows_of self.now)) }
    {
        self.marked == 0
    }

    pub fn is_marked(&self, place: usize) -> bool
        requires { place < length self.now }
        ensures { result ≡ slice_index_or (marks_of self.now) place false }
    {
        let _count = self.columns.len();
        self.marks.get(place)
    }

    /// Marks a row. One that has a mark keeps it.
    pub fn mark(&mut self, place: usize)
        requires { place < length self.old }
        ensures { self.new ≡ with_mark place self.old }
    {
        let _count = self.columns.len();
        if !self.marks.get(place) {
            set_flag(&mut self.marks, place);
            self.marked += 1;
        }
    }

    /// Drops the first rows, with their marks.
    pub fn cut_front(&mut self, count: usize)
        requires { count < length self.old }
        ensures { self.new ≡ drop count self.old }
    {
        let gone = self.marked_before(count);
        self.columns.cut_front(count);
        drop_flags(&mut self.marks, count);
        self.marked -= gone;
    }

    /// How many of the first rows have a mark.
    fn marked_before(&self, end: usize) -> usize
        requires { end ≤ length self.now }
        ensures { result ≡ marked_count (take end self.now) }
    {
        let _count = self.columns.len();
        let mut marked = 0;
        for place in 0..end {
            if self.marks.get(place) {
                marked += 1;
            }
        }
        marked
    }

    /// The place of a row without a mark, where such rows are counted from 0.
    pub fn live_place(&self, count: usize) -> usize
        requires { count < length (live self.now) }
        ensures there { result < length self.now }
        ensures place { result ≡ slice_index_or (live_from 0 self.now) count 0 }
    {
        let mut left = count;
        for place in 0..self.columns.len() {
            if !self.marks.get(place) {
                if left == 0 {
                    return place;
                }
                left -= 1;
            }
        }
        0
    }

    /// The places of the rows without a mark, rising.
    pub fn live_places(&self, alloc: Global) -> Result<Vec<u16>, AllocError>
        ensures { IfOk result (λ places. places.items ≡ live_from 0 self.now) }
    {
        let mut places: Vec<u16> = Vec::new(alloc);
        places.reserve(self.columns.len())?;
        for place in 0..self.columns.len() {
            if !self.marks.get(place) {
                places.push_reserved(place as u16);
            }
        }
        Ok(places)
    }
}
