//! Rows of a table that were built once, column by column.
//!
//! `build` sorts rows and encodes each of their columns once; after it only `mark` changes the segment. `pieces` lends
//! 1,024 rows at a time for readers, `gather_at` copies a column of some rows, and `may_match` says by the `bounds` of a
//! column whether a scan may skip it all. To build costs a sort and some steps a value; `mark`, `is_marked` and `lend`
//! cost some steps, `marked_len` one step a piece; none of these takes memory.
ghost use Rattle.std.specs.Bool.{OnFalse};
ghost use Rattle.std.specs.Prelude.{IfOk, [], false, length, slice_index_or, ◌<◌, ◌≡◌, ◌≤◌};
ghost use Rattle.std.specs.List.{All};
ghost use Rattle.cq_encodings_vectors.specs.Places.{AreBelow, rows_at};
ghost use Rattle.cq_encodings_numbers.specs.Bounds.{AreBoundsOf};
ghost use Rattle.cq_segments.specs.ColumnTest.{NoneMatches};
ghost use Rattle.cq_segments_pieces.specs.Columns.{AreWide};
ghost use Rattle.cq_segments.specs.InOrder.{rows_in_order};
ghost use Rattle.cq_segments_pieces.specs.Marked.{marked_count, marks_of, rows_of, unmarked, with_mark};
ghost use Rattle.cq_segments_pieces.specs.Pieces.{joined};
ghost use Rattle.cq_segments_pieces.specs.Rows.{row_of, stored_rows};
ghost use Rattle.cq_segments.specs.Sorted.{IsBuilt};
ghost use Rattle.cq_values.specs.Lent.{owned};
ghost use Rattle.cq_values.specs.Value.{column as value_of};
ghost use Rattle.cq_vectors.specs.Gathered.{column_of};

use crate::building::{encode_columns, make_pieces};
use crate::column_test::ColumnTest;
use crate::held_bounds::HeldBounds;
use crate::in_order::InOrder;
use crate::sorting::sorted;
use cq_encodings::AnyEncoded;
use cq_encodings_numbers::Bounds;
use cq_encodings_vectors::column_at;
use cq_segments_pieces::{Columns, Piece, StoredRow};
use cq_values::Lent;
use cq_vectors::{Form, Vector};
use std::alloc::{AllocError, Global};
use std::marker::Model;
use std::rc::Rc;

/// At least one row and at most 65,536, all of one width, each with its mark.
#[derive(Drop)]
pub struct Segment {
    /// The columns of all rows, which the pieces share.
    encoded: Rc<Vec<AnyEncoded>>,
    pieces: Vec<Piece>,
    bounds: Vec<HeldBounds>,
}

impl Model for Segment {
    ghost use Rattle.std.specs.Prelude.{List};
    ghost use Rattle.cq_segments_pieces.specs.Marked.{MarkedRow};
    ghost use Rattle.cq_segments_pieces.specs.Pieces.{joined};
    ghost use Rattle.cq_segments.specs.Segment.{IsSegment};

    ghost Value = { List MarkedRow };

    ghost view = { λ s. joined s.pieces.items };

    ghost invariant = { λ s. IsSegment s.encoded.value.items s.pieces.items s.bounds.items };
}

impl Segment {
    /// Copies of these rows in the order of the sort columns, without a mark. Equal ones stay as given.
    pub fn build(
        alloc: Global,
        rows: &[StoredRow<'_>],
        width: usize,
        sort: &[usize],
    ) -> Result<Segment, AllocError>
        requires some { 0 < length rows.now }
        requires few { length rows.now ≤ 65536 }
        requires wide { AreWide width (stored_rows rows.now) }
        ensures { IfOk result (IsBuilt (stored_rows rows.now) sort.now) }
    {
        let count = rows.len();
        let sorted = InOrder::Rows(sorted(alloc, rows, sort)?);
        let built = Segment::encode(alloc, &sorted, count, width)?;
        Ok(built)
    }

    /// Copies of the rows of pieces in their order, those with a mark too, without a mark.
    pub fn of_pieces(alloc: Global, pieces: &[Piece], width: usize) -> Result<Segment, AllocError>
        requires some { 0 < length (joined pieces.now) }
        requires few { length (joined pieces.now) ≤ 65536 }
        requires wide { AreWide width (rows_of (joined pieces.now)) }
        ensures { IfOk result (IsBuilt (rows_of (joined pieces.now)) []) }
    {
        let mut len = 0;
        for piece in pieces {
            len += piece.len();
        }
        let built = Segment::encode(alloc, &InOrder::Pieces(pieces), len, width)?;
        Ok(built)
    }

    /// Copies of rows without a mark.
    fn encode(
        alloc: Global,
        rows: &InOrder<'_>,
        len: usize,
        width: usize,
    ) -> Result<Segment, AllocError>
        requires len { len ≡ length (rows_in_order rows.now) }
        requires some { 0 < len }
        requires few { len ≤ 65536 }
        requires wide { AreWide width (rows_in_order rows.now) }
        ensures { IfOk result (λ s. s ≡ unmarked (rows_in_order rows.now)) }
    {
        let (encoded, bounds) = encode_columns(alloc, rows, width)?;
        let shared = Rc::new(alloc, encoded)?;
        let pieces = make_pieces(alloc, shared.clone()?, len)?;
        Ok(Segment {
            encoded: shared,
            pieces,
            bounds,
        })
    }

    pub fn len(&self) -> usize
        ensures len { result ≡ length self.now }
        ensures some { 0 < result }
        ensures few { result ≤ 65536 }
    {
        let last = self.pieces.len() - 1;
        1024 * last + self.pieces[last].len()
    }

    /// How many values each row has.
    pub fn width(&self) -> usize
        ensures { All (λ row. length row ≡ result) (rows_of self.now) }
    {
        self.bounds.len()
    }

    /// How many rows have a mark.
    pub fn marked_len(&self) -> usize
        ensures len { result ≡ marked_count self.now }
        ensures few { result ≤ length self.now }
    {
        let mut count = 0;
        for piece in &self.pieces {
            count += piece.marked_len();
        }
        count
    }

    /// The rows, 1,024 to a piece.
    pub fn pieces(&self) -> &[Piece]
        ensures rows { joined result.now ≡ self.now }
        ensures some { 0 < length result.now }
    {
        self.pieces.as_slice()
    }

    /// The columns in which a row stands, and its place there.
    pub fn at(&self, place: usize) -> (&Columns, u16)
        requires { place < length self.now }
        ensures { slice_index_or result.0.now result.1 [] ≡ slice_index_or (rows_of self.now) place [] }
    {
        let piece = &self.pieces[place / 1024];
        (piece.columns(), (place % 1024) as u16)
    }

    /// The row at a place, where it stands.
    pub fn row(&self, place: usize) -> StoredRow<'_>
        requires { place < length self.now }
        ensures { row_of result ≡ slice_index_or (rows_of self.now) place [] }
    {
        self.pieces[place / 1024].columns().row(place % 1024)
    }

    /// The values of a column in the rows at some places, of any piece.
    pub fn gather_at(
        &self,
        alloc: Global,
        places: &[u16],
        column: usize,
    ) -> Result<Vector<'_>, AllocError>
        requires few { length places.now ≤ 1024 }
        requires there { AreBelow (length self.now) places.now }
        ensures { IfOk result (λ v. v ≡ column_of (rows_at (rows_of self.now) places.now) column) }
    {
        match self.encoded.as_ref().get(column) {
            Some(encoded) => column_at(alloc, encoded, places),
            None => Ok(Vector::new(Form::Constant(Lent::Null, places.len()))),
        }
    }

    pub fn is_marked(&self, place: usize) -> bool
        requires { place < length self.now }
        ensures { result ≡ slice_index_or (marks_of self.now) place false }
    {
        self.pieces[place / 1024].is_marked(place % 1024)
    }

    /// Marks a row. One that has a mark keeps it.
    pub fn mark(&mut self, place: usize)
        requires { place < length self.old }
        ensures { self.new ≡ with_mark place self.old }
    {
        self.pieces[place / 1024].mark(place % 1024);
    }

    /// The value of a column in the row at a place, and NULL where there is none.
    pub fn lend(&self, place: usize, column: usize) -> Lent<'_>
        requires { place < length self.now }
        ensures { owned result ≡ value_of (slice_index_or (rows_of self.now) place []) column }
    {
        self.pieces[place / 1024]
            .columns()
            .lend(place % 1024, column)
    }

    /// The bounds of a column, over marked rows too.
    pub fn bounds(&self, column: usize) -> Bounds<'_>
        ensures { AreBoundsOf result (column_of (rows_of self.now) column) }
    {
        match self.bounds.get(column) {
            Some(bounds) => bounds.lend(),
            None => Bounds {
                has_null: true,
                ends: None,
            },
        }
    }

    /// Whether a row may make the test True. By `false` a scan may skip the segment, and no row is lost.
    pub fn may_match(&self, test: &ColumnTest<'_>) -> bool
        ensures skips_no_match { OnFalse result (NoneMatches test.now (rows_of self.now)) }
    {
        let Bounds { has_null, ends } = self.bounds(test.column());
        test.may_hold(&Bounds { has_null, ends })
    }
}
