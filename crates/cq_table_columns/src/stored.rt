//! All rows of a source where they are stored.
//!
//! `new` and `of` lend the rows of a table or of a list; those of a table that have a mark are passed over. A reader
//! takes `split_front` until nothing is left: at most 1,024 rows at a time, in the order of the one list that they are.
//! Who counts the rows with a mark too takes `split_piece`, or `first_live`, which alone takes memory; `split_segment`
//! passes a segment that need not be read, and `only_segment` tells where all stand in one. All of it is copied freely.
ghost use Rattle.std.specs.Prelude.{IfOk, IfSome, length, take, ◌++◌, ◌≡◌};
ghost use Rattle.cq_segments_pieces.specs.Marked.{live};
ghost use Rattle.cq_segments_pieces.specs.Pieces.{joined};
ghost use Rattle.cq_writestore.specs.Writes.{written_rows};

use crate::front::Front;
use cq_segments::Segment;
use cq_segments_pieces::{Piece, StoredRow};
use cq_values::Row;
use cq_writestore::Written;
use std::alloc::{AllocError, Global};

/// Rows of a source where they are stored: first those in segments, and then those of the write store.
#[derive(Clone, Copy)]
pub struct Stored<'a> {
    pub(crate) pieces: &'a [Piece],
    pub(crate) segments: &'a [Segment],
    pub(crate) written: Written<'a>,
    pub(crate) count: usize,
    ghost counted: { count ≡ length (live (joined pieces.now ++ joined segments.now ++ written_rows written)) },
}

impl<'a> Stored<'a> {
    ghost use Rattle.cq_segments_pieces.specs.Rows.{row_of, stored_rows};
    ghost use Rattle.cq_writestore.specs.Writes.{FewerLeft};
    ghost use Rattle.std.specs.Option.{option_map};
    ghost use Rattle.std.specs.Prelude.{◌<◌, ◌≤◌, ◌↔◌, [], IsTrue, slice_get};
    ghost use Rattle.cq_table_columns.specs.Stored.{HasPieceOrTail, IsTail, all_rows, front_rows, marked_rows, stored_marked};

    /// Rows that stand in a list.
    pub fn of(rows: &'a [Row]) -> Stored<'a>
        ensures { all_rows result ≡ rows.now }
    {
        Stored {
            pieces: &[],
            segments: &[],
            written: Written::of(rows),
            count: rows.len(),
        }
    }

    /// Rows in segments, and those behind them of a write store, of which so many have no mark.
    pub fn new(segments: &'a [Segment], written: Written<'a>, count: usize) -> Stored<'a>
        requires { count ≡ length (live (joined segments.now ++ written_rows written)) }
        ensures stored { stored_marked result ≡ joined segments.now ++ written_rows written.entry }
        ensures rows { all_rows result ≡ live (joined segments.now ++ written_rows written.entry) }
    {
        Stored {
            pieces: &[],
            segments,
            written,
            count,
        }
    }

    pub fn len(&self) -> usize
        ensures { result ≡ length (all_rows self.now) }
    {
        self.count
    }

    pub fn is_empty(&self) -> bool
        ensures { IsTrue result ↔ (all_rows self.now ≡ []) }
    {
        self.count == 0
    }

    /// The first row.
    pub fn first(&self) -> Option<StoredRow<'a>>
        ensures { option_map row_of result ≡ slice_get (all_rows self.now) 0 }
    {
        if self.is_empty() {
            return None;
        }
        Some(self.split_front().0.row(0))
    }

    /// The rows at its front, at most 1,024, and those behind them.
    pub fn split_front(&self) -> (Front<'a>, Stored<'a>)
        ensures parts { all_rows self.now ≡ front_rows result.0 ++ all_rows result.1 }
        ensures few { length (front_rows result.0) ≤ 1024 }
        ensures less { FewerLeft (all_rows self.now) (all_rows result.1) }
    {
        let (mut front, mut rest) = self.split_piece();
        while front.len() == 0 && !rest.is_empty() {
            let (next, behind) = rest.split_piece();
            front = next;
            rest = behind;
        }
        (front, rest)
    }

    /// The live rows among so many that come first, where rows with a mark are counted too.
    pub fn first_live(&self, alloc: Global, count: usize) -> Result<Vec<StoredRow<'a>>, AllocError>
        ensures { IfOk result (λ r. stored_rows r.items ≡ live (take count (stored_marked self.now))) }
    {
        let mut rows: Vec<StoredRow<'a>> = Vec::new(alloc);
        let (mut left, mut more) = (*self, count);
        while more > 0 && !left.is_empty() {
            let (front, rest) = left.split_piece();
            rows.append(&mut front.first_live(alloc, more)?)?;
            more = more.saturating_sub(front.span());
            left = rest;
        }
        Ok(rows)
    }

    /// The segment that comes next, and the rows behind it: none inside of a segment, where all of its rows have a
    /// mark, and in the write store.
    pub fn split_segment(&self) -> Option<(&'a Segment, Stored<'a>)>
        ensures parts { IfSome result (λ s. stored_marked self.now ≡ s.0.now ++ stored_marked s.1) }
        ensures rows { IfSome result (λ s. all_rows self.now ≡ live s.0.now ++ all_rows s.1) }
        ensures some { IfSome result (λ s. 0 < length (live s.0.now)) }
    {
        if !self.pieces.is_empty() {
            return None;
        }
        let (segment, segments) = self.segments.split_first()?;
        let live = segment.len() - segment.marked_len();
        if live == 0 {
            return None;
        }
        let rest = Stored {
            pieces: &[],
            segments,
            written: self.written,
            count: self.count - live,
        };
        Some((segment, rest))
    }

    /// The segment in which all of the rows stand: none where the first pieces of it are gone, and where no row is left.
    pub fn only_segment(&self) -> Option<&'a Segment>
        ensures { IfSome result (λ s. all_rows self.now ≡ live s.now) }
    {
        let (segment, rest) = self.split_segment()?;
        if rest.is_empty() { Some(segment) } else { None }
    }

    /// The rows of the first piece, at most 1,024 that stand there, and those behind them. Each of them may have a mark.
    pub fn split_piece(&self) -> (Front<'a>, Stored<'a>)
        ensures parts { stored_marked self.now ≡ marked_rows result.0 ++ stored_marked result.1 }
        ensures rows { all_rows self.now ≡ front_rows result.0 ++ all_rows result.1 }
        ensures few { length (marked_rows result.0) ≤ 1024 }
        ensures less { FewerLeft (stored_marked self.now) (stored_marked result.1) }
    {
        let source = self.entered();
        match source.pieces.split_first() {
            Some((piece, pieces)) => {
                let front = Front::of_piece(piece);
                let rest = Stored {
                    pieces,
                    segments: source.segments,
                    written: source.written,
                    count: source.count - front.len(),
                };
                (front, rest)
            }
            None => source.split_tail(),
        }
    }

    /// The same of rows that stand at the end of the write store.
    fn split_tail(&self) -> (Front<'a>, Stored<'a>)
        requires { IsTail self.now }
        ensures parts { stored_marked self.now ≡ marked_rows result.0 ++ stored_marked result.1 }
        ensures rows { all_rows self.now ≡ front_rows result.0 ++ all_rows result.1 }
        ensures few { length (marked_rows result.0) ≤ 1024 }
        ensures less { FewerLeft (stored_marked self.now) (stored_marked result.1) }
    {
        let (front, tail) = self.written.tail.split_front();
        let front = Front::of_written(front);
        let rest = Stored {
            pieces: &[],
            segments: &[],
            written: Written::of_tail(tail),
            count: self.count - front.len(),
        };
        (front, rest)
    }

    /// The same rows with the pieces that come next: none only where what is left stands in no piece.
    fn entered(&self) -> Stored<'a>
        ensures same { stored_marked result ≡ stored_marked self.now }
        ensures next { HasPieceOrTail result }
    {
        let (segments, written, count) = (self.segments, self.written, self.count);
        if !self.pieces.is_empty() {
            return *self;
        }
        match segments.split_first() {
            Some((segment, segments)) => Stored {
                pieces: segment.pieces(),
                segments,
                written,
                count,
            },
            None => Stored {
                pieces: written.pieces,
                segments,
                written: Written::of_tail(written.tail),
                count,
            },
        }
    }
}
