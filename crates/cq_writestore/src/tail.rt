//! Rows in order of insertion, lent with their marks.
//!
//! A reader takes `split_front` until nothing is left: at most 1,024 rows at a time. No call takes memory.

use crate::front::WrittenFront;
use cq_values::Row;

/// Rows in order of insertion, each with its mark. Those past the last mark have none.
#[derive(Clone, Copy)]
pub struct Tail<'a> {
    pub rows: &'a [Row],
    pub marks: &'a [bool],
}

impl<'a> Tail<'a> {
    ghost use Rattle.std.specs.Bool.{OnTrue};
    ghost use Rattle.std.specs.Prelude.{false, drop, length, slice_index_or, take, ◌++◌, ◌<◌, ◌≡◌, ◌≤◌};
    ghost use Rattle.cq_segments_pieces.specs.Marked.{live, unmarked};
    ghost use Rattle.cq_writestore.specs.Writes.{tail_rows, FewerLeft};

    /// Rows of a list, none of which has a mark.
    pub fn of(rows: &'a [Row]) -> Tail<'a>
        ensures { tail_rows result ≡ unmarked rows.now }
    {
        Tail { rows, marks: &[] }
    }

    pub fn len(&self) -> usize
        ensures { result ≡ length (tail_rows self.now) }
    {
        self.rows.len()
    }

    /// Whether the row at a place has a mark.
    pub fn is_marked(&self, place: usize) -> bool
        ensures { result ≡ slice_index_or self.now.marks.now place false }
    {
        match self.marks.get(place) {
            Some(mark) => *mark,
            None => false,
        }
    }

    /// How many rows have no mark.
    pub fn live_len(&self) -> usize
        ensures { result ≡ length (live (tail_rows self.now)) }
    {
        let mut count = 0;
        for place in 0..self.rows.len() {
            if !self.is_marked(place) {
                count += 1;
            }
        }
        count
    }

    /// The first rows, at most 1,024, and those behind them.
    pub fn split_front(&self) -> (WrittenFront<'a>, Tail<'a>)
        ensures parts { tail_rows self.now ≡ tail_rows result.0.written ++ tail_rows result.1 }
        ensures few { length (tail_rows result.0.written) ≤ 1024 }
        ensures less { FewerLeft (tail_rows self.now) (tail_rows result.1) }
    {
        let (front, rest) = self.split_at(self.rows.len().min(1024));
        (WrittenFront::new(front), rest)
    }

    /// The first rows, and those behind them.
    pub fn split_at(&self, mid: usize) -> (Tail<'a>, Tail<'a>)
        requires { mid ≤ length (tail_rows self.now) }
        ensures front { tail_rows result.0 ≡ take mid (tail_rows self.now) }
        ensures back { tail_rows result.1 ≡ drop mid (tail_rows self.now) }
    {
        let (rows, marks) = (self.rows, self.marks);
        let (rows, more_rows) = rows.split_at(mid);
        let (marks, more_marks) = marks.split_at(mid.min(marks.len()));
        (
            Tail { rows, marks },
            Tail {
                rows: more_rows,
                marks: more_marks,
            },
        )
    }
}
