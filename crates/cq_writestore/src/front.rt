//! The first rows of a tail.
//!
//! `Tail::split_front` gives one. Each call goes over its marks; only `live_places` takes memory.
ghost use Rattle.std.specs.Prelude.{length, ◌≤◌};

use crate::tail::Tail;
use cq_values::Row;
use std::alloc::{AllocError, Global};

/// At most 1,024 rows in order of insertion, each with its mark.
#[derive(Clone, Copy)]
pub struct WrittenFront<'a> {
    pub(crate) written: Tail<'a>,
    ghost few: { length written.rows.now ≤ 1024 },
}

impl<'a> WrittenFront<'a> {
    ghost use Rattle.std.specs.Bool.{OnTrue};
    ghost use Rattle.std.specs.Prelude.{IfOk, slice_index_or, ◌<◌, ◌≡◌};
    ghost use Rattle.cq_segments_pieces.specs.Marked.{live, live_from, rows_of, unmarked};
    ghost use Rattle.cq_writestore.specs.Writes.{tail_rows};
    ghost use Rattle.cq_writestore_rows.specs.NewRows.{NoneMarked};

    pub(crate) fn new(written: Tail<'a>) -> WrittenFront<'a>
        requires { length written.rows.now ≤ 1024 }
        ensures { result.written ≡ written.entry }
    {
        WrittenFront { written }
    }

    /// The rows, with a mark or without.
    pub fn rows(&self) -> &'a [Row]
        ensures rows { result.now ≡ rows_of (tail_rows self.now.written) }
        ensures few { length result.now ≤ 1024 }
    {
        self.written.rows
    }

    /// Whether no row has a mark.
    pub fn is_whole(&self) -> bool
        ensures { OnTrue result (NoneMarked (tail_rows self.now.written)) }
    {
        self.written.live_len() == self.written.len()
    }

    /// How many rows have no mark.
    pub fn live_len(&self) -> usize
        ensures { result ≡ length (live (tail_rows self.now.written)) }
    {
        self.written.live_len()
    }

    /// The place of a row without a mark, where such rows are counted from 0.
    pub fn live_place(&self, count: usize) -> usize
        requires { count < length (live (tail_rows self.now.written)) }
        ensures there { result < length (tail_rows self.now.written) }
        ensures place { result ≡ slice_index_or (live_from 0 (tail_rows self.now.written)) count 0 }
    {
        let mut left = count;
        for place in 0..self.written.len() {
            if !self.written.is_marked(place) {
                if left == 0 {
                    return place;
                }
                left -= 1;
            }
        }
        0
    }

    /// The places of the rows without a mark, rising.
    pub fn live_places(&self, alloc: Global) -> Result<Vec<u16>, AllocError>
        ensures { IfOk result (λ places. places.items ≡ live_from 0 (tail_rows self.now.written)) }
    {
        let mut places: Vec<u16> = Vec::new(alloc);
        places.reserve(self.written.len())?;
        for place in 0..self.written.len() {
            if !self.written.is_marked(place) {
                places.push_reserved(place as u16);
            }
        }
        Ok(places)
    }
}
