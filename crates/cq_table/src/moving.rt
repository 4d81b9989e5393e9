//! Rows of a table that go on to segments.
//!
//! A move step takes the first rows of the write store to new segments, and drops those with a mark; a merge step makes
//! all segments anew of their live rows. Both build segments of 65,536 rows, and a last one of those that are left, and
//! then put in what they built: where one refuses, the table is as it was. No row of the bag changes. A move costs its
//! rows, and a merge all rows of the segments; each lends the live ones, at two words a row, before it builds. Where no
//! order is asked for, a move takes whole pieces as they stand.
ghost use Rattle.std.specs.Prelude.{◌≡◌, ◌<◌, ◌≤◌, ◌*◌, ◌+◌, ◌^◌, OnErr, OnOk, length, min};
ghost use Rattle.cq_segments_pieces.specs.Marked.{marked_count};
ghost use Rattle.cq_segments_pieces.specs.Pieces.{joined};
ghost use Rattle.cq_table.specs.Changes.{Merges, MergesCounts, Moves, MovesCounts};
ghost use Rattle.cq_table.specs.Table.{table_rows};

use crate::building::{build_front, build_written};
use crate::table::Table;
use cq_segments::Segment;
use cq_segments_pieces::widened;
use cq_table_columns::Stored;
use cq_writestore::Written;
use std::alloc::{AllocError, Global};

impl Table {
    /// Takes so many rows from the front of the write store to segments, or all where there are fewer.
    pub fn move_step(&mut self, alloc: Global, count: u128) -> Result<(), AllocError>
        ensures ok { OnOk result (Moves count self.old self.new) }
        ensures counts { OnOk result (MovesCounts count self.old self.new) }
        ensures bag { table_rows self.new ≡ table_rows self.old }
        ensures err { OnErr result (self.new ≡ self.old) }
    {
        let count = at_most(count, self.written.len());
        counted_places(alloc, self.segments.as_slice(), count)?;
        let live = self.written.len() - self.written.marked_len();
        let mut made = build_written(alloc, &self.written.rows(), live, count, &self.layout)?;
        self.segments.append(&mut made)?;
        self.written.take_front(count);
        Ok(())
    }

    /// Makes the segments anew of their live rows, so that none of these has a mark.
    pub fn merge_step(&mut self, alloc: Global) -> Result<(), AllocError>
        ensures ok { OnOk result (Merges self.old self.new) }
        ensures counts { OnOk result (MergesCounts self.old self.new) }
        ensures bag { table_rows self.new ≡ table_rows self.old }
        ensures err { OnErr result (self.new ≡ self.old) }
    {
        let live = self.live - (self.written.len() - self.written.marked_len());
        let rows = Stored::new(self.segments.as_slice(), Written::of(&[]), live);
        let count = count_rows(self.segments.as_slice());
        let made = build_front(alloc, &rows, count, &self.layout)?;
        self.segments = made;
        Ok(())
    }
}

/// Refuses more places of stored rows than can be counted, for which there is no room: those of segments and of the
/// write store, each fewer than half of them.
fn counted_places(alloc: Global, segments: &[Segment], more: usize) -> Result<(), AllocError>
    requires old { length (joined segments.now) < 2 ^ 63 }
    requires more { more < 2 ^ 63 }
    ensures counted { OnOk result (length (joined segments.now) + more < 2 ^ 63) }
    ensures refused { OnErr result (2 ^ 63 ≤ length (joined segments.now) + more) }
{
    let places = count_rows(segments) + more;
    widened(alloc, places, places)?;
    Ok(())
}

/// How many rows the segments have, those with a mark too.
fn count_rows(segments: &[Segment]) -> usize
    requires { length (joined segments.now) < 2 ^ 63 }
    ensures { result ≡ length (joined segments.now) }
{
    let mut count = 0;
    for segment in segments {
        count += segment.len();
    }
    count
}

/// How many rows of the segments have a mark.
pub(crate) fn count_marks(segments: &[Segment]) -> usize
    requires { length (joined segments.now) < 2 ^ 63 }
    ensures { result ≡ marked_count (joined segments.now) }
{
    let mut count = 0;
    for segment in segments {
        count += segment.marked_len();
    }
    count
}

fn at_most(count: u128, all: usize) -> usize
    ensures { result ≡ min count all }
{
    if count < all as u128 {
        count as usize
    } else {
        all
    }
}
