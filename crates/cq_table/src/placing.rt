//! Stored rows by their places, of which those of the segments come first, one segment behind the other.
ghost use Rattle.std.specs.Prelude.{◌++◌, ◌+◌, ◌≡◌, ◌<◌, IfOk, [], length, map, slice_index_or};
ghost use Rattle.cq_segments_pieces.specs.Pieces.{joined};
ghost use Rattle.cq_segments_pieces.specs.Rows.{row_of};
ghost use Rattle.cq_table.specs.Found.{AreThere};
ghost use Rattle.cq_table.specs.Placing.{AreRowsAt, MarksRow, MarksRows, row_stored_at};
ghost use Rattle.cq_table.specs.Reached.{HasReached, IsReached};
ghost use Rattle.cq_writestore.specs.Writes.{written_rows};

use cq_segments::Segment;
use cq_segments_pieces::StoredRow;
use cq_writestore::{WriteStore, Written};
use std::alloc::{AllocError, Global};

/// A segment, and how many rows those before it have. Behind the last segment comes the write store.
#[derive(Clone, Copy)]
pub(crate) struct Reached {
    pub(crate) segment: usize,
    pub(crate) before: usize,
}

/// Marks the rows at these places.
pub(crate) fn mark_all(segments: &mut Vec<Segment>, written: &mut WriteStore, places: &[usize])
    requires { AreThere places.now (joined segments.old.items ++ written.old.rows) }
    ensures stored { MarksRows places.now segments.old written.old segments.new written.new }
    ensures segments { map length segments.new.items ≡ map length segments.old.items }
    ensures written { length written.new.rows ≡ length written.old.rows }
{
    let mut reached = Reached {
        segment: 0,
        before: 0,
    };
    for place in places {
        reached = reach(segments, reached, *place);
        mark_at(segments, written, reached, *place);
    }
}

/// The rows at these places, marked or not.
pub(crate) fn rows_at<'a>(
    alloc: Global,
    segments: &'a [Segment],
    written: Written<'a>,
    places: &[usize],
) -> Result<Vec<StoredRow<'a>>, AllocError>
    requires { AreThere places.now (joined segments.now ++ written_rows written) }
    ensures { IfOk result (λ f. AreRowsAt segments.now written.entry places.now f.items) }
{
    let mut rows: Vec<StoredRow<'a>> = Vec::new(alloc);
    rows.reserve(places.len())?;
    let mut reached = Reached {
        segment: 0,
        before: 0,
    };
    for place in places {
        reached = reach(segments, reached, *place);
        rows.push_reserved(row_at(segments, written, reached, *place));
    }
    Ok(rows)
}

/// The segment in which a place stands. It looks on from one that was reached before: places that rise cost one pass
/// over the segments.
fn reach(segments: &[Segment], from: Reached, place: usize) -> Reached
    requires { IsReached segments.now from }
    ensures reached { IsReached segments.now result }
    ensures there { HasReached segments.now place result }
{
    let mut reached = from;
    if place < reached.before {
        reached = Reached {
            segment: 0,
            before: 0,
        };
    }
    while reached.segment < segments.len() {
        let len = segments[reached.segment].len();
        if place - reached.before < len {
            return reached;
        }
        reached = Reached {
            segment: reached.segment + 1,
            before: reached.before + len,
        };
    }
    reached
}

fn mark_at(segments: &mut Vec<Segment>, written: &mut WriteStore, reached: Reached, place: usize)
    requires reached { IsReached segments.old.items reached }
    requires there { HasReached segments.old.items place reached }
    requires within { place < length (joined segments.old.items ++ written.old.rows) }
    ensures stored { MarksRow place segments.old written.old segments.new written.new }
    ensures segments { map length segments.new.items ≡ map length segments.old.items }
    ensures written { length written.new.rows ≡ length written.old.rows }
{
    let at = place - reached.before;
    if reached.segment < segments.len() {
        segments[reached.segment].mark(at);
    } else {
        written.mark(at);
    }
}

fn row_at<'a>(
    segments: &'a [Segment],
    written: Written<'a>,
    reached: Reached,
    place: usize,
) -> StoredRow<'a>
    requires reached { IsReached segments.now reached }
    requires there { HasReached segments.now place reached }
    requires within { place < length (joined segments.now ++ written_rows written) }
    ensures { row_of result ≡ row_stored_at segments.now written.entry place }
{
    let at = place - reached.before;
    if reached.segment < segments.len() {
        let (columns, at) = segments[reached.segment].at(at);
        StoredRow::InColumns(columns, at)
    } else {
        written.at(at)
    }
}
