//! Segments of pieces as they stand: where no order is asked for, no row is looked at by itself.
ghost use Rattle.std.specs.Prelude.{[], IfOk, length, ◌*◌, ◌<◌, ◌≡◌, ◌≤◌};
ghost use Rattle.cq_segments_pieces.specs.Columns.{AreWide};
ghost use Rattle.cq_segments_pieces.specs.Marked.{rows_of};
ghost use Rattle.cq_segments_pieces.specs.Pieces.{joined};
ghost use Rattle.cq_table.specs.Whole.{AreWholeFirst, BuiltBefore, first_rows};

use crate::table::Layout;
use cq_segments::Segment;
use cq_segments_pieces::Piece;
use std::alloc::{AllocError, Global};

/// How many segments of so many rows can be built of the first pieces as they stand: none where an order is asked for.
pub(crate) fn count_whole(pieces: &[Piece], count: usize, layout: &Layout) -> usize
    ensures whole { AreWholeFirst pieces.now (64 * result) }
    ensures few { 65536 * result ≤ count }
    ensures unsorted { 0 < result → layout.now.sort ≡ [] }
{
    if !layout.sort.is_empty() {
        return 0;
    }
    (whole_pieces(pieces) / 64).min(count / 65536)
}

/// How many of the first pieces have 1,024 rows each and no mark.
fn whole_pieces(pieces: &[Piece]) -> usize
    ensures { AreWholeFirst pieces.now result }
{
    let mut count = 0;
    for piece in pieces {
        if piece.len() < 1024 || !piece.is_whole() {
            return count;
        }
        count += 1;
    }
    count
}

/// A segment of each 64 of the first pieces, so many times.
pub(crate) fn build_whole(
    alloc: Global,
    pieces: &[Piece],
    count: usize,
    layout: &Layout,
) -> Result<Vec<Segment>, AllocError>
    requires whole { AreWholeFirst pieces.now (64 * count) }
    requires unsorted { 0 < count → layout.now.sort ≡ [] }
    requires wide { AreWide (length layout.now.columns) (rows_of (joined pieces.now)) }
    ensures { IfOk result (λ m. BuiltBefore layout.now.sort (first_rows (64 * count) pieces.now) m.items) }
{
    let width = layout.columns.len();
    let mut made = Vec::new(alloc);
    for k in 0..count {
        let here = &pieces[64 * k..64 * k + 64];
        made.push(Segment::of_pieces(alloc, here, width)?)?;
    }
    Ok(made)
}
