//! Segments that are built of rows.
ghost use Rattle.std.specs.Prelude.{IfOk, length, take, ◌≡◌, ◌≤◌};
ghost use Rattle.cq_segments_pieces.specs.Columns.{AreWide};
ghost use Rattle.cq_segments_pieces.specs.Marked.{live, rows_of};
ghost use Rattle.cq_segments_pieces.specs.Rows.{stored_rows};
ghost use Rattle.cq_table.specs.Changes.{AreBuilt};
ghost use Rattle.cq_table.specs.Table.{live_front};
ghost use Rattle.cq_writestore.specs.Writes.{written_rows};

use crate::table::Layout;
use crate::whole::{build_whole, count_whole};
use cq_segments::Segment;
use cq_segments_pieces::StoredRow;
use cq_table_columns::Stored;
use cq_writestore::Written;
use std::alloc::{AllocError, Global};

/// Segments of the live ones among the first rows of a source. No row is copied before it is encoded.
pub(crate) fn build_front(
    alloc: Global,
    rows: &Stored<'_>,
    count: usize,
    layout: &Layout,
) -> Result<Vec<Segment>, AllocError>
    requires { AreWide (length layout.now.columns) (live_front count rows.now) }
    ensures { IfOk result (λ made. AreBuilt layout.now.sort (live_front count rows.now) made.items) }
{
    let live = rows.first_live(alloc, count)?;
    build_all(alloc, &live, layout)
}

/// The same of the first rows of a write store, of which so many have no mark. Pieces are taken as they stand for as
/// long as they are whole, where no order is asked for.
pub(crate) fn build_written(
    alloc: Global,
    written: &Written<'_>,
    live_len: usize,
    count: usize,
    layout: &Layout,
) -> Result<Vec<Segment>, AllocError>
    requires wide { AreWide (length layout.now.columns) (rows_of (written_rows written.now)) }
    requires live { live_len ≡ length (live (written_rows written.now)) }
    requires count { count ≤ length (written_rows written.now) }
    ensures { IfOk result (λ m. AreBuilt layout.now.sort (live (take count (written_rows written.now))) m.items) }
{
    let whole = count_whole(written.pieces, count, layout);
    let mut made = build_whole(alloc, written.pieces, whole, layout)?;
    let rest = Stored::new(&[], written.behind(64 * whole), live_len - 65536 * whole);
    let mut more = build_front(alloc, &rest, count - 65536 * whole, layout)?;
    made.append(&mut more)?;
    Ok(made)
}

/// Segments of rows as they stand, 65,536 to each but the last.
fn build_all(
    alloc: Global,
    rows: &[StoredRow<'_>],
    layout: &Layout,
) -> Result<Vec<Segment>, AllocError>
    requires { AreWide (length layout.now.columns) (stored_rows rows.now) }
    ensures { IfOk result (λ made. AreBuilt layout.now.sort (stored_rows rows.now) made.items) }
{
    let (width, sort) = (layout.columns.len(), layout.sort.as_slice());
    let mut made = Vec::new(alloc);
    let mut from = 0;
    while from < rows.len() {
        let end = from + (rows.len() - from).min(65536);
        made.push(Segment::build(alloc, &rows[from..end], width, sort)?)?;
        from = end;
    }
    Ok(made)
}
