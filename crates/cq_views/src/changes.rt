//! What a write changes in a table, cut to the columns that a query reads.
//!
//! A [`TableChange`] lends the rows that leave a table and those that come to it. It is made anew for each view that takes
//! the write in and reads the table; the view copies the columns of them that it reads. For no other view is it made.
ghost use Rattle.std.specs.Prelude.{◌≡◌, IfOk, OnOk, length, nat_abs};
ghost use Rattle.cq_deltas_joins.specs.Sources.{rows_at};
ghost use Rattle.cq_segments_pieces.specs.Rows.{stored_rows};
ghost use Rattle.cq_views.specs.Changes.{StaysInRange, changes_of, exchanged};
ghost use Rattle.cq_views.specs.Cut.{AreCut, IsCut, PutsCut};

use crate::cutting::entry_of;
use cq_deltas_joins::SourceRows;
use cq_model::Source;
use cq_segments_pieces::StoredRow;
use cq_sides_weights::Weights;
use cq_views_columns::SourceColumns;
use std::alloc::{AllocError, Global};

/// For how many rows room is made at once.
const ROOM: usize = 1_024;

/// What a write changes in the table of a number: the rows that leave it and those that come to it, where they are stored.
/// They are lent, and each view copies the columns of them that it reads.
#[derive(Clone, Copy)]
pub struct TableChange<'a> {
    pub table: u64,
    pub gone: &'a [StoredRow<'a>],
    pub come: &'a [StoredRow<'a>],
}

/// The change of the table, cut to the columns of its entry. Where it has no entry, nothing changes.
pub(crate) fn cut_change(
    alloc: Global,
    columns: &[SourceColumns],
    change: &TableChange<'_>,
) -> Result<Vec<SourceRows>, AllocError>
    ensures { IfOk result (λ v. AreCut columns.now (changes_of change.now) (rows_at v.items)) }
{
    let source = Source::Table(change.table);
    match entry_of(columns, source) {
        None => Ok(Vec::new(alloc)),
        Some(entry) => {
            let rows = cut_rows(alloc, entry.columns.as_slice(), change.gone, change.come)?;
            let mut all = Vec::new(alloc);
            all.push(SourceRows { source, rows })?;
            Ok(all)
        }
    }
}

/// Rows that go and rows that come, cut to columns. Those that become one row count together.
fn cut_rows(
    alloc: Global,
    columns: &[usize],
    gone: &[StoredRow],
    come: &[StoredRow],
) -> Result<Weights, AllocError>
    ensures { IfOk result (IsCut columns.now (exchanged (stored_rows gone.now) (stored_rows come.now))) }
{
    let mut cut = Weights::new(alloc);
    cut.reserve(gone.len().saturating_add(come.len()).min(ROOM))?;
    put_cut(alloc, columns, gone, -1, &mut cut)?;
    put_cut(alloc, columns, come, 1, &mut cut)?;
    let _len = cut.len();
    Ok(cut)
}

/// Each of the rows with a weight of one, cut to columns: one time more, or one time less.
fn put_cut(
    alloc: Global,
    columns: &[usize],
    rows: &[StoredRow],
    weight: i128,
    cut: &mut Weights,
) -> Result<(), AllocError>
    requires one { nat_abs weight ≡ 1 }
    requires range { StaysInRange (length rows.now) cut.old.entries }
    ensures { OnOk result (PutsCut columns.now weight (stored_rows rows.now) cut.old cut.new) }
{
    for row in rows {
        cut.add(row.cut(alloc, columns)?, weight)?;
    }
    Ok(())
}
