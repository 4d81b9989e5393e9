//! Rows of tables that are cut to the columns that a query reads, and taken in, some at a time.
ghost use Rattle.std.specs.Prelude.{◌≡◌, ◌≤◌, IfOk, OnOk, length};
ghost use Rattle.cq_deltas_joins.specs.Chains.{nothing};
ghost use Rattle.cq_table_columns.specs.Stored.{all_rows, front_rows};
ghost use Rattle.cq_views.specs.Cut.{FillsFrom, IsFilled, cut_bags, cut_only, cut_table, cut_widths};
ghost use Rattle.cq_views.specs.Filling.{CanFill, Fills, bags_at};
ghost use Rattle.cq_views_state.specs.State.{CanStart, StandsFor};

use crate::cutting::{cut_once, cut_widths, entry_of};
use cq_deltas_joins::SourceRows;
use cq_model::{Query, Source};
use cq_table_columns::{Front, Stored, StoredSource};
use cq_values::both;
use cq_views_columns::SourceColumns;
use cq_views_state::{ViewBuild, ViewState};
use std::alloc::{AllocError, Global};

/// The state of a query over the rows of tables that are cut to its columns. It counts no work.
pub(crate) fn filled(
    alloc: Global,
    query: Query,
    columns: &[SourceColumns],
    tables: &[StoredSource],
    epoch: u64,
) -> Result<ViewState, AllocError>
    requires { CanStart query (cut_bags columns.now (bags_at tables.now)) }
    ensures { IfOk result (IsFilled columns.now query epoch (bags_at tables.now)) }
{
    let mut view = empty(alloc, query, columns, epoch)?;
    match fill(alloc, &mut view, columns, tables) {
        Ok(()) => Ok(view.finish(alloc)),
        Err(fault) => {
            drop(view);
            Err(fault)
        }
    }
}

/// What builds the state of a query, over no rows, which are to be cut to its columns.
fn empty(
    alloc: Global,
    query: Query,
    columns: &[SourceColumns],
    epoch: u64,
) -> Result<ViewBuild, AllocError>
    ensures query { IfOk result (λ v. v.query ≡ query) }
    ensures widths { IfOk result (λ v. v.widths ≡ cut_widths columns.now query) }
    ensures epoch { IfOk result (λ v. v.epoch ≡ epoch) }
    ensures built { IfOk result (λ v. v.built ≡ epoch) }
    ensures stands { IfOk result (λ v. StandsFor v nothing) }
{
    let widths = cut_widths(alloc, columns, &query);
    let (query, widths) = both(query, widths)?;
    ViewBuild::empty(alloc, query, widths, epoch)
}

/// Takes in the rows of tables, those of the last one first. The first one is mostly the largest: its rows come when the
/// others are there, so that no step adds many joined rows.
fn fill(
    alloc: Global,
    view: &mut ViewBuild,
    columns: &[SourceColumns],
    tables: &[StoredSource],
) -> Result<(), AllocError>
    requires { CanFill view.old (cut_bags columns.now (bags_at tables.now)) }
    ensures { OnOk result (Fills (cut_bags columns.now (bags_at tables.now)) view.old view.new) }
{
    match tables.split_first() {
        None => Ok(()),
        Some((table, rest)) => {
            fill(alloc, view, columns, rest)?;
            fill_own(alloc, view, columns, table)
        }
    }
}

/// Takes in the rows of one table.
fn fill_own(
    alloc: Global,
    view: &mut ViewBuild,
    columns: &[SourceColumns],
    table: &StoredSource,
) -> Result<(), AllocError>
    requires { CanFill view.old (cut_table columns.now table.now) }
    ensures { OnOk result (Fills (cut_table columns.now table.now) view.old view.new) }
{
    match entry_of(columns, table.source) {
        None => Ok(()),
        Some(entry) => fill_from(
            alloc,
            view,
            table.source,
            entry.columns.as_slice(),
            &table.rows,
        ),
    }
}

/// Takes in the rows of a source, some at a time.
fn fill_from(
    alloc: Global,
    view: &mut ViewBuild,
    source: Source,
    columns: &[usize],
    rows: &Stored,
) -> Result<(), AllocError>
    requires { CanFill view.old (cut_only source columns.now (all_rows rows.now)) }
    ensures { OnOk result (FillsFrom source columns.now (all_rows rows.now) view.old view.new) }
{
    let mut left = *rows;
    while !left.is_empty() {
        let (front, rest) = left.split_front();
        fill_with(alloc, view, source, columns, &front)?;
        left = rest;
    }
    Ok(())
}

/// Takes in rows of a source, no more of them than are copied at once.
fn fill_with(
    alloc: Global,
    view: &mut ViewBuild,
    source: Source,
    columns: &[usize],
    front: &Front,
) -> Result<(), AllocError>
    requires few { length (front_rows front.now) ≤ 1_024 }
    requires can { CanFill view.old (cut_only source columns.now (front_rows front.now)) }
    ensures { OnOk result (FillsFrom source columns.now (front_rows front.now) view.old view.new) }
{
    let rows = cut_once(alloc, columns, front)?;
    let mut changes = Vec::new(alloc);
    changes.push(SourceRows { source, rows })?;
    view.take_in(alloc, changes)
}
