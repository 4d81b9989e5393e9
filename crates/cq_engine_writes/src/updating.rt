//! The rows that an UPDATE replaces.
ghost use Rattle.std.specs.Prelude.{◌*◌, ◌≡◌, ◌≤◌, IfErr, IfOk, OnErr, length};
ghost use Rattle.cq_model_state.specs.Fitting.{IsFitting, rows_limit};
ghost use Rattle.cq_engine_tables.specs.HeldTables.{Exchanges};
ghost use Rattle.cq_engine_writes.specs.Changing.{TellsAtMost};
ghost use Rattle.cq_engine_writes.specs.Updates.{CanUpdate, Prepares, RefusesUpdate, TellsImages, UpdatesRows};

use crate::changing::change_of;
use cq_binder_rules::Fault;
use cq_engine_queue::Change;
use cq_engine_tables::NamedTable;
use cq_model::{Assignment, Cond};
use cq_table::Found;
use cq_values::Row;
use cq_writestore_rows::NewRows;
use std::alloc::Global;

/// Where the rows stand that WHERE keeps, what takes their places, and the change, where it is asked for.
type Prepared = (Found, Vec<Row>, Option<Change>);

/// Replaces each row of this table that WHERE keeps by its image, and tells how many they were, and the change where it
/// is asked for.
pub(crate) fn update_rows(
    alloc: Global,
    table: &mut NamedTable,
    assignments: &[Assignment],
    condition: &Option<Cond>,
    asked: bool,
) -> Result<(usize, Option<Change>), Fault>
    requires fitting { IsFitting table.old.is }
    requires few { length table.old.is.rows ≤ rows_limit }
    requires can { CanUpdate table.old.is.columns assignments.now condition.now table.old.is.rows }
    ensures updates { UpdatesRows assignments.now condition.now table.old.is result table.new.is }
    ensures lengths { IfOk result (λ done. Exchanges done.0 table.old table.new) }
    ensures change { IfOk result (λ done. TellsImages asked assignments.now condition.now table.old.is done.1) }
    ensures most { IfOk result (λ done. TellsAtMost (2 * done.0) done.1) }
    ensures err { OnErr result (table.new ≡ table.old) }
{
    let (found, images, change) = prepared(alloc, table, assignments, condition, asked)?;
    table.replace(alloc, &found, images)?;
    Ok((found.len(), change))
}

/// Finds the rows that WHERE keeps, and works out their images, where they may be stored, and the change, where it is
/// asked for. Nothing changes.
fn prepared(
    alloc: Global,
    table: &NamedTable,
    assignments: &[Assignment],
    condition: &Option<Cond>,
    asked: bool,
) -> Result<Prepared, Fault>
    requires fitting { IsFitting table.now.is }
    requires few { length table.now.is.rows ≤ rows_limit }
    requires can { CanUpdate table.now.is.columns assignments.now condition.now table.now.is.rows }
    ensures ready { IfOk result (Prepares asked table.now assignments.now condition.now) }
    ensures fault { IfErr result (RefusesUpdate table.now assignments.now condition.now) }
{
    let found = table.find(alloc, condition)?;
    let (gone, images) = table.images(alloc, assignments, &found)?;
    let come = NewRows::of(images);
    let columns = table.table().columns();
    let change = change_of(alloc, table.number(), columns, gone, &come, asked)?;
    let images = come.into_rows(alloc)?;
    Ok((found, images, change))
}
