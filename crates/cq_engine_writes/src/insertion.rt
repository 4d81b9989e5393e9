//! The rows that an INSERT brings.
ghost use Rattle.std.specs.Prelude.{◌++◌, ◌≡◌, ◌≤◌, IfOk, OnErr, OnOk, length};
ghost use Rattle.std.specs.List.{AllByRecursion};
ghost use Rattle.cq_model_state.specs.Fitting.{FitsColumns, IsFitting, rows_limit};
ghost use Rattle.cq_engine_tables.specs.HeldTables.{Grows};
ghost use Rattle.cq_engine_writes.specs.Changing.{Tells, TellsAtMost};
ghost use Rattle.cq_engine_writes.specs.Writing.{InsertsRows};

use crate::changing::change_of;
use cq_binder_rules::Fault;
use cq_engine_queue::Change;
use cq_engine_tables::NamedTable;
use cq_table::check_room;
use cq_writestore_rows::NewRows;
use std::alloc::Global;

/// Adds the rows to this table, or none of them, and tells the change where it is asked for. Room is asked once, before
/// anything is made.
pub(crate) fn insert_into(
    alloc: Global,
    max_rows: u64,
    table: &mut NamedTable,
    rows: NewRows,
    asked: bool,
) -> Result<Option<Change>, Fault>
    requires fitting { IsFitting table.old.is }
    requires limited { max_rows ≤ rows_limit }
    requires rows { AllByRecursion (FitsColumns table.old.is.columns) rows }
    ensures inserts { InsertsRows max_rows rows table.old.is result table.new.is }
    ensures lengths { OnOk result (Grows (length rows) table.old table.new) }
    ensures change { IfOk result (Tells asked table.old.is.number table.old.is.rows (table.old.is.rows ++ rows)) }
    ensures most { IfOk result (TellsAtMost (length rows)) }
    ensures err { OnErr result (table.new ≡ table.old) }
{
    check_room(max_rows, table.table().len(), rows.len())?;
    let columns = table.table().columns();
    let gone = Vec::new(alloc);
    let change = change_of(alloc, table.number(), columns, gone, &rows, asked)?;
    table.insert(alloc, max_rows, rows)?;
    Ok(change)
}
