//! The rows that a DELETE takes.
ghost use Rattle.std.specs.List.{AllByRecursion};
ghost use Rattle.std.specs.Prelude.{◌≡◌, ◌≤◌, IfOk, OnErr, OnOk, length};
ghost use Rattle.cq_model.specs.Width.{IsNarrowIn};
ghost use Rattle.cq_model.specs.Write.{chosen};
ghost use Rattle.cq_model_state.specs.Fitting.{IsFitting, rows_limit};
ghost use Rattle.cq_engine_tables.specs.Chosen.{stored_of};
ghost use Rattle.cq_engine_tables.specs.HeldTables.{MarkIn, lengths_of};
ghost use Rattle.cq_engine_writes.specs.Changing.{TellsAtMost};
ghost use Rattle.cq_engine_writes.specs.Writing.{DeletesRows, TellsChosen, TellsLeft};
ghost use Rattle.cq_table.specs.Found.{AreThere};

use cq_engine_queue::Change;
use cq_engine_tables::NamedTable;
use cq_model::Cond;
use cq_table::Found;
use cq_writestore_rows::NewRows;
use std::alloc::{AllocError, Global};

/// Takes the rows that WHERE keeps from this table, and tells how many they were, and the change where it is asked for.
pub(crate) fn delete_from(
    alloc: Global,
    table: &mut NamedTable,
    condition: &Option<Cond>,
    asked: bool,
) -> Result<(usize, Option<Change>), AllocError>
    requires fitting { IsFitting table.old.is }
    requires few { length table.old.is.rows ≤ rows_limit }
    requires narrow { AllByRecursion (IsNarrowIn condition.now) table.old.is.rows }
    ensures count { IfOk result (λ done. done.0 ≡ length (chosen condition.now table.old.is.rows)) }
    ensures left { OnOk result (DeletesRows condition.now table.old.is table.new.is) }
    ensures lengths { OnOk result (MarkIn (lengths_of table.old) (lengths_of table.new)) }
    ensures change { IfOk result (λ done. TellsLeft asked condition.now table.old.is done.1) }
    ensures most { IfOk result (λ done. TellsAtMost done.0 done.1) }
    ensures err { OnErr result (table.new ≡ table.old) }
{
    let found = table.find(alloc, condition)?;
    let change = change_without(alloc, table, &found, asked)?;
    table.delete(&found);
    Ok((found.len(), change))
}

/// The change of this table that the rows leave which were found, where it is asked for. They are copied.
fn change_without(
    alloc: Global,
    table: &NamedTable,
    found: &Found,
    asked: bool,
) -> Result<Option<Change>, AllocError>
    requires fitting { IsFitting table.now.is }
    requires few { length table.now.is.rows ≤ rows_limit }
    requires there { AreThere found.now (stored_of table.now) }
    ensures told { IfOk result (TellsChosen asked found.now table.now) }
    ensures most { IfOk result (TellsAtMost (length found.now)) }
{
    if !asked {
        return Ok(None);
    }
    let gone = table.chosen(alloc, found)?;
    let gone = NewRows::of_stored(alloc, table.table().columns(), &gone)?;
    let come = NewRows::of(Vec::new(alloc));
    Ok(Some(Change::new(table.number(), gone, come)))
}
