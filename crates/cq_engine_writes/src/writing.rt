//! Writes of the table of a number, which is one of several. Each makes room in the queue first, where its change is
//! asked for.
ghost use Rattle.std.specs.Bool.{OnTrue};
ghost use Rattle.std.specs.Prelude.{◌*◌, ◌<◌, ◌≡◌, ◌≤◌, ℕ, IfOk, OnErr, OnOk, length};
ghost use Rattle.cq_model_state.specs.Fitting.{AreFitting, AreLimited, rows_limit};
ghost use Rattle.cq_model_state.specs.State.{IsThere, AreNumbered};
ghost use Rattle.cq_engine_tables.specs.HeldTables.{ChangeAt, ExchangesAt, GrowsAt, MarkIn, tables_of};
ghost use Rattle.cq_engine_queue.specs.Queued.{IsSameQueue};
ghost use Rattle.cq_engine_writes.specs.Changing.{TellsAtMost};
ghost use Rattle.cq_engine_writes.specs.Updates.{CanUpdateIn, UpdatesHeld};
ghost use Rattle.cq_engine_writes.specs.Writing.{DeletesFrom, FitTable, InsertsHeld, IsNarrowFor, TellsDeleted, TellsInserted, TellsUpdated, chosen_count};

use crate::deletion::delete_from;
use crate::insertion::insert_into;
use crate::updating::update_rows;
use cq_binder_rules::Fault;
use cq_engine_queue::{Change, Queue};
use cq_engine_tables::{NamedTable, place_numbered};
use cq_model::{Assignment, Cond};
use cq_writestore_rows::NewRows;
use std::alloc::{AllocError, Global};

/// Adds the rows to the table of a number, where they fit, and tells its change where that is asked for.
pub fn insert_in(
    alloc: Global,
    max_rows: u64,
    tables: &mut Vec<NamedTable>,
    queue: &mut Queue,
    number: u64,
    rows: NewRows,
    asked: bool,
) -> Result<Option<Change>, Fault>
    requires max { max_rows ≤ rows_limit }
    requires numbered { (next : ℕ) × AreNumbered (tables_of tables.old.items) next }
    requires fitting { AreFitting (tables_of tables.old.items) }
    requires there { IsThere number (tables_of tables.old.items) }
    requires rows { FitTable number tables.old rows }
    ensures inserts { InsertsHeld max_rows number rows tables.old result tables.new }
    ensures lengths { OnOk result (GrowsAt number (length rows) tables.old tables.new) }
    ensures change { IfOk result (TellsInserted asked number rows tables.old) }
    ensures most { IfOk result (TellsAtMost (length rows)) }
    ensures room { OnOk result (OnTrue asked (0 < queue.new.room)) }
    ensures queue { IsSameQueue queue.old queue.new }
    ensures err { OnErr result (tables.new.items ≡ tables.old.items) }
{
    make_room(queue, asked)?;
    let place = place_numbered(tables, number);
    insert_into(alloc, max_rows, &mut tables[place], rows, asked)
}

/// Takes the rows that WHERE keeps from the table of a number, and tells how many they were, and its change where that
/// is asked for.
pub fn delete_in(
    alloc: Global,
    tables: &mut Vec<NamedTable>,
    queue: &mut Queue,
    number: u64,
    condition: &Option<Cond>,
    asked: bool,
) -> Result<(usize, Option<Change>), AllocError>
    requires numbered { (next : ℕ) × AreNumbered (tables_of tables.old.items) next }
    requires fitting { AreFitting (tables_of tables.old.items) }
    requires limited { AreLimited rows_limit (tables_of tables.old.items) }
    requires there { IsThere number (tables_of tables.old.items) }
    requires narrow { IsNarrowFor number condition.now tables.old }
    ensures count { IfOk result (λ done. done.0 ≡ chosen_count number condition.now tables.old) }
    ensures left { OnOk result (DeletesFrom number condition.now tables.old tables.new) }
    ensures lengths { OnOk result (ChangeAt number MarkIn tables.old.items tables.new.items) }
    ensures change { IfOk result (λ done. TellsDeleted asked number condition.now tables.old done.1) }
    ensures most { IfOk result (λ done. TellsAtMost done.0 done.1) }
    ensures room { OnOk result (OnTrue asked (0 < queue.new.room)) }
    ensures queue { IsSameQueue queue.old queue.new }
    ensures err { OnErr result (tables.new.items ≡ tables.old.items) }
{
    make_room(queue, asked)?;
    let place = place_numbered(tables, number);
    delete_from(alloc, &mut tables[place], condition, asked)
}

/// Replaces each row that WHERE keeps in the table of a number by its image, where the images may be stored, and tells
/// how many they were, and its change where that is asked for.
pub fn update_in(
    alloc: Global,
    tables: &mut Vec<NamedTable>,
    queue: &mut Queue,
    number: u64,
    assignments: &[Assignment],
    condition: &Option<Cond>,
    asked: bool,
) -> Result<(usize, Option<Change>), Fault>
    requires numbered { (next : ℕ) × AreNumbered (tables_of tables.old.items) next }
    requires fitting { AreFitting (tables_of tables.old.items) }
    requires limited { AreLimited rows_limit (tables_of tables.old.items) }
    requires there { IsThere number (tables_of tables.old.items) }
    requires can { CanUpdateIn (tables_of tables.old.items) number assignments.now condition.now }
    ensures updates { UpdatesHeld number assignments.now condition.now tables.old result tables.new }
    ensures lengths { IfOk result (λ done. ExchangesAt number done.0 tables.old tables.new) }
    ensures change { IfOk result (λ done. TellsUpdated asked number assignments.now condition.now tables.old done.1) }
    ensures most { IfOk result (λ done. TellsAtMost (2 * done.0) done.1) }
    ensures room { OnOk result (OnTrue asked (0 < queue.new.room)) }
    ensures queue { IsSameQueue queue.old queue.new }
    ensures err { OnErr result (tables.new.items ≡ tables.old.items) }
{
    make_room(queue, asked)?;
    let place = place_numbered(tables, number);
    update_rows(alloc, &mut tables[place], assignments, condition, asked)
}

/// Makes room in the queue for a change that is asked for.
fn make_room(queue: &mut Queue, asked: bool) -> Result<(), AllocError>
    ensures room { OnOk result (OnTrue asked (0 < queue.new.room)) }
    ensures same { IsSameQueue queue.old queue.new }
{
    if asked { queue.reserve() } else { Ok(()) }
}
