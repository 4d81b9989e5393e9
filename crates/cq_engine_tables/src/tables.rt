//! Tables under their names and numbers.
ghost use Rattle.std.specs.Prelude.{◌≡◌, ◌<◌, ◌==◌, ℕ, IfSome, OnErr, OnOk, get_or, is_some, length, position};
ghost use Rattle.cq_values.specs.Texts.{is_text};
ghost use Rattle.cq_model_state.specs.State.{IsThere, AreNumbered, table_named};
ghost use Rattle.cq_engine_tables.specs.HeldTables.{ChangeAt, Drops, HeldTable, MergeTo, MoveBy, StoreNothing, tables_of};
ghost use Rattle.cq_engine_tables.specs.Tables.{IsPlaceNamed};

use crate::named_table::NamedTable;
use std::alloc::{AllocError, Global};

/// Takes the table of a number away.
pub fn drop_in(tables: &mut Vec<NamedTable>, number: u64)
    requires numbered { (next : ℕ) × AreNumbered (tables_of tables.old.items) next }
    requires there { IsThere number (tables_of tables.old.items) }
    ensures left { Drops number tables.old tables.new }
    ensures lengths { ChangeAt number StoreNothing tables.old.items tables.new.items }
{
    let place = place_numbered(tables, number);
    tables.remove(place);
}

/// Takes so many rows from the front of the write store of the table of a number to segments. No row changes.
pub fn move_in(
    alloc: Global,
    tables: &mut Vec<NamedTable>,
    number: u64,
    count: u128,
) -> Result<(), AllocError>
    requires numbered { (next : ℕ) × AreNumbered (tables_of tables.old.items) next }
    requires there { IsThere number (tables_of tables.old.items) }
    ensures same { tables_of tables.new.items ≡ tables_of tables.old.items }
    ensures lengths { OnOk result (ChangeAt number (MoveBy count) tables.old.items tables.new.items) }
    ensures err { OnErr result (tables.new.items ≡ tables.old.items) }
{
    let place = place_numbered(tables, number);
    tables[place].move_front(alloc, count)
}

/// Makes the segments of the table of a number anew of their live rows. No row changes.
pub fn merge_in(alloc: Global, tables: &mut Vec<NamedTable>, number: u64) -> Result<(), AllocError>
    requires numbered { (next : ℕ) × AreNumbered (tables_of tables.old.items) next }
    requires there { IsThere number (tables_of tables.old.items) }
    ensures same { tables_of tables.new.items ≡ tables_of tables.old.items }
    ensures lengths { OnOk result (ChangeAt number MergeTo tables.old.items tables.new.items) }
    ensures err { OnErr result (tables.new.items ≡ tables.old.items) }
{
    let place = place_numbered(tables, number);
    tables[place].merge(alloc)
}

/// Where the table of a name stands.
pub fn place_of(tables: &[NamedTable], name: &str) -> Option<usize>
    ensures found { IfSome result (IsPlaceNamed name.now (tables_of tables.now)) }
    ensures named { is_some result ≡ is_some (table_named name.now (tables_of tables.now)) }
    ensures within { IfSome result (λ i. i < length tables.now) }
{
    position_of(tables, name)
}

/// Where the table of a number stands that is there.
pub fn place_numbered(tables: &[NamedTable], number: u64) -> usize
    requires { IsThere number (tables_of tables.now) }
    ensures within { result < length tables.now }
    ensures numbered { (t : HeldTable) → (get_or tables.now result t).is.number ≡ number }
{
    match position_numbered(tables, number) {
        Some(place) => place,
        None => unreachable!(),
    }
}

fn position_of(tables: &[NamedTable], name: &str) -> Option<usize>
    ensures { result ≡ position (λ t. is_text t.is.name name.now) tables.now }
{
    tables.iter().position(|t| t.is_named(name))
}

fn position_numbered(tables: &[NamedTable], number: u64) -> Option<usize>
    ensures { result ≡ position (λ t. t.is.number == number) tables.now }
{
    tables.iter().position(|t| t.number() == number)
}
