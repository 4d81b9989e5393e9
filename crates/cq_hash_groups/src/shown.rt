//! The rows of groups.
ghost use Rattle.std.specs.List.{AllByRecursion};
ghost use Rattle.std.specs.Prelude.{[], ◌+◌, ◌<◌, ◌≡◌, ◌≤◌, IfErr, IfOk, OnOk, length, map};
ghost use Rattle.cq_values.specs.Lent.{owned};
ghost use Rattle.cq_hash_keys.specs.Keys.{key_at};
ghost use Rattle.cq_hash_groups.specs.Groups.{AddsShownRow, BeginsKey, IsSlotsFault};
ghost use Rattle.cq_hash_groups.specs.Shown.{AddsShownRows, CanAllShow, IsShownFault, keys_from};
ghost use Rattle.cq_hash_groups_slots.specs.Slots.{CanShow};
ghost use Rattle.cq_writestore_rows.specs.Filling.{IsReadyFor, IsWhole};

use crate::told::Told;
use cq_encodings::AnyEncoded;
use cq_encodings_plain::Plain;
use cq_hash_keys::KeyTable;
use cq_model::ShowFault;
use cq_values::{Lent, Ty};
use cq_writestore_rows::Filling;
use std::alloc::{AllocError, Global};

/// A type for each value of a group's row: that of the first one which is not NULL.
pub(crate) fn shown_types(
    alloc: Global,
    found: &KeyTable,
    width: usize,
    slots: &[Told<'_>],
) -> Result<Vec<Ty>, AllocError>
    requires { width ≡ found.now.width }
    ensures { IfOk result (λ types. length types.items ≡ width + length slots.now) }
{
    let mut types = Vec::new(alloc);
    for column in 0..width {
        types.push(key_type(found, column))?;
    }
    for each in slots {
        types.push(slots_type(each, found.len()))?;
    }
    Ok(types)
}

/// Puts the rows of 1,024 groups from one on behind the others, column by column.
pub(crate) fn put_rows(
    alloc: Global,
    found: &KeyTable,
    width: usize,
    slots: &[Told<'_>],
    start: usize,
    filling: &mut Filling,
) -> Result<(), ShowFault>
    requires groups { start + 1024 ≤ length found.now.keys }
    requires width { width ≡ found.now.width }
    requires whole { IsWhole filling.old }
    ensures rows { OnOk result (AddsShownRows width found.now.keys slots.now start 1024 filling.old filling.new) }
    ensures range { OnOk result (CanAllShow start 1024 slots.now) }
    ensures fault { IfErr result (IsShownFault start 1024 slots.now) }
{
    let _count = found.len();
    let mut columns = Vec::new(alloc);
    for column in 0..width {
        let values = lend_keys(alloc, found, column, start, 1024)?;
        columns.push(AnyEncoded::Plain(Plain::of(alloc, &values)?))?;
    }
    for each in slots {
        let values = each.lend_from(alloc, start, 1024)?;
        columns.push(AnyEncoded::Plain(Plain::of(alloc, &values)?))?;
    }
    filling.push_columns(columns)?;
    Ok(())
}

/// The values in a column of keys from one on.
fn lend_keys<'t>(
    alloc: Global,
    found: &'t KeyTable,
    column: usize,
    start: usize,
    len: usize,
) -> Result<Vec<Lent<'t>>, AllocError>
    requires column { column < found.now.width }
    requires keys { start + len ≤ length found.now.keys }
    ensures { IfOk result (λ values. map owned values.items ≡ keys_from found.now.keys column start len) }
{
    let _count = found.len();
    let mut values = Vec::new(alloc);
    values.reserve(len)?;
    for place in 0..len {
        values.push_reserved(found.lend(start + place, column));
    }
    Ok(values)
}

/// Puts the row of a group behind the others: its key of so many values, and then its aggregates.
pub(crate) fn put_row(
    found: &KeyTable,
    width: usize,
    slots: &[Told<'_>],
    group: usize,
    filling: &mut Filling,
) -> Result<(), ShowFault>
    requires group { group < length found.now.keys }
    requires width { width ≡ found.now.width }
    requires ready { IsReadyFor (width + length slots.now) filling.old }
    ensures row { OnOk result (AddsShownRow width found.now.keys group slots.now filling.old filling.new) }
    ensures ready { OnOk result (IsReadyFor (width + length slots.now) filling.new) }
    ensures range { OnOk result (AllByRecursion (CanShow group) slots.now) }
    ensures fault { IfErr result (IsSlotsFault group slots.now) }
{
    put_key(found, width, group, filling)?;
    for each in slots {
        match each.lend(group) {
            Ok(value) => filling.push(&value)?,
            Err(fault) => return Err(fault),
        }
    }
    filling.end_row()?;
    Ok(())
}

/// Begins a row with the values of a key.
fn put_key(
    found: &KeyTable,
    width: usize,
    group: usize,
    filling: &mut Filling,
) -> Result<(), AllocError>
    requires group { group < length found.now.keys }
    requires width { width ≡ found.now.width }
    requires none { filling.old.begun ≡ [] }
    requires room { width ≤ filling.old.width }
    ensures { OnOk result (BeginsKey width (key_at found.now.keys group) filling.old filling.new) }
{
    for column in 0..width {
        filling.push(&found.lend(group, column))?;
    }
    Ok(())
}

/// The type of the values in a column of keys.
fn key_type(found: &KeyTable, column: usize) -> Ty
    requires { column < found.now.width }
{
    for key in 0..found.len() {
        if let Some(ty) = type_of(&found.lend(key, column)) {
            return ty;
        }
    }
    Ty::Integer
}

/// The type of what groups show of an aggregate.
fn slots_type(slots: &Told<'_>, groups: usize) -> Ty {
    for group in 0..groups {
        if let Ok(value) = slots.lend(group) {
            if let Some(ty) = type_of(&value) {
                return ty;
            }
        }
    }
    Ty::Integer
}

/// The type of a value, and None of NULL.
fn type_of(value: &Lent<'_>) -> Option<Ty> {
    match value {
        Lent::Number(_) => Some(Ty::Integer),
        Lent::Text(_) => Some(Ty::Text),
        Lent::Day(_) => Some(Ty::Date),
        Lent::Null => None,
    }
}
