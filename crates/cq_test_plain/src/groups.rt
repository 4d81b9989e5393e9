//! GROUP BY, by looking through a list of keys.
ghost use Rattle.std.specs.Prelude.{◌≡◌, IfErr, IfOk, OnOk, Some};
ghost use Rattle.cq_model_bags.specs.Bag.{once_each};
ghost use Rattle.cq_model.specs.Group.{group_row, keys_of, rows_of_key};
ghost use Rattle.cq_test_plain.specs.FaultsOf.{IsGroupFault, IsGroupsFault, IsKeyFault};
ghost use Rattle.cq_test_plain.specs.OfGroups.{GroupInRange, GroupsInRange, KeyInRange, groups_of, row_of_key};
ghost use Rattle.cq_test_plain.specs.Rows.{MakeUp};

use crate::aggregates::aggregate;
use crate::fault::PlainFault;
use crate::repeats::firsts;
use cq_model::Aggregate;
use cq_model_eval::key_of;
use cq_values::{Row, Seq, copy_row};
use std::alloc::{AllocError, Global};

/// A row for each group. Without GROUP BY all rows are one group, also where there is none.
pub(crate) fn grouped(
    alloc: Global,
    keys: &Option<Seq<usize>>,
    aggregates: &[Aggregate],
    rows: &[Row],
) -> Result<Vec<Row>, PlainFault>
    ensures ok { IfOk result (MakeUp (groups_of keys.now aggregates.now rows.now)) }
    ensures range { OnOk result (GroupsInRange keys.now aggregates.now rows.now) }
    ensures fault { IfErr result (IsGroupsFault keys.now aggregates.now rows.now) }
{
    match keys {
        Some(columns) => grouped_by(alloc, columns.as_slice(), aggregates, rows),
        None => {
            let mut groups = Vec::new(alloc);
            groups.push(group_row(alloc, aggregates, &Row::new(alloc), rows)?)?;
            Ok(groups)
        }
    }
}

/// A row for each key that occurs.
fn grouped_by(
    alloc: Global,
    columns: &[usize],
    aggregates: &[Aggregate],
    rows: &[Row],
) -> Result<Vec<Row>, PlainFault>
    ensures ok { IfOk result (MakeUp (groups_of (Some columns.now) aggregates.now rows.now)) }
    ensures range { OnOk result (GroupsInRange (Some columns.now) aggregates.now rows.now) }
    ensures fault { IfErr result (IsGroupsFault (Some columns.now) aggregates.now rows.now) }
{
    let keys = keys_of(alloc, columns, rows)?;
    let mut groups = Vec::new(alloc);
    for key in &keys {
        groups.push(group_of_key(alloc, columns, aggregates, key, rows)?)?;
    }
    Ok(groups)
}

/// The row of the group that has this key.
fn group_of_key(
    alloc: Global,
    columns: &[usize],
    aggregates: &[Aggregate],
    key: &Row,
    rows: &[Row],
) -> Result<Row, PlainFault>
    ensures ok { IfOk result (λ row. row ≡ row_of_key columns.now aggregates.now key.now rows.now) }
    ensures range { OnOk result (KeyInRange columns.now aggregates.now key.now rows.now) }
    ensures fault { IfErr result (IsKeyFault columns.now aggregates.now key.now rows.now) }
{
    let own = rows_of_key(alloc, columns, key, rows)?;
    group_row(alloc, aggregates, key, &own)
}

/// The row of a group: its key, and then its aggregates.
fn group_row(
    alloc: Global,
    aggregates: &[Aggregate],
    key: &Row,
    rows: &[Row],
) -> Result<Row, PlainFault>
    ensures ok { IfOk result (λ row. row ≡ group_row aggregates.now key.now (once_each rows.now)) }
    ensures range { OnOk result (GroupInRange aggregates.now (once_each rows.now)) }
    ensures fault { IfErr result (IsGroupFault aggregates.now rows.now) }
{
    let mut row = copy_row(alloc, key.as_slice())?;
    for each in aggregates {
        row.push(aggregate(alloc, each, rows)?)?;
    }
    Ok(row)
}

/// The keys that occur, each of them once.
fn keys_of(alloc: Global, columns: &[usize], rows: &[Row]) -> Result<Vec<Row>, AllocError>
    ensures { IfOk result (λ keys. keys.items ≡ keys_of columns.now (once_each rows.now)) }
{
    let mut keys = Vec::new(alloc);
    for row in rows {
        keys.push(key_of(alloc, columns, row.as_slice())?)?;
    }
    firsts(alloc, &keys)
}

/// The rows that have this key. NULL is the same as NULL here.
fn rows_of_key(
    alloc: Global,
    columns: &[usize],
    key: &Row,
    rows: &[Row],
) -> Result<Vec<Row>, AllocError>
    ensures { IfOk result (MakeUp (rows_of_key columns.now key.now (once_each rows.now))) }
{
    let mut own = Vec::new(alloc);
    for row in rows {
        let values = row.as_slice();
        if key_of(alloc, columns, values)? == *key {
            own.push(copy_row(alloc, values)?)?;
        }
    }
    Ok(own)
}
