//! What a view shows of what it keeps behind its joins.
ghost use Rattle.std.specs.List.{AllByRecursion};
ghost use Rattle.std.specs.Prelude.{pos, ◌++◌, ◌∷◌, ◌≡◌, ◌≤ℤ◌, IfErr, IfOk, OnOk, [], map};
ghost use Rattle.cq_model_bags.specs.Bag.{IsBag, SameBag, once_each};
ghost use Rattle.cq_model.specs.declared.fault.ShowFault.TheVariants.{SumOutOfRange};
ghost use Rattle.cq_deltas.specs.Shown.{counted_keys};
ghost use Rattle.cq_model_laws.specs.Sizes.{HasSizes};
ghost use Rattle.cq_model.specs.Group.{aggregate as shown_of, group_row};
ghost use Rattle.cq_model.specs.Meaning.{items_of};
ghost use Rattle.cq_model.specs.Sizes.{column_sizes};
ghost use Rattle.cq_model.specs.Width.{AreNarrowAt};
ghost use Rattle.cq_views_state.specs.declared.last.Last.TheVariants.{Groups as AsGroups};
ghost use Rattle.cq_views_model.specs.Query.{CanBeKept};
ghost use Rattle.cq_views_state.specs.Shown.{AddsTimes, AreKeysOf, AreShowable, ShowsInRange, ShowsRows, StandsOnStored, TellsOutOfRange, all_rows, is_one_group};

use crate::last::Last;
use crate::query::aggregates_of;
use crate::whole_rows::show_whole_rows;
use cq_deltas::Groups;
use cq_model::{Aggregate, Expr, Query, Shape, ShowFault};
use cq_model_eval::items_of;
use cq_sides_weights::Weights;
use cq_values::{Row, Value};
use cq_values_rows::{FlatRows, RowList, rows_come_in_turn};
use std::alloc::{AllocError, Global};

/// The rows that a query shows of what is kept.
pub(crate) fn shown_rows(alloc: Global, query: &Query, last: &Last) -> Result<RowList, ShowFault>
    requires can { CanBeKept query.now }
    requires on { StandsOnStored query.now last.now }
    ensures rows { IfOk result (λ rows. ShowsRows query.now last.now rows) }
    ensures sized { IfOk result (λ rows. AllByRecursion (HasSizes (column_sizes query.now)) rows) }
    ensures range { OnOk result (ShowsInRange query.now last.now) }
    ensures fault { IfErr result (TellsOutOfRange query.now last.now) }
{
    match last {
        Last::Groups(groups) => shown_groups(alloc, query, groups),
        Last::Images(images) => {
            let rows = listed(alloc, images, query.items.len())?;
            Ok(RowList::flat(rows))
        }
    }
}

/// The items of each group.
fn shown_groups(alloc: Global, query: &Query, groups: &Groups) -> Result<RowList, ShowFault>
    requires can { CanBeKept query.now }
    requires on { StandsOnStored query.now (AsGroups groups.now) }
    ensures rows { IfOk result (λ rows. ShowsRows query.now (AsGroups groups.now) rows) }
    ensures sized { IfOk result (λ rows. AllByRecursion (HasSizes (column_sizes query.now)) rows) }
    ensures range { OnOk result (ShowsInRange query.now (AsGroups groups.now)) }
    ensures fault { IfErr result (TellsOutOfRange query.now (AsGroups groups.now)) }
{
    let rows = all_rows(alloc, query, groups)?;
    Ok(item_rows(alloc, query.items.as_slice(), rows)?)
}

/// The row of each group that has rows, and without GROUP BY one row always.
fn all_rows(alloc: Global, query: &Query, groups: &Groups) -> Result<FlatRows, ShowFault>
    ensures rows { IfOk result (λ flat. flat.rows ≡ all_rows query.now.shape groups.now) }
    ensures keys { AreKeysOf query.now groups.now (counted_keys groups.now) }
    ensures range { OnOk result (AreShowable query.now groups.now) }
    ensures fault { IfErr result (λ e. e ≡ SumOutOfRange → AreShowable query.now groups.now → ⊥) }
{
    let aggregates = aggregates_of(query);
    let mut rows = groups.shown_rows(alloc, aggregates)?;
    if is_one_group(&query.shape) && rows.len() == 0 {
        push_row_of_nothing(aggregates, &mut rows)?;
    }
    Ok(rows)
}

fn is_one_group(shape: &Shape) -> bool
    ensures { result ≡ is_one_group shape.now }
{
    matches!(shape, Shape::Grouped { keys: None, .. })
}

/// Adds the row of a group without rows and without a key.
fn push_row_of_nothing(aggregates: &[Aggregate], rows: &mut FlatRows) -> Result<(), AllocError>
    requires { rows.old.begun ≡ [] }
    ensures { OnOk result (rows.new.rows ≡ rows.old.rows ++ group_row aggregates.now [] [] ∷ []) }
{
    for aggregate in aggregates {
        rows.push(value_of_nothing(aggregate))?;
    }
    rows.end_row()
}

/// What an aggregate shows of no rows.
fn value_of_nothing(aggregate: &Aggregate) -> Value
    ensures { result ≡ shown_of aggregate.now [] }
{
    match aggregate {
        Aggregate::CountAll | Aggregate::Count(_) | Aggregate::CountDistinct(_) => Value::Number(0),
        Aggregate::Sum(_) | Aggregate::Min(_) | Aggregate::Max(_) => Value::Null,
    }
}

/// The items in each of the rows. Where they are just its columns, the rows are kept as they are.
fn item_rows(alloc: Global, items: &[Expr], rows: FlatRows) -> Result<RowList, AllocError>
    requires { AllByRecursion (AreNarrowAt items.now) rows.rows }
    ensures { IfOk result (λ shown. shown ≡ map (items_of items.now) rows.rows) }
{
    let rows = RowList::flat(rows);
    if show_whole_rows(items, &rows) {
        Ok(rows)
    } else {
        Ok(RowList::listed(worked_out(alloc, items, &rows.into_flat(alloc)?)?))
    }
}

/// The items, worked out in each of the rows.
fn worked_out(alloc: Global, items: &[Expr], rows: &FlatRows) -> Result<Vec<Row>, AllocError>
    requires { AllByRecursion (AreNarrowAt items.now) rows.now.rows }
    ensures { IfOk result (λ shown. shown.items ≡ map (items_of items.now) rows.now.rows) }
{
    rows_come_in_turn();
    let mut shown = Vec::with_capacity(alloc, rows.len())?;
    for place in 0..rows.len() {
        shown.push(items_of(alloc, items, rows.row(place))?)?;
    }
    Ok(shown)
}

/// Each row as often as its weight says, with room for so many values of each.
fn listed(alloc: Global, images: &Weights, width: usize) -> Result<FlatRows, AllocError>
    requires { IsBag images.now.entries }
    ensures { IfOk result (λ flat. SameBag (once_each flat.rows) images.now.entries) }
{
    let mut rows = FlatRows::with_capacity(alloc, images.len(), width)?;
    for place in 0..images.len() {
        let (row, weight) = images.pair_at(place);
        push_times(alloc, row, weight, &mut rows)?;
    }
    Ok(rows)
}

/// Adds a row so many times.
fn push_times(alloc: Global, row: &Row, times: i128, rows: &mut FlatRows) -> Result<(), AllocError>
    requires times { pos 0 ≤ℤ times }
    requires begun { rows.old.begun ≡ [] }
    ensures rows { OnOk result (AddsTimes row.now times rows.old.rows rows.new.rows) }
    ensures begun { OnOk result (rows.new.begun ≡ []) }
{
    for _time in 0..times {
        rows.push_copies(alloc, row.as_slice())?;
        rows.end_row()?;
    }
    Ok(())
}
