//! The places of a batch whose rows may be shown, and the rows that are made of them.
ghost use Rattle.std.specs.Bool.{OnTrue};
ghost use Rattle.std.specs.List.{All};
ghost use Rattle.std.specs.Prelude.{◌≡◌, ◌<◌, IfOk, map};
ghost use Rattle.cq_values.specs.Value.{column};
ghost use Rattle.cq_vectors.specs.Batch.{row_at as values_at};
ghost use Rattle.cq_vectors_masks.specs.Selection.{AreRising, where_true};
ghost use Rattle.cq_operators_listing.specs.Places.{AreNumbersAt, CanTell, TellBefore, places_before as before};

use cq_model_bags::SortKey;
use cq_prims::{compare, is_null};
use cq_values::Comparison;
use cq_values_rows::{LentRow, RowList, ValueColumn};
use cq_vectors::{Form, Vector};
use cq_vectors_masks::{Selection, TruthMask, keep_true};
use std::alloc::{AllocError, Global};

/// The places at which the key does not stand behind that of the worst row, asked of all values at once. Answers whether
/// it could tell them.
pub(crate) fn places_before(
    key: SortKey,
    values: &Vector<'_>,
    worst: &LentRow<'_>,
    places: &Selection,
    to: &mut Selection,
) -> bool
    ensures { OnTrue result (to.new ≡ before key.descending values.now (column worst.now key.column) places.now) }
{
    if !can_tell(key, values, worst, places.places()) {
        return false;
    }
    let mut truths = TruthMask::new();
    set_before(key, values, worst, &mut truths);
    keep_places(&truths, places, to);
    true
}

/// Those of the places that are True. Where none is, no place is looked at.
fn keep_places(truths: &TruthMask, places: &Selection, to: &mut Selection)
    ensures { to.new ≡ where_true truths.now places.now }
{
    to.set_true(truths);
    if to.len() == 0 {
        return;
    }
    keep_true(truths, places, to);
}

/// Whether truths tell which values stand behind the worst one. Past the values no truth is told, and there is NULL,
/// which stands first in descending order; in the other no value stands behind NULL.
fn can_tell(key: SortKey, values: &Vector<'_>, worst: &LentRow<'_>, places: &[u16]) -> bool
    requires { AreRising places.now }
    ensures { OnTrue result (CanTell key.descending values.now (column worst.now key.column) places.now) }
{
    if key.descending {
        end_below(places, values.len())
    } else {
        !worst.lend(key.column).is_null()
    }
}

/// Whether all of the places, which rise, are below the length.
fn end_below(places: &[u16], len: usize) -> bool
    requires { AreRising places.now }
    ensures { OnTrue result (All (λ place. place < len) places.now) }
{
    if places.is_empty() {
        true
    } else {
        (places[places.len() - 1] as usize) < len
    }
}

/// Where the value does not stand behind the worst one. NULL stands last, or first in descending order.
fn set_before(key: SortKey, values: &Vector<'_>, worst: &LentRow<'_>, to: &mut TruthMask)
    ensures { TellBefore key.descending values.now (column worst.now key.column) to.new }
{
    let worst = Vector::new(Form::Constant(worst.lend(key.column), values.len()));
    if key.descending {
        let mut nulls = TruthMask::new();
        compare(Comparison::LessOrEqual, &worst, values, to);
        is_null(values, &mut nulls);
        to.or_with(&nulls);
    } else {
        compare(Comparison::LessOrEqual, values, &worst, to);
    }
}

/// The rows of the places, as copies, column by column.
pub(crate) fn rows_at(
    alloc: Global,
    columns: &[Vector<'_>],
    places: &[u16],
) -> Result<RowList, AllocError>
    ensures { IfOk result (λ rows. rows ≡ map (values_at columns.now) places.now) }
{
    let mut copies = Vec::with_capacity(alloc, columns.len())?;
    for values in columns {
        copies.push(column_at(alloc, values, places)?)?;
    }
    Ok(RowList::of_columns(copies, places.len()))
}

fn column_at(alloc: Global, values: &Vector<'_>, places: &[u16]) -> Result<ValueColumn, AllocError>
    ensures { IfOk result (λ copies. copies ≡ map (column values.now) places.now) }
{
    if let Some(numbers) = values.whole_numbers() {
        if let Some(copies) = numbers_at(alloc, numbers, places)? {
            return Ok(ValueColumn::numbers(copies));
        }
    }
    let mut copies = ValueColumn::new(alloc);
    for place in places {
        copies.push(alloc, &values.lend(*place as usize))?;
    }
    Ok(copies)
}

/// The numbers of the places, if each of these is one of a number.
fn numbers_at(
    alloc: Global,
    numbers: &[i64],
    places: &[u16],
) -> Result<Option<Vec<i64>>, AllocError>
    ensures { IfOk result (AreNumbersAt numbers.now places.now) }
{
    let mut copies = Vec::new(alloc);
    copies.reserve(places.len())?;
    for place in places {
        match numbers.get(*place as usize) {
            Some(number) => copies.push_reserved(*number),
            None => return Ok(None),
        }
    }
    Ok(Some(copies))
}
