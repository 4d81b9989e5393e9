//! What changed rows add to groups, worked out before any group changes.
//!
//! [`GroupChange::push`] works out a row's arguments, [`GroupChange::row`] lends them again. The addends of all
//! rows stand in one list, so that a row takes no block of its own.
ghost use Rattle.std.specs.List.{AllByRecursion};
ghost use Rattle.std.specs.List.Sorted.{IsPermutation, IsSortedBy};
ghost use Rattle.std.specs.Prelude.{◌<◌, ◌≡◌, ◌≤◌, IfOk, OnOk, Some, [], length, nat_lt, slice_get};
ghost use Rattle.cq_values.specs.Lent.{owned};
ghost use Rattle.cq_deltas.specs.Additions.{IsNarrow, IsSmall, addend_of, counted_addend};
ghost use Rattle.cq_deltas.specs.Placed.{PutsAddends, PutsRow, row_read};

use cq_model::Aggregate;
use cq_model_eval::{eval_row, narrow_is_exact};
use cq_values::{Lent, Value};
use std::alloc::{AllocError, Global};
use std::marker::Model;

/// What an argument adds to what is kept of its aggregate.
#[derive(Debug, Drop)]
pub(crate) enum Addend {
    /// A number, to a total. A count only asks whether there is one.
    Number(i128),
    /// A value, to those of which MIN and MAX are the ends, and which COUNT(DISTINCT ..) counts once each.
    Listed(Value),
}

/// A changed row that waits for the group at a place: how often it is there, and where its addends stand among those of
/// its change.
#[derive(Clone, Copy, Debug)]
pub(crate) struct SpannedRow {
    place: usize,
    weight: i128,
    start: usize,
    end: usize,
}

/// What a changed row adds, to the group at a place: so many rows, and to each aggregate what its argument adds.
#[derive(Clone, Copy)]
pub(crate) struct PlacedRow<'a> {
    pub(crate) place: usize,
    pub(crate) weight: i128,
    pub(crate) addends: &'a [Option<Addend>],
}

/// What a change of the rows adds, row by row. It is for the groups that were made ready for it.
#[derive(Debug, Drop)]
pub struct GroupChange {
    rows: Vec<SpannedRow>,
    /// What all rows add, row behind row.
    addends: Vec<Option<Addend>>,
}

impl Model for GroupChange {
    ghost use Rattle.std.specs.Prelude.{List};
    ghost use Rattle.cq_deltas.specs.Placed.{AreWithin, Placed, rows_in};

    ghost Value = { List Placed };

    ghost view = { λ c. rows_in c.addends.items c.rows.items };

    ghost invariant = { λ c. AreWithin c.addends.items c.rows.items };
}

impl GroupChange {
    /// A change of no rows.
    pub fn new(alloc: Global) -> GroupChange
        ensures { result ≡ [] }
    {
        GroupChange {
            rows: Vec::new(alloc),
            addends: Vec::new(alloc),
        }
    }

    /// Puts a row behind the others, with what it adds to each aggregate.
    pub(crate) fn push(
        &mut self,
        alloc: Global,
        place: usize,
        aggregates: &[Aggregate],
        row: &[Value],
        weight: i128,
    ) -> Result<(), AllocError>
        requires { AllByRecursion (IsNarrow row.now) aggregates.now }
        ensures row { OnOk result (PutsRow place aggregates.now row.now weight self.old self.new) }
        ensures small { OnOk result (AllByRecursion (IsSmall row.now) aggregates.now) }
    {
        let start = self.addends.len();
        push_addends(alloc, aggregates, row, &mut self.addends)?;
        let end = self.addends.len();
        self.rows.push(SpannedRow {
            place,
            weight,
            start,
            end,
        })?;
        Ok(())
    }

    pub(crate) fn len(&self) -> usize
        ensures { result ≡ length self.now }
    {
        self.rows.len()
    }

    /// The row at an index.
    pub(crate) fn row(&self, index: usize) -> PlacedRow<'_>
        requires { index < length self.now }
        ensures { slice_get self.now index ≡ Some (row_read result) }
    {
        let row = self.rows[index];
        PlacedRow {
            place: row.place,
            weight: row.weight,
            addends: &self.addends[row.start..row.end],
        }
    }

    /// Puts the rows in the order of their places, the last place first. It takes no memory.
    pub(crate) fn sort_from_last(&mut self)
        ensures moved { IsPermutation self.old self.new }
        ensures sorted { IsSortedBy (λ x y. nat_lt y.place x.place) self.new }
    {
        self.rows.sort_unstable_by(|a, b| b.place.cmp(&a.place));
    }
}

/// Puts what a row adds to each aggregate behind the others. After an error some are missing.
fn push_addends(
    alloc: Global,
    aggregates: &[Aggregate],
    row: &[Value],
    addends: &mut Vec<Option<Addend>>,
) -> Result<(), AllocError>
    requires { AllByRecursion (IsNarrow row.now) aggregates.now }
    ensures ok { OnOk result (PutsAddends row.now aggregates.now addends.old addends.new) }
    ensures small { OnOk result (AllByRecursion (IsSmall row.now) aggregates.now) }
    ensures none_less { length addends.old.items ≤ length addends.new.items }
{
    for aggregate in aggregates {
        addends.push(addend_of(alloc, aggregate, row)?)?;
    }
    Ok(())
}

/// What a row adds to an aggregate, and `None` where it is not counted.
fn addend_of(
    alloc: Global,
    aggregate: &Aggregate,
    row: &[Value],
) -> Result<Option<Addend>, AllocError>
    requires { IsNarrow row.now aggregate.now }
    ensures value { IfOk result (λ addend. addend ≡ addend_of row.now aggregate.now) }
    ensures small { IsSmall row.now aggregate.now }
{
    narrow_is_exact();
    match aggregate {
        Aggregate::CountAll => Ok(Some(Addend::Number(0))),
        Aggregate::Count(argument) | Aggregate::Sum(argument) => {
            Ok(counted_addend(&eval_row(argument, row)))
        }
        Aggregate::CountDistinct(listed) | Aggregate::Min(listed) | Aggregate::Max(listed) => {
            let value = eval_row(listed, row).to_value(alloc)?;
            Ok(Some(Addend::Listed(value)))
        }
    }
}

/// What a value adds to a count or a total: NULL, which is not counted, is `None`.
fn counted_addend(value: &Lent<'_>) -> Option<Addend>
    ensures { result ≡ counted_addend (owned value.now) }
{
    match value {
        Lent::Null => None,
        Lent::Number(n) => Some(Addend::Number(*n)),
        Lent::Day(_) | Lent::Text(_) => Some(Addend::Number(0)),
    }
}
