//! A group: how many rows it has, and what is kept of each of its aggregates.
//!
//! [`Group::ready`] makes room for a row's arguments, [`Group::add`] puts them in and cannot fail, and
//! [`Group::settle`] lets values go that are counted no longer. Each costs one step for each aggregate.
ghost use Rattle.std.specs.Ordering.{int_eq};
ghost use Rattle.std.specs.Prelude.{pos, ◌≡◌, [], IfOk, OnOk, map};
ghost use Rattle.cq_views_model.specs.Kept.{group_of};
ghost use Rattle.cq_deltas.specs.Shown.{AllCanBeShown, GroupCanBeShown, RefusesUnless, ShowsGroup, ShowsStored};
ghost use Rattle.cq_deltas.specs.Kept.{AllHoldWith, GroupHoldsWith, HaveRoom, KeepRoom, all_kept_with, group_with, seen, seen_group};

use crate::change::Addend;
use crate::kept::Kept;
use cq_model::{Aggregate, ShowFault};
use cq_values::Row;
use cq_values_rows::FlatRows;
use std::alloc::{AllocError, Global};

/// A group of rows that have one key.
#[derive(Debug, Drop)]
pub(crate) struct Group {
    count: i128,
    kept: Vec<Kept>,
}

impl Group {
    /// The group of no rows.
    pub(crate) fn empty(alloc: Global, aggregates: &[Aggregate]) -> Result<Group, AllocError>
        ensures { IfOk result (λ g. seen_group g ≡ group_of aggregates.now []) }
    {
        let mut kept = Vec::with_capacity(alloc, aggregates.len())?;
        for aggregate in aggregates {
            kept.push(Kept::empty(alloc, aggregate))?;
        }
        Ok(Group { count: 0, kept })
    }

    /// How many rows there are, each as often as it occurs.
    pub(crate) fn count(&self) -> i128
        ensures { result ≡ self.now.count }
    {
        self.count
    }

    pub(crate) fn is_empty(&self) -> bool
        ensures { result ≡ int_eq self.now.count (pos 0) }
    {
        self.count == 0
    }

    /// Makes room for the arguments of a row, and leaves the group as it is.
    pub(crate) fn ready(
        &mut self,
        alloc: Global,
        addends: &[Option<Addend>],
    ) -> Result<(), AllocError>
        ensures seen { seen_group self.new ≡ seen_group self.old }
        ensures room { OnOk result (HaveRoom addends.now self.new.kept.items) }
        ensures kept { KeepRoom self.old.kept.items self.new.kept.items }
    {
        ready_all(alloc, &mut self.kept, addends)
    }

    /// Puts a row in, by what its arguments add.
    pub(crate) fn add(&mut self, weight: i128, addends: &[Option<Addend>])
        requires room { HaveRoom addends.now self.old.kept.items }
        requires holds { GroupHoldsWith weight addends.now (seen_group self.old) }
        ensures seen { seen_group self.new ≡ group_with weight addends.now (seen_group self.old) }
        ensures kept { KeepRoom self.old.kept.items self.new.kept.items }
    {
        self.count += weight;
        add_all(&mut self.kept, weight, addends);
    }

    /// Lets values go that are counted no longer, of those that a row has.
    pub(crate) fn settle(&mut self, addends: &[Option<Addend>])
        ensures { seen_group self.new ≡ seen_group self.old }
    {
        settle_all(&mut self.kept, addends);
    }

    /// Puts what the group shows at the end of the row that is begun: its key, and then its aggregates.
    pub(crate) fn show(
        &self,
        alloc: Global,
        aggregates: &[Aggregate],
        key: &Row,
        rows: &mut FlatRows,
    ) -> Result<(), ShowFault>
        ensures rows { OnOk result (rows.new.rows ≡ rows.old.rows) }
        ensures begun { OnOk result (ShowsGroup aggregates.now key.now self.now rows.old rows.new) }
        ensures range { OnOk result (GroupCanBeShown aggregates.now self.now) }
        ensures fault { RefusesUnless (GroupCanBeShown aggregates.now self.now) result }
    {
        shown_row(alloc, aggregates, key, &self.kept, rows)
    }
}

fn shown_row(
    alloc: Global,
    aggregates: &[Aggregate],
    key: &Row,
    kept: &[Kept],
    rows: &mut FlatRows,
) -> Result<(), ShowFault>
    ensures rows { OnOk result (rows.new.rows ≡ rows.old.rows) }
    ensures begun { OnOk result (ShowsStored aggregates.now key.now kept.now rows.old rows.new) }
    ensures range { OnOk result (AllCanBeShown aggregates.now (map seen kept.now)) }
    ensures fault { RefusesUnless (AllCanBeShown aggregates.now (map seen kept.now)) result }
{
    rows.push_copies(alloc, key.as_slice())?;
    let len = aggregates.len().min(kept.len());
    for place in 0..len {
        let value = kept[place].value(alloc, &aggregates[place])?;
        rows.push(value)?;
    }
    Ok(())
}

/// Makes room for each argument of a row in what is kept of its aggregate.
fn ready_all(alloc: Global, kept: &mut [Kept], addends: &[Option<Addend>]) -> Result<(), AllocError>
    ensures seen { map seen kept.new ≡ map seen kept.old }
    ensures room { OnOk result (HaveRoom addends.now kept.new) }
    ensures kept { KeepRoom kept.old kept.new }
{
    let len = kept.len().min(addends.len());
    for place in 0..len {
        kept[place].ready(alloc, &addends[place])?;
    }
    Ok(())
}

/// Puts each argument of a row in what is kept of its aggregate.
fn add_all(kept: &mut [Kept], weight: i128, addends: &[Option<Addend>])
    requires room { HaveRoom addends.now kept.old }
    requires holds { AllHoldWith weight addends.now kept.old }
    ensures seen { map seen kept.new ≡ all_kept_with weight addends.now (map seen kept.old) }
    ensures kept { KeepRoom kept.old kept.new }
{
    let len = kept.len().min(addends.len());
    for place in 0..len {
        kept[place].add(weight, &addends[place]);
    }
}

/// Lets each argument's value go where it is counted no longer.
fn settle_all(kept: &mut [Kept], addends: &[Option<Addend>])
    ensures { map seen kept.new ≡ map seen kept.old }
{
    let len = kept.len().min(addends.len());
    for place in 0..len {
        kept[place].settle(&addends[place]);
    }
}
