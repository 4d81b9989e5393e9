//! The groups of a view by their keys, as they are changed.
//!
//! A change comes in row by row: [`OpenGroups::ready`] finds or makes the group of a row's key, makes room in it, and
//! puts what the row adds behind the rest of a [`GroupChange`]; until then nothing that is shown changes.
//! [`OpenGroups::take`] puts the whole change in, cannot fail, and drops groups that are left without rows.
//!
//! A row costs one hash of its key and one step for each aggregate, MIN, MAX and COUNT(DISTINCT ..) the logarithm of
//! their values. No public call here reads a group, and none makes [`crate::Groups`] of these: who is handed them reaches
//! groups by changes alone.
ghost use Rattle.std.specs.List.{AllByRecursion};
ghost use Rattle.std.specs.List.Sorted.{IsSortedBy};
ghost use Rattle.std.specs.Map.{keys_of};
ghost use Rattle.std.specs.Prelude.{All, ◌<◌, ◌≡◌, IfOk, OnOk, [], false, length, nat_lt, take};
ghost use Rattle.cq_deltas.specs.Additions.{IsNarrow, IsSmall};
ghost use Rattle.cq_deltas.specs.Keyed.{Adds, ArePut, ChangeIsSettled, GroupsGoOn, HasKeys, HoldsFor, HoldsOne, IsPut, IsReadyAt, IsSettledAt, KeepGroups, KeepPlaces, KeepStored, StandsAt, Takes, addition_at, additions_at};
ghost use Rattle.cq_deltas.specs.Placed.{row_read};

#[cfg(test)]
mod tests;

use crate::change::{Addend, GroupChange, PlacedRow};
use crate::group::Group;
use crate::grouping::Grouping;
use cq_model::Aggregate;
use cq_model_eval::key_of;
use cq_values::{Row, Value};
use indexmap::IndexMap;
use std::alloc::{AllocError, Global};
use std::marker::Model;

/// The groups that a view keeps, by their keys, to be changed and not read. NULL keys are one key.
#[derive(Drop)]
pub struct OpenGroups {
    groups: IndexMap<Row, Group>,
}

impl Model for OpenGroups {
    ghost use Rattle.cq_deltas.specs.Keyed.{KeyedGroups};

    ghost Value = { KeyedGroups };

    ghost view = { λ g. g.groups.entries };
}

impl OpenGroups {
    pub fn new(alloc: Global) -> OpenGroups
        ensures { result ≡ [] }
    {
        OpenGroups {
            groups: IndexMap::new(alloc),
        }
    }

    /// Makes room for what a changed row adds, and puts that behind the rest of a change: [`OpenGroups::take`] then puts it in
    /// without growth. Where the row's key has no group it gets an empty one. No group changes.
    pub fn ready(
        &mut self,
        alloc: Global,
        by: Grouping<'_>,
        row: &[Value],
        weight: i128,
        change: &mut GroupChange,
    ) -> Result<(), AllocError>
        requires narrow { AllByRecursion (IsNarrow row.now) by.aggregates.now }
        requires keys { HasKeys change.old self.old }
        ensures groups { KeepGroups by.entry.aggregates.now self.old self.new }
        ensures small { OnOk result (AllByRecursion (IsSmall row.now) by.entry.aggregates.now) }
        ensures adds { OnOk result (Adds by.entry row.now weight self.old change.old self.new change.new) }
    {
        let key = key_of(alloc, by.columns, row)?;
        let place = self.place_of(alloc, by.aggregates, key)?;
        change.push(alloc, place, by.aggregates, row, weight)?;
        let last = change.row(change.len() - 1);
        self.make_room(alloc, place, last.addends)
    }

    /// The place of a key's group. Where the key has none, an empty one is put behind the others.
    fn place_of(
        &mut self,
        alloc: Global,
        aggregates: &[Aggregate],
        key: Row,
    ) -> Result<usize, AllocError>
        ensures groups { KeepGroups aggregates.now self.old self.new }
        ensures keep { KeepPlaces self.old self.new }
        ensures place { IfOk result (StandsAt self.new key) }
    {
        if let Some(place) = self.groups.get_index_of(&key) {
            return Ok(place);
        }
        let place = self.groups.len();
        let group = Group::empty(alloc, aggregates)?;
        self.groups.insert(key, group)?;
        Ok(place)
    }

    /// Makes room in the group at a place for what a row adds.
    fn make_room(
        &mut self,
        alloc: Global,
        place: usize,
        addends: &[Option<Addend>],
    ) -> Result<(), AllocError>
        requires { place < length self.old }
        ensures same { KeepStored self.old self.new }
        ensures keep { KeepPlaces self.old self.new }
        ensures room { OnOk result (IsReadyAt addends.now self.new place) }
    {
        match self.groups.get_index_mut(place) {
            Some(group) => group.ready(alloc, addends),
            None => unreachable!(),
        }
    }

    /// Puts a change in that the groups were made ready for. It cannot fail, and takes no memory.
    pub fn take(&mut self, change: GroupChange)
        requires keys { HasKeys change self.old }
        requires holds { HoldsFor (additions_at self.old change) self.old }
        ensures takes { Takes self.old (additions_at self.old change) self.new }
        ensures goes_on { GroupsGoOn self.old (additions_at self.old change) self.new }
    {
        let mut change = change;
        self.put_all(&change);
        if self.settle_all(&change) {
            change.sort_from_last();
            self.drop_empty(&change);
        }
    }

    /// Puts the groups in the order of their keys, where there is memory for it. No order is
    /// promised.
    pub fn sort(&mut self) -> Result<(), AllocError>
        ensures { KeepStored self.old self.new }
    {
        self.groups
            .sort_unstable_by(|a, _, b, _| a.as_slice().cmp(b.as_slice()))
    }

    /// The groups by their keys, for [`crate::Groups::shown_rows`] alone.
    pub(crate) fn entries(&self) -> &IndexMap<Row, Group>
        ensures { result.now.entries ≡ self.now }
    {
        &self.groups
    }

    /// Puts the rows of a change in their groups.
    fn put_all(&mut self, change: &GroupChange)
        requires keys { HasKeys change.now self.old }
        requires holds { HoldsFor (additions_at self.old change.now) self.old }
        ensures put { ArePut self.old (additions_at self.old change.now) self.new }
        ensures keep { KeepPlaces self.old self.new }
    {
        for index in 0..change.len() {
            self.put(change.row(index));
        }
    }

    fn put(&mut self, row: PlacedRow<'_>)
        requires room { IsReadyAt (row_read row).addends self.old row.place }
        requires holds { HoldsOne (addition_at self.old (row_read row)) self.old }
        ensures put { IsPut self.old (addition_at self.old (row_read row.entry)) self.new }
        ensures keep { KeepPlaces self.old self.new }
    {
        match self.groups.get_index_mut(row.place) {
            Some(group) => group.add(row.weight, row.addends),
            None => unreachable!(),
        }
    }

    /// Lets values of a change's groups go that are counted no longer, and tells whether one of the groups has no rows.
    fn settle_all(&mut self, change: &GroupChange) -> bool
        requires { HasKeys change.now self.old }
        ensures same { KeepStored self.old self.new }
        ensures keys { keys_of self.new ≡ keys_of self.old }
        ensures full { result ≡ false → ChangeIsSettled change.now self.old self.new }
    {
        let mut is_empty = false;
        for index in 0..change.len() {
            is_empty |= self.settle(change.row(index));
        }
        is_empty
    }

    fn settle(&mut self, row: PlacedRow<'_>) -> bool
        requires { row.place < length self.old }
        ensures same { KeepStored self.old self.new }
        ensures keys { keys_of self.new ≡ keys_of self.old }
        ensures full { result ≡ false → IsSettledAt row.entry.place self.old self.new }
    {
        match self.groups.get_index_mut(row.place) {
            Some(group) => {
                group.settle(row.addends);
                group.is_empty()
            }
            None => unreachable!(),
        }
    }

    /// Drops those groups of a change that have no rows, the last one first. So the places of the others stay right.
    fn drop_empty(&mut self, change: &GroupChange)
        requires there { All (λ x. x.place < length self.old) change.now }
        requires sorted { IsSortedBy (λ x y. nat_lt y.place x.place) change.now }
        ensures { ChangeIsSettled change.now self.old self.new }
    {
        let mut end = self.groups.len();
        for index in 0..change.len() {
            let row = change.row(index);
            // Rows of one group stand together, and the group leaves with the first of them.
            if row.place < end {
                self.drop_if_empty(row.place);
            }
            end = row.place;
        }
    }

    /// Drops the group at a place if it has no rows. The last group takes its place.
    fn drop_if_empty(&mut self, place: usize)
        requires { place < length self.old }
        ensures settled { IsSettledAt place self.old self.new }
        ensures front { take place self.new ≡ take place self.old }
    {
        let is_empty = match self.groups.get_index(place) {
            Some((_, group)) => group.is_empty(),
            None => unreachable!(),
        };
        if is_empty {
            drop(self.groups.swap_remove_index(place));
        }
    }
}
