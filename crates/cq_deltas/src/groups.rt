//! The groups of a view by their keys, as they are kept.
//!
//! They are changed as [`OpenGroups`], which no call reads, and read here. [`Groups::shown_rows`] costs one row for each
//! group.
ghost use Rattle.std.specs.Borrow.{Lends, sem};
ghost use Rattle.std.specs.Prelude.{◌≡◌, IfOk, OnOk, []};
ghost use Rattle.cq_views_model.specs.Kept.{Groups as ByKey};
ghost use Rattle.cq_views_model.specs.Shown.{ListsKeys};
ghost use Rattle.cq_deltas.specs.Shown.{EntryCanBeShown, GroupsCanBeShown, PutsEntry, RefusesUnless, counted_keys, group_rows};
ghost use Rattle.cq_deltas.specs.Keyed.{group_at};
ghost use Rattle.cq_deltas.specs.contracts.groups.Groups.{the_row};
ghost use Rattle.cq_deltas.specs.contracts.open_groups.OpenGroups.{the_row as open_row};

#[cfg(test)]
mod tests;

use crate::group::Group;
use crate::open_groups::OpenGroups;
use cq_model::{Aggregate, ShowFault};
use cq_values::Row;
use cq_values_rows::FlatRows;
use indexmap::IndexMap;
use std::alloc::Global;
use std::marker::Model;

/// The groups that a view keeps, by their keys.
#[derive(Drop)]
pub struct Groups {
    open: OpenGroups,
}

impl Model for Groups {
    ghost use Rattle.cq_deltas.specs.Keyed.{KeyedGroups};

    ghost Value = { KeyedGroups };

    ghost view = { λ g. g.open };
}

impl Groups {
    pub fn new(alloc: Global) -> Groups
        ensures { result ≡ [] }
    {
        Groups {
            open: OpenGroups::new(alloc),
        }
    }

    /// The groups for whoever changes them, and cannot read them.
    pub fn open(&mut self) -> &mut OpenGroups
        ensures* back { sem 𝓛 (Lends the_row open_row self.entry result (λ w. w)) }
        ensures same { result.now ≡ self.old }
    {
        &mut self.open
    }

    /// The row of each group that has rows.
    pub fn shown_rows(&self, alloc: Global, aggregates: &[Aggregate]) -> Result<FlatRows, ShowFault>
        ensures rows { IfOk result (λ flat. flat.rows ≡ group_rows aggregates.now self.now) }
        ensures begun { IfOk result (λ flat. flat.begun ≡ []) }
        ensures keys { ListsKeys (counted_keys self.now) (ByKey (group_at aggregates.now self.now)) }
        ensures range { OnOk result (GroupsCanBeShown aggregates.now self.now) }
        ensures fault { RefusesUnless (GroupsCanBeShown aggregates.now self.now) result }
    {
        let groups = self.open.entries();
        let width = row_width(groups, aggregates);
        let mut rows = FlatRows::with_capacity(alloc, groups.len(), width)?;
        for place in 0..groups.len() {
            match groups.get_index(place) {
                Some((key, group)) => push_shown(alloc, aggregates, key, group, &mut rows)?,
                None => unreachable!(),
            }
        }
        Ok(rows)
    }
}

/// How many values a group's row has. All keys have as many as the first.
fn row_width(groups: &IndexMap<Row, Group>, aggregates: &[Aggregate]) -> usize {
    match groups.get_index(0) {
        Some((key, _)) => key.len().saturating_add(aggregates.len()),
        None => 0,
    }
}

/// Adds the row of a group, if the group has rows.
fn push_shown(
    alloc: Global,
    aggregates: &[Aggregate],
    key: &Row,
    group: &Group,
    rows: &mut FlatRows,
) -> Result<(), ShowFault>
    requires { rows.old.begun ≡ [] }
    ensures rows { OnOk result (PutsEntry aggregates.now key.now group.now rows.old rows.new) }
    ensures begun { OnOk result (rows.new.begun ≡ []) }
    ensures range { OnOk result (EntryCanBeShown aggregates.now key.now group.now) }
    ensures fault { RefusesUnless (EntryCanBeShown aggregates.now key.now group.now) result }
{
    if group.count() > 0 {
        group.show(alloc, aggregates, key, rows)?;
        rows.end_row()?;
    }
    Ok(())
}
