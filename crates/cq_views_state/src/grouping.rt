//! What changes of the joined rows add to groups.
ghost use Rattle.std.specs.Prelude.{◌≡◌, ◌≤◌, IfOk, OnErr, OnOk};
ghost use Rattle.cq_deltas_joins.specs.Chains.{CanChange};
ghost use Rattle.cq_deltas_joins.specs.WaitingChanges.{AreReady};
ghost use Rattle.cq_deltas_joins.specs.Sources.{rows_at};
ghost use Rattle.cq_deltas_joins.specs.Work.{OnlyCounts};
ghost use Rattle.cq_views_state.specs.Counting.{CountsChange};
ghost use Rattle.cq_views_state.specs.Grouping.{AddsChangeBy};
ghost use Rattle.cq_views_state.specs.Last.{GroupsStay};
ghost use Rattle.cq_views_model.specs.Query.{CanBeKept};

use crate::query::{aggregates_of, key_columns};
use cq_deltas::{GroupChange, Grouping, OpenGroups};
use cq_deltas_joins::{Chain, SourceRows, Takes, Waiting};
use cq_model::Query;
use cq_model_eval::keeps;
use cq_values::{Value, both};
use std::alloc::{AllocError, Global};
use std::mem::replace;

/// A view's groups while they take changed joined rows: they get room for what those add that WHERE keeps, and none
/// changes. Each row counts one tick. No call reads them here.
#[derive(Drop)]
pub(crate) struct GroupTaker<'a> {
    query: &'a Query,
    groups: OpenGroups,
    change: GroupChange,
    ticks: u128,
}

impl<'a> Takes for GroupTaker<'a> {
    ghost use Rattle.cq_views_state.specs.Grouping.{CanTake as TakesRow, Keeps as KeepsGroups, Takes as TookRows};
    ghost use Rattle.cq_views_state.specs.GroupLaws.{fits-still, keeps-itself, keeps-more, takes-more, takes-none};

    ghost Fits = { TakesRow };

    ghost Took = { TookRows };

    ghost Keeps = { KeepsGroups };

    fn take(&mut self, alloc: Global, row: &[Value], weight: i128) -> Result<(), AllocError> {
        self.ticks = self.ticks.saturating_add(1);
        let (columns, aggregates) = (key_columns(self.query), aggregates_of(self.query));
        let grouping = Grouping {
            columns,
            aggregates,
        };
        if keeps(&self.query.filter, row) {
            let change = &mut self.change;
            self.groups.ready(alloc, grouping, row, weight, change)
        } else {
            Ok(())
        }
    }

    ghost took_none = { takes-none };

    ghost took_more = { takes-more };

    ghost keeps_itself = { keeps-itself };

    ghost keeps_more = { keeps-more };

    ghost fits_still = { fits-still };
}

/// Works out what changes add to a view's groups. They are out of their place meanwhile, and back after an error too.
pub(crate) fn stream_groups(
    alloc: Global,
    query: &Query,
    chain: &mut Chain,
    changes: Vec<SourceRows>,
    groups: &mut OpenGroups,
    ticks: &mut u128,
) -> Result<(Waiting, GroupChange), AllocError>
    requires can { CanBeKept query.now }
    requires change { CanChange chain.old (rows_at changes.items) }
    ensures adds { IfOk result (λ r. AddsChangeBy query.now chain.old changes groups.new r.1) }
    ensures rows { OnOk result (CountsChange chain.old (rows_at changes.items) ticks.old ticks.new) }
    ensures ready { IfOk result (λ r. AreReady chain.old (rows_at changes.items) chain.new r.0) }
    ensures kept { OnlyCounts chain.old (rows_at changes.items) chain.new }
    ensures same { GroupsStay query.now groups.old groups.new }
    ensures more { ticks.old ≤ ticks.new }
    ensures failed { OnErr result (ticks.new ≡ ticks.old) }
{
    let mut taker = GroupTaker {
        query,
        groups: replace(groups, OpenGroups::new(alloc)),
        change: GroupChange::new(alloc),
        ticks: *ticks,
    };
    let streamed = chain.stream(alloc, changes, &mut taker);
    let GroupTaker {
        query: _,
        groups: back,
        change,
        ticks: counted,
    } = taker;
    *groups = back;
    let (change, waiting) = both(change, streamed)?;
    *ticks = counted;
    Ok((waiting, change))
}
