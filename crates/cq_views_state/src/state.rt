//! The state that is kept of a view's query: the sides of its joins, and what stands behind them.
//!
//! Changes of its tables go in by `prepare`, which makes all growth and may fail, and `commit` with what that gave, which
//! cannot; between the two nothing is shown of them. `advance` counts a write of other tables alone. No public call lowers
//! a count. A change costs its own rows and the pairs that they meet, `rows` what is held behind the joins, and all else the
//! same whatever is held.
ghost use Rattle.std.specs.List.{AllByRecursion};
ghost use Rattle.std.specs.Prelude.{◌+◌, ◌-◌, ◌<◌, ◌≡◌, ◌≤◌, ◌^◌, IfErr, IfOk, OnErr, OnOk, length};
ghost use Rattle.cq_deltas_joins.specs.Chains.{nothing};
ghost use Rattle.cq_deltas_joins.specs.Sources.{rows_at};
ghost use Rattle.cq_deltas_joins.specs.Work.{CountsPairs};
ghost use Rattle.cq_model.specs.declared.fault.ShowFault.TheVariants.{SumOutOfRange};
ghost use Rattle.cq_model_laws.specs.Sizes.{HasSizes};
ghost use Rattle.cq_model.specs.Sizes.{column_sizes};
ghost use Rattle.cq_model.specs.Views.{sources_of};
ghost use Rattle.cq_sides.specs.Ticks.{counted};
ghost use Rattle.cq_views_state.specs.Shown.{AreRowsOf, CanShow, IsNotShown, IsShown};
ghost use Rattle.cq_views_state.specs.Work.{CountsPut, CountsRows, work_of};
ghost use Rattle.cq_views_state.specs.State.{CanCommit, CanPrepare, IsWaiting, SameView, StandsFor, StaysStanding, TakesIn, further};

#[cfg(test)]
mod tests;

use crate::grouping::stream_groups;
use crate::imaging::stream_images;
use crate::joins::joined;
use crate::last::{Last, LastChange};
use crate::showing::shown_rows;
use cq_deltas_joins::{Chain, SourceRows, Waiting};
use cq_model::{Query, ShowFault};
use cq_values::Seq;
use cq_values_rows::RowList;
use std::alloc::{AllocError, Global};

/// A view as it is kept: its query, how many columns its sources have, its epochs, the sides of its joins, what stands
/// behind them, and how many changed rows came there.
#[derive(Drop)]
pub struct ViewState {
    query: Query,
    widths: Seq<usize>,
    epoch: u64,
    built: u64,
    chain: Chain,
    last: Last,
    /// How many changed rows came behind the joins.
    ticks: u128,
}

/// Changes that wait for [`ViewState::commit`]: those of the joins, and what they add behind them.
#[derive(Drop)]
pub struct Pending {
    waiting: Waiting,
    change: LastChange,
}

impl ViewState {
    /// The view of this query over tables without rows. The rows of what FROM names will have so many columns, in its
    /// order.
    pub(crate) fn empty(
        alloc: Global,
        query: Query,
        widths: Seq<usize>,
        epoch: u64,
    ) -> Result<ViewState, AllocError>
        requires { length widths ≡ length (sources_of query) }
        ensures query { IfOk result (λ v. v.query ≡ query) }
        ensures widths { IfOk result (λ v. v.widths ≡ widths) }
        ensures epoch { IfOk result (λ v. v.epoch ≡ epoch) }
        ensures built { IfOk result (λ v. v.built ≡ epoch) }
        ensures stands { IfOk result (λ v. StandsFor v nothing) }
    {
        match joined(alloc, &query, widths.as_slice()) {
            Ok(chain) => {
                let last = Last::empty(alloc, &query);
                Ok(ViewState {
                    query,
                    widths,
                    epoch,
                    built: epoch,
                    chain,
                    last,
                    ticks: 0,
                })
            }
            Err(fault) => {
                drop(query);
                drop(widths);
                Err(fault)
            }
        }
    }

    /// The epoch at which the view stands: it shows the tables as they were after so many writes.
    pub fn epoch(&self) -> u64
        ensures { result ≡ self.now.epoch }
    {
        self.epoch
    }

    /// How many writes there were when the view was built.
    pub fn built(&self) -> u64
        ensures { result ≡ self.now.built }
    {
        self.built
    }

    /// How many entries the sides of the joins gave and took since the view was built, and how many changed rows came
    /// behind the joins.
    pub fn work(&self) -> u128
        ensures { result ≡ counted 0 (work_of self.now) }
    {
        self.chain.ticks().saturating_add(self.ticks)
    }

    /// Works out what changes of the tables change, from the stored sides and the changes alone, and makes all growth
    /// for it. Nothing that is shown changes. What works them out is handed no groups that can be read, and no images.
    pub fn prepare(
        &mut self,
        alloc: Global,
        changes: Vec<SourceRows>,
    ) -> Result<Pending, AllocError>
        requires { CanPrepare self.old (rows_at changes.items) }
        ensures same { SameView self.old self.new }
        ensures waiting { IfOk result (IsWaiting self.old (rows_at changes.items) self.new) }
        ensures ready { IfOk result (CanCommit self.new) }
        ensures counts { CountsPairs self.old.chain (rows_at changes.items) self.new.chain }
        ensures rows { OnOk result (CountsRows self.old (rows_at changes.items) self.new) }
        ensures more { work_of self.old ≤ work_of self.new }
        ensures failed { OnErr result (self.new.ticks ≡ self.old.ticks) }
    {
        let (query, chain) = (&self.query, &mut self.chain);
        let ticks = &mut self.ticks;
        match &mut self.last {
            Last::Groups(groups) => {
                let open = groups.open();
                let (waiting, change) = stream_groups(alloc, query, chain, changes, open, ticks)?;
                let change = LastChange::Groups(change);
                Ok(Pending { waiting, change })
            }
            Last::Images(images) => {
                let streamed = stream_images(alloc, query, chain, changes, *ticks)?;
                let (waiting, change, counted) = streamed;
                images.reserve(change.len())?;
                *ticks = counted;
                let change = LastChange::Images(change);
                Ok(Pending { waiting, change })
            }
        }
    }

    /// Puts changes in that wait, and goes one epoch on. It takes no memory, and cannot fail.
    pub fn commit(&mut self, pending: Pending)
        requires can { CanCommit self.old pending }
        requires range { self.old.epoch < 2 ^ 64 - 1 }
        ensures query { self.new.query ≡ self.old.query }
        ensures widths { self.new.widths ≡ self.old.widths }
        ensures epoch { self.new.epoch ≡ self.old.epoch + 1 }
        ensures built { self.new.built ≡ self.old.built }
        ensures takes { TakesIn self.old pending self.new }
        ensures counts { CountsPut self.old pending self.new }
    {
        self.put(pending);
        self.epoch += 1;
    }

    /// Puts changes in that wait, at the same epoch.
    pub(crate) fn put(&mut self, pending: Pending)
        requires { CanCommit self.old pending }
        ensures query { self.new.query ≡ self.old.query }
        ensures widths { self.new.widths ≡ self.old.widths }
        ensures epoch { self.new.epoch ≡ self.old.epoch }
        ensures built { self.new.built ≡ self.old.built }
        ensures takes { TakesIn self.old pending self.new }
        ensures counts { CountsPut self.old pending self.new }
    {
        let Pending { waiting, change } = pending;
        self.chain.take(waiting);
        self.last.commit(change);
    }

    /// Takes in a write of another table.
    pub fn advance(&mut self)
        requires { self.old.epoch < 2 ^ 64 - 1 }
        ensures epoch { self.new ≡ further self.old }
        ensures stands { StaysStanding self.old self.new }
    {
        self.epoch += 1;
    }

    /// The rows of the view, in no order that is promised. It costs what the view holds, and no table is read.
    pub fn rows(&self, alloc: Global) -> Result<RowList, ShowFault>
        requires { CanShow self.now }
        ensures bag { IfOk result (λ rows. AreRowsOf self.now rows) }
        ensures sized { IfOk result (λ rows. AllByRecursion (HasSizes (column_sizes self.now.query)) rows) }
        ensures range { OnOk result (IsShown self.now) }
        ensures fault { IfErr result (λ e. e ≡ SumOutOfRange → IsNotShown self.now) }
    {
        shown_rows(alloc, &self.query, &self.last)
    }

    /// The same view with no work counted, and with groups in order, in which most of them stay.
    pub(crate) fn uncounted(self, alloc: Global) -> ViewState
        ensures same { SameView self result }
        ensures uncounted { work_of result ≡ 0 }
    {
        let ViewState {
            query,
            widths,
            epoch,
            built,
            chain,
            last,
            ticks: _,
        } = self;
        let mut last = last;
        // The order is no promise: where memory is short, the groups stay as they are.
        let _ = last.sort();
        ViewState {
            query,
            widths,
            epoch,
            built,
            chain: chain.uncounted(alloc),
            last,
            ticks: 0,
        }
    }
}
