//! A view that is being built.
//!
//! A [`ViewBuild`] starts without rows and takes those of its tables in, some at a time. [`ViewBuild::finish`] gives the
//! view, which counts no work of them. It takes the build, and no call makes a build of a view, so no view that is kept
//! counts less than it did.
ghost use Rattle.std.specs.Prelude.{◌≡◌, IfOk, OnErr, OnOk, length};
ghost use Rattle.cq_deltas_joins.specs.Chains.{nothing};
ghost use Rattle.cq_deltas_joins.specs.Sources.{rows_at};
ghost use Rattle.cq_model.specs.Views.{sources_of};
ghost use Rattle.cq_views_state.specs.Build.{Gains};
ghost use Rattle.cq_views_state.specs.State.{CanPrepare, SameView, StandsFor};
ghost use Rattle.cq_views_state.specs.Work.{work_of};

use crate::state::ViewState;
use cq_deltas_joins::SourceRows;
use cq_model::Query;
use cq_values::Seq;
use std::alloc::{AllocError, Global};
use std::marker::Model;

/// A view that is being built. To contracts it is the view so far.
#[derive(Drop)]
pub struct ViewBuild {
    state: ViewState,
}

impl Model for ViewBuild {
    ghost use Rattle.std.specs.Coded.{codes};
    ghost use Rattle.cq_views_state.specs.contracts.state.ViewState as view_state;
    ghost use Rattle.cq_views_state.specs.declared.state.ViewState.{ViewState as State};

    ghost Value = { State };

    ghost coded = { Prim.hlevel (codes, view_state.the_row.coded) };

    ghost view = { λ b. b.state };
}

impl ViewBuild {
    /// The view of this query over tables without rows. The rows of what FROM names will have so many columns, in its
    /// order.
    pub fn empty(
        alloc: Global,
        query: Query,
        widths: Seq<usize>,
        epoch: u64,
    ) -> Result<ViewBuild, AllocError>
        requires { length widths ≡ length (sources_of query) }
        ensures query { IfOk result (λ v. v.query ≡ query) }
        ensures widths { IfOk result (λ v. v.widths ≡ widths) }
        ensures epoch { IfOk result (λ v. v.epoch ≡ epoch) }
        ensures built { IfOk result (λ v. v.built ≡ epoch) }
        ensures stands { IfOk result (λ v. StandsFor v nothing) }
    {
        let state = ViewState::empty(alloc, query, widths, epoch)?;
        Ok(ViewBuild { state })
    }

    /// Takes changes of the tables in, at the same epoch.
    pub fn take_in(&mut self, alloc: Global, changes: Vec<SourceRows>) -> Result<(), AllocError>
        requires { CanPrepare self.old (rows_at changes.items) }
        ensures gains { OnOk result (Gains (rows_at changes.items) self.old self.new) }
        ensures failed { OnErr result (SameView self.old self.new) }
    {
        let pending = self.state.prepare(alloc, changes)?;
        self.state.put(pending);
        Ok(())
    }

    /// The view that was built. What it took in counts as no work, since it is none of its changes, and its groups are put
    /// in order, in which most of them stay.
    pub fn finish(self, alloc: Global) -> ViewState
        ensures same { SameView self result }
        ensures uncounted { work_of result ≡ 0 }
    {
        self.state.uncounted(alloc)
    }
}
