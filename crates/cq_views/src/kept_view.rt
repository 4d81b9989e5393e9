//! A view as it is kept, over the columns that its query reads.
//!
//! A [`KeptView`] is built at once from the rows of its tables. A write of a table that it reads goes in by `prepare`,
//! which copies the columns it reads of the changed rows, makes all growth and may fail, and then `commit`, which cannot;
//! a write of another table by `advance` alone. A write costs its own rows and the pairs that they meet in the joins, and
//! `rows` what the view holds behind them.
ghost use Rattle.std.specs.List.{AllByRecursion};
ghost use Rattle.std.specs.Prelude.{◌+◌, ◌-◌, ◌<◌, ◌≡◌, ◌^◌, IfErr, IfOk, OnOk, sum};
ghost use Rattle.cq_model.specs.declared.fault.ShowFault.TheVariants.{SumOutOfRange};
ghost use Rattle.cq_views.specs.Changes.{changes_of};
ghost use Rattle.cq_views.specs.Shown.{AreRowsOf, CanShow, IsNotShown, IsShown};
ghost use Rattle.cq_views.specs.State.{CanCommit, CanPrepare, CountsPairs, IsOver, IsWaiting, SameView, StandsFor, StaysStanding, TakesIn};
ghost use Rattle.cq_views.specs.Work.{CountsWithin};
ghost use Rattle.cq_model_laws.specs.Sizes.{HasSizes};
ghost use Rattle.cq_model.specs.Sizes.{column_sizes};
ghost use Rattle.cq_sides.specs.Ticks.{counted};
ghost use Rattle.cq_views.specs.Filling.{bags_at};
ghost use Rattle.cq_views_model.specs.Query.{CanBeKept, reads};
ghost use Rattle.cq_views_state.specs.State.{CanStart, further};
ghost use Rattle.cq_views_state.specs.Work.{CountsPut, work_of};

use crate::changes::{TableChange, cut_change};
use crate::filling::filled;
use cq_model::{Query, ShowFault};
use cq_table_columns::StoredSource;
use cq_values::{Seq, both};
use cq_values_rows::RowList;
use cq_views_columns::{NarrowQuery, SourceColumns};
use cq_views_state::{Pending, ViewState, column_sizes, reads};
use std::alloc::{AllocError, Global};

/// A view as it is kept: its query, how many columns its sources have, which of them it reads, and the state of the
/// query over these.
#[derive(Drop)]
pub struct KeptView {
    query: Query,
    widths: Seq<usize>,
    columns: Seq<SourceColumns>,
    state: ViewState,
}

impl KeptView {
    /// The view of this query over tables with these rows, at the epoch. What FROM names have so many columns, in its
    /// order. It counts no work.
    pub fn build(
        alloc: Global,
        query: Query,
        widths: Seq<usize>,
        tables: &[StoredSource],
        epoch: u64,
    ) -> Result<KeptView, AllocError>
        requires start { CanStart query (bags_at tables.now) }
        requires widths { sum widths < 2 ^ 64 }
        ensures query { IfOk result (λ v. v.query ≡ query) }
        ensures widths { IfOk result (λ v. v.widths ≡ widths) }
        ensures epoch { IfOk result (λ v. v.state.epoch ≡ epoch) }
        ensures built { IfOk result (λ v. v.state.built ≡ epoch) }
        ensures stands { IfOk result (λ v. StandsFor v (bags_at tables.now)) }
        ensures uncounted { IfOk result (λ v. work_of v.state ≡ 0) }
    {
        let built = built_state(alloc, &query, widths.as_slice(), tables, epoch);
        let ((query, widths), (columns, state)) = both((query, widths), built)?;
        Ok(KeptView {
            query,
            widths,
            columns,
            state,
        })
    }

    /// The view's query.
    pub fn query(&self) -> &Query
        ensures { result.now ≡ self.now.query }
    {
        &self.query
    }

    /// The epoch at which the view stands: it shows the tables as they were after so many writes.
    pub fn epoch(&self) -> u64
        ensures { result ≡ self.now.state.epoch }
    {
        self.state.epoch()
    }

    /// How many writes there were when the view was built.
    pub fn built(&self) -> u64
        ensures { result ≡ self.now.state.built }
    {
        self.state.built()
    }

    /// How many entries the sides of the joins gave and took since the view was built, and how many changed rows came
    /// behind the joins.
    pub fn work(&self) -> u128
        ensures { result ≡ counted 0 (work_of self.now.state) }
    {
        self.state.work()
    }

    /// Whether FROM names the table, so that its changes are for the view.
    pub fn is_on(&self, table: u64) -> bool
        ensures { result ≡ reads table self.now.query }
    {
        reads(&self.query, table)
    }

    /// How large the numbers in each column of [`KeptView::rows`] can be.
    pub fn column_sizes(&self, alloc: Global) -> Result<Vec<u128>, AllocError>
        requires { CanBeKept self.now.query }
        ensures { IfOk result (λ v. v.items ≡ column_sizes self.now.query) }
    {
        column_sizes(alloc, &self.query)
    }

    /// Works out what the change of a table changes, from the stored sides and the change alone, and makes all growth
    /// for it. Nothing that is shown changes.
    pub fn prepare(
        &mut self,
        alloc: Global,
        change: &TableChange<'_>,
    ) -> Result<Pending, AllocError>
        requires { CanPrepare self.old (changes_of change.now) }
        ensures same { SameView self.old self.new }
        ensures waiting { IfOk result (IsWaiting self.old (changes_of change.now) self.new) }
        ensures ready { IfOk result (CanCommit self.new) }
        ensures counts { IfOk result (CountsPairs self.old (changes_of change.now) self.new) }
        ensures within { CountsWithin self.old (changes_of change.now) self.new }
    {
        let cut = cut_change(alloc, self.columns.as_slice(), change)?;
        self.state.prepare(alloc, cut)
    }

    /// Puts changes in that wait, and goes one epoch on. It takes no memory, and cannot fail.
    pub fn commit(&mut self, pending: Pending)
        requires can { CanCommit self.old pending }
        requires range { self.old.state.epoch < 2 ^ 64 - 1 }
        ensures query { self.new.query ≡ self.old.query }
        ensures widths { self.new.widths ≡ self.old.widths }
        ensures epoch { self.new.state.epoch ≡ self.old.state.epoch + 1 }
        ensures built { self.new.state.built ≡ self.old.state.built }
        ensures takes { TakesIn self.old pending self.new }
        ensures counts { CountsPut self.old.state pending self.new.state }
    {
        self.state.commit(pending);
    }

    /// Takes in a write of another table.
    pub fn advance(&mut self)
        requires { self.old.state.epoch < 2 ^ 64 - 1 }
        ensures epoch { self.new ≡ record self.old { state = further self.old.state } }
        ensures stands { StaysStanding self.old self.new }
    {
        self.state.advance();
    }

    /// The rows of the view, in no order that is promised. It costs what the view holds, and no table is read.
    pub fn rows(&self, alloc: Global) -> Result<RowList, ShowFault>
        requires { CanShow self.now }
        ensures bag { IfOk result (λ rows. AreRowsOf self.now rows) }
        ensures sized { IfOk result (λ rows. AllByRecursion (HasSizes (column_sizes self.now.query)) rows) }
        ensures range { OnOk result (IsShown self.now) }
        ensures fault { IfErr result (λ e. e ≡ SumOutOfRange → IsNotShown self.now) }
    {
        self.state.rows(alloc)
    }
}

/// The columns that the query reads of its sources, and its state over these.
fn built_state(
    alloc: Global,
    query: &Query,
    widths: &[usize],
    tables: &[StoredSource],
    epoch: u64,
) -> Result<(Seq<SourceColumns>, ViewState), AllocError>
    requires start { CanStart query.now (bags_at tables.now) }
    requires widths { sum widths.now < 2 ^ 64 }
    ensures { IfOk result (IsOver query.now widths.now (bags_at tables.now) epoch) }
{
    let NarrowQuery { query, columns } = NarrowQuery::of(alloc, query, widths)?;
    let state = filled(alloc, query, columns.as_slice(), tables, epoch);
    both(columns, state)
}
