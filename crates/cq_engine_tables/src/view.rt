//! A view under its name.
//!
//! A [`View`] is a kept view that statements find, with the columns that it shows. A change of a table is made known to it:
//! first `prepare`, which may fail and gives what waits, or nothing where the view does not read the table, and then
//! `commit` with that, which cannot. `rows` costs what the view holds; all else is the kept view's cost.
ghost use Rattle.std.specs.Prelude.{◌-◌, ◌<◌, ◌≡◌, ◌^◌, IfErr, IfOk, OnOk};
ghost use Rattle.cq_model.specs.declared.fault.ShowFault.TheVariants.{SumOutOfRange};
ghost use Rattle.cq_model.specs.Sizes.{column_sizes};
ghost use Rattle.cq_values.specs.Texts.{is_text};
ghost use Rattle.cq_views_model.specs.Query.{CanBeKept, reads};
ghost use Rattle.cq_views_state.specs.Work.{work_of};
ghost use Rattle.cq_sides.specs.Ticks.{counted};
ghost use Rattle.cq_views.specs.Changes.{changes_of};
ghost use Rattle.cq_views.specs.Shown.{AreRowsOf, CanShow, IsNotShown, IsShown};
ghost use Rattle.cq_views.specs.State.{CanPrepare};
ghost use Rattle.cq_views.specs.Work.{CountsWithin};
ghost use Rattle.cq_engine_tables.specs.Views.{AreSized};
ghost use Rattle.cq_engine_tables.specs.Taking.{CanTake, CountsForChange, HasTaken, IsReadyForChange, IsSame};

use cq_model::{Query, ShowFault};
use cq_values::{ColumnDef, Seq, Text};
use cq_values_rows::RowList;
use cq_views::{KeptView, TableChange};
use cq_views_state::Pending;
use std::alloc::{AllocError, Global};
use std::marker::Model;

/// A kept view under a name, with the columns that it shows.
#[derive(Drop)]
pub struct View {
    name: Text,
    columns: Seq<ColumnDef>,
    state: KeptView,
}

impl Model for View {
    ghost use Rattle.std.specs.Coded.{codes};
    ghost use Rattle.cq_model.specs.contracts.expr.Cond as cond;
    ghost use Rattle.cq_model.specs.contracts.expr.Expr as expr;
    ghost use Rattle.cq_views_model.specs.Query.{CanBeKept};
    ghost use Rattle.cq_views.specs.contracts.kept_view.KeptView as kept_view;
    ghost use Rattle.cq_engine_tables.specs.Views.{NamedView};

    ghost Value = { NamedView };

    ghost coded = { Prim.hlevel (codes, expr.the_row.coded, cond.the_row.coded, kept_view.the_row.coded) };

    ghost view = { λ v. record { name = v.name; columns = v.columns; kept = v.state } };

    ghost invariant = { λ v. CanBeKept v.state.query };
}

impl View {
    pub fn new(name: Text, columns: Seq<ColumnDef>, state: KeptView) -> View
        requires { CanBeKept state.query }
        ensures { result ≡ record { name = name; columns = columns; kept = state } }
    {
        View {
            name,
            columns,
            state,
        }
    }

    pub fn is_named(&self, name: &str) -> bool
        ensures { result ≡ is_text self.now.name name.now }
    {
        self.name.as_str() == name
    }

    pub fn name(&self) -> &str
        ensures { result.now ≡ self.now.name }
    {
        self.name.as_str()
    }

    /// How large the numbers in the columns of the view can be.
    pub fn column_sizes(&self, alloc: Global) -> Result<Vec<u128>, AllocError>
        ensures { IfOk result (λ v. v.items ≡ column_sizes self.now.kept.query) }
    {
        self.state.column_sizes(alloc)
    }

    pub fn columns(&self) -> &[ColumnDef]
        ensures { result.now ≡ self.now.columns }
    {
        self.columns.as_slice()
    }

    /// Whether the view reads the table of a number.
    pub fn is_on(&self, table: u64) -> bool
        ensures { result ≡ reads table self.now.kept.query }
    {
        self.state.is_on(table)
    }

    /// The view's query.
    pub fn query(&self) -> &Query
        ensures { result.now ≡ self.now.kept.query }
    {
        self.state.query()
    }

    /// The epoch at which the view stands: it shows the tables as they were after so many writes.
    pub fn epoch(&self) -> u64
        ensures { result ≡ self.now.kept.state.epoch }
    {
        self.state.epoch()
    }

    /// How many writes there were when the view was built.
    pub fn built(&self) -> u64
        ensures { result ≡ self.now.kept.state.built }
    {
        self.state.built()
    }

    /// How many entries the sides of the view's joins gave and took since it was built, and how many changed rows came
    /// behind the joins.
    pub fn work(&self) -> u128
        ensures { result ≡ counted 0 (work_of self.now.kept.state) }
    {
        self.state.work()
    }

    /// The rows of the view. It costs what the view holds, and no table is read.
    pub fn rows(&self, alloc: Global) -> Result<RowList, ShowFault>
        requires { CanShow self.now.kept }
        ensures bag { IfOk result (λ rows. AreRowsOf self.now.kept rows) }
        ensures sized { IfOk result (AreSized self.now) }
        ensures range { OnOk result (IsShown self.now.kept) }
        ensures fault { IfErr result (λ e. e ≡ SumOutOfRange → IsNotShown self.now.kept) }
    {
        self.state.rows(alloc)
    }

    /// Works out what the change of a table changes in the view, if it reads that table, and makes all growth for it.
    /// Nothing that is shown changes.
    pub fn prepare(
        &mut self,
        alloc: Global,
        change: &TableChange<'_>,
    ) -> Result<Option<Pending>, AllocError>
        requires { CanPrepare self.old.kept (changes_of change.now) }
        ensures same { IsSame self.old self.new }
        ensures ready { IfOk result (IsReadyForChange change.now self.old self.new) }
        ensures counts { IfOk result (CountsForChange change.now self.old self.new) }
        ensures within { CountsWithin self.old.kept (changes_of change.now) self.new.kept }
    {
        if !self.state.is_on(change.table) {
            return Ok(None);
        }
        let pending = self.state.prepare(alloc, change)?;
        Ok(Some(pending))
    }

    /// Takes in the write that the view was made ready for, which is one of a table that it does not read where nothing
    /// waits, and goes one epoch on. It cannot fail, and takes no memory.
    pub fn commit(&mut self, pending: Option<Pending>)
        requires can { CanTake self.old pending }
        requires range { self.old.kept.state.epoch < 2 ^ 64 - 1 }
        ensures { HasTaken self.old pending self.new }
    {
        match pending {
            Some(pending) => self.state.commit(pending),
            None => self.state.advance(),
        }
    }
}
