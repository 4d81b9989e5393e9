//! The engine, and one step of it.
//!
//! An [`Engine`] is made empty and moved by `step`, one statement at a time: the statement is bound to the tables and views
//! that are there, or refused, and then carried out whole or not at all. A write puts its change into the queue, and each
//! view stands for the tables at its epoch until it is read or refreshed: then it takes the changes in that it lacks. A
//! step costs what its statement's rows do; a SELECT, also what those changes bring to each view that it names.
ghost use Rattle.std.specs.Prelude.{◌≡◌, ◌<◌, ◌+◌, ◌-◌, ◌^◌, ◌∷◌, [], IfSome, OnErr, option_map};
ghost use Rattle.cq_model_state.specs.Fitting.{AreFitting, AreLimited};
ghost use Rattle.cq_model_state.specs.State.{first_state, view_named};
ghost use Rattle.cq_model_step.specs.Output.{source_failures};
ghost use Rattle.cq_model_step.specs.Step.{StepFrom};
ghost use Rattle.cq_engine_queue.specs.Shown.{ShowsEpoch};
ghost use Rattle.cq_engine_tables.specs.Views.{AreRight, views_of};
ghost use Rattle.cq_engine.specs.Commands.{MayBeRefused, Refreshes, reads_after};
ghost use Rattle.cq_engine.specs.Held.{CountsFrom, StoresFrom, ViewsCount, lengths_named};
ghost use Rattle.cq_engine.specs.Sources.{core_named, view_in};
ghost use Rattle.cq_engine.specs.Views.{stored_named, work_named};

use crate::answer_source::AnswerSource;
use crate::catalog::EngineCatalog;
use crate::cores::source_of;
use crate::limits::Limits;
use cq_binder::bind;
use cq_binder_rules::{Bound, Fault, Sources};
use cq_engine_queue::Queue;
use cq_engine_tables::{NamedTable, View, place_of, view_place};
use cq_model_step::Answer;
use cq_sql_language::Statement;
use std::alloc::Global;
use std::marker::Model;

/// What the engine can be told to do.
pub type Command = Statement;

/// Tables with the views on them, and how much was written.
#[derive(Drop)]
pub struct Engine {
    pub(crate) alloc: Global,
    pub(crate) tables: Vec<NamedTable>,
    pub(crate) views: Vec<View>,
    /// The changes of the last writes, which views may still have to take in.
    pub(crate) queue: Queue,
    pub(crate) writes: u64,
    pub(crate) drawn: u64,
    pub(crate) limits: Limits,
}

impl Model for Engine {
    ghost use Rattle.std.specs.Coded.{codes};
    ghost use Rattle.cq_model.specs.contracts.expr.Cond as cond;
    ghost use Rattle.cq_model.specs.contracts.expr.Expr as expr;
    ghost use Rattle.cq_views.specs.contracts.kept_view.KeptView as kept_view;
    ghost use Rattle.cq_engine_tables.specs.HeldTables.{tables_of};
    ghost use Rattle.cq_engine_tables.specs.Views.{views_of};
    ghost use Rattle.cq_engine.specs.Commands.{StandInOrder, state_of};
    ghost use Rattle.cq_engine.specs.Held.{Held};

    ghost Value = { Held };

    ghost coded = { Prim.hlevel (codes, expr.the_row.coded, cond.the_row.coded, kept_view.the_row.coded) };

    ghost view = { λ e. record {
      state = state_of (tables_of e.tables.items) (views_of e.views.items) e.writes e.drawn e.queue e.limits.max_rows;
      stored = e.views.items;
      tables = e.tables.items;
    } };

    ghost invariant = { λ e. StandInOrder e.writes e.drawn e.limits e.queue e.tables.items e.views.items };
}

impl Engine {
    pub fn new(alloc: Global, limits: Limits) -> Engine
        ensures { result.state ≡ first_state limits.max_rows }
    {
        Engine {
            alloc,
            tables: Vec::new(alloc),
            views: Vec::new(alloc),
            queue: Queue::new(alloc, 0),
            writes: 0,
            drawn: 0,
            limits,
        }
    }

    /// How many writes were accepted.
    pub fn now(&self) -> u64
        ensures { result ≡ self.now.state.now }
    {
        self.writes
    }

    /// How many writes and CREATE TABLE statements were accepted.
    pub fn drawn(&self) -> u64
        ensures { result ≡ self.now.state.drawn }
    {
        self.drawn
    }

    /// How many writes the view of a name has taken in, if there is one.
    pub fn view_epoch(&self, name: &str) -> Option<u64>
        ensures { result ≡ option_map (λ v. v.epoch) (view_named name.now self.now.state.views) }
    {
        let place = view_place(&self.views, name)?;
        Some(self.views[place].epoch())
    }

    /// The stored view of a name, lent, if there is one: its query, its rows and its work are read there.
    pub fn view_state(&self, name: &str) -> Option<&View>
        ensures told { option_map (λ v. v.now) result ≡ stored_named name.now self.now.stored }
        ensures beside { views_of self.now.stored ≡ self.now.state.views }
        ensures right { AreRight self.now.state self.now.stored }
        ensures shows { IfSome result (λ v. ShowsEpoch self.now.state v.now) }
    {
        let place = view_place(&self.views, name)?;
        Some(&self.views[place])
    }

    /// What the view of a name has counted since it was built, if there is one.
    pub fn view_work(&self, name: &str) -> Option<u128>
        ensures { result ≡ work_named name.now self.now.stored }
    {
        let view = self.view_state(name)?;
        Some(view.work())
    }

    /// How many rows the write store of the table of a name has, and how many rows of its segments have a mark, if there
    /// is one. It takes no memory.
    pub fn stored(&self, table: &str) -> Option<(u64, u64)>
        ensures { result ≡ lengths_named table.now self.now }
    {
        let place = place_of(&self.tables, table)?;
        let (write_len, marked_len) = self.tables[place].lengths();
        Some((write_len as u64, marked_len as u64))
    }

    /// The tables and views under their names. It takes no memory.
    pub fn catalog(&self) -> EngineCatalog<'_>
        ensures told { result ≡ (self.now.state.tables, self.now.state.views) }
        ensures fitting { AreFitting self.now.state.tables }
        ensures bounded { AreLimited self.now.state.max_rows self.now.state.tables }
    {
        EngineCatalog::new(&self.tables, &self.views)
    }

    /// Where the answer to a query comes from that was bound by the catalog: from the first created view whose core it has,
    /// or else from what its FROM names. It takes no memory.
    pub fn answer_source(&self, command: &Bound) -> AnswerSource<'_>
        ensures { view_in result ≡ core_named command.now self.now.state.views }
    {
        match command {
            Bound::Select { query, .. } => source_of(&self.views, query),
            _ => AnswerSource::Tables,
        }
    }

    /// Takes the view of a name on by so many changes, or to the present where fewer are left: 11 where there is none.
    /// Where memory is wanting it stays at an epoch between.
    pub fn refresh(&mut self, view: &str, changes: u128) -> Result<(), Fault>
        ensures refreshes { Refreshes self.old.state view.now changes result self.new.state }
        ensures tables { self.new.tables ≡ self.old.tables }
        ensures counts { ViewsCount self.old view.now changes result self.new }
    {
        let Some(place) = view_place(&self.views, view) else {
            return Err(Fault::UnknownTable);
        };
        self.refresh_at(place, changes)?;
        Ok(())
    }

    /// Carries out one statement, or refuses it and leaves every table as it was, and each view what its query means at its
    /// epoch. COPY reads its source once, where its names have no fault.
    pub fn step<S: Sources>(&mut self, command: &Command, sources: &mut S) -> Result<Answer, Fault>
        requires drawn { self.old.state.drawn < 2 ^ 64 - 1 }
        requires failures { S.failures sources.old < 2 ^ 64 - 1 }
        ensures step { StepFrom (S.files sources.old) self.old.state command.now result self.new.state }
        ensures rows { MayBeRefused (S.files sources.old) self.old.state command.now result self.new.state }
        ensures stores { StoresFrom (S.files sources.old) self.old command.now result self.new }
        ensures counts { CountsFrom (S.files sources.old) self.old command.now result self.new }
        ensures files { S.files sources.new ≡ S.files sources.old }
        ensures failures { S.failures sources.new ≡ S.failures sources.old + source_failures (result ∷ []) }
        ensures reads { S.reads sources.new ≡ reads_after self.old.state command.now (S.reads sources.old) }
    {
        let bound = bind(self.alloc, command, &self.catalog(), sources)?;
        self.carry_out(bound)
    }
}
