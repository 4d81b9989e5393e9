//! Commands that the engine carries out.
//!
//! A command was bound to the tables and views that are there, and is carried out at once, whole or not at all. A write
//! does nothing for views: its change waits for them in the queue. SELECT and REFRESH take changes in.
ghost use Rattle.std.specs.Prelude.{◌<◌, ◌≡◌, ◌-◌, ◌^◌, IfErr, OnErr, Ok};
ghost use Rattle.cq_binder_rules.specs.declared.bound.Bound.TheVariants as commands;
ghost use Rattle.cq_binder_rules.specs.declared.fault.Fault.TheVariants.{Memory};
ghost use Rattle.cq_model_step.specs.Step.{GivesUp};
ghost use Rattle.cq_model_step.specs.declared.answer.Answer.TheVariants.{Done};
ghost use Rattle.cq_engine.specs.Commands.{MayGiveUp};
ghost use Rattle.cq_engine.specs.Held.{CanDo, CountsBy, Does, StoresBy};

use crate::creation::create_view_in;
use crate::engine::Engine;
use crate::reading::select_at_present;
use cq_binder_rules::{Bound, Fault};
use cq_engine_queue::{Goal, note, take_all_on, trim};
use cq_engine_tables::{NamedTable, drop_in, drop_view_at, merge_in, move_in};
use cq_engine_writes::{delete_in, insert_in, update_in};
use cq_model::{Assignment, Cond, Order, Query};
use cq_model_step::Answer;
use cq_values::{ColumnDef, Seq, Text};
use cq_views::standing_depends_on_sources;
use cq_writestore_rows::NewRows;

impl Engine {
    /// Carries out a command that was bound by the catalog.
    pub(crate) fn carry_out(&mut self, command: Bound) -> Result<Answer, Fault>
        requires drawn { self.old.state.drawn < 2 ^ 64 - 1 }
        requires bound { CanDo self.old command }
        ensures done { Does self.old command result self.new }
        ensures rows { MayGiveUp self.old.state command result self.new.state }
        ensures stores { StoresBy self.old command result self.new }
        ensures counts { CountsBy self.old command result self.new }
    {
        match command {
            Bound::CreateTable {
                name,
                columns,
                sort,
            } => self.create(name, columns, sort),
            Bound::DropTable(number) => Ok(self.drop_table(number)),
            Bound::CreateView {
                name,
                columns,
                query,
            } => self.create_view(name, columns, query),
            Bound::DropView(place) => Ok(self.drop_view(place)),
            Bound::Insert { table, rows } => self.insert(table, rows),
            Bound::Delete { table, condition } => self.delete(table, condition),
            Bound::Update {
                table,
                assignments,
                condition,
            } => self.update(table, assignments, condition),
            Bound::Select {
                header,
                query,
                order,
            } => self.select(header, query, order),
            Bound::Move { table, rows } => self.move_rows(table, rows),
            Bound::Merge(table) => self.merge(table),
            Bound::Refresh { view, changes } => self.refresh_at(view, changes),
        }
    }

    fn create(
        &mut self,
        name: Text,
        columns: Seq<ColumnDef>,
        sort: Seq<usize>,
    ) -> Result<Answer, Fault>
        requires { self.old.state.drawn < 2 ^ 64 - 1 }
        ensures done { Does self.old (commands.CreateTable name columns sort) result self.new }
        ensures stores { StoresBy self.old (commands.CreateTable name columns sort) result self.new }
        ensures counts { CountsBy self.old (commands.CreateTable name columns sort) result self.new }
    {
        let max_rows = self.limits.max_rows;
        let table = NamedTable::new(self.alloc, self.drawn, name, columns, sort, max_rows);
        self.tables.push(table)?;
        self.drawn += 1;
        Ok(Answer::Done)
    }

    fn drop_table(&mut self, number: u64) -> Answer
        requires { CanDo self.old (commands.DropTable number) }
        ensures done { Does self.old (commands.DropTable number) (Ok result) self.new }
        ensures stores { StoresBy self.old (commands.DropTable number) (Ok result) self.new }
        ensures counts { CountsBy self.old (commands.DropTable number) (Ok result) self.new }
    {
        drop_in(&mut self.tables, number);
        standing_depends_on_sources();
        Answer::Done
    }

    fn create_view(
        &mut self,
        name: Text,
        columns: Seq<ColumnDef>,
        query: Query,
    ) -> Result<Answer, Fault>
        requires { CanDo self.old (commands.CreateView name columns query) }
        ensures done { Does self.old (commands.CreateView name columns query) result self.new }
        ensures stores { StoresBy self.old (commands.CreateView name columns query) result self.new }
        ensures counts { CountsBy self.old (commands.CreateView name columns query) result self.new }
    {
        let now = self.writes;
        create_view_in(
            self.alloc,
            &self.tables,
            &mut self.views,
            name,
            columns,
            query,
            now,
        )?;
        Ok(Answer::Done)
    }

    fn drop_view(&mut self, place: usize) -> Answer
        requires { CanDo self.old (commands.DropView place) }
        ensures done { Does self.old (commands.DropView place) (Ok result) self.new }
        ensures stores { StoresBy self.old (commands.DropView place) (Ok result) self.new }
        ensures counts { CountsBy self.old (commands.DropView place) (Ok result) self.new }
    {
        drop_view_at(&mut self.views, place);
        trim(&mut self.queue, &self.views);
        Answer::Done
    }

    fn insert(&mut self, table: u64, rows: NewRows) -> Result<Answer, Fault>
        requires drawn { self.old.state.drawn < 2 ^ 64 - 1 }
        requires bound { CanDo self.old (commands.Insert table rows) }
        ensures done { Does self.old (commands.Insert table rows) result self.new }
        ensures stores { StoresBy self.old (commands.Insert table rows) result self.new }
        ensures counts { CountsBy self.old (commands.Insert table rows) result self.new }
    {
        let max_rows = self.limits.max_rows;
        let asked = !self.views.is_empty();
        let count = rows.len() as u64;
        let change = insert_in(
            self.alloc,
            max_rows,
            &mut self.tables,
            &mut self.queue,
            table,
            rows,
            asked,
        )?;
        note(&mut self.queue, &self.views, change);
        self.writes += 1;
        self.drawn += 1;
        Ok(Answer::Count(count))
    }

    fn delete(&mut self, table: u64, condition: Option<Cond>) -> Result<Answer, Fault>
        requires drawn { self.old.state.drawn < 2 ^ 64 - 1 }
        requires bound { CanDo self.old (commands.Delete table condition) }
        ensures done { Does self.old (commands.Delete table condition) result self.new }
        ensures stores { StoresBy self.old (commands.Delete table condition) result self.new }
        ensures counts { CountsBy self.old (commands.Delete table condition) result self.new }
    {
        let asked = !self.views.is_empty();
        let deleted = delete_in(
            self.alloc,
            &mut self.tables,
            &mut self.queue,
            table,
            &condition,
            asked,
        );
        drop(condition);
        let (rows, change) = deleted?;
        note(&mut self.queue, &self.views, change);
        self.writes += 1;
        self.drawn += 1;
        Ok(Answer::Count(rows as u64))
    }

    fn update(
        &mut self,
        table: u64,
        assignments: Seq<Assignment>,
        filter: Option<Cond>,
    ) -> Result<Answer, Fault>
        requires drawn { self.old.state.drawn < 2 ^ 64 - 1 }
        requires bound { CanDo self.old (commands.Update table assignments filter) }
        ensures done { Does self.old (commands.Update table assignments filter) result self.new }
        ensures stores { StoresBy self.old (commands.Update table assignments filter) result self.new }
        ensures counts { CountsBy self.old (commands.Update table assignments filter) result self.new }
    {
        let asked = !self.views.is_empty();
        let updated = update_in(
            self.alloc,
            &mut self.tables,
            &mut self.queue,
            table,
            assignments.as_slice(),
            &filter,
            asked,
        );
        drop(assignments);
        drop(filter);
        let (count, change) = updated?;
        note(&mut self.queue, &self.views, change);
        self.writes += 1;
        self.drawn += 1;
        Ok(Answer::Count(count as u64))
    }

    /// Rows go on from the write store to segments, where they are read faster; none of them changes.
    fn move_rows(&mut self, table: u64, rows: u128) -> Result<Answer, Fault>
        requires { CanDo self.old (commands.Move table rows) }
        ensures done { Does self.old (commands.Move table rows) result self.new }
        ensures stores { StoresBy self.old (commands.Move table rows) result self.new }
        ensures counts { CountsBy self.old (commands.Move table rows) result self.new }
    {
        move_in(self.alloc, &mut self.tables, table, rows)?;
        Ok(Answer::Done)
    }

    /// Segments are made anew without their marked rows; no live one changes.
    fn merge(&mut self, table: u64) -> Result<Answer, Fault>
        requires { CanDo self.old (commands.Merge table) }
        ensures done { Does self.old (commands.Merge table) result self.new }
        ensures stores { StoresBy self.old (commands.Merge table) result self.new }
        ensures counts { CountsBy self.old (commands.Merge table) result self.new }
    {
        merge_in(self.alloc, &mut self.tables, table)?;
        Ok(Answer::Done)
    }

    /// Takes the view at a place on by so many changes, or to the present where fewer are left.
    pub(crate) fn refresh_at(&mut self, view: usize, changes: u128) -> Result<Answer, Fault>
        requires { CanDo self.old (commands.Refresh view changes) }
        ensures done { Does self.old (commands.Refresh view changes) result self.new }
        ensures stores { StoresBy self.old (commands.Refresh view changes) result self.new }
        ensures counts { CountsBy self.old (commands.Refresh view changes) result self.new }
        ensures tables { self.new.tables ≡ self.old.tables }
        ensures refused { IfErr result (λ f. f ≡ Memory) }
        ensures way { OnErr result (GivesUp self.old.state (commands.Refresh view changes) self.new.state) }
    {
        let goal = Goal::By(view, changes);
        take_all_on(self.alloc, &mut self.views, &self.queue, &goal, self.writes)?;
        trim(&mut self.queue, &self.views);
        Ok(Answer::Done)
    }

    fn select(&mut self, header: Seq<Text>, query: Query, order: Order) -> Result<Answer, Fault>
        requires { CanDo self.old (commands.Select header query order) }
        ensures done { Does self.old (commands.Select header query order) result self.new }
        ensures rows { MayGiveUp self.old.state (commands.Select header query order) result self.new.state }
        ensures stores { StoresBy self.old (commands.Select header query order) result self.new }
        ensures counts { CountsBy self.old (commands.Select header query order) result self.new }
    {
        let selected = select_at_present(
            self.alloc,
            &self.tables,
            &mut self.views,
            &self.queue,
            &query,
            &order,
            self.writes,
        );
        drop(query);
        drop(order);
        let rows = selected?;
        Ok(Answer::Rows { header, rows })
    }
}
