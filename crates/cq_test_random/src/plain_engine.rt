//! Tables as lists of rows, and views that are worked out anew, by the plain evaluator.
//!
//! A [`PlainEngine`] is given each command that the engine has carried out, in the same order, and each query after it. It
//! knows at which epoch each view stands, and keeps what tables were there. A view costs what its query costs over whole
//! tables, once for each epoch that it comes to. A query is worked out on tables also where its answer comes from a view.
use crate::core_text::core_text;
use crate::plain_table::{PlainTable, lent_at};
use crate::plain_view::PlainView;
use cq_binder_rules::Bound;
use cq_engine::AnswerSource;
use cq_model::{Order, Query, Source};
use cq_test_plain::{Lent, PlainFault, answer_on, listing};
use cq_values::{Row, Text};
use std::alloc::{AllocError, Global};

/// How many writes there were, the tables, and the views in the order of their places.
#[derive(Drop)]
pub(crate) struct PlainEngine {
    alloc: Global,
    writes: u64,
    tables: Vec<PlainTable>,
    views: Vec<PlainView>,
}

impl PlainEngine {
    pub(crate) fn new(alloc: Global) -> PlainEngine {
        PlainEngine {
            alloc,
            writes: 0,
            tables: Vec::new(alloc),
            views: Vec::new(alloc),
        }
    }

    pub(crate) fn writes(&self) -> u64 {
        self.writes
    }

    pub(crate) fn views_mut(&mut self) -> &mut Vec<PlainView> {
        &mut self.views
    }

    /// Carries out a command that is no query. A table is created under this number.
    pub(crate) fn carry_out(&mut self, command: Bound, number: u64) -> Result<(), PlainFault> {
        match command {
            Bound::CreateView {
                name,
                columns,
                query,
            } => {
                drop(columns);
                Ok(self.create_view(name, query)?)
            }
            other => {
                let done = self.change(&other, number);
                drop(other);
                done
            }
        }
    }

    fn create_view(&mut self, name: Text, query: Query) -> Result<(), AllocError> {
        let view = PlainView::new(self.alloc, &self.tables, name, query, self.writes);
        self.views.push(view)?;
        Ok(())
    }

    fn change(&mut self, command: &Bound, number: u64) -> Result<(), PlainFault> {
        match command {
            Bound::CreateTable { .. } => Ok(self.create_table(number)?),
            Bound::DropTable(table) => {
                self.drop_table(*table);
                Ok(())
            }
            Bound::DropView(place) => {
                self.drop_view(*place);
                Ok(())
            }
            Bound::Refresh { view, changes } => {
                self.refresh(*view, *changes);
                Ok(())
            }
            Bound::Insert { table, .. } => self.write(*table, command),
            Bound::Delete { table, .. } => self.write(*table, command),
            Bound::Update { table, .. } => self.write(*table, command),
            _ => Ok(()),
        }
    }

    fn create_table(&mut self, number: u64) -> Result<(), AllocError> {
        self.tables.push(PlainTable::new(self.alloc, number))?;
        Ok(())
    }

    fn drop_table(&mut self, number: u64) {
        self.tables.retain(|table| !table.is_numbered(number));
    }

    fn drop_view(&mut self, place: usize) {
        if place < self.views.len() {
            drop(self.views.remove(place));
        }
    }

    /// Takes the view at a place on by so many writes, or to the present.
    fn refresh(&mut self, place: usize, changes: u128) {
        let now = self.writes;
        if place < self.views.len() {
            let view = &mut self.views[place];
            let to = further(view.epoch(), changes, now);
            view.take_on(self.alloc, &self.tables, to);
        }
    }

    /// Carries a write of a table out. Where there are views, the rows before it are kept for them.
    fn write(&mut self, number: u64, command: &Bound) -> Result<(), PlainFault> {
        let alloc = self.alloc;
        let before = self.writes;
        let is_kept = !self.views.is_empty();
        self.writes = before.saturating_add(1);
        if let Some(table) = self.table(number) {
            if is_kept {
                table.keep(alloc, before)?;
            }
            table.write(alloc, command)?;
        }
        Ok(())
    }

    fn table(&mut self, number: u64) -> Option<&mut PlainTable> {
        for place in 0..self.tables.len() {
            if self.tables[place].is_numbered(number) {
                return Some(&mut self.tables[place]);
            }
        }
        None
    }

    /// Where the answer to a query comes from.
    pub(crate) fn answer_source(&self, query: &Query) -> Result<AnswerSource<'_>, AllocError> {
        match self.core_place(query)? {
            Some(place) if place < self.views.len() => {
                Ok(AnswerSource::View(self.views[place].name()))
            }
            _ => Ok(AnswerSource::Tables),
        }
    }

    /// Where the first created view stands that asks for what the query does.
    fn core_place(&self, query: &Query) -> Result<Option<usize>, AllocError> {
        let core = core_text(self.alloc, query)?;
        for (place, view) in self.views.iter().enumerate() {
            if core_text(self.alloc, view.query())?.as_str() == core.as_str() {
                return Ok(Some(place));
            }
        }
        Ok(None)
    }

    /// The answer to a query. The view that it comes from is taken on to the present, or else each view that it names.
    pub(crate) fn answer(&mut self, query: &Query, order: &Order) -> Result<Vec<Row>, PlainFault> {
        match self.core_place(query)? {
            Some(place) => self.refresh(place, u128::MAX),
            None => self.take_on_named(query),
        }
        self.answer_over(query, order)
    }

    /// The same, over the views where they stand.
    fn answer_over(&self, query: &Query, order: &Order) -> Result<Vec<Row>, PlainFault> {
        let sources = self.sources(query)?;
        let rows = answer_on(self.alloc, &sources, query)?;
        Ok(listing(rows, order)?)
    }

    /// The tables at the present, and the views that the query names where they stand.
    fn sources(&self, query: &Query) -> Result<Vec<Lent<'_>>, PlainFault> {
        let mut sources = lent_at(self.alloc, &self.tables, self.writes)?;
        for (place, view) in self.views.iter().enumerate() {
            let source = Source::View(place as u64);
            if is_named(query, source) {
                let rows = view.rows()?;
                sources.push(Lent { source, rows })?;
            }
        }
        Ok(sources)
    }

    fn take_on_named(&mut self, query: &Query) {
        let now = self.writes;
        for (place, view) in self.views.iter_mut().enumerate() {
            if is_named(query, Source::View(place as u64)) {
                view.take_on(self.alloc, &self.tables, now);
            }
        }
    }
}

/// So many epochs further, but not beyond the present.
fn further(epoch: u64, changes: u128, now: u64) -> u64 {
    if changes < u128::from(now.saturating_sub(epoch)) {
        epoch.saturating_add(changes as u64)
    } else {
        now
    }
}

/// Whether FROM names the source.
fn is_named(query: &Query, source: Source) -> bool {
    query.first == source
        || query
            .joins
            .as_slice()
            .iter()
            .any(|join| join.source == source)
}
