//! The names of the engine's tables and views.
//!
//! An [`EngineCatalog`] lends the tables and views of an engine to the binder, which looks names up in it while it walks
//! through a statement. A name costs a look at each table or view; the sizes of a view's columns are worked out anew.
ghost use Rattle.std.specs.Prelude.{◌≡◌, length, option_map};
ghost use Rattle.cq_model.specs.Views.{sources_of};
ghost use Rattle.cq_engine.specs.Views.{query_named};
ghost use Rattle.cq_engine_tables.specs.HeldTables.{tables_of};
ghost use Rattle.cq_engine_tables.specs.Views.{views_of};

use cq_binder::{Catalog, TableEntry, ViewEntry};
use cq_engine_tables::{NamedTable, View, place_of};
use cq_model::Query;
use std::alloc::{AllocError, Global};
use std::marker::Model;

/// The tables and views of an engine, as statements find them.
#[derive(Drop)]
pub struct EngineCatalog<'a> {
    tables: &'a [NamedTable],
    views: &'a [View],
}

impl<'a> Model for EngineCatalog<'a> {
    ghost use Rattle.std.specs.Coded.{codes};
    ghost use Rattle.std.specs.Prelude.{List};
    ghost use Rattle.cq_model.specs.contracts.expr.Cond as cond;
    ghost use Rattle.cq_model.specs.contracts.expr.Expr as expr;
    ghost use Rattle.cq_model_state.specs.State.{TableOf, ViewOf};
    ghost use Rattle.cq_engine_tables.specs.HeldTables.{tables_of};
    ghost use Rattle.cq_engine_tables.specs.Views.{views_of};

    ghost Value = { List TableOf × List ViewOf };

    ghost coded = { Prim.hlevel (codes, expr.the_row.coded, cond.the_row.coded) };

    ghost view = { λ c. (tables_of c.tables.now, views_of c.views.now) };
}

impl<'a> EngineCatalog<'a> {
    pub(crate) fn new(tables: &'a [NamedTable], views: &'a [View]) -> EngineCatalog<'a>
        ensures { result ≡ (tables_of tables.now, views_of views.now) }
    {
        EngineCatalog { tables, views }
    }

    /// The query of the view of a name, if there is one.
    pub fn query(&self, name: &str) -> Option<&Query>
        ensures { option_map (λ q. q.now) result ≡ query_named name.now self.now.1 }
    {
        let place = cq_engine_tables::view_place(self.views, name)?;
        Some(self.views[place].query())
    }
}

impl Catalog for EngineCatalog<'_> {
    ghost tables = { λ c. c.0 };

    ghost views = { λ c. c.1 };

    fn table(&self, name: &str) -> Option<TableEntry<'_>> {
        let place = place_of(self.tables, name)?;
        let table = &self.tables[place];
        Some(TableEntry {
            number: table.number(),
            name: table.name(),
            columns: table.table().columns(),
        })
    }

    fn view(&self, alloc: Global, name: &str) -> Result<Option<ViewEntry<'_>>, AllocError> {
        let Some(place) = cq_engine_tables::view_place(self.views, name) else {
            return Ok(None);
        };
        let view = &self.views[place];
        Ok(Some(ViewEntry {
            place: place as u64,
            name: view.name(),
            columns: view.columns(),
            sizes: view.column_sizes(alloc)?,
            bases: base_count(view.query()),
        }))
    }

    fn view_place(&self, name: &str) -> Option<usize> {
        cq_engine_tables::view_place(self.views, name)
    }

    fn is_used(&self, table: u64) -> bool {
        cq_engine_tables::is_used(self.views, table)
    }
}

/// How many base tables the query of a view reads.
fn base_count(query: &Query) -> usize
    ensures { result ≡ length (sources_of query.now) }
{
    1 + query.joins.as_slice().len()
}
