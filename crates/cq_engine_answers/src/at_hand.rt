//! SELECT from a view that has the answer at hand.
//!
//! A query that has the core of a view means the rows of that view: they are shown, and the query's DISTINCT, ORDER BY and
//! LIMIT are applied to them. No table is read.
ghost use Rattle.std.specs.Prelude.{◌<◌, ℕ, IfOk, length};
ghost use Rattle.cq_model_state.specs.Fitting.{AreFitting, AreLimited, rows_limit};
ghost use Rattle.cq_model_state.specs.State.{AreNumbered};
ghost use Rattle.cq_engine_answers.specs.AtHand.{AreAllColumns, IsAtHand, ShowsColumns};
ghost use Rattle.cq_engine_answers.specs.Selects.{Selects};
ghost use Rattle.cq_engine_tables.specs.HeldTables.{tables_of};
ghost use Rattle.cq_engine_tables.specs.Views.{views_of};

use crate::reading::select_from;
use cq_binder_rules::Fault;
use cq_engine_tables::{NamedTable, View};
use cq_model::{Expr, Order, Query, Shape, Source};
use cq_model_core::core_answers;
use cq_values::Seq;
use cq_values_rows::RowList;
use std::alloc::{AllocError, Global};

/// The listing of a query whose core the view at a place has: of the rows that this view shows.
pub fn select_at_hand(
    alloc: Global,
    tables: &[NamedTable],
    views: &[View],
    place: usize,
    query: &Query,
    order: &Order,
) -> Result<RowList, Fault>
    requires numbered { (next : ℕ) × AreNumbered (tables_of tables.now) next }
    requires fitting { AreFitting (tables_of tables.now) }
    requires few { AreLimited rows_limit (tables_of tables.now) }
    requires inside { place < length views.now }
    requires at_hand { IsAtHand (tables_of tables.now) views.now query.now place }
    ensures { Selects (tables_of tables.now) (views_of views.now) query.now order.now result }
{
    core_answers();
    let wide = views[place].query().items.len();
    let rows = all_columns(alloc, place, wide, query.distinct)?;
    select_from(alloc, tables, views, &rows, order)
}

/// The query for all columns of the view at a place, with DISTINCT or without.
fn all_columns(
    alloc: Global,
    place: usize,
    wide: usize,
    distinct: bool,
) -> Result<Query, AllocError>
    ensures { IfOk result (ShowsColumns place wide distinct) }
{
    let items = columns(alloc, wide)?;
    Ok(Query {
        first: Source::View(place as u64),
        joins: Seq::new(alloc),
        filter: None,
        shape: Shape::Plain,
        items,
        distinct,
    })
}

/// So many columns, each by its place.
fn columns(alloc: Global, wide: usize) -> Result<Seq<Expr>, AllocError>
    ensures { IfOk result (AreAllColumns wide) }
{
    let mut items = Seq::new(alloc);
    for place in 0..wide {
        items.push(Expr::column(place))?;
    }
    Ok(items)
}
