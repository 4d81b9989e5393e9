//! Queries, from their sources to their answers.
ghost use Rattle.std.specs.Prelude.{◌≡◌, IfErr, IfOk, OnOk, map};
ghost use Rattle.std.specs.List.{Any, list_any};
ghost use Rattle.cq_model_bags.specs.Bag.{once_each};
ghost use Rattle.cq_model.specs.Meaning.{MeaningInRange, ShapeInRange, chain, items_of, joined_rows, meaning, shaped, shown};
ghost use Rattle.cq_model.specs.Views.{sources_of};
ghost use Rattle.cq_test_plain.specs.Databases.{HoldsSources, IsInRange, SourcesInRange, answer_bag};
ghost use Rattle.cq_test_plain.specs.Faults.{Tells};
ghost use Rattle.cq_test_plain.specs.FaultsOf.{IsAnswerFault, IsFilterFault, IsNamedFault, IsQueryFault, IsShapeFault, IsShownFault, IsSourcesFault};
ghost use Rattle.cq_test_plain.specs.Joins.{joined_with};
ghost use Rattle.cq_test_plain.specs.SourceRows.{lent_bags};
ghost use Rattle.cq_test_plain.specs.Named.{IsNamedInRange, MakeUpNamed, is_view};
ghost use Rattle.cq_test_plain.specs.Rows.{AreListed, HaveBag, MakeUp};
ghost use Rattle.cq_test_plain.specs.Wide.{IsItemWide, IsWideAt};

use crate::database::Database;
use crate::evaluation::value_at;
use crate::fault::PlainFault;
use crate::filtering::filtered;
use crate::groups::grouped;
use crate::joining::joined;
use crate::lent::{lent_all, lent_tables};
use crate::lists::listing;
use crate::repeats::firsts;
use crate::source_rows::{Lent, rows_of};
use cq_model::{Expr, Join, Order, Query, Shape, Source};
use cq_values::{Row, Seq, Value};
use std::alloc::{AllocError, Global};

/// The rows of the query's bag, each as often as it is there, in no order that is promised.
pub fn answer(alloc: Global, database: &Database, query: &Query) -> Result<Vec<Row>, PlainFault>
    ensures same_bag { IfOk result (HaveBag (answer_bag database.now query.now)) }
    ensures range { OnOk result (IsInRange database.now query.now) }
    ensures fault { IfErr result (IsAnswerFault database.now query.now) }
{
    let views = named_views(alloc, database, query)?;
    let sources = lent_all(alloc, database.tables.as_slice(), &views)?;
    answer_on(alloc, &sources, query)
}

/// The one list that answers the query in this order, cut by LIMIT.
pub fn answer_listed(
    alloc: Global,
    database: &Database,
    query: &Query,
    order: &Order,
) -> Result<Vec<Row>, PlainFault>
    ensures listing { IfOk result (AreListed order.now (answer_bag database.now query.now)) }
    ensures range { OnOk result (IsInRange database.now query.now) }
    ensures fault { IfErr result (IsAnswerFault database.now query.now) }
{
    let rows = answer(alloc, database, query)?;
    Ok(listing(rows, order)?)
}

/// The rows of the query's bag on these sources, each as often as it is there, in no order that is promised. A source
/// that is not among them has no row, and of two entries of one source the first counts.
pub fn answer_on(alloc: Global, sources: &[Lent<'_>], query: &Query) -> Result<Vec<Row>, PlainFault>
    ensures ok { IfOk result (MakeUp (meaning query.now (lent_bags sources.now))) }
    ensures range { OnOk result (MeaningInRange query.now (lent_bags sources.now)) }
    ensures fault { IfErr result (IsQueryFault query.now (lent_bags sources.now)) }
{
    let joined = joined_rows(alloc, sources, query)?;
    let shown = shown_rows(alloc, query, joined)?;
    if query.distinct {
        Ok(firsts(alloc, &shown)?)
    } else {
        Ok(shown)
    }
}

/// The rows of each view that FROM names, and none of the others.
fn named_views(
    alloc: Global,
    database: &Database,
    query: &Query,
) -> Result<Vec<Seq<Row>>, PlainFault>
    ensures ok { IfOk result (λ views. HoldsSources database.now query.now views.items) }
    ensures range { OnOk result (SourcesInRange database.now query.now) }
    ensures fault { IfErr result (IsSourcesFault database.now query.now) }
{
    let tables = lent_tables(alloc, database.tables.as_slice())?;
    let mut views = Vec::new(alloc);
    for (at, view) in database.views.as_slice().iter().enumerate() {
        let rows = view_rows(alloc, &tables, query, at, view)?;
        views.push(Seq::from_vec(rows))?;
    }
    Ok(views)
}

/// The rows of the view of this number, if FROM names it.
fn view_rows(
    alloc: Global,
    tables: &[Lent<'_>],
    query: &Query,
    at: usize,
    view: &Query,
) -> Result<Vec<Row>, PlainFault>
    ensures ok { IfOk result (MakeUpNamed query.now at view.now (lent_bags tables.now)) }
    ensures range { OnOk result (IsNamedInRange query.now at view.now (lent_bags tables.now)) }
    ensures fault { IfErr result (IsNamedFault query.now at view.now (lent_bags tables.now)) }
{
    if is_named(query, at as u64) {
        answer_on(alloc, tables, view)
    } else {
        Ok(Vec::new(alloc))
    }
}

/// Whether FROM names the view.
fn is_named(query: &Query, view: u64) -> bool
    ensures { result ≡ list_any (is_view view) (sources_of query.now) }
{
    is_view(query.first, view) || is_joined(query.joins.as_slice(), view)
}

fn is_joined(joins: &[Join], view: u64) -> bool
    ensures { result ≡ list_any (λ join. is_view view join.source) joins.now }
{
    joins.iter().any(|join| is_view(join.source, view))
}

fn is_view(source: Source, view: u64) -> bool
    ensures { result ≡ is_view view source }
{
    match source {
        Source::Table(_) => false,
        Source::View(number) => view == number,
    }
}

/// The joined rows that WHERE keeps.
fn joined_rows(alloc: Global, sources: &[Lent<'_>], query: &Query) -> Result<Vec<Row>, PlainFault>
    ensures ok { IfOk result (MakeUp (joined_rows query.now (lent_bags sources.now))) }
    ensures fault { IfErr result (IsFilterFault query.now (lent_bags sources.now)) }
{
    let first = rows_of(sources, query.first);
    match query.joins.as_slice().split_first() {
        None => filtered(alloc, &query.filter, first),
        Some((join, others)) => {
            let pairs = joined_with(alloc, sources, first, join)?;
            let all = chain(alloc, sources, pairs, others)?;
            filtered(alloc, &query.filter, &all)
        }
    }
}

/// The rows, joined with the source of each join in turn.
fn chain(
    alloc: Global,
    sources: &[Lent<'_>],
    rows: Vec<Row>,
    joins: &[Join],
) -> Result<Vec<Row>, AllocError>
    ensures { IfOk result (MakeUp (chain (lent_bags sources.now) (once_each rows.items) joins.now)) }
{
    let mut rows = rows;
    for join in joins {
        rows = joined_with(alloc, sources, &rows, join)?;
    }
    Ok(rows)
}

/// The rows, joined with the source of this join.
fn joined_with(
    alloc: Global,
    sources: &[Lent<'_>],
    rows: &[Row],
    join: &Join,
) -> Result<Vec<Row>, AllocError>
    ensures { IfOk result (MakeUp (joined_with (lent_bags sources.now) (once_each rows.now) join.now)) }
{
    joined(
        alloc,
        join.on.as_slice(),
        rows,
        rows_of(sources, join.source),
    )
}

/// What the query shows of its joined rows, before DISTINCT.
fn shown_rows(alloc: Global, query: &Query, rows: Vec<Row>) -> Result<Vec<Row>, PlainFault>
    ensures ok { IfOk result (MakeUp (shown query.now (once_each rows.items))) }
    ensures range { OnOk result (ShapeInRange query.now.shape (once_each rows.items)) }
    ensures fault { IfErr result (IsShownFault query.now (once_each rows.items)) }
{
    let shaped = shaped(alloc, &query.shape, rows)?;
    shown(alloc, query.items.as_slice(), &shaped)
}

/// The groups that HAVING keeps, or the rows themselves.
fn shaped(alloc: Global, shape: &Shape, rows: Vec<Row>) -> Result<Vec<Row>, PlainFault>
    ensures ok { IfOk result (MakeUp (shaped shape.now (once_each rows.items))) }
    ensures range { OnOk result (ShapeInRange shape.now (once_each rows.items)) }
    ensures fault { IfErr result (IsShapeFault shape.now (once_each rows.items)) }
{
    match shape {
        Shape::Plain => Ok(rows),
        Shape::Grouped {
            keys,
            aggregates,
            having,
        } => {
            let groups = grouped(alloc, keys, aggregates.as_slice(), &rows)?;
            filtered(alloc, having, &groups)
        }
    }
}

/// Of each row the values of the items.
fn shown(alloc: Global, items: &[Expr], rows: &[Row]) -> Result<Vec<Row>, PlainFault>
    ensures ok { IfOk result (λ results. results.items ≡ map (items_of items.now) rows.now) }
    ensures fault { IfErr result (Tells (IsItemWide items.now (once_each rows.now)) ⊥) }
{
    let mut results = Vec::new(alloc);
    for row in rows {
        results.push(items_of(alloc, items, row.as_slice())?)?;
    }
    Ok(results)
}

fn items_of(alloc: Global, items: &[Expr], row: &[Value]) -> Result<Row, PlainFault>
    ensures ok { IfOk result (λ values. values ≡ items_of items.now row.now) }
    ensures fault { IfErr result (Tells (Any (λ e. IsWideAt e row.now) items.now) ⊥) }
{
    let mut values = Row::new(alloc);
    for item in items {
        values.push(value_at(alloc, item, row)?)?;
    }
    Ok(values)
}
