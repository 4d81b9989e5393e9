//! Queries with their columns at other places.
ghost use Rattle.std.specs.Option.{option_map};
ghost use Rattle.std.specs.Prelude.{◌≡◌, IfOk, map};
ghost use Rattle.cq_model_terms.specs.Naming.{place_by};
ghost use Rattle.cq_model_terms.specs.Places.{place_in};
ghost use Rattle.cq_model_terms.specs.Renamed.{renamed, renamed_cond};
ghost use Rattle.cq_views_columns.specs.Narrow.{columns_at, filter_at, items_at, renamed_joins, renamed_on, renamed_query};
ghost use Rattle.cq_views_columns.specs.Renamed.{groups_at, renamed_aggregate, renamed_items, renamed_shape};

use crate::columns::{SourceColumns, columns_at};
use cq_model::{Aggregate, Cond, Equality, Expr, Join, Query, Shape};
use cq_model_terms::{Naming, place_in, renamed_cond, renamed_expr};
use cq_values::{Seq, both};
use std::alloc::{AllocError, Global};

/// The query over rows with these columns of its sources alone. Their places in the joined rows are given too.
pub(crate) fn renamed_query(
    alloc: Global,
    query: &Query,
    places: &[usize],
    columns: &[SourceColumns],
) -> Result<Query, AllocError>
    ensures { IfOk result (λ q. q ≡ renamed_query places.now (columns_at columns.now) query.now) }
{
    let joins = renamed_joins(alloc, query.joins.as_slice(), places, columns)?;
    let (joins, parts) = both(joins, renamed_parts(alloc, query, places))?;
    let (filter, shape, items) = parts;
    Ok(Query {
        first: query.first,
        joins,
        filter,
        shape,
        items,
        distinct: query.distinct,
    })
}

fn renamed_joins(
    alloc: Global,
    joins: &[Join],
    places: &[usize],
    columns: &[SourceColumns],
) -> Result<Seq<Join>, AllocError>
    ensures { IfOk result (λ js. js ≡ renamed_joins places.now (columns_at columns.now) joins.now) }
{
    let mut all = Seq::new(alloc);
    for join in joins {
        let own = columns_at(columns, join.source);
        let on = renamed_on(alloc, join.on.as_slice(), places, own)?;
        all.push(Join {
            source: join.source,
            on,
        })?;
    }
    Ok(all)
}

fn renamed_on(
    alloc: Global,
    on: &[Equality],
    places: &[usize],
    own: &[usize],
) -> Result<Seq<Equality>, AllocError>
    ensures { IfOk result (λ es. es ≡ renamed_on (place_in places.now) own.now on.now) }
{
    let mut all = Seq::new(alloc);
    for equality in on {
        all.push(Equality {
            left: place_in(places, equality.left),
            right: place_in(own, equality.right),
        })?;
    }
    Ok(all)
}

/// WHERE, the groups and the items.
fn renamed_parts(
    alloc: Global,
    query: &Query,
    places: &[usize],
) -> Result<(Option<Cond>, Shape, Seq<Expr>), AllocError>
    ensures filter { IfOk result (λ r. r.0 ≡ filter_at places.now query.now) }
    ensures shape { IfOk result (λ r. r.1 ≡ renamed_shape (place_in places.now) query.now.shape) }
    ensures items { IfOk result (λ r. r.2 ≡ items_at places.now query.now) }
{
    let filter = renamed_filter(alloc, &query.filter, Naming::Among(places))?;
    let (filter, (shape, items)) = both(filter, renamed_shown(alloc, query, places))?;
    Ok((filter, shape, items))
}

/// The groups and the items.
fn renamed_shown(
    alloc: Global,
    query: &Query,
    places: &[usize],
) -> Result<(Shape, Seq<Expr>), AllocError>
    ensures shape { IfOk result (λ r. r.0 ≡ renamed_shape (place_in places.now) query.now.shape) }
    ensures items { IfOk result (λ r. r.1 ≡ items_at places.now query.now) }
{
    let shape = renamed_shape(alloc, &query.shape, places)?;
    let items = query.items.as_slice();
    both(shape, renamed_items(alloc, &query.shape, items, places))
}

/// Items read groups where there are some, and these stay.
fn renamed_items(
    alloc: Global,
    shape: &Shape,
    items: &[Expr],
    places: &[usize],
) -> Result<Seq<Expr>, AllocError>
    ensures { IfOk result (λ es. es ≡ renamed_items (place_in places.now) shape.now items.now) }
{
    match shape {
        Shape::Plain => renamed_all(alloc, items, Naming::Among(places)),
        Shape::Grouped { .. } => renamed_all(alloc, items, Naming::Same),
    }
}

fn renamed_all(alloc: Global, items: &[Expr], naming: Naming<'_>) -> Result<Seq<Expr>, AllocError>
    ensures { IfOk result (λ es. es ≡ map (renamed (place_by naming.entry)) items.now) }
{
    let mut all = Seq::new(alloc);
    for item in items {
        all.push(Expr::new(renamed_expr(alloc, item.tree(), naming)?))?;
    }
    Ok(all)
}

fn renamed_shape(alloc: Global, shape: &Shape, places: &[usize]) -> Result<Shape, AllocError>
    ensures { IfOk result (λ s. s ≡ renamed_shape (place_in places.now) shape.now) }
{
    match shape {
        Shape::Plain => Ok(Shape::Plain),
        Shape::Grouped {
            keys,
            aggregates,
            having,
        } => renamed_groups(alloc, keys, aggregates.as_slice(), having, places),
    }
}

fn renamed_groups(
    alloc: Global,
    keys: &Option<Seq<usize>>,
    aggregates: &[Aggregate],
    having: &Option<Cond>,
    places: &[usize],
) -> Result<Shape, AllocError>
    ensures { IfOk result (λ s. s ≡ groups_at places.now keys.now aggregates.now having.now) }
{
    let keys = renamed_keys(alloc, keys, places)?;
    let having = renamed_filter(alloc, having, Naming::Same)?;
    let (having, aggregates) = both(having, renamed_aggregates(alloc, aggregates, places))?;
    Ok(Shape::Grouped {
        keys,
        aggregates,
        having,
    })
}

fn renamed_keys(
    alloc: Global,
    keys: &Option<Seq<usize>>,
    places: &[usize],
) -> Result<Option<Seq<usize>>, AllocError>
    ensures { IfOk result (λ ks. ks ≡ option_map (map (place_in places.now)) keys.now) }
{
    match keys {
        Some(keys) => Ok(Some(all_places_in(alloc, keys.as_slice(), places)?)),
        None => Ok(None),
    }
}

fn all_places_in(
    alloc: Global,
    columns: &[usize],
    places: &[usize],
) -> Result<Seq<usize>, AllocError>
    ensures { IfOk result (λ ks. ks ≡ map (place_in places.now) columns.now) }
{
    let mut all = Seq::new(alloc);
    for column in columns {
        all.push(place_in(places, *column))?;
    }
    Ok(all)
}

fn renamed_aggregates(
    alloc: Global,
    aggregates: &[Aggregate],
    places: &[usize],
) -> Result<Seq<Aggregate>, AllocError>
    ensures { IfOk result (λ v. v ≡ map (renamed_aggregate (place_in places.now)) aggregates.now) }
{
    let mut all = Seq::new(alloc);
    for aggregate in aggregates {
        all.push(renamed_aggregate(alloc, aggregate, places)?)?;
    }
    Ok(all)
}

fn renamed_aggregate(
    alloc: Global,
    aggregate: &Aggregate,
    places: &[usize],
) -> Result<Aggregate, AllocError>
    ensures { IfOk result (λ a. a ≡ renamed_aggregate (place_in places.now) aggregate.now) }
{
    match aggregate {
        Aggregate::CountAll => Ok(Aggregate::CountAll),
        Aggregate::Count(argument) => Ok(Aggregate::Count(renamed(alloc, argument, places)?)),
        Aggregate::CountDistinct(argument) => {
            Ok(Aggregate::CountDistinct(renamed(alloc, argument, places)?))
        }
        Aggregate::Sum(argument) => Ok(Aggregate::Sum(renamed(alloc, argument, places)?)),
        Aggregate::Min(argument) => Ok(Aggregate::Min(renamed(alloc, argument, places)?)),
        Aggregate::Max(argument) => Ok(Aggregate::Max(renamed(alloc, argument, places)?)),
    }
}

fn renamed(alloc: Global, expr: &Expr, places: &[usize]) -> Result<Expr, AllocError>
    ensures { IfOk result (λ e. e ≡ renamed (place_in places.now) expr.now) }
{
    Ok(Expr::new(renamed_expr(alloc, expr.tree(), Naming::Among(places))?))
}

fn renamed_filter(
    alloc: Global,
    filter: &Option<Cond>,
    naming: Naming<'_>,
) -> Result<Option<Cond>, AllocError>
    ensures { IfOk result (λ f. f ≡ option_map (renamed_cond (place_by naming.entry)) filter.now) }
{
    match filter {
        Some(condition) => Ok(Some(Cond::new(renamed_cond(alloc, condition.tree(), naming)?))),
        None => Ok(None),
    }
}
