//! Whether a query reads a column.
ghost use Rattle.std.specs.List.{list_any};
ghost use Rattle.std.specs.Prelude.{◌<◌, ◌^◌, ◌==◌, ◌≡◌, [], sum, unwrap_or};
ghost use Rattle.cq_model.specs.Views.{sources_of};
ghost use Rattle.cq_model_terms.specs.Places.{is_one_of};
ghost use Rattle.cq_model_terms.specs.Reads.{reads};
ghost use Rattle.cq_views_columns.specs.Reads.{is_read, reads_argument, reads_filter, reads_from, reads_joined, reads_left, reads_right, reads_shape};

use cq_model::{Aggregate, Cond, Equality, Expr, Join, Query, Shape, Source};
use cq_model_terms::{reads, reads_in};
use cq_values::Seq;

/// Whether the query reads a column of a source, whose rows are so wide, in some place of FROM.
pub(crate) fn is_read(
    query: &Query,
    sources: &[Source],
    widths: &[usize],
    source: Source,
    column: usize,
) -> bool
    requires sources { sources.now ≡ sources_of query.now }
    requires widths { sum widths.now < 2 ^ 64 }
    ensures { result ≡ is_read query.now widths.now source column }
{
    one_reads_right(query.joins.as_slice(), source, column)
        || reads_from(query, sources, widths, source, column)
}

fn reads_from(
    query: &Query,
    sources: &[Source],
    widths: &[usize],
    source: Source,
    column: usize,
) -> bool
    requires { sum widths.now < 2 ^ 64 }
    ensures { result ≡ reads_from query.now source column 0 sources.now widths.now }
{
    let mut before = 0;
    for (other, wide) in sources.iter().zip(widths) {
        if *other == source && column < *wide && reads_joined(query, before + column) {
            return true;
        }
        before += *wide;
    }
    false
}

fn reads_joined(query: &Query, place: usize) -> bool
    ensures { result ≡ reads_joined query.now place }
{
    one_reads_left(query.joins.as_slice(), place)
        || reads_filter(&query.filter, place)
        || reads_shape(&query.shape, query.items.as_slice(), place)
}

fn one_reads_left(joins: &[Join], place: usize) -> bool
    ensures { result ≡ list_any (reads_left place) joins.now }
{
    joins
        .iter()
        .any(|join| reads_left(join.on.as_slice(), place))
}

fn reads_left(on: &[Equality], place: usize) -> bool
    ensures { result ≡ list_any (λ e. e.left == place) on.now }
{
    on.iter().any(|equality| equality.left == place)
}

fn one_reads_right(joins: &[Join], source: Source, column: usize) -> bool
    ensures { result ≡ list_any (reads_right source column) joins.now }
{
    joins.iter().any(|join| join.source == source && reads_right(join.on.as_slice(), column))
}

fn reads_right(on: &[Equality], column: usize) -> bool
    ensures { result ≡ list_any (λ e. e.right == column) on.now }
{
    on.iter().any(|equality| equality.right == column)
}

fn reads_filter(filter: &Option<Cond>, place: usize) -> bool
    ensures { result ≡ reads_filter place filter.now }
{
    match filter {
        Some(condition) => reads_in(condition.tree(), place),
        None => false,
    }
}

fn reads_shape(shape: &Shape, items: &[Expr], place: usize) -> bool
    ensures { result ≡ reads_shape place shape.now items.now }
{
    match shape {
        Shape::Plain => one_item_reads(items, place),
        Shape::Grouped {
            keys,
            aggregates,
            ..
        } => is_key(keys, place) || one_argument_reads(aggregates.as_slice(), place),
    }
}

fn is_key(keys: &Option<Seq<usize>>, place: usize) -> bool
    ensures { result ≡ is_one_of (unwrap_or keys.now []) place }
{
    match keys {
        Some(keys) => is_one_of(keys.as_slice(), place),
        None => false,
    }
}

fn is_one_of(places: &[usize], place: usize) -> bool
    ensures { result ≡ is_one_of places.now place }
{
    places.iter().any(|other| *other == place)
}

fn one_item_reads(items: &[Expr], place: usize) -> bool
    ensures { result ≡ list_any (reads place) items.now }
{
    items.iter().any(|item| reads(item.tree(), place))
}

fn one_argument_reads(aggregates: &[Aggregate], place: usize) -> bool
    ensures { result ≡ list_any (reads_argument place) aggregates.now }
{
    aggregates
        .iter()
        .any(|aggregate| reads_argument(aggregate, place))
}

fn reads_argument(aggregate: &Aggregate, place: usize) -> bool
    ensures { result ≡ reads_argument place aggregate.now }
{
    match aggregate {
        Aggregate::CountAll => false,
        Aggregate::Count(argument) => reads(argument.tree(), place),
        Aggregate::CountDistinct(argument) => reads(argument.tree(), place),
        Aggregate::Sum(argument) => reads(argument.tree(), place),
        Aggregate::Min(argument) => reads(argument.tree(), place),
        Aggregate::Max(argument) => reads(argument.tree(), place),
    }
}
