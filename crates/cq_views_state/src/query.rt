//! What a view reads of its query.
ghost use Rattle.std.specs.List.{list_any};
ghost use Rattle.std.specs.Prelude.{◌≡◌};
ghost use Rattle.cq_model.specs.Views.{is_table};
ghost use Rattle.cq_views_model.specs.Query.{aggregates_of, key_columns, reads};

use cq_model::{Aggregate, Join, Query, Shape, Source};

/// The columns behind GROUP BY, and none without.
pub(crate) fn key_columns(query: &Query) -> &[usize]
    ensures { result.now ≡ key_columns query.now }
{
    match &query.shape {
        Shape::Grouped {
            keys: Some(keys),
            ..
        } => keys.as_slice(),
        _ => &[],
    }
}

/// What is shown of each group.
pub(crate) fn aggregates_of(query: &Query) -> &[Aggregate]
    ensures { result.now ≡ aggregates_of query.now }
{
    match &query.shape {
        Shape::Grouped { aggregates, .. } => aggregates.as_slice(),
        Shape::Plain => &[],
    }
}

/// Whether FROM names the table of a number.
pub fn reads(query: &Query, table: u64) -> bool
    ensures { result ≡ reads table query.now }
{
    is_table(query.first, table) || is_joined(query.joins.as_slice(), table)
}

fn is_joined(joins: &[Join], table: u64) -> bool
    ensures { result ≡ list_any (λ join. is_table table join.source) joins.now }
{
    joins.iter().any(|join| is_table(join.source, table))
}

fn is_table(source: Source, table: u64) -> bool
    ensures { result ≡ is_table table source }
{
    match source {
        Source::Table(number) => number == table,
        Source::View(_) => false,
    }
}
