//! Whether a query has the core of another.
ghost use Rattle.std.specs.Cmp.Lexicographic.{pointwise};
ghost use Rattle.std.specs.Option.{option_eq};
ghost use Rattle.std.specs.Prelude.{◌≡◌, nat_eq};
ghost use Rattle.cq_model_core.specs.Core.{has_core, same_shape as is_one_shape};
ghost use Rattle.cq_model_core.specs.Same.{same_cond as is_one_cond};

use crate::conds::same_cond;
use crate::lists::{same_aggregates, same_items, same_joins, same_source};
use cq_model::{Cond, Query, Shape};
use cq_values::Seq;

/// Whether a query has no HAVING, and the sources, ON equalities, WHERE, GROUP BY and items of another one, which is a
/// view's. Names, DISTINCT, ORDER BY and LIMIT play no part. It takes no memory.
pub fn same_core(query: &Query, view: &Query) -> bool
    ensures { result ≡ has_core query.now view.now }
{
    same_source(query.first, view.first)
        && same_joins(query.joins.as_slice(), view.joins.as_slice())
        && same_filter(&query.filter, &view.filter)
        && same_shape(&query.shape, &view.shape)
        && same_items(query.items.as_slice(), view.items.as_slice())
}

fn same_filter(a: &Option<Cond>, b: &Option<Cond>) -> bool
    ensures { result ≡ option_eq is_one_cond a.now b.now }
{
    match (a, b) {
        (None, None) => true,
        (Some(a), Some(b)) => same_cond(a.tree(), b.tree()),
        _ => false,
    }
}

/// Whether two shapes are one, without HAVING.
fn same_shape(a: &Shape, b: &Shape) -> bool
    ensures { result ≡ is_one_shape a.now b.now }
{
    match (a, b) {
        (Shape::Plain, Shape::Plain) => true,
        (
            Shape::Grouped {
                keys,
                aggregates,
                having: None,
            },
            Shape::Grouped {
                keys: others,
                aggregates: bs,
                having: None,
            },
        ) => same_keys(keys, others) && same_aggregates(aggregates.as_slice(), bs.as_slice()),
        _ => false,
    }
}

/// Whether two clauses of GROUP BY name the same columns in the same order.
fn same_keys(a: &Option<Seq<usize>>, b: &Option<Seq<usize>>) -> bool
    ensures { result ≡ option_eq (pointwise nat_eq) a.now b.now }
{
    match (a, b) {
        (None, None) => true,
        (Some(a), Some(b)) => a.as_slice() == b.as_slice(),
        _ => false,
    }
}
