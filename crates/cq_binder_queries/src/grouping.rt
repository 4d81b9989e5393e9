//! GROUP BY and HAVING, and which queries are of groups.
ghost use Rattle.std.specs.Prelude.{◌≡◌};
ghost use Rattle.std.specs.List.{list_any};
ghost use Rattle.cq_binder_rules.specs.Grouping.{has_aggregate, is_grouped, item_scope};
ghost use Rattle.cq_binder_rules.specs.Places.{group_places};
ghost use Rattle.cq_binder_rules.specs.SourceChecks.{group_checks};
ghost use Rattle.cq_binder_expressions.specs.Expressions.{scope_of};
ghost use Rattle.cq_binder_queries.specs.Grouping.{BindsHaving, FindsGroup, IsKeyOf, IsShapeOf};
ghost use Rattle.cq_binder_queries.specs.Walk.{WalksTo};

use crate::lists::check_length;
use cq_binder_expressions::{Scope, ScopeColumn, bind_having, has_aggregate, resolved};
use cq_binder_rules::Fault;
use cq_model::{Aggregate, Cond, Shape};
use cq_sql_language::{ColumnName, Select, SelectItem, SqlExpr};
use cq_values::Seq;
use std::alloc::Global;

/// GROUP BY by the places of its columns.
pub(crate) fn group_keys(
    alloc: Global,
    columns: &[ScopeColumn<'_>],
    names: &[ColumnName],
) -> Result<Seq<usize>, Fault>
    ensures { WalksTo (group_checks columns.now names.now) (group_places columns.now names.now) result }
{
    let keys = name_places(alloc, columns, names)?;
    check_length(names.len())?;
    Ok(keys)
}

fn name_places(
    alloc: Global,
    columns: &[ScopeColumn<'_>],
    names: &[ColumnName],
) -> Result<Seq<usize>, Fault>
    ensures { FindsGroup columns.now names.now result }
{
    let mut places = Seq::new(alloc);
    for name in names {
        places.push(resolved(columns, name)?)?;
    }
    Ok(places)
}

/// Whether the query has GROUP BY, HAVING or an aggregate among its items.
fn is_grouped(query: &Select) -> bool
    ensures { result ≡ is_grouped query.now }
{
    !query.group.is_empty() || query.having.is_some() || shows_aggregate(query.items.as_slice())
}

fn shows_aggregate(items: &[SelectItem]) -> bool
    ensures { result ≡ list_any (λ item. has_aggregate item.value) items.now }
{
    items.iter().any(|item| has_aggregate(item.value.node()))
}

/// What the items and HAVING read, where the columns of GROUP BY stand at these places: groups, or the joined rows.
pub(crate) fn item_scope<'a>(
    query: &Select,
    columns: &'a [ScopeColumn<'a>],
    keys: &'a [usize],
) -> Scope<'a>
    requires { keys.now ≡ group_places columns.now query.now.group }
    ensures { scope_of result ≡ item_scope query.now columns.now }
{
    if is_grouped(query) {
        Scope::of_groups(columns, keys)
    } else {
        Scope::of_rows(columns)
    }
}

/// How the joined rows become the rows that items read: by their groups, where GROUP BY has these places, or as they
/// are.
pub(crate) fn shape_of(
    query: &Select,
    keys: Seq<usize>,
    aggregates: Seq<Aggregate>,
    having: Option<Cond>,
) -> Shape
    ensures { IsShapeOf query.now keys aggregates having result }
{
    if is_grouped(query) {
        Shape::Grouped {
            keys: key_of_groups(query.group.as_slice(), keys),
            aggregates,
            having,
        }
    } else {
        Shape::Plain
    }
}

/// The key of a group, by the places of GROUP BY; without it there is none.
fn key_of_groups(group: &[ColumnName], keys: Seq<usize>) -> Option<Seq<usize>>
    ensures { IsKeyOf group.now keys result }
{
    if group.is_empty() { None } else { Some(keys) }
}

/// HAVING, if it is there, once it has been walked through. Its aggregates are put behind these.
pub(crate) fn bound_having(
    alloc: Global,
    scope: &Scope<'_>,
    aggregates: &mut Seq<Aggregate>,
    having: &Option<SqlExpr>,
) -> Result<Option<Cond>, Fault>
    ensures { BindsHaving (scope_of scope.now) aggregates.old aggregates.new having.now result }
{
    match having {
        Some(condition) => Ok(Some(bind_having(alloc, scope, aggregates, condition)?)),
        None => Ok(None),
    }
}
