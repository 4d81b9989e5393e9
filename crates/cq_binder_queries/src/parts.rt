//! What stands behind FROM, clause by clause, in a SELECT as in the query of a view.
ghost use Rattle.std.specs.Prelude.{◌≡◌};
ghost use Rattle.cq_binder_queries.specs.From.{shown_from};
ghost use Rattle.cq_binder_expressions.specs.Expressions.{scope_of};
ghost use Rattle.cq_binder_queries.specs.Parts.{AreBoundClauses, BindsClauses, BindsEnd, EndsParts, query_of};

use crate::conditions::bound_where;
use crate::from::FromClause;
use crate::grouping::{bound_having, group_keys, item_scope, shape_of};
use crate::items::{Purpose, bound_items};
use crate::lists::check_length;
use cq_binder_expressions::{Scope, ScopeColumn};
use cq_binder_rules::Fault;
use cq_model::{Aggregate, Cond, Expr, Query, Shape};
use cq_sql_language::Select;
use cq_values::Seq;
use std::alloc::Global;

/// WHERE, GROUP BY and the items of a query, with their names resolved.
#[derive(Drop)]
pub(crate) struct BoundClauses {
    pub filter: Option<Cond>,
    /// Where the columns of GROUP BY stand.
    pub keys: Seq<usize>,
    /// The aggregates of the items.
    pub aggregates: Seq<Aggregate>,
    pub items: Seq<Expr>,
}

/// The parts of a query behind FROM, with their names resolved.
#[derive(Drop)]
pub(crate) struct BoundParts {
    pub filter: Option<Cond>,
    pub shape: Shape,
    pub items: Seq<Expr>,
}

/// WHERE, GROUP BY and the items over rows with these columns, once they have been walked through.
pub(crate) fn bound_clauses<'a>(
    alloc: Global,
    columns: &'a [ScopeColumn<'a>],
    purpose: Purpose,
    query: &Select,
) -> Result<BoundClauses, Fault>
    ensures { BindsClauses purpose columns.now query.now result }
{
    let filter = bound_where(alloc, &Scope::of_rows(columns), &query.condition)?;
    let keys = group_keys(alloc, columns, query.group.as_slice())?;
    let scope = item_scope(query, columns, keys.as_slice());
    let mut aggregates = Seq::new(alloc);
    let items = match bound_items(
        alloc,
        &scope,
        purpose,
        &mut aggregates,
        query.items.as_slice(),
    ) {
        Ok(items) => items,
        Err(fault) => {
            drop(aggregates);
            drop(filter);
            return Err(fault);
        }
    };
    Ok(BoundClauses {
        filter,
        keys,
        aggregates,
        items,
    })
}

/// The parts of a query over rows with these columns whose clauses are these, once the number of its items and HAVING
/// have been walked through.
pub(crate) fn ended_parts<'a>(
    alloc: Global,
    columns: &'a [ScopeColumn<'a>],
    query: &Select,
    clauses: BoundClauses,
) -> Result<BoundParts, Fault>
    requires { AreBoundClauses columns.now query.now clauses }
    ensures { EndsParts columns.now query.now result }
{
    let BoundClauses {
        filter,
        keys,
        mut aggregates,
        items,
    } = clauses;
    let scope = item_scope(query, columns, keys.as_slice());
    let having = match bound_end(alloc, &scope, &mut aggregates, query) {
        Ok(having) => having,
        Err(fault) => {
            drop(items);
            drop(aggregates);
            drop(filter);
            return Err(fault);
        }
    };
    let shape = shape_of(query, keys, aggregates, having);
    Ok(BoundParts {
        filter,
        shape,
        items,
    })
}

/// HAVING, once the number of the items and then HAVING have been walked through. Its aggregates are put behind these.
fn bound_end(
    alloc: Global,
    scope: &Scope<'_>,
    aggregates: &mut Seq<Aggregate>,
    query: &Select,
) -> Result<Option<Cond>, Fault>
    ensures { BindsEnd (scope_of scope.now) aggregates.old aggregates.new query.now result }
{
    check_length(query.items.len())?;
    bound_having(alloc, scope, aggregates, &query.having)
}

/// The query that parts make over what FROM has joined.
pub(crate) fn query_of(from: FromClause<'_>, parts: BoundParts, query: &Select) -> Query
    ensures { result ≡ query_of (shown_from from.entry) query.now parts }
{
    Query {
        first: from.first,
        joins: from.joins,
        filter: parts.filter,
        shape: parts.shape,
        items: parts.items,
        distinct: query.is_distinct,
    }
}
