//! SELECT.
ghost use Rattle.cq_binder_queries.specs.Catalog.{state_of};
ghost use Rattle.cq_binder_queries.specs.From.{shown_from};
ghost use Rattle.cq_binder_queries.specs.Select.{BindsParts, BindsQuery, BindsSelect};

use crate::catalog::Catalog;
use crate::from::{Allowed, FromClause, bound_from};
use crate::items::Purpose;
use crate::order::sort_keys;
use crate::parts::{BoundParts, bound_clauses, ended_parts, query_of};
use crate::select::header;
use cq_binder_expressions::ScopeColumn;
use cq_binder_rules::{Bound, Fault};
use cq_model::Order;
use cq_sql_language::Select;
use std::alloc::Global;

/// SELECT.
pub fn bind_select<C: Catalog>(alloc: Global, catalog: &C, select: &Select) -> Result<Bound, Fault>
    ensures { BindsSelect (state_of C.tables C.views catalog.now) select.now result }
{
    let from = bound_from(alloc, catalog, Allowed::All, select)?;
    bind_query(alloc, from, select)
}

/// The query over what FROM has joined, with the names above its columns.
fn bind_query(alloc: Global, from: FromClause<'_>, select: &Select) -> Result<Bound, Fault>
    ensures { BindsQuery (shown_from from.entry) select.now result }
{
    let header = header(alloc, select.items.as_slice())?;
    let parts = match bound_parts(alloc, &from.columns, select) {
        Ok(parts) => parts,
        Err(fault) => {
            drop(from);
            return Err(fault);
        }
    };
    let keys = match sort_keys(alloc, header.as_slice(), select.order.as_slice()) {
        Ok(keys) => keys,
        Err(fault) => {
            drop(parts);
            drop(from);
            return Err(fault);
        }
    };
    Ok(Bound::Select {
        header,
        query: query_of(from, parts, select),
        order: Order {
            keys,
            limit: select.limit,
        },
    })
}

/// The parts of a SELECT over rows with these columns: what WHERE keeps, the groups, the items, and what HAVING keeps.
fn bound_parts<'a>(
    alloc: Global,
    columns: &'a [ScopeColumn<'a>],
    select: &Select,
) -> Result<BoundParts, Fault>
    ensures { BindsParts columns.now select.now result }
{
    let clauses = bound_clauses(alloc, columns, Purpose::Listed, select)?;
    ended_parts(alloc, columns, select, clauses)
}
