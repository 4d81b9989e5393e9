//! The query of a view.
ghost use Rattle.std.specs.Prelude.{◌≡◌};
ghost use Rattle.cq_binder_rules.specs.Grouping.{item_scope};
ghost use Rattle.cq_binder_rules.specs.Places.{group_places};
ghost use Rattle.cq_binder_rules.specs.ViewChecks.{absent_checks};
ghost use Rattle.cq_binder_queries.specs.Catalog.{state_of};
ghost use Rattle.cq_binder_queries.specs.From.{shown_from};
ghost use Rattle.cq_binder_queries.specs.Walk.{Passes};
ghost use Rattle.cq_binder_queries.specs.View.{BindsView, BindsViewOver, BindsViewParts, ShowsColumns};

use crate::catalog::Catalog;
use crate::from::{Allowed, FromClause, bound_from};
use crate::grouping::item_scope;
use crate::items::Purpose;
use crate::lists::refuse_clause;
use crate::names::view_columns;
use crate::order::bound_keys;
use crate::parts::{BoundParts, bound_clauses, ended_parts, query_of};
use crate::select::header;
use cq_binder_expressions::ScopeColumn;
use cq_binder_rules::{Bound, Fault};
use cq_sql_language::Select;
use cq_values::{ColumnDef, Seq, Text, both};
use std::alloc::Global;

/// The columns of a view, and the parts of its query.
#[derive(Drop)]
pub(crate) struct BoundView {
    pub columns: Seq<ColumnDef>,
    pub parts: BoundParts,
}

/// CREATE VIEW of a name that is free.
pub fn bind_view<C: Catalog>(
    alloc: Global,
    catalog: &C,
    name: &Text,
    view: &Select,
) -> Result<Bound, Fault>
    ensures { BindsView (state_of C.tables C.views catalog.now) name.now view.now result }
{
    let from = bound_from(alloc, catalog, Allowed::Tables, view)?;
    bind_view_over(alloc, from, name, view)
}

/// The view over what FROM has joined.
fn bind_view_over(
    alloc: Global,
    from: FromClause<'_>,
    name: &Text,
    view: &Select,
) -> Result<Bound, Fault>
    ensures { BindsViewOver (shown_from from.entry) name.now view.now result }
{
    let name = name.copy(alloc)?;
    let shown = match view_parts(alloc, &from.columns, view) {
        Ok(shown) => shown,
        Err(fault) => {
            drop(from);
            return Err(fault);
        }
    };
    Ok(Bound::CreateView {
        name,
        columns: shown.columns,
        query: query_of(from, shown.parts, view),
    })
}

/// The columns of a view over rows with these columns, and the parts of its query.
fn view_parts<'a>(
    alloc: Global,
    columns: &'a [ScopeColumn<'a>],
    view: &Select,
) -> Result<BoundView, Fault>
    ensures { BindsViewParts columns.now view.now result }
{
    let clauses = bound_clauses(alloc, columns, Purpose::Kept, view)?;
    let shown = match shown_columns(alloc, &*columns, clauses.keys.as_slice(), view) {
        Ok(shown) => shown,
        Err(fault) => {
            drop(clauses);
            return Err(fault);
        }
    };
    let parts = match ended_parts(alloc, columns, view, clauses) {
        Ok(parts) => parts,
        Err(fault) => {
            drop(shown);
            return Err(fault);
        }
    };
    let ((shown, parts), ()) = both((shown, parts), refuse_absent(alloc, view))?;
    Ok(BoundView {
        columns: shown,
        parts,
    })
}

/// The columns that the items show over these rows, where the columns of GROUP BY stand at these places.
fn shown_columns<'a>(
    alloc: Global,
    columns: &'a [ScopeColumn<'a>],
    keys: &'a [usize],
    view: &Select,
) -> Result<Seq<ColumnDef>, Fault>
    requires { keys.now ≡ group_places columns.now view.now.group }
    ensures { ShowsColumns (item_scope view.now columns.now) view.now result }
{
    let scope = item_scope(view, columns, keys);
    view_columns(alloc, &scope, view)
}

/// Refuses HAVING, and ORDER BY once its keys have been walked through, however many they are, and LIMIT: no view has
/// them.
fn refuse_absent(alloc: Global, view: &Select) -> Result<(), Fault>
    ensures { Passes (absent_checks view.now) result }
{
    refuse_clause(view.having.is_some())?;
    let names = header(alloc, view.items.as_slice())?;
    bound_keys(alloc, names.as_slice(), view.order.as_slice())?;
    refuse_clause(!view.order.is_empty())?;
    refuse_clause(view.limit.is_some())
}
