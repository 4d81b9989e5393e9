//! The columns of a view: what its items are called, and their types.
ghost use Rattle.std.specs.Prelude.{◌≡◌, IfOk};
ghost use Rattle.cq_binder_rules.specs.Bound.{item_columns};
ghost use Rattle.cq_binder_expressions.specs.Expressions.{scope_of};
ghost use Rattle.cq_binder_queries.specs.View.{ShowsColumns};

use crate::lists::{check_names, refuse_clause};
use crate::select::item_name;
use cq_binder_expressions::{Scope, type_of};
use cq_binder_rules::Fault;
use cq_sql_language::{Select, SelectItem};
use cq_values::{ColumnDef, Seq};
use std::alloc::{AllocError, Global};

/// The columns that the items of a view show, of different names and without DISTINCT.
pub(crate) fn view_columns(
    alloc: Global,
    scope: &Scope<'_>,
    view: &Select,
) -> Result<Seq<ColumnDef>, Fault>
    ensures { ShowsColumns (scope_of scope.now) view.now result }
{
    let columns = named_columns(alloc, scope, view.items.as_slice())?;
    check_names(columns.as_slice())?;
    refuse_clause(view.is_distinct)?;
    Ok(columns)
}

fn named_columns(
    alloc: Global,
    scope: &Scope<'_>,
    items: &[SelectItem],
) -> Result<Seq<ColumnDef>, AllocError>
    ensures { IfOk result (λ columns. columns ≡ item_columns (scope_of scope.now) 1 items.now) }
{
    let mut columns = Seq::new(alloc);
    for (i, item) in items.iter().enumerate() {
        columns.push(ColumnDef {
            name: item_name(alloc, i + 1, item)?,
            ty: type_of(scope, &item.value),
            not_null: false,
        })?;
    }
    Ok(columns)
}
