//! WHERE.
ghost use Rattle.cq_binder_expressions.specs.Expressions.{scope_of};
ghost use Rattle.cq_binder_queries.specs.Conditions.{BindsWhere};

use cq_binder_expressions::{Scope, bind_condition};
use cq_binder_rules::Fault;
use cq_model::Cond;
use cq_sql_language::SqlExpr;
use std::alloc::Global;

/// WHERE on a source, if it is there, once it has been walked through.
pub fn bound_where(
    alloc: Global,
    scope: &Scope<'_>,
    condition: &Option<SqlExpr>,
) -> Result<Option<Cond>, Fault>
    ensures { BindsWhere (scope_of scope.now) condition.now result }
{
    match condition {
        Some(condition) => Ok(Some(bind_condition(alloc, scope, condition)?)),
        None => Ok(None),
    }
}
