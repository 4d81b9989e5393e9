//! UPDATE.
ghost use Rattle.std.specs.Prelude.{◌≡◌};
ghost use Rattle.cq_sql_language.specs.declared.statement.Statement.TheVariants.{Update};
ghost use Rattle.cq_binder_rules.specs.UpdateChecks.{is_set};
ghost use Rattle.cq_binder_expressions.specs.Expressions.{scope_of};
ghost use Rattle.cq_binder.specs.Sourced.{BindsIn};
ghost use Rattle.cq_binder.specs.Update.{BindsSet, BindsSets, BindsUpdate, BindsUpdateOf};

use crate::binding::{BindFault, unwritten};
use cq_binder_expressions::{Scope, bind_of, named_place, typing_of};
use cq_binder_queries::{Catalog, TableEntry, bound_where, table_columns};
use cq_binder_rules::{Bound, Fault};
use cq_model::{Assignment, Cond};
use cq_sql_language::{SetClause, SqlExpr};
use cq_values::{Seq, Text};
use std::alloc::Global;

/// UPDATE. The values that it gives to rows are not asked for.
pub(crate) fn bind_update<C: Catalog>(
    alloc: Global,
    catalog: &C,
    name: &Text,
    sets: &Seq<SetClause>,
    condition: &Option<SqlExpr>,
) -> Result<Bound, BindFault>
    ensures { BindsIn C.Catalog catalog.now (Update name.now sets.now condition.now) result }
{
    let sets = sets.as_slice();
    let Some(table) = catalog.table(name.as_str()) else {
        return Err(unwritten(catalog, name.as_str()));
    };
    let (assignments, condition) = bound_parts(alloc, &table, sets, condition)?;
    Ok(Bound::Update {
        table: table.number,
        assignments,
        condition,
    })
}

/// SET and WHERE on a table. The walk begins at WHERE.
fn bound_parts(
    alloc: Global,
    table: &TableEntry<'_>,
    sets: &[SetClause],
    condition: &Option<SqlExpr>,
) -> Result<(Seq<Assignment>, Option<Cond>), Fault>
    ensures { BindsUpdateOf table.now sets.now condition.now result }
{
    let columns = table_columns(alloc, table.name, table)?;
    set_parts(alloc, &Scope::of_rows(&columns), sets, condition)
}

fn set_parts(
    alloc: Global,
    scope: &Scope<'_>,
    sets: &[SetClause],
    condition: &Option<SqlExpr>,
) -> Result<(Seq<Assignment>, Option<Cond>), Fault>
    ensures { BindsUpdate (scope_of scope.now) sets.now condition.now result }
{
    let condition = bound_where(alloc, scope, condition)?;
    match bound_sets(alloc, scope, sets) {
        Ok(assignments) => Ok((assignments, condition)),
        Err(fault) => {
            drop(condition);
            Err(fault)
        }
    }
}

/// SET, assignment by assignment.
fn bound_sets(
    alloc: Global,
    scope: &Scope<'_>,
    sets: &[SetClause],
) -> Result<Seq<Assignment>, Fault>
    ensures { BindsSets (scope_of scope.now) sets.now result }
{
    let mut assignments = Seq::new(alloc);
    for (i, set) in sets.iter().enumerate() {
        assignments.push(bound_set(alloc, scope, &sets[..i], set)?)?;
    }
    Ok(assignments)
}

/// An assignment behind those before it: its column, its expression, and whether the column takes it.
fn bound_set(
    alloc: Global,
    scope: &Scope<'_>,
    before: &[SetClause],
    set: &SetClause,
) -> Result<Assignment, Fault>
    ensures { BindsSet (scope_of scope.now) before.now set.now result }
{
    let name = set.column.as_str();
    let Some(column) = named_place(scope.columns, name) else {
        return Err(Fault::UnknownColumn);
    };
    let typing = typing_of(scope, &set.value)?;
    if is_set(before, name) {
        return Err(Fault::NameTaken);
    }
    let ty = scope.columns[column].ty();
    let value = bind_of(alloc, scope, set.value.node(), typing, ty)?;
    Ok(Assignment { column, value })
}

/// Whether one of these assignments sets the column.
fn is_set(before: &[SetClause], name: &str) -> bool
    ensures { result ≡ is_set before.now name.now }
{
    before.iter().any(|set| set.column.as_str() == name)
}
