//! INSERT and DELETE.
ghost use Rattle.std.specs.Prelude.{map};
ghost use Rattle.std.specs.List.{flat_map};
ghost use Rattle.cq_sql_language.specs.declared.statement.Statement.TheVariants as statements;
ghost use Rattle.cq_binder_rules.specs.Bound.{row_of};
ghost use Rattle.cq_binder_rules.specs.RowChecks.{row_checks};
ghost use Rattle.cq_binder.specs.Sourced.{BindsIn};
ghost use Rattle.cq_binder.specs.Update.{BindsWhereOf};
ghost use Rattle.cq_binder_queries.specs.Walk.{WalksTo};

use crate::binding::{BindFault, unwritten};
use crate::constants::bound_row;
use cq_binder_expressions::Scope;
use cq_binder_queries::{Catalog, TableEntry, bound_where, table_columns};
use cq_binder_rules::Bound;
use cq_model::Cond;
use cq_sql_language::{ConstantRows, SqlExpr};
use cq_values::{ColumnDef, Text};
use cq_writestore_rows::NewRows;
use std::alloc::Global;

/// INSERT.
pub(crate) fn bind_insert<C: Catalog>(
    alloc: Global,
    catalog: &C,
    name: &Text,
    rows: &ConstantRows,
) -> Result<Bound, BindFault>
    ensures { BindsIn C.Catalog catalog.now (statements.Insert name.now rows.now) result }
{
    let Some(table) = catalog.table(name.as_str()) else {
        return Err(unwritten(catalog, name.as_str()));
    };
    Ok(Bound::Insert {
        table: table.number,
        rows: bound_rows(alloc, table.columns, rows)?,
    })
}

/// The rows of these constants, each for these columns.
fn bound_rows(
    alloc: Global,
    columns: &[ColumnDef],
    rows: &ConstantRows,
) -> Result<NewRows, BindFault>
    ensures { WalksTo (flat_map (row_checks columns.now) rows.now) (map row_of rows.now) result }
{
    let mut made = Vec::with_capacity(alloc, rows.len())?;
    for place in 0..rows.len() {
        made.push(bound_row(alloc, columns, rows.row(place))?)?;
    }
    Ok(NewRows::of(made))
}

/// DELETE.
pub(crate) fn bind_delete<C: Catalog>(
    alloc: Global,
    catalog: &C,
    name: &Text,
    condition: &Option<SqlExpr>,
) -> Result<Bound, BindFault>
    ensures { BindsIn C.Catalog catalog.now (statements.Delete name.now condition.now) result }
{
    let Some(table) = catalog.table(name.as_str()) else {
        return Err(unwritten(catalog, name.as_str()));
    };
    Ok(Bound::Delete {
        table: table.number,
        condition: where_on(alloc, &table, condition)?,
    })
}

/// WHERE on a table.
fn where_on(
    alloc: Global,
    table: &TableEntry<'_>,
    condition: &Option<SqlExpr>,
) -> Result<Option<Cond>, BindFault>
    ensures { BindsWhereOf table.now condition.now result }
{
    let columns = table_columns(alloc, table.name, table)?;
    bound_where(alloc, &Scope::of_rows(&columns), condition)
}
