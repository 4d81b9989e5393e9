//! The constants of an INSERT, each for the column at its place.
ghost use Rattle.std.specs.Prelude.{◌≡◌, [], length};
ghost use Rattle.cq_sql_language.specs.declared.statement.Constant.TheVariants as constants;
ghost use Rattle.cq_binder_rules.specs.Bound.{row_of};
ghost use Rattle.cq_binder_rules.specs.RowChecks.{row_checks};
ghost use Rattle.cq_binder.specs.Constants.{BindsConstant};
ghost use Rattle.cq_binder_queries.specs.Walk.{WalksTo};

use crate::literals::{fits_column, literal_number};
use cq_binder_rules::Fault;
use cq_model::MAX_TEXT;
use cq_sql_language::{Constant, Literal};
use cq_values::{ColumnDef, Row, Text, Ty, Value, date_of};
use std::alloc::Global;

/// The row that the constants make, where each can stand in its column.
pub(crate) fn bound_row(
    alloc: Global,
    columns: &[ColumnDef],
    constants: &[Constant],
) -> Result<Row, Fault>
    ensures { WalksTo (row_checks columns.now constants.now) (row_of constants.now) result }
{
    if constants.len() != columns.len() {
        return Err(Fault::TypeMismatch);
    }
    let row = Row::with_capacity(alloc, columns.len())?;
    filled_row(alloc, columns, constants, row)
}

/// Puts the values of the constants into an empty row, where there are as many of them as columns.
fn filled_row(
    alloc: Global,
    columns: &[ColumnDef],
    constants: &[Constant],
    empty: Row,
) -> Result<Row, Fault>
    requires empty { empty ≡ [] }
    requires len { length constants.now ≡ length columns.now }
    ensures { WalksTo (row_checks columns.now constants.now) (row_of constants.now) result }
{
    let mut row = empty;
    for (i, constant) in constants.iter().enumerate() {
        row.push(bound_constant(alloc, &columns[i], constant)?)?;
    }
    Ok(row)
}

fn bound_constant(alloc: Global, column: &ColumnDef, constant: &Constant) -> Result<Value, Fault>
    ensures { BindsConstant column.now constant.now result }
{
    match constant {
        Constant::Null => bound_null(column),
        Constant::Number(literal) => bound_number(column, literal),
        Constant::Text(text) => bound_text(alloc, column, text),
        Constant::Date(text) => bound_date(column, text.as_str()),
    }
}

fn bound_null(column: &ColumnDef) -> Result<Value, Fault>
    ensures { BindsConstant column.now constants.Null result }
{
    if column.not_null {
        return Err(Fault::NullNotAllowed);
    }
    Ok(Value::Null)
}

fn bound_number(column: &ColumnDef, literal: &Literal) -> Result<Value, Fault>
    ensures { BindsConstant column.now (constants.Number literal.now) result }
{
    if column.ty != Ty::Integer {
        return Err(Fault::TypeMismatch);
    }
    if !fits_column(literal) {
        return Err(Fault::NumberOutside);
    }
    Ok(Value::Number(literal_number(literal)))
}

fn bound_text(alloc: Global, column: &ColumnDef, text: &Text) -> Result<Value, Fault>
    ensures { BindsConstant column.now (constants.Text text.now) result }
{
    if column.ty != Ty::Text {
        return Err(Fault::TypeMismatch);
    }
    if MAX_TEXT < text.as_str().len() {
        return Err(Fault::TextTooLong);
    }
    Ok(Value::Text(text.copy(alloc)?))
}

fn bound_date(column: &ColumnDef, text: &str) -> Result<Value, Fault>
    ensures { BindsConstant column.now (constants.Date text.now) result }
{
    if column.ty != Ty::Date {
        return Err(Fault::TypeMismatch);
    }
    match date_of(text) {
        Ok(day) => Ok(Value::Day(day)),
        Err(_) => Err(Fault::BadDate),
    }
}
