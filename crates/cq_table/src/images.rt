//! The images of rows under SET, and whether they may be stored.
ghost use Rattle.std.specs.List.{AllByRecursion, list_any};
ghost use Rattle.std.specs.Prelude.{◌≡◌, ◌<◌, IfOk, length, map};
ghost use Rattle.cq_values.specs.Lent.{owned};
ghost use Rattle.cq_values.specs.Value.{column};
ghost use Rattle.cq_model.specs.Eval.{eval};
ghost use Rattle.cq_model.specs.Width.{IsNarrowAt};
ghost use Rattle.cq_model.specs.Write.{image_of};
ghost use Rattle.cq_binder_rules.specs.UpdateChecks.{is_null, is_outside, never_null};
ghost use Rattle.cq_table.specs.Checks.{AreNarrowSets, IsChecked, one_fault, values_fault};

use crate::fault::TableFault;
use cq_model::{Assignment, Expr};
use cq_model_eval::{eval_row, narrow_is_exact};
use cq_values::{ColumnDef, Lent, Row, Value, lend_column};
use std::alloc::{AllocError, Global};

/// Refuses the first assignment with a value in one of the rows that its column cannot have.
pub fn check_values(
    columns: &[ColumnDef],
    assignments: &[Assignment],
    rows: &[Row],
) -> Result<(), TableFault>
    requires { AllByRecursion (λ a. AllByRecursion (IsNarrowAt a.value) rows.now) assignments.now }
    ensures { IsChecked (values_fault columns.now assignments.now rows.now) result }
{
    for assignment in assignments {
        check_value(columns, assignment, rows)?;
    }
    Ok(())
}

/// Refuses a number outside 64 bits in any row, and then NULL where the column has none.
fn check_value(
    columns: &[ColumnDef],
    assignment: &Assignment,
    rows: &[Row],
) -> Result<(), TableFault>
    requires { AllByRecursion (IsNarrowAt assignment.now.value) rows.now }
    ensures { IsChecked (one_fault columns.now assignment.now rows.now) result }
{
    if gives_outside(&assignment.value, rows) {
        return Err(TableFault::NumberOutside);
    }
    if is_never_null(columns, assignment.column) && gives_null(&assignment.value, rows) {
        return Err(TableFault::NullNotAllowed);
    }
    Ok(())
}

/// Whether the column at a place is NOT NULL.
fn is_never_null(columns: &[ColumnDef], place: usize) -> bool
    ensures { result ≡ never_null columns.now place }
{
    match columns.get(place) {
        Some(column) => column.not_null,
        None => false,
    }
}

fn gives_outside(value: &Expr, rows: &[Row]) -> bool
    requires { AllByRecursion (IsNarrowAt value.now) rows.now }
    ensures { result ≡ list_any (λ r. is_outside (eval value.now r)) rows.now }
{
    narrow_is_exact();
    for row in rows {
        if is_outside(&eval_row(value, row.as_slice())) {
            return true;
        }
    }
    false
}

fn gives_null(value: &Expr, rows: &[Row]) -> bool
    requires { AllByRecursion (IsNarrowAt value.now) rows.now }
    ensures { result ≡ list_any (λ r. is_null (eval value.now r)) rows.now }
{
    narrow_is_exact();
    for row in rows {
        if eval_row(value, row.as_slice()).is_null() {
            return true;
        }
    }
    false
}

/// Whether it is a number that has no place in 64 bits with a sign.
fn is_outside(value: &Lent<'_>) -> bool
    ensures { result ≡ is_outside (owned value.now) }
{
    match value {
        Lent::Number(n) => *n < -STORED_LIMIT || STORED_LIMIT <= *n,
        Lent::Day(_) | Lent::Text(_) | Lent::Null => false,
    }
}

/// The least number that is too large to be stored.
const STORED_LIMIT: i128 = 1 << 63;

/// The images of the rows. Each expression reads the old row.
pub fn images(
    alloc: Global,
    assignments: &[Assignment],
    rows: &[Row],
) -> Result<Vec<Row>, AllocError>
    requires { AllByRecursion (AreNarrowSets assignments.now) rows.now }
    ensures { IfOk result (λ images. images.items ≡ map (image_of assignments.now) rows.now) }
{
    let mut images = Vec::with_capacity(alloc, rows.len())?;
    for row in rows {
        images.push(image(alloc, assignments, row.as_slice())?)?;
    }
    Ok(images)
}

fn image(alloc: Global, assignments: &[Assignment], old: &[Value]) -> Result<Row, AllocError>
    requires { AreNarrowSets assignments.now old.now }
    ensures { IfOk result (λ row. row ≡ image_of assignments.now old.now) }
{
    let mut row = Row::with_capacity(alloc, old.len())?;
    for place in 0..old.len() {
        row.push(value_at(assignments, old, place).to_value(alloc)?)?;
    }
    Ok(row)
}

/// What the image has at a place: what was set there last, or else the old value.
#[tactic(auto, using(crate::proofs::Setting::value_more))]
fn value_at<'a>(assignments: &'a [Assignment], old: &'a [Value], place: usize) -> Lent<'a>
    requires narrow { AreNarrowSets assignments.now old.now }
    requires within { place < length old.now }
    ensures { owned result ≡ column (image_of assignments.now old.now) place }
{
    narrow_is_exact();
    let mut value = lend_column(old, place);
    for assignment in assignments {
        if assignment.column == place {
            value = eval_row(&assignment.value, old);
        }
    }
    value
}
