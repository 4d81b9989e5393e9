//! DELETE and UPDATE.
ghost use Rattle.std.specs.Prelude.{◌≡◌, IfErr, IfOk, slice_set};
ghost use Rattle.std.specs.List.{Any};
ghost use Rattle.cq_model.specs.Write.{image_of, left_by, updated};
ghost use Rattle.cq_test_plain.specs.Faults.{Tells};
ghost use Rattle.cq_test_plain.specs.FaultsOf.{IsUpdateFault};
ghost use Rattle.cq_test_plain.specs.Replacements.{replacement};
ghost use Rattle.cq_test_plain.specs.Wide.{IsWideIn};
ghost use Rattle.cq_test_plain.specs.WideWrites.{IsSetWide, IsUpdateWide};

use crate::evaluation::{passes, value_at};
use crate::fault::PlainFault;
use cq_model::{Assignment, Cond};
use cq_values::{Row, Value, copy_row};
use std::alloc::Global;

/// The rows that a DELETE leaves: those of which WHERE is False or Unknown.
pub fn left_by(
    alloc: Global,
    rows: &[Row],
    condition: &Option<Cond>,
) -> Result<Vec<Row>, PlainFault>
    ensures ok { IfOk result (λ left. left.items ≡ left_by condition.now rows.now) }
    ensures fault { IfErr result (Tells (Any (IsWideIn condition.now) rows.now) ⊥) }
{
    let mut left = Vec::new(alloc);
    for row in rows {
        let values = row.as_slice();
        if !passes(alloc, condition, values)? {
            left.push(copy_row(alloc, values)?)?;
        }
    }
    Ok(left)
}

/// The rows that an UPDATE leaves, in their order.
pub fn updated(
    alloc: Global,
    rows: &[Row],
    assignments: &[Assignment],
    condition: &Option<Cond>,
) -> Result<Vec<Row>, PlainFault>
    ensures ok { IfOk result (λ new. new.items ≡ updated assignments.now condition.now rows.now) }
    ensures fault { IfErr result (IsUpdateFault assignments.now condition.now rows.now) }
{
    let mut new = Vec::new(alloc);
    for row in rows {
        new.push(replaced(alloc, assignments, condition, row.as_slice())?)?;
    }
    Ok(new)
}

/// What stands in a row's place after an UPDATE.
#[tactic(auto, using(crate::proofs::Assignments::told_in_image))]
fn replaced(
    alloc: Global,
    assignments: &[Assignment],
    condition: &Option<Cond>,
    old: &[Value],
) -> Result<Row, PlainFault>
    ensures ok { IfOk result (λ row. row ≡ replacement assignments.now condition.now old.now) }
    ensures fault { IfErr result (Tells (IsUpdateWide assignments.now condition.now old.now) ⊥) }
{
    if passes(alloc, condition, old)? {
        image_of(alloc, assignments, old)
    } else {
        Ok(copy_row(alloc, old)?)
    }
}

/// A row's image under SET. Each expression reads the old row.
#[tactic(auto, using(crate::proofs::Assignments::with_set_more, crate::proofs::ToldAt::told_at))]
fn image_of(alloc: Global, assignments: &[Assignment], old: &[Value]) -> Result<Row, PlainFault>
    ensures ok { IfOk result (λ row. row ≡ image_of assignments.now old.now) }
    ensures fault { IfErr result (Tells (Any (IsSetWide old.now) assignments.now) ⊥) }
{
    let mut values = Vec::new(alloc);
    for value in old {
        values.push(value.copy(alloc)?)?;
    }
    for assignment in assignments {
        let value = value_at(alloc, &assignment.value, old)?;
        set(&mut values, assignment.column, value);
    }
    Ok(copy_row(alloc, &values)?)
}

/// Puts a value in place of another. Past the end there is nothing to set.
fn set(values: &mut Vec<Value>, column: usize, value: Value)
    ensures { values.new.items ≡ slice_set values.old.items column value }
{
    if column < values.len() {
        values[column] = value;
    }
}
