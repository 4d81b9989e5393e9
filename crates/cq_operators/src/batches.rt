//! Batches of rows that stand in a list.
ghost use Rattle.std.specs.Prelude.{◌-◌, ◌≡◌, ◌≤◌, IfOk, OnErr, OnOk, drop, length};
ghost use Rattle.cq_plan.specs.Chain.{HaveValues};
ghost use Rattle.cq_vectors.specs.Batch.{rows_of};
ghost use Rattle.cq_operators.specs.Batches.{between, column_in, columns_in};

use cq_values::Lent;
use cq_values_rows::RowList;
use cq_vectors::{Batch, Form, Vector};
use std::alloc::{AllocError, Global};

/// Fills the batch with the rows between two places, of so many values each. Their texts stay in the list.
pub(crate) fn fill<'a>(
    alloc: Global,
    list: &'a RowList,
    start: usize,
    end: usize,
    width: usize,
    batch: &mut Batch<'a>,
) -> Result<(), AllocError>
    requires places { start ≤ end }
    requires inside { end ≤ length list.now }
    requires few { end - start ≤ 1024 }
    requires wide { HaveValues width list.now }
    ensures ok { OnOk result (rows_of batch.new ≡ between start end list.now) }
    ensures err { OnErr result (batch.new ≡ batch.old) }
{
    let columns = columns_between(alloc, list, start, end, width)?;
    batch.columns = columns;
    batch.selection.set_all(end - start);
    Ok(())
}

/// A column for each of so many values of the rows between two places.
fn columns_between<'a>(
    alloc: Global,
    list: &'a RowList,
    start: usize,
    end: usize,
    width: usize,
) -> Result<Vec<Vector<'a>>, AllocError>
    requires places { start ≤ end }
    requires inside { end ≤ length list.now }
    requires few { end - start ≤ 1024 }
    ensures { IfOk result (λ columns. columns.items ≡ columns_in width (between start end list.now)) }
{
    let mut columns = Vec::with_capacity(alloc, width)?;
    for column in 0..width {
        columns.push(column_between(alloc, list, start, end, column)?)?;
    }
    Ok(columns)
}

/// The values of one column in the rows between two places.
fn column_between<'a>(
    alloc: Global,
    list: &'a RowList,
    start: usize,
    end: usize,
    column: usize,
) -> Result<Vector<'a>, AllocError>
    requires places { start ≤ end }
    requires inside { end ≤ length list.now }
    requires few { end - start ≤ 1024 }
    ensures { IfOk result (λ vector. vector ≡ column_in column (between start end list.now)) }
{
    let mut values: Vec<Lent<'a>> = Vec::new(alloc);
    values.reserve(end - start)?;
    for place in start..end {
        values.push_reserved(list.row(place).lend(column));
    }
    Ok(Vector::new(Form::Values(values)))
}

/// The rows from a place on, as copies.
pub(crate) fn rows_behind(
    alloc: Global,
    list: &RowList,
    start: usize,
) -> Result<RowList, AllocError>
    requires { start ≤ length list.now }
    ensures { IfOk result (λ rows. rows ≡ drop start list.now) }
{
    let mut places = Vec::new(alloc);
    for place in start..list.len() {
        places.push(place)?;
    }
    list.at_places(alloc, &places)
}
