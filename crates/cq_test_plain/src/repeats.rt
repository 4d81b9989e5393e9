//! DISTINCT, by looking through a list.
ghost use Rattle.std.specs.Prelude.{◌≡◌, IfOk, OnOk};
ghost use Rattle.cq_model_bags.specs.Bag.{firsts};
ghost use Rattle.cq_test_plain.specs.Repeats.{is_among, with_new};

use cq_values::{Row, copy_row};
use std::alloc::{AllocError, Global};

/// The first of each row. NULL is the same as NULL here.
pub(crate) fn firsts(alloc: Global, rows: &[Row]) -> Result<Vec<Row>, AllocError>
    ensures { IfOk result (λ found. found.items ≡ firsts rows.now) }
{
    let mut found = Vec::new(alloc);
    for row in rows {
        push_new(alloc, row, &mut found)?;
    }
    Ok(found)
}

/// Adds the row, unless it is among these.
fn push_new(alloc: Global, row: &Row, rows: &mut Vec<Row>) -> Result<(), AllocError>
    ensures { OnOk result (rows.new.items ≡ with_new row.now rows.old.items) }
{
    if is_among(row, rows) {
        return Ok(());
    }
    rows.push(copy_row(alloc, row.as_slice())?)?;
    Ok(())
}

fn is_among(row: &Row, rows: &[Row]) -> bool
    ensures { result ≡ is_among row.now rows.now }
{
    rows.iter().any(|other| other == row)
}
