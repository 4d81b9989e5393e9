//! The values of items in each row of a scan.
ghost use Rattle.std.specs.List.{AllByRecursion};
ghost use Rattle.std.specs.Prelude.{◌≡◌, IfOk};
ghost use Rattle.cq_model.specs.Exact.{AreExactAt};
ghost use Rattle.cq_operators_joins.specs.Shown.{columns_shown};

use cq_model::Expr;
use cq_operators_scans::{Scan, own_vector_of};
use cq_vectors::{Buffers, Vector};
use std::alloc::{AllocError, Global};

/// A column for each item. Results stand in memory of the buffers.
pub fn item_columns<'a>(
    alloc: Global,
    buffers: &mut Buffers,
    items: &'a [Expr],
    scan: &Scan<'a>,
) -> Result<Vec<Vector<'a>>, AllocError>
    requires { AllByRecursion (AreExactAt items.now) scan.now }
    ensures { IfOk result (λ columns. columns.items ≡ columns_shown items.now scan.now) }
{
    let mut columns = Vec::new(alloc);
    for item in items {
        columns.push(own_vector_of(alloc, buffers, item, scan)?)?;
    }
    Ok(columns)
}

/// Lets columns go, and keeps the memory of those that were worked out.
pub(crate) fn give_back(columns: Vec<Vector<'_>>, buffers: &mut Buffers) {
    for column in columns {
        buffers.take_back(column);
    }
}
