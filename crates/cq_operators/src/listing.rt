//! The listing of rows that are made.
ghost use Rattle.std.specs.Prelude.{IfOk};
ghost use Rattle.cq_operators_joins.specs.Listed.{IsListingOf};

use cq_model::Order;
use cq_operators_listing::in_order;
use cq_values_rows::RowList;
use std::alloc::{AllocError, Global};

/// The listing of rows that are made. Only those that LIMIT leaves are copied.
pub fn rows_in_order(alloc: Global, order: &Order, rows: &RowList) -> Result<RowList, AllocError>
    ensures { IfOk result (λ list. IsListingOf order.now rows.now list) }
{
    in_order(alloc, order, rows)
}
