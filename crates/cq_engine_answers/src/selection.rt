//! Rows that are listed as they are.
ghost use Rattle.std.specs.Prelude.{IfOk};
ghost use Rattle.cq_model_bags.specs.Bag.{once_each};
ghost use Rattle.cq_engine_answers.specs.Selects.{AreListed};

use cq_model::Order;
use cq_operators::rows_in_order;
use cq_operators_listing::is_listed;
use cq_values_rows::RowList;
use std::alloc::{AllocError, Global};

/// The listing of rows that are all shown as they are. Where they are in order and no LIMIT cuts them, they stay.
pub(crate) fn list_whole(alloc: Global, order: &Order, rows: RowList) -> Result<RowList, AllocError>
    ensures { IfOk result (AreListed order.now (once_each rows)) }
{
    if order.limit.is_none() && is_listed(order.keys.as_slice(), &rows) {
        Ok(rows)
    } else {
        rows_in_order(alloc, order, &rows)
    }
}
