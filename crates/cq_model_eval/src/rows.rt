//! What is made of a row: the items of a query, and the key of a group.
ghost use Rattle.std.specs.Prelude.{◌≡◌, IfOk};
ghost use Rattle.cq_model.specs.Group.{key_of};
ghost use Rattle.cq_model.specs.Meaning.{items_of};
ghost use Rattle.cq_model.specs.Width.{AreNarrowAt};

use crate::eval::{eval_row, narrow_is_exact};
use cq_model::Expr;
use cq_values::{Row, Value, lend_column};
use std::alloc::{AllocError, Global};

/// The values of the items in a row. No number on the way may be too wide.
pub fn items_of(alloc: Global, items: &[Expr], row: &[Value]) -> Result<Row, AllocError>
    requires { AreNarrowAt items.now row.now }
    ensures { IfOk result (λ values. values ≡ items_of items.now row.now) }
{
    narrow_is_exact();
    let mut values = Row::with_capacity(alloc, items.len())?;
    for item in items {
        values.push(eval_row(item, row).to_value(alloc)?)?;
    }
    Ok(values)
}

/// The values of a row in these columns, and NULL for a column past its end.
pub fn key_of(alloc: Global, columns: &[usize], row: &[Value]) -> Result<Row, AllocError>
    ensures { IfOk result (λ key. key ≡ key_of columns.now row.now) }
{
    let mut key = Row::with_capacity(alloc, columns.len())?;
    for column in columns {
        key.push(lend_column(row, *column).to_value(alloc)?)?;
    }
    Ok(key)
}
