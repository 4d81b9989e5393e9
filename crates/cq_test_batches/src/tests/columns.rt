//! Rows of one value each, and what stands in a column of them.
ghost use Rattle.std.specs.Prelude.{◌<◌};

use cq_values::{Lent, Row, Value};
use std::alloc::{AllocError, Global};

/// A row of one value.
pub(crate) fn row_of(alloc: Global, value: Value) -> Result<Row, AllocError> {
    let mut row = Row::new(alloc);
    row.push(value)?;
    Ok(row)
}

/// The row at a place among so many: of the value, and of NULL in the first and the last.
pub(crate) fn row_within(
    alloc: Global,
    place: usize,
    len: usize,
    value: Value,
) -> Result<Row, AllocError>
    requires { place < len }
{
    if place == 0 || place == len - 1 {
        row_of(alloc, Value::Null)
    } else {
        row_of(alloc, value)
    }
}

/// The numbers that are as far above a base as their place says, or as far below it, with NULL at both ends.
pub(crate) fn counted(
    alloc: Global,
    base: i64,
    is_up: bool,
    len: usize,
) -> Result<Vec<Row>, AllocError> {
    let mut rows = Vec::new(alloc);
    for place in 0..len {
        let distance = place as i128;
        let number = if is_up {
            i128::from(base) + distance
        } else {
            i128::from(base) - distance
        };
        rows.push(row_within(alloc, place, len, Value::Number(number))?)?;
    }
    Ok(rows)
}

/// Whether a value is this number.
pub(crate) fn is_number(value: &Lent<'_>, number: i128) -> bool {
    match value {
        Lent::Number(n) => *n == number,
        _ => false,
    }
}
