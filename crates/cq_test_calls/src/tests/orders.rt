//! Rows that are in the order of a listing, and rows that are not.
use cq_model_bags::SortKey;
use cq_operators_listing::is_listed;
use cq_values::Value;
use cq_values_rows::{FlatRows, RowList};
use std::alloc::{AllocError, Global};
use std::test::Fail;

/// A row of each number.
fn rows_of(alloc: Global, numbers: &[i128]) -> Result<RowList, AllocError> {
    let mut rows = FlatRows::with_capacity(alloc, numbers.len(), 1)?;
    for number in numbers {
        rows.push(Value::Number(*number))?;
        rows.end_row()?;
    }
    Ok(RowList::flat(rows))
}

/// Numbers, and whether they rise and whether they fall.
const NUMBERS: &[(&[i128], bool, bool)] = &[
    (&[], true, true),
    (&[5], true, true),
    (&[5, 5], true, true),
    (&[-1, 2], true, false),
    (&[2, -1], false, true),
    (&[1, 3, 2], false, false),
];

#[test]
fn rows_in_order_are_told(rt: HostRuntime) -> Result<(), Fail> {
    let falling = [SortKey {
        column: 0,
        descending: true,
    }];
    for (numbers, rise, fall) in NUMBERS {
        let rows = rows_of(rt.alloc(), numbers)?;
        assert_eq!(rt; is_listed(&[], &rows), *rise, "{numbers:?}");
        assert_eq!(rt; is_listed(&falling, &rows), *fall, "{numbers:?}");
    }
    Ok(())
}
