//! Sizes of numbers, and the months of days at the lengths where words of flags begin and end, with NULLs at both ends.
ghost use Rattle.std.specs.Prelude.{length, ◌≤◌};

use super::columns::{is_number, row_within};
use cq_prims_arithmetic::{extract, largest_size};
use cq_values::{Day, DayPart, Row, Value};
use cq_vectors::{Buffers, Vector};
use std::alloc::{AllocError, Global};
use std::process::Abort;
use std::test::Fail;

#[test]
fn the_largest_size_is_that_of_either_sign(rt: HostRuntime) -> Result<(), Fail> {
    assert_eq!(rt; largest_size(&[]), 0);
    assert_eq!(rt; largest_size(&[3, -4, 2]), 4);
    assert_eq!(rt; largest_size(&[i64::MAX, 0]), 9223372036854775807);
    assert_eq!(rt; largest_size(&[i64::MAX, i64::MIN]), 9223372036854775808);
    Ok(())
}

/// Rows of one value each, the given one but for NULL in the first and the last.
fn rows_of(alloc: Global, len: usize, value: &Value) -> Result<Vec<Row>, AllocError> {
    let mut rows = Vec::new(alloc);
    for place in 0..len {
        let value = value.lend().to_value(alloc)?;
        rows.push(row_within(alloc, place, len, value)?)?;
    }
    Ok(rows)
}

/// The length, and the last place.
const MONTHS: &[(usize, usize)] = &[
    (0, 0),
    (1, 0),
    (3, 2),
    (63, 62),
    (64, 63),
    (65, 64),
    (1023, 1022),
    (1024, 1023),
];

/// Asks that the months are 3 but for NULL at both ends.
fn check_months(
    rt: &impl Abort,
    alloc: Global,
    days: &Vector<'_>,
    last: usize,
) -> Result<(), Fail> {
    let mut buffers = Buffers::new(alloc);
    let months = extract(alloc, &mut buffers, DayPart::Month, days)?;
    assert!(rt;
        months.lend(0).is_null() && months.lend(last).is_null(),
        "to {last}"
    );
    for place in 1..last {
        assert!(rt; is_number(&months.lend(place), 3), "at {place}");
    }
    drop(months);
    Ok(())
}

/// Asks the same of a column of so many days.
fn check_days(rt: &impl Abort, alloc: Global, rows: &[Row], last: usize) -> Result<(), Fail>
    requires { length rows.now ≤ 1024 }
{
    let days = Vector::gather(alloc, rows, 0)?;
    let checked = check_months(rt, alloc, &days, last);
    drop(days);
    checked
}

#[test]
fn a_month_is_taken_from_each_day(rt: HostRuntime) -> Result<(), Fail> {
    let day = Day::new(59).map_or(Value::Null, Value::Day);
    for (len, last) in MONTHS {
        let rows = rows_of(rt.alloc(), *len, &day)?;
        assert!(rt; rows.len() <= 1024);
        let checked = check_days(&rt, rt.alloc(), &rows, *last);
        drop(rows);
        checked?;
    }
    Ok(())
}
