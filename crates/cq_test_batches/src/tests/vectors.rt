//! Vectors of the lengths at which words of flags begin and end, with NULLs at both ends.
ghost use Rattle.std.specs.Prelude.{length};

use super::columns::{is_number, row_of, row_within};
use cq_values::{Day, Row, Text, Value};
use cq_vectors::{Form, Vector};
use std::alloc::{AllocError, Global};
use std::test::Fail;

/// Rows of one number, which is the place, and of NULL in the first and the last.
fn numbered(alloc: Global, len: usize) -> Result<Vec<Row>, AllocError> {
    let mut rows = Vec::new(alloc);
    for place in 0..len {
        rows.push(row_within(alloc, place, len, Value::Number(place as i128))?)?;
    }
    Ok(rows)
}

fn two_rows(alloc: Global, first: Value, second: Value) -> Result<Vec<Row>, AllocError> {
    let mut rows = Vec::new(alloc);
    rows.push(row_of(alloc, first)?)?;
    rows.push(row_of(alloc, second)?)?;
    Ok(rows)
}

#[test]
fn a_gathered_column_keeps_the_nulls_at_its_ends(rt: HostRuntime) -> Result<(), Fail> {
    // the length, the last place with a number, and the last place of all
    let cases = [
        (3, 1, 2),
        (63, 61, 62),
        (64, 62, 63),
        (65, 63, 64),
        (1023, 1021, 1022),
        (1024, 1022, 1023),
    ];
    for (len, number, last) in cases {
        let rows = numbered(rt.alloc(), len)?;
        assert!(rt; rows.len() <= 1024);
        let column = Vector::gather(rt.alloc(), rows.as_slice(), 0)?;
        assert!(rt;
            column.len() == len && column.lend(0).is_null() && column.lend(last).is_null(),
            "length {len}"
        );
        assert!(rt;
            is_number(&column.lend(1), 1) && is_number(&column.lend(number), number as i128),
            "length {len}"
        );
        assert!(rt; column.lend(len).is_null(), "past the length {len}");
        drop(column);
    }
    Ok(())
}

/// The first letter of the form that two values take as a column.
fn form_of(alloc: Global, first: Value, second: Value) -> Result<char, AllocError> {
    let rows = two_rows(alloc, first, second)?;
    let few = if rows.len() <= 1024 {
        rows.as_slice()
    } else {
        &[]
    };
    let column = Vector::gather(alloc, few, 0)?;
    let letter = match column.form() {
        Form::Numbers(_) => 'n',
        Form::Wide(_) => 'w',
        Form::Days(_) => 'd',
        Form::Texts(_) => 't',
        Form::Values(_) => 'v',
        Form::Constant(_, _) => 'c',
        _ => 'l',
    };
    drop(column);
    Ok(letter)
}

#[test]
fn numbers_take_the_narrowest_form(rt: HostRuntime) -> Result<(), Fail> {
    let alloc = rt.alloc();
    let wide: i128 = 1 << 63;
    assert_eq!(rt; form_of(alloc, Value::Null, Value::Number(wide - 1))?, 'n');
    assert_eq!(rt; form_of(alloc, Value::Number(-wide), Value::Null)?, 'n');
    assert_eq!(rt; form_of(alloc, Value::Number(1), Value::Number(wide))?, 'w');
    assert_eq!(rt; form_of(alloc, Value::Null, Value::Null)?, 'c');
    Ok(())
}

#[test]
fn days_and_texts_have_forms_of_their_own(rt: HostRuntime) -> Result<(), Fail> {
    let alloc = rt.alloc();
    if let Some(day) = Day::new(0) {
        let form = form_of(alloc, Value::Null, Value::Day(day))?;
        assert_eq!(rt; form, 'd');
    }
    let text = Text::new(alloc, "")?;
    assert_eq!(rt; form_of(alloc, Value::Null, Value::Text(text))?, 't');
    let text = Text::new(alloc, "1")?;
    assert_eq!(rt; form_of(alloc, Value::Number(1), Value::Text(text))?, 'v');
    Ok(())
}

#[test]
fn no_rows_are_an_empty_column(rt: HostRuntime) -> Result<(), Fail> {
    let column = Vector::gather(rt.alloc(), &[], 0)?;
    assert!(rt; column.len() == 0 && column.lend(0).is_null());
    Ok(())
}
