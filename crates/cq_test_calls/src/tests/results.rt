//! Printed results beside texts that were written by hand.
use cq_csvio::print_result;
use cq_values::{Day, Row, Text, Value};
use cq_values_rows::RowList;
use std::alloc::Global;
use std::process::Abort;
use std::test::Fail;

#[derive(Clone, Copy)]
enum Cell {
    Number(i128),
    Day(i32),
    Text(&'static str),
    Null,
}

fn value_of(alloc: Global, cell: Cell) -> Result<Value, Fail> {
    match cell {
        Cell::Number(n) => Ok(Value::Number(n)),
        Cell::Day(number) => Ok(Day::new(number).map_or(Value::Null, Value::Day)),
        Cell::Text(text) => Ok(Value::Text(Text::new(alloc, text)?)),
        Cell::Null => Ok(Value::Null),
    }
}

fn row_of(alloc: Global, cells: &[Cell]) -> Result<Row, Fail> {
    let mut row = Row::new(alloc);
    for cell in cells {
        row.push(value_of(alloc, *cell)?)?;
    }
    Ok(row)
}

fn rows_of(alloc: Global, lists: &[&[Cell]]) -> Result<Vec<Row>, Fail> {
    let mut rows = Vec::new(alloc);
    for cells in lists {
        rows.push(row_of(alloc, cells)?)?;
    }
    Ok(rows)
}

fn header_of(alloc: Global, names: &[&str]) -> Result<Vec<Text>, Fail> {
    let mut header = Vec::new(alloc);
    for name in names {
        header.push(Text::new(alloc, name)?)?;
    }
    Ok(header)
}

/// Whether these rows below these names are printed so.
fn is_printed(alloc: Global, names: &[&str], lists: &[&[Cell]], text: &str) -> Result<bool, Fail> {
    let header = header_of(alloc, names)?;
    let rows = RowList::listed(rows_of(alloc, lists)?);
    let printed = print_result(alloc, &header, &rows)?;
    Ok(printed.as_slice() == text.as_bytes())
}

/// A row, and how it is printed alone.
const ROWS: &[(&[Cell], &str)] = &[
    (&[Cell::Text("")], "rows 1\nv\n\"\"\n"),
    (&[Cell::Text(""), Cell::Text("")], "rows 1\nv\n,\n"),
    (&[Cell::Text(""), Cell::Null], "rows 1\nv\n,\\N\n"),
    (&[Cell::Null], "rows 1\nv\n\\N\n"),
    (&[Cell::Text("\\N")], "rows 1\nv\n\\\\N\n"),
    (
        &[Cell::Text("\\"), Cell::Text("a\\")],
        "rows 1\nv\n\\\\,a\\\n",
    ),
    (&[Cell::Text("\\,")], "rows 1\nv\n\"\\\\,\"\n"),
    (&[Cell::Text("a\"b")], "rows 1\nv\n\"a\"\"b\"\n"),
    (
        &[Cell::Text("c"), Cell::Text("a\"b"), Cell::Text("d")],
        "rows 1\nv\nc,\"a\"\"b\",d\n",
    ),
    (&[Cell::Text("\"")], "rows 1\nv\n\"\"\"\"\n"),
    (&[Cell::Text("a b")], "rows 1\nv\na b\n"),
    (&[Cell::Text(" a "), Cell::Text("'")], "rows 1\nv\n a ,'\n"),
    (&[Cell::Text("a,b")], "rows 1\nv\n\"a,b\"\n"),
    (&[Cell::Text("a\r\nb")], "rows 1\nv\n\"a\r\nb\"\n"),
    (
        &[Cell::Text("a\rb"), Cell::Text("a\nb")],
        "rows 1\nv\n\"a\rb\",\"a\nb\"\n",
    ),
    (&[Cell::Text("é")], "rows 1\nv\né\n"),
    (&[Cell::Number(0), Cell::Number(-1)], "rows 1\nv\n0,-1\n"),
    (
        &[
            Cell::Number(9_223_372_036_854_775_807),
            Cell::Number(-9_223_372_036_854_775_808),
        ],
        "rows 1\nv\n9223372036854775807,-9223372036854775808\n",
    ),
    (
        &[Cell::Number(-170_141_183_460_469_231_731_687_303_715_884_105_728)],
        "rows 1\nv\n-170141183460469231731687303715884105728\n",
    ),
    (&[], "rows 1\nv\n\"\"\n"),
];

#[test]
fn a_row_alone_is_printed_below_its_header(rt: HostRuntime) -> Result<(), Fail> {
    for (cells, text) in ROWS {
        assert!(rt; is_printed(rt.alloc(), &["v"], &[cells], text)?, "{text}");
    }
    Ok(())
}

/// A day, and how it is printed alone.
const DAYS: &[(&[Cell], &str)] = &[
    (&[Cell::Day(-719_162)], "rows 1\nv\n0001-01-01\n"),
    (&[Cell::Day(-719_161)], "rows 1\nv\n0001-01-02\n"),
    (&[Cell::Day(-25_510)], "rows 1\nv\n1900-02-27\n"),
    (&[Cell::Day(-25_509)], "rows 1\nv\n1900-02-28\n"),
    (&[Cell::Day(-25_508)], "rows 1\nv\n1900-03-01\n"),
    (&[Cell::Day(-25_507)], "rows 1\nv\n1900-03-02\n"),
    (&[Cell::Day(-1)], "rows 1\nv\n1969-12-31\n"),
    (&[Cell::Day(0)], "rows 1\nv\n1970-01-01\n"),
    (&[Cell::Day(1)], "rows 1\nv\n1970-01-02\n"),
    (&[Cell::Day(11_015)], "rows 1\nv\n2000-02-28\n"),
    (&[Cell::Day(11_016)], "rows 1\nv\n2000-02-29\n"),
    (&[Cell::Day(11_017)], "rows 1\nv\n2000-03-01\n"),
    (&[Cell::Day(19_722)], "rows 1\nv\n2023-12-31\n"),
    (&[Cell::Day(19_723)], "rows 1\nv\n2024-01-01\n"),
    (&[Cell::Day(19_781)], "rows 1\nv\n2024-02-28\n"),
    (&[Cell::Day(19_782)], "rows 1\nv\n2024-02-29\n"),
    (&[Cell::Day(19_783)], "rows 1\nv\n2024-03-01\n"),
    (&[Cell::Day(2_932_895)], "rows 1\nv\n9999-12-30\n"),
    (&[Cell::Day(2_932_896)], "rows 1\nv\n9999-12-31\n"),
];

#[test]
fn days_are_printed_as_dates(rt: HostRuntime) -> Result<(), Fail> {
    for (cells, text) in DAYS {
        assert!(rt; is_printed(rt.alloc(), &["v"], &[cells], text)?, "{text}");
    }
    Ok(())
}

const NAMES: &[&str] = &["a", "COUNT(*)", "b,\"c\"", "\\N"];

/// Rows below these names, and how they are printed.
const TABLES: &[(&[&[Cell]], &str)] = &[
    (
        &[
            &[Cell::Number(12), Cell::Day(0), Cell::Null, Cell::Text("x")],
            &[Cell::Null, Cell::Null, Cell::Text("\\"), Cell::Text("")],
        ],
        "rows 2\na,COUNT(*),\"b,\"\"c\"\"\",\\N\n12,1970-01-01,\\N,x\n\\N,\\N,\\\\,\n",
    ),
    (&[], "rows 0\na,COUNT(*),\"b,\"\"c\"\"\",\\N\n"),
];

#[test]
fn names_are_quoted_as_texts_are(rt: HostRuntime) -> Result<(), Fail> {
    for (rows, text) in TABLES {
        assert!(rt; is_printed(rt.alloc(), NAMES, rows, text)?, "{text}");
    }
    Ok(())
}
