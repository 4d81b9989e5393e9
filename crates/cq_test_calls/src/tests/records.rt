//! Files that are read for a table of three columns.
use cq_binder_rules::Fault;
use cq_csvio_read::read_rows;
use cq_values::{ColumnDef, Day, Row, Seq, Text, Ty, Value};
use std::alloc::Global;
use std::test::Fail;

fn column(alloc: Global, name: &str, ty: Ty, not_null: bool) -> Result<ColumnDef, Fail> {
    let name = Text::new(alloc, name)?;
    Ok(ColumnDef { name, ty, not_null })
}

// id INTEGER, name TEXT NOT NULL, born DATE
fn people(alloc: Global) -> Result<Seq<ColumnDef>, Fail> {
    let mut columns = Seq::new(alloc);
    columns.push(column(alloc, "id", Ty::Integer, false)?)?;
    columns.push(column(alloc, "name", Ty::Text, true)?)?;
    columns.push(column(alloc, "born", Ty::Date, false)?)?;
    Ok(columns)
}

fn person(alloc: Global, id: Value, name: &str, born: Value) -> Result<Row, Fail> {
    let mut row = Row::new(alloc);
    row.push(id)?;
    row.push(Value::Text(Text::new(alloc, name)?))?;
    row.push(born)?;
    Ok(row)
}

#[test]
fn records_become_rows(rt: HostRuntime) -> Result<(), Fail> {
    let file = "-007,\"Ada, \"\"A\"\"\",1970-01-02\r\n\\N,\\\\N,\n";
    let day = Day::new(1).map_or(Value::Null, Value::Day);
    let expected = [
        person(rt.alloc(), Value::Number(-7), "Ada, \"A\"", day)?,
        person(rt.alloc(), Value::Null, "\\N", Value::Null)?,
    ];
    let rows = read_rows(rt.alloc(), file.as_bytes(), people(rt.alloc())?.as_slice())?;
    let made = rows.copies(rt.alloc())?;
    assert_eq!(rt; made.as_slice(), expected.as_slice());
    Ok(())
}

#[test]
fn the_first_bad_field_refuses(rt: HostRuntime) -> Result<(), Fail> {
    let cases: [(&[u8], Fault); 8] = [
        (b"1,a,\n2,b\n", Fault::BadRecord(2)),
        (b"1,a,,\n", Fault::BadRecord(1)),
        (b"1,a,\n\n+7,b,\n", Fault::BadRecord(2)),
        (b"1,\xff,1970\n", Fault::BadRecord(1)),
        (b"1,a,\\x\n", Fault::BadRecord(1)),
        (b"9223372036854775808,\\N,\n", Fault::NumberOutside),
        (b"1,\\N,1970\n", Fault::NullNotAllowed),
        (b"1,a,1970-02-29\n", Fault::BadDate),
    ];
    let columns = people(rt.alloc())?;
    for (file, fault) in cases {
        let refusal = read_rows(rt.alloc(), file, columns.as_slice()).err();
        assert_eq!(rt; refusal, Some(fault));
    }
    Ok(())
}

#[test]
fn a_text_may_have_4096_bytes(rt: HostRuntime) -> Result<(), Fail> {
    let columns = people(rt.alloc())?;
    let mut file = [b'a'; 4_100];
    file[0] = b',';
    file[4_098] = b',';
    let refusal = read_rows(rt.alloc(), &file[..4_099], columns.as_slice()).err();
    assert_eq!(rt; refusal, Some(Fault::TextTooLong));
    file[1] = b'"';
    file[4_097] = b'"';
    let rows = read_rows(rt.alloc(), &file[..4_099], columns.as_slice())?;
    assert_eq!(rt; rows.len(), 1);
    Ok(())
}
