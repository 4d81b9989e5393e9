//! The rows of a file.
ghost use Rattle.std.specs.Prelude.{Err, IfErr, OnOk, length, ◌<◌};
ghost use Rattle.csv.specs.Records.{fields_of};
ghost use Rattle.cq_binder_rules.specs.Fields.{field_value};
ghost use Rattle.cq_binder_rules.specs.Records.{record_row};
ghost use Rattle.cq_csvio_read.specs.Reading.{AddsRow, AddsValue, Gives, ReadsRows};
ghost use Rattle.cq_writestore_rows.specs.Filling.{IsReadyFor};

use crate::field::read_field;
use crate::records::{file_reader, next_record};
use cq_binder_rules::Fault;
use cq_values::ColumnDef;
use cq_writestore_rows::{Filling, NewRows};
use csv::ByteRecord;
use std::alloc::Global;

/// The rows that a file's records make in columns, or the refusal of its first bad field (19, 20, 24, 25, 26).
pub fn read_rows(alloc: Global, bytes: &[u8], columns: &[ColumnDef]) -> Result<NewRows, Fault>
    ensures { ReadsRows columns.now bytes.now result }
{
    let mut reader = file_reader(alloc, bytes);
    let mut record = ByteRecord::new(alloc);
    let mut rows = Filling::new(alloc, columns)?;
    'records: while next_record(&mut reader, &mut record)? {
        let at = rows.len() as u64 + 1;
        read_row(at, columns, &record, &mut rows)?;
    }
    Ok(rows.finish()?)
}

/// Puts the row of the record at this place, counted from 1, behind the others.
fn read_row(
    at: u64,
    columns: &[ColumnDef],
    record: &ByteRecord,
    rows: &mut Filling,
) -> Result<(), Fault>
    requires { IsReadyFor (length columns.now) rows.old }
    ensures ok { OnOk result (AddsRow (record_row columns.now at (fields_of «record».now)) rows.old rows.new) }
    ensures err { IfErr result (λ f. Gives (record_row columns.now at (fields_of «record».now)) (Err f)) }
{
    if record.len() != columns.len() {
        return Err(Fault::BadRecord(at));
    }
    for (i, column) in columns.iter().enumerate() {
        match record.get(i) {
            Some(field) => put_field(at, column, field, rows)?,
            None => unreachable!(),
        }
    }
    rows.end_row()?;
    Ok(())
}

/// Puts the value of a field behind those of the row that is begun.
fn put_field(at: u64, column: &ColumnDef, field: &[u8], rows: &mut Filling) -> Result<(), Fault>
    requires { length rows.old.begun < rows.old.width }
    ensures ok { OnOk result (AddsValue (field_value at column.now field.now) rows.old rows.new) }
    ensures err { IfErr result (λ f. Gives (field_value at column.now field.now) (Err f)) }
{
    match read_field(at, column, field) {
        Ok(value) => {
            rows.push(&value)?;
            Ok(())
        }
        Err(fault) => Err(fault),
    }
}
