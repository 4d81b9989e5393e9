//! The records of a file, one after the other.
ghost use Rattle.std.specs.Prelude.{◌≡◌, IfOk};
ghost use Rattle.csv.specs.Records.{fields_of};
ghost use Rattle.cq_binder_rules.specs.Records.{file_records};
ghost use Rattle.cq_csvio_read.specs.Records.{IsReading, Takes, records_left};

use crate::wanting::WantsMemory;
use csv::{ByteRecord, Reader, ReaderBuilder};
use std::alloc::Global;

/// A reader of all records of a file, of which none is a header.
pub(crate) fn file_reader(alloc: Global, bytes: &[u8]) -> Reader<&[u8]>
    ensures reading { IsReading result }
    ensures all { records_left result ≡ file_records bytes.now }
{
    ReaderBuilder::new()
        .has_headers(false)
        .flexible(true)
        .from_reader(alloc, bytes)
}

/// Reads the next record, and says whether there was one.
pub(crate) fn next_record(
    reader: &mut Reader<&[u8]>,
    record: &mut ByteRecord,
) -> Result<bool, WantsMemory>
    requires { IsReading reader.old }
    ensures { IfOk result (λ found. Takes reader.old reader.new found (fields_of «record».new)) }
{
    Ok(reader.read_byte_record(record)?)
}
