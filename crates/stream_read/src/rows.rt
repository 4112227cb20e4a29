// The records of a text, one after the other.
ghost use Rattle.std.specs.Prelude.{◌≡◌, true, IfOk};
ghost use Rattle.csv.specs.Reading.{error_kind, stops_reader};
ghost use Rattle.csv.specs.Records.{fields_of};
ghost use Rattle.stream_read.specs.Left.{left, IsReading, Took};
ghost use Rattle.stream_read.specs.Scripts.{records_of};

use csv::{ByteRecord, Error, Reader, ReaderBuilder};
use rt_base::OutOfMemory;
use std::alloc::Global;

// A reader of the records of a text: without a header row, and with any number of fields.
pub(crate) fn reader_of(alloc: Global, text: &[u8]) -> Reader<&[u8]>
    ensures reading { IsReading result }
    ensures all { left result ≡ records_of text.now }
{
    ReaderBuilder::new()
        .has_headers(false)
        .flexible(true)
        .from_reader(alloc, text)
}

// A reader of records of any length over a text in memory fails for want of memory alone. That the
// slice under it does not fail no clause of std says, so that error is answered alike.
fn out_of_memory(error: &Error) -> OutOfMemory
    requires { stops_reader (error_kind error.now) ≡ true }
{
    OutOfMemory
}

// The next record, and whether there was one.
pub(crate) fn next_row(
    reader: &mut Reader<&[u8]>,
    row: &mut ByteRecord,
) -> Result<bool, OutOfMemory>
    requires { IsReading reader.old }
    ensures { IfOk result (λ found. Took found (fields_of row.new) reader.old reader.new) }
{
    match reader.read_byte_record(row) {
        Ok(found) => Ok(found),
        Err(error) => Err(out_of_memory(&error)),
    }
}
