//! The records of a text.

ghost use Rattle.std.specs.Prelude.{◌≡◌, ◌≤◌, ◌+◌, ◌∷◌, [], length, IfOk, OnOk, MatchBool};
ghost use Rattle.csv.specs.Records.{fields_of};
ghost use Rattle.wh_csv.specs.Reading.{IsReading, records_left, records_of};

use csv::{ByteRecord, Reader, ReaderBuilder};
use std::alloc::Global;
use wh_base::{Name, Names, NoMemory};

/// A reader of the records of a text.
pub fn records_reader(alloc: Global, text: &[u8]) -> Reader<&[u8]>
    ensures reading { IsReading result }
    ensures left { records_left result ≡ records_of text.now }
    ensures few { length (records_left result) ≤ length text.now + 1 }
{
    ReaderBuilder::new()
        .has_headers(false)
        .flexible(true)
        .from_reader(alloc, text)
}

/// Reads the next record into `line`, and says whether there was one.
pub fn next_record(reader: &mut Reader<&[u8]>, line: &mut ByteRecord) -> Result<bool, NoMemory>
    requires { IsReading reader.old }
    ensures reading { OnOk result (IsReading reader.new) }
    ensures left { IfOk result (λ found. MatchBool found (records_left reader.old ≡ fields_of line.new ∷ records_left reader.new) (records_left reader.old ≡ [])) }
{
    // Over a slice a read fails for memory alone.
    let Ok(found) = reader.read_byte_record(line) else {
        return Err(NoMemory);
    };
    Ok(found)
}

/// The fields of a record, each a copy.
pub fn names_in(alloc: Global, line: &ByteRecord) -> Result<Names, NoMemory>
    ensures { IfOk result (λ names. names ≡ fields_of line.now) }
{
    let mut names = Names::new(alloc);
    for field in line.iter() {
        names.push(Name::from_vec(Vec::from_slice(alloc, field)?))?;
    }
    Ok(names)
}
