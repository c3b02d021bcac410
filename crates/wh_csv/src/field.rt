//! Fields of records as values.

ghost use Rattle.std.specs.Prelude.{◌≡◌, drop, IfOk};
ghost use Rattle.std.specs.Str.{is_utf8};
ghost use Rattle.csv.specs.Records.{fields_of};
ghost use Rattle.wh_csv.specs.Fields as spec;

use crate::fault::CsvCause;
use csv::ByteRecord;
use std::alloc::Global;
use wh_base::{Bytes, Kind, NoMemory, Row, Value, read_int};

const MAX_TEXT: usize = 65_535;

#[tactic(auto, using(crate::proofs::FieldLemmas::integer_is))]
fn integer(bytes: &[u8]) -> Option<i64>
    ensures { result ≡ spec.integer bytes.now }
{
    read_int(bytes)
}

#[tactic(auto, using(crate::proofs::FieldLemmas::utf8_is, crate::proofs::FieldLemmas::not_utf8))]
fn is_text(bytes: &[u8]) -> bool
    ensures { result ≡ is_utf8 bytes.now }
{
    str::from_utf8(bytes).is_ok()
}

/// The rule that a field of the kind breaks.
pub fn field_fault(kind: Kind, bytes: &[u8]) -> Option<CsvCause>
    ensures { result ≡ spec.field_fault kind bytes.now }
{
    match kind {
        Kind::Int => match integer(bytes) {
            Some(_) => None,
            None => Some(CsvCause::BadInt),
        },
        Kind::Text => {
            if bytes.len() > MAX_TEXT {
                return Some(CsvCause::TextTooLong);
            }
            if !is_text(bytes) {
                return Some(CsvCause::NotUtf8);
            }
            None
        }
    }
}

/// The value of a field that breaks no rule.
pub fn field_value(alloc: Global, kind: Kind, bytes: &[u8]) -> Result<Value, NoMemory>
    ensures { IfOk result (λ value. value ≡ spec.field_value kind bytes.now) }
{
    match kind {
        Kind::Int => Ok(Value::Int(integer(bytes).unwrap_or(0))),
        Kind::Text => Ok(Value::Text(Bytes::from_vec(Vec::from_slice(alloc, bytes)?))),
    }
}

/// The field at a place, or an empty one where there is none.
pub fn field_at(line: &ByteRecord, place: usize) -> &[u8]
    ensures { result.now ≡ spec.field_at (fields_of line.now) place }
{
    line.get(place).unwrap_or(&[])
}

fn fields_fault(kinds: &[Kind], line: &ByteRecord, skipped: usize) -> Option<CsvCause>
    ensures { result ≡ spec.fields_fault kinds.now (drop skipped (fields_of line.now)) }
{
    let mut place = skipped;
    for kind in kinds {
        let Some(field) = line.get(place) else {
            return None;
        };
        if let Some(cause) = field_fault(*kind, field) {
            return Some(cause);
        }
        place += 1;
    }
    None
}

/// The first rule that a record breaks behind its first `skipped` fields, where the others are to
/// have these kinds.
pub fn record_fault(kinds: &[Kind], line: &ByteRecord, skipped: usize) -> Option<CsvCause>
    ensures { result ≡ spec.record_fault kinds.now (drop skipped (fields_of line.now)) }
{
    if line.len().saturating_sub(skipped) != kinds.len() {
        return Some(CsvCause::Width);
    }
    fields_fault(kinds, line, skipped)
}

/// The values of a record behind its first `skipped` fields, where the others have these kinds.
pub fn values(
    alloc: Global,
    kinds: &[Kind],
    line: &ByteRecord,
    skipped: usize,
) -> Result<Row, NoMemory>
    ensures { IfOk result (λ row. row ≡ spec.values kinds.now (drop skipped (fields_of line.now))) }
{
    let mut values = Vec::with_capacity(alloc, kinds.len())?;
    let mut place = skipped;
    for kind in kinds {
        let Some(field) = line.get(place) else {
            return Ok(Row::from_vec(values));
        };
        values.push(field_value(alloc, *kind, field)?)?;
        place += 1;
    }
    Ok(Row::from_vec(values))
}
