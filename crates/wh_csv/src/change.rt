//! Reads changes.

ghost use Rattle.std.specs.Prelude.{◌≡◌, All, IfOk, IfErr, None, Some, drop, length, map};
ghost use Rattle.csv.specs.Records.{fields_of};
ghost use Rattle.wh_base.specs.Value.{kinds as kinds_in_attrs};
ghost use Rattle.wh_csv.specs.Change as define;
ghost use Rattle.wh_csv.specs.Fields.{Gives, field_at as field_in};
ghost use Rattle.wh_csv.specs.Reading.{IsReading, records_left};

use crate::fault::{CsvCause, CsvFault};
use crate::field::{field_at, record_fault, values};
use crate::record::{next_record, records_reader};
use csv::{ByteRecord, Reader};
use std::alloc::Global;
use wh_base::{Attr, Kind, NoMemory, Row, Sequence};
use wh_schema::Spec;

const MAX_RECORDS: u64 = 1_000_000;

/// A row that comes into a relation or goes out of it. Relations are numbered from 0.
#[derive(Debug, Drop)]
pub struct Line {
    pub insert: bool,
    pub relation: u32,
    pub row: Row,
}

/// The lines of a change file, in their order.
pub type Change = Sequence<Line>;

fn is_plus(field: &[u8]) -> bool
    ensures { result ≡ define.is_plus field.now }
{
    field == b"+".as_slice()
}

fn is_sign(field: &[u8]) -> bool
    ensures { result ≡ define.is_sign field.now }
{
    is_plus(field) || field == b"-".as_slice()
}

/// The number of the relation with the name, or the number of relations where none has it.
fn number_of(spec: &Spec, name: &[u8]) -> usize
    ensures { result ≡ define.number_of spec.now name.now }
{
    for (number, relation) in spec.relations.as_slice().iter().enumerate() {
        if name == relation.name.as_slice() {
            return number;
        }
    }
    spec.relations.len()
}

fn kinds_in(alloc: Global, attrs: &[Attr]) -> Result<Sequence<Kind>, NoMemory>
    ensures { IfOk result (λ kinds. kinds ≡ kinds_in_attrs attrs.now) }
{
    let mut kinds = Sequence::new(alloc);
    for attr in attrs {
        kinds.push(attr.kind)?;
    }
    Ok(kinds)
}

/// The kinds of the attributes of each relation.
fn relation_kinds(alloc: Global, spec: &Spec) -> Result<Sequence<Sequence<Kind>>, NoMemory>
    ensures { IfOk result (λ kinds. kinds ≡ map (λ r. kinds_in_attrs r.attrs) spec.now.relations) }
{
    let mut kinds = Sequence::new(alloc);
    for relation in spec.relations.as_slice() {
        kinds.push(kinds_in(alloc, relation.attrs.as_slice())?)?;
    }
    Ok(kinds)
}

/// The relation that the record with a number speaks of, by its number and its kinds, or the first
/// rule that the record breaks.
fn target_of<'a>(
    spec: &Spec,
    kinds: &'a [Sequence<Kind>],
    at: u64,
    line: &ByteRecord,
) -> Result<(usize, &'a [Kind]), CsvCause>
    requires { kinds.now ≡ map (λ r. kinds_in_attrs r.attrs) spec.now.relations }
    ensures fine { IfOk result (λ target. define.numbered_fault spec.now at (fields_of line.now) ≡ None) }
    ensures number { IfOk result (λ target. target.0 ≡ define.number_of spec.now (field_in (fields_of line.now) 1)) }
    ensures kinds { IfOk result (λ target. target.1.now ≡ define.kinds_of spec.now target.0) }
    ensures bad { IfErr result (λ cause. define.numbered_fault spec.now at (fields_of line.now) ≡ Some cause) }
{
    if at > MAX_RECORDS {
        return Err(CsvCause::TooManyRecords);
    }
    if !is_sign(field_at(line, 0)) {
        return Err(CsvCause::BadSign);
    }
    if line.len() < 2 {
        return Err(CsvCause::Width);
    }
    let number = number_of(spec, field_at(line, 1));
    let Some(kinds) = kinds.get(number) else {
        return Err(CsvCause::UnknownRelation);
    };
    let kinds = kinds.as_slice();
    match record_fault(kinds, line, 2) {
        Some(cause) => Err(cause),
        None => Ok((number, kinds)),
    }
}

/// The line of a record that breaks no rule and speaks of the relation with the number.
fn line_of(
    alloc: Global,
    number: usize,
    kinds: &[Kind],
    line: &ByteRecord,
) -> Result<Line, NoMemory>
    ensures { IfOk result (λ read. read ≡ define.line_at number kinds.now (fields_of line.now)) }
{
    // More relations than a `u32` counts want more memory than there is.
    let Ok(relation) = u32::try_from(number) else {
        return Err(NoMemory);
    };
    Ok(Line {
        insert: is_plus(field_at(line, 0)),
        relation,
        row: values(alloc, kinds, line, 2)?,
    })
}

fn lines(alloc: Global, spec: &Spec, reader: &mut Reader<&[u8]>) -> Result<Change, CsvFault>
    requires { IsReading reader.old }
    ensures { Gives result (define.lines_of spec.now (records_left reader.old)) }
{
    let kinds = relation_kinds(alloc, spec)?;
    let mut line = ByteRecord::new(alloc);
    let mut lines = Change::new(alloc);
    let mut at = 1;
    'next: while next_record(reader, &mut line)? {
        let (number, kinds) = match target_of(spec, kinds.as_slice(), at, &line) {
            Ok(target) => target,
            Err(cause) => return Err(CsvFault::At { at, cause }),
        };
        lines.push(line_of(alloc, number, kinds, &line)?)?;
        at += 1;
    }
    Ok(lines)
}

/// The lines that a change file spells, or its first fault.
pub fn read_change(alloc: Global, bytes: &[u8], spec: &Spec) -> Result<Change, CsvFault>
    ensures value { Gives result (define.change_of bytes.now spec.now) }
    ensures kinds { IfOk result (λ lines. All (define.IsLineOf spec.now) lines) }
{
    let mut reader = records_reader(alloc, bytes);
    lines(alloc, spec, &mut reader)
}
