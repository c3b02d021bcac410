//! Reads dumps.

ghost use Rattle.std.specs.Prelude.{◌≡◌, ◌<◌, ◌^◌, All, IfOk, count_by, length, map};
ghost use Rattle.csv.specs.Records.{fields_of};
ghost use Rattle.wh_base.specs.Columns.{name_eq, place_of as place_in};
ghost use Rattle.wh_base.specs.RowSet.{AreDistinct};
ghost use Rattle.wh_base.specs.Value.{kinds, row_kinds};
ghost use Rattle.wh_csv.specs.Dump as spec;
ghost use Rattle.wh_csv.specs.Fields.{Gives, field_at as field_in, field_value as value_of};
ghost use Rattle.wh_csv.specs.Reading.{IsReading, records_left};

use crate::fault::{CsvCause, CsvFault};
use crate::field::{field_at, field_value, record_fault};
use crate::record::{names_in, next_record, records_reader};
use csv::{ByteRecord, Reader};
use std::alloc::Global;
use wh_base::{
    Attr, Attrs, Kind, Name, Names, NoMemory, Row, Rows, distinct_rows, names_of, place_of,
};
use wh_schema::Relation;

fn count_of(names: &[Name], name: &Name) -> usize
    ensures { result ≡ count_by (name_eq name.now) names.now }
{
    names.iter().filter(|other| name == *other).count()
}

/// Whether each of some names stands among others once.
fn stand_once(others: &[Name], names: &[Name]) -> bool
    ensures { result ≡ spec.stand_once others.now names.now }
{
    names.iter().all(|name| count_of(others, name) == 1)
}

/// Whether a record holds the names of the attributes, each once.
fn is_header(alloc: Global, attrs: &Attrs, header: &[Name]) -> Result<bool, NoMemory>
    ensures { IfOk result (λ is. is ≡ spec.is_header attrs.now header.now) }
{
    let names = names_of(alloc, attrs)?;
    Ok(stand_once(header, names.as_slice()) && stand_once(names.as_slice(), header))
}

/// The kind of the attribute with the name.
fn kind_in(attrs: &[Attr], name: &Name) -> Kind
    ensures { result ≡ spec.column_kind attrs.now name.now }
{
    for attr in attrs {
        if *name == attr.name {
            return attr.kind;
        }
    }
    Kind::Int
}

fn column_kinds(alloc: Global, attrs: &[Attr], header: &[Name]) -> Result<Vec<Kind>, NoMemory>
    ensures { IfOk result (λ kinds. kinds.items ≡ spec.column_kinds attrs.now header.now) }
{
    let mut kinds = Vec::new(alloc);
    for name in header {
        kinds.push(kind_in(attrs, name))?;
    }
    Ok(kinds)
}

/// Where the records of a file have the value of an attribute.
#[derive(Clone, Copy, Debug)]
struct Source {
    kind: Kind,
    place: usize,
}

fn sources(alloc: Global, attrs: &[Attr], header: &[Name]) -> Result<Vec<Source>, NoMemory>
    ensures { IfOk result (λ sources. sources.items ≡ map (λ a. record { kind = a.kind; place = place_in header.now a.name }) attrs.now) }
{
    let mut sources = Vec::new(alloc);
    for attr in attrs {
        let place = place_of(header, &attr.name);
        sources.push(Source {
            kind: attr.kind,
            place,
        })?;
    }
    Ok(sources)
}

fn row(alloc: Global, sources: &[Source], line: &ByteRecord) -> Result<Row, NoMemory>
    ensures { IfOk result (λ row. row ≡ map (λ s. value_of s.kind (field_in (fields_of line.now) s.place)) sources.now) }
{
    let mut values = Vec::with_capacity(alloc, sources.len())?;
    for source in sources {
        values.push(field_value(alloc, source.kind, field_at(line, source.place))?)?;
    }
    Ok(Row::from_vec(values))
}

fn rows(
    alloc: Global,
    attrs: &[Attr],
    header: &[Name],
    reader: &mut Reader<&[u8]>,
) -> Result<Rows, CsvFault>
    requires reading { IsReading reader.old }
    requires few { length (records_left reader.old) < 2 ^ 63 }
    ensures { Gives result (spec.rows_behind attrs.now header.now (records_left reader.old)) }
{
    let kinds = column_kinds(alloc, attrs, header)?;
    let sources = sources(alloc, attrs, header)?;
    let mut line = ByteRecord::new(alloc);
    let mut rows = Rows::new(alloc);
    let mut at = 2;
    'next: while next_record(reader, &mut line)? {
        if let Some(cause) = record_fault(&kinds, &line, 0) {
            return Err(CsvFault::At { at, cause });
        }
        rows.push(row(alloc, &sources, &line)?)?;
        at += 1;
    }
    Ok(rows)
}

const NO_HEADER: CsvFault = CsvFault::At {
    at: 1,
    cause: CsvCause::Header,
};

/// The rows of the relation that a dump spells, each once, in the order of their first records, or
/// the dump's first fault.
pub fn read_dump(alloc: Global, bytes: &[u8], rel: &Relation) -> Result<Rows, CsvFault>
    ensures value { Gives result (spec.dump_of bytes.now rel.now.attrs) }
    ensures distinct { IfOk result (λ rows. AreDistinct rows) }
    ensures kinds { IfOk result (λ rows. All (λ row. row_kinds row ≡ kinds rel.now.attrs) rows) }
{
    let mut reader = records_reader(alloc, bytes);
    let mut line = ByteRecord::new(alloc);
    if !next_record(&mut reader, &mut line)? {
        return Err(NO_HEADER);
    }
    let header = names_in(alloc, &line)?;
    if !is_header(alloc, &rel.attrs, header.as_slice())? {
        return Err(NO_HEADER);
    }
    let rows = rows(alloc, rel.attrs.as_slice(), header.as_slice(), &mut reader)?;
    Ok(distinct_rows(alloc, rows)?)
}
