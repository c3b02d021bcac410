// Dumps and change files of T(k int, v text).
use std::alloc::Global;
use std::test::Fail;
use wh_base::{ByteText, NoMemory, Row, Value};
use wh_csv::{CsvCause, CsvFault, read_change, read_dump};
use wh_schema::{Relation, Spec};
use wh_spec_text::parse_spec;

const SPEC: &[u8] = b"relation T(k int, v text) key (k);";

// In quotes, with a byte order mark and CRLF lines.
const QUOTED: &[u8] =
    b"\xef\xbb\xbfk,v\r\n-9223372036854775808,\"a,b\"\r\n1,\"say \"\"x\"\"\"\r\n2,\"two\nlines\"\r\n";

const QUOTED_ROWS: &[(i64, &[u8])] = &[(i64::MIN, b"a,b"), (1, b"say \"x\""), (2, b"two\nlines")];

// Bytes, and the bad record with its cause.
type Refused<'a> = (&'a [u8], u64, CsvCause);

const BAD_DUMPS: &[Refused<'_>] = &[
    (b"k,v\n9223372036854775808,x\n", 2, CsvCause::BadInt),
    (b"\xef\xbb\xbf\xef\xbb\xbfk,v\n", 1, CsvCause::Header),
];

const BAD_CHANGES: &[Refused<'_>] = &[
    (b"+,T,1,x\nx\n", 2, CsvCause::BadSign),
    (b"+\n", 1, CsvCause::Width),
    (b"+,Nix\n", 1, CsvCause::UnknownRelation),
];

// Change files, and how many lines each has.
const CHANGES: &[(&[u8], usize)] = &[(b"\xef\xbb\xbf+,T,1,x\r\n\r\n-,T,2,y", 2), (b"", 0)];

fn is_fault(fault: &CsvFault, record: u64, wanted: CsvCause) -> bool {
    match fault {
        CsvFault::At { at, cause } => *at == record && *cause == wanted,
        CsvFault::NoMemory => false,
    }
}

fn is_row(row: &Row, k: i64, v: &[u8]) -> bool {
    match (row.get(0), row.get(1)) {
        (Some(Value::Int(number)), Some(Value::Text(text))) => {
            *number == k && text.as_slice() == v
        }
        _ => false,
    }
}

fn are_quoted_rows(rows: &[Row]) -> bool {
    for (row, (k, v)) in rows.iter().zip(QUOTED_ROWS) {
        if !is_row(row, *k, v) {
            return false;
        }
    }
    rows.len() == 3
}

fn reads_quoted(alloc: Global, relation: &Relation) -> bool {
    match read_dump(alloc, QUOTED, relation) {
        Ok(rows) => are_quoted_rows(rows.as_slice()),
        Err(_) => false,
    }
}

fn refuses_dump(
    alloc: Global,
    bytes: &[u8],
    relation: &Relation,
    record: u64,
    cause: CsvCause,
) -> bool {
    match read_dump(alloc, bytes, relation) {
        Ok(_) => false,
        Err(fault) => is_fault(&fault, record, cause),
    }
}

fn refuses_bad_dumps(alloc: Global, relation: &Relation) -> bool {
    for (bytes, record, cause) in BAD_DUMPS {
        if !refuses_dump(alloc, bytes, relation, *record, *cause) {
            return false;
        }
    }
    true
}

// A dump of one row whose text has so many bytes.
fn long_dump(alloc: Global, count: usize) -> Result<ByteText, NoMemory> {
    let mut bytes = ByteText::from_slice(alloc, b"k,v\n1,")?;
    for _ in 0..count {
        bytes.push(b'x')?;
    }
    Ok(bytes)
}

fn reads_longest(alloc: Global, relation: &Relation) -> Result<bool, NoMemory> {
    let bytes = long_dump(alloc, 65_535)?;
    match read_dump(alloc, bytes.as_bytes(), relation) {
        Ok(rows) => Ok(rows.len() == 1),
        Err(_) => Ok(false),
    }
}

fn refuses_longer(alloc: Global, relation: &Relation) -> Result<bool, NoMemory> {
    let bytes = long_dump(alloc, 65_536)?;
    Ok(refuses_dump(alloc, bytes.as_bytes(), relation, 2, CsvCause::TextTooLong))
}

fn dumps_are_told(alloc: Global, relation: &Relation) -> Result<bool, NoMemory> {
    Ok(
        reads_quoted(alloc, relation)
            && refuses_bad_dumps(alloc, relation)
            && reads_longest(alloc, relation)?
            && refuses_longer(alloc, relation)?,
    )
}

fn refuses_change(alloc: Global, bytes: &[u8], spec: &Spec, record: u64, cause: CsvCause) -> bool {
    match read_change(alloc, bytes, spec) {
        Ok(_) => false,
        Err(fault) => is_fault(&fault, record, cause),
    }
}

fn refuses_bad_changes(alloc: Global, spec: &Spec) -> bool {
    for (bytes, record, cause) in BAD_CHANGES {
        if !refuses_change(alloc, bytes, spec, *record, *cause) {
            return false;
        }
    }
    true
}

fn has_lines(alloc: Global, bytes: &[u8], spec: &Spec, count: usize) -> bool {
    match read_change(alloc, bytes, spec) {
        Ok(lines) => lines.len() == count,
        Err(_) => false,
    }
}

fn reads_changes(alloc: Global, spec: &Spec) -> bool {
    for (bytes, count) in CHANGES {
        if !has_lines(alloc, bytes, spec, *count) {
            return false;
        }
    }
    true
}

fn files_are_told(alloc: Global, spec: &Spec) -> Result<bool, NoMemory> {
    match spec.relations.get(0) {
        Some(relation) => Ok(
            dumps_are_told(alloc, relation)?
                && reads_changes(alloc, spec)
                && refuses_bad_changes(alloc, spec),
        ),
        None => Ok(false),
    }
}

fn all_are_told(alloc: Global) -> Result<bool, NoMemory> {
    match parse_spec(alloc, SPEC) {
        Ok(spec) => files_are_told(alloc, &spec),
        Err(_) => Ok(false),
    }
}

#[test]
fn files_are_read_or_refused(rt: HostRuntime) -> Result<(), Fail> {
    assert!(rt; all_are_told(rt.alloc())?);
    Ok(())
}
