ghost use Rattle.std.specs.Prelude.{◌≡◌, ◌++◌, OnOk};
ghost use Rattle.std.specs.List.{flat_map};
ghost use Rattle.wh_base.specs.Csv.{csv_field};
ghost use Rattle.wh_base.specs.Lines.{separated, comma, line, csv_record, csv_text};

use crate::byte_text::ByteText;
use crate::csv_field::put_value;
use crate::memory::NoMemory;
use crate::value::{Name, Row, Value};
use std::alloc::Global;

const COMMA: &[u8] = b",";

/// Appends names with a separator between them. What stood there before stays.
pub fn put_names(out: &mut ByteText, separator: &[u8], names: &[Name]) -> Result<(), NoMemory>
    ensures { OnOk result (out.new.bytes ≡ out.old.bytes ++ separated separator.now names.now) }
{
    let [first, rest @ ..] = names else {
        return Ok(());
    };
    out.append(first.as_slice())?;
    put_more_names(out, separator, rest)
}

fn put_more_names(out: &mut ByteText, separator: &[u8], names: &[Name]) -> Result<(), NoMemory>
    ensures { OnOk result (out.new.bytes ≡ out.old.bytes ++ flat_map (λ name. separator.now ++ name) names.now) }
{
    for name in names {
        out.append(separator)?;
        out.append(name.as_slice())?;
    }
    Ok(())
}

/// Appends the CSV fields of a row with a comma between them.
pub fn put_record(alloc: Global, out: &mut ByteText, row: &Row) -> Result<(), NoMemory>
    ensures { OnOk result (out.new.bytes ≡ out.old.bytes ++ csv_record row.now) }
{
    let [first, rest @ ..] = row.as_slice() else {
        return Ok(());
    };
    put_value(alloc, out, first)?;
    put_more_values(alloc, out, rest)
}

fn put_more_values(alloc: Global, out: &mut ByteText, values: &[Value]) -> Result<(), NoMemory>
    ensures { OnOk result (out.new.bytes ≡ out.old.bytes ++ flat_map (λ value. comma ++ csv_field value) values.now) }
{
    for value in values {
        out.append(COMMA)?;
        put_value(alloc, out, value)?;
    }
    Ok(())
}

fn put_line(alloc: Global, out: &mut ByteText, row: &Row) -> Result<(), NoMemory>
    ensures { OnOk result (out.new.bytes ≡ out.old.bytes ++ line (csv_record row.now)) }
{
    put_record(alloc, out, row)?;
    out.push(b'\n')
}

/// Appends a table as CSV: a header line with the names of the columns, and a line for each row.
pub fn put_table(
    alloc: Global,
    out: &mut ByteText,
    columns: &[Name],
    rows: &[Row],
) -> Result<(), NoMemory>
    ensures { OnOk result (out.new.bytes ≡ out.old.bytes ++ csv_text columns.now rows.now) }
{
    put_names(out, COMMA, columns)?;
    out.push(b'\n')?;
    put_rows(alloc, out, rows)
}

fn put_rows(alloc: Global, out: &mut ByteText, rows: &[Row]) -> Result<(), NoMemory>
    ensures { OnOk result (out.new.bytes ≡ out.old.bytes ++ flat_map (λ row. line (csv_record row)) rows.now) }
{
    for row in rows {
        put_line(alloc, out, row)?;
    }
    Ok(())
}
