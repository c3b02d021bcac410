// The dumps of a case: a header line, and a line for each row.
ghost use Rattle.std.specs.Prelude.{◌≡◌, ◌++◌, ◌≤◌, IfOk, OnOk};
ghost use Rattle.wh_base.specs.Lines.{line, csv_record};
ghost use Rattle.wh_gen.specs.Case.{dept_dump, emp_dump, task_dump};

use crate::rows::{dept_count, dept_row, emp_row, task_row};
use std::alloc::Global;
use wh_base::{ByteText, NoMemory, Row, put_record};

/// Appends the record of a row, and ends the line.
pub(crate) fn put_line(alloc: Global, out: &mut ByteText, row: &Row) -> Result<(), NoMemory>
    ensures { OnOk result (out.new.bytes ≡ out.old.bytes ++ line (csv_record row.now)) }
{
    put_record(alloc, out, row)?;
    out.push(b'\n')
}

pub(crate) fn dept_dump(alloc: Global, number: u32, size: u32) -> Result<ByteText, NoMemory>
    requires number { number ≤ 999999 }
    requires size { size ≤ 100000 }
    ensures { IfOk result (λ dump. dump.bytes ≡ dept_dump number size) }
{
    let mut dump = ByteText::from_slice(alloc, b"dept,site\n")?;
    for i in 0..dept_count(size) {
        put_line(alloc, &mut dump, &dept_row(alloc, number, i)?)?;
    }
    Ok(dump)
}

pub(crate) fn emp_dump(alloc: Global, number: u32, size: u32) -> Result<ByteText, NoMemory>
    requires number { number ≤ 999999 }
    requires size { size ≤ 100000 }
    ensures { IfOk result (λ dump. dump.bytes ≡ emp_dump number size) }
{
    let mut dump = ByteText::from_slice(alloc, b"emp,dept,pay\n")?;
    for i in 0..size {
        put_line(alloc, &mut dump, &emp_row(alloc, number, size, i)?)?;
    }
    Ok(dump)
}

pub(crate) fn task_dump(alloc: Global, number: u32, size: u32) -> Result<ByteText, NoMemory>
    requires number { number ≤ 999999 }
    requires some { 1 ≤ size }
    requires size { size ≤ 100000 }
    ensures { IfOk result (λ dump. dump.bytes ≡ task_dump number size) }
{
    let mut dump = ByteText::from_slice(alloc, b"task,emp,hours\n")?;
    for i in 0..2 * size {
        put_line(alloc, &mut dump, &task_row(alloc, number, size, i)?)?;
    }
    Ok(dump)
}
