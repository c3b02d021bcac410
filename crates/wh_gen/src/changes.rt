// The change texts of a case. A line has a sign, the name of a relation and a row.
ghost use Rattle.std.specs.Prelude.{◌≡◌, ◌++◌, ◌<◌, ◌≤◌, map, IfOk, OnOk};
ghost use Rattle.std.specs.List.{range_with_len};
ghost use Rattle.wh_gen.specs.Case.{change_line, change_text, moved_count, moved_lines, opening};

use crate::dumps::put_line;
use crate::rows::{dept_row, entering_row, task_row};
use std::alloc::Global;
use wh_base::{ByteText, NoMemory, Row, Texts};

const PLUS: &[u8] = b"+";

const MINUS: &[u8] = b"-";

const DEPT: &[u8] = b"Dept";

const TASK: &[u8] = b"Task";

const COMMA: u8 = b',';

/// The text that begins with the deletion of the first department.
const LAST_TEXT: u32 = 10;

/// How many tasks a change text enters, and how many it deletes.
fn moved_count(size: u32) -> u32
    ensures { result ≡ moved_count size }
{
    size / 10 + 1
}

fn put_change(
    alloc: Global,
    out: &mut ByteText,
    sign: &[u8],
    name: &[u8],
    row: &Row,
) -> Result<(), NoMemory>
    ensures { OnOk result (out.new.bytes ≡ out.old.bytes ++ change_line sign.now name.now row.now) }
{
    out.append(sign)?;
    out.push(COMMA)?;
    out.append(name)?;
    out.push(COMMA)?;
    put_line(alloc, out, row)
}

/// Appends the two lines of number `j` in text `c`.
fn put_moved(
    alloc: Global,
    out: &mut ByteText,
    number: u32,
    size: u32,
    c: u32,
    j: u32,
) -> Result<(), NoMemory>
    requires number { number ≤ 999999 }
    requires some { 1 ≤ size }
    requires size { size ≤ 100000 }
    requires first { 1 ≤ c }
    requires last { c ≤ 10 }
    requires j { j < moved_count size }
    ensures { OnOk result (out.new.bytes ≡ out.old.bytes ++ moved_lines number size c j) }
{
    let place = (c - 1) * moved_count(size) + j;
    let entering = entering_row(alloc, number, size, 2 * size + place)?;
    let leaving = task_row(alloc, number, size, place)?;
    put_change(alloc, out, PLUS, TASK, &entering)?;
    put_change(alloc, out, MINUS, TASK, &leaving)
}

/// Appends what text `c` begins with.
fn put_opening(alloc: Global, out: &mut ByteText, number: u32, c: u32) -> Result<(), NoMemory>
    requires number { number ≤ 999999 }
    ensures { OnOk result (out.new.bytes ≡ out.old.bytes ++ opening number c) }
{
    if c == LAST_TEXT {
        put_change(alloc, out, MINUS, DEPT, &dept_row(alloc, number, 0)?)?;
    }
    Ok(())
}

/// The change text of number `c`, from 1 to 10.
fn change_text(alloc: Global, number: u32, size: u32, c: u32) -> Result<ByteText, NoMemory>
    requires number { number ≤ 999999 }
    requires some { 1 ≤ size }
    requires size { size ≤ 100000 }
    requires first { 1 ≤ c }
    requires last { c ≤ 10 }
    ensures { IfOk result (λ text. text.bytes ≡ change_text number size c) }
{
    let mut text = ByteText::new(alloc);
    put_opening(alloc, &mut text, number, c)?;
    for j in 0..moved_count(size) {
        put_moved(alloc, &mut text, number, size, c, j)?;
    }
    Ok(text)
}

/// The ten change texts.
pub(crate) fn change_texts(alloc: Global, number: u32, size: u32) -> Result<Texts, NoMemory>
    requires number { number ≤ 999999 }
    requires some { 1 ≤ size }
    requires size { size ≤ 100000 }
    ensures { IfOk result (λ texts. map (λ text. text.bytes) texts ≡ map (change_text number size) (range_with_len 1 10)) }
{
    let mut texts = Texts::new(alloc);
    for done in 0..LAST_TEXT {
        texts.push(change_text(alloc, number, size, done + 1)?)?;
    }
    Ok(texts)
}
