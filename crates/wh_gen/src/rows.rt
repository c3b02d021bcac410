// The rows of a case, by its number, its size and the row's own number.
ghost use Rattle.std.specs.Prelude.{◌≡◌, ◌+◌, ◌*◌, ◌%◌, ◌^◌, ◌<◌, ◌∷◌, [], ◌++◌, codes, decimal, IfOk};
ghost use Rattle.wh_gen.specs.Case.{int, dept_count, dept_row, emp_row, task_row, entering_row};

use itoa::Buffer;
use std::alloc::Global;
use wh_base::{ByteText, NoMemory, Row, Value};

pub(crate) fn dept_count(size: u32) -> u32
    ensures { result ≡ dept_count size }
{
    size / 10 + 1
}

fn int(value: u32) -> Value
    ensures { result ≡ int value }
{
    Value::Int(i64::from(value))
}

/// The text `s` followed by a number.
fn site(alloc: Global, number: u32) -> Result<Value, NoMemory>
    ensures { IfOk result (λ site. site ≡ Value.Text (codes "s" ++ decimal number)) }
{
    let mut buffer = Buffer::new();
    let mut text = ByteText::from_slice(alloc, b"s")?;
    text.append(buffer.format(number).as_bytes())?;
    Ok(Value::Text(text.into_bytes()))
}

fn row_of(alloc: Global, first: u32, second: u32, third: u32) -> Result<Row, NoMemory>
    ensures { IfOk result (λ row. row ≡ int first ∷ int second ∷ int third ∷ []) }
{
    let mut row = Row::new(alloc);
    row.push(int(first))?;
    row.push(int(second))?;
    row.push(int(third))?;
    Ok(row)
}

pub(crate) fn dept_row(alloc: Global, number: u32, i: u32) -> Result<Row, NoMemory>
    requires number { number < 2 ^ 30 }
    requires i { i < 2 ^ 30 }
    ensures { IfOk result (λ row. row ≡ dept_row number i) }
{
    let mut row = Row::new(alloc);
    row.push(int(i))?;
    row.push(site(alloc, (i + number) % 7)?)?;
    Ok(row)
}

/// The department of an employee.
fn dept_of(number: u32, size: u32, i: u32) -> u32
    ensures { result ≡ i * (number + 1) % dept_count size }
{
    let product = u64::from(i) * (u64::from(number) + 1);
    (product % u64::from(dept_count(size))) as u32
}

pub(crate) fn emp_row(alloc: Global, number: u32, size: u32, i: u32) -> Result<Row, NoMemory>
    requires number { number < 2 ^ 30 }
    requires i { i < 2 ^ 30 }
    ensures { IfOk result (λ row. row ≡ emp_row number size i) }
{
    row_of(
        alloc,
        i,
        dept_of(number, size, i),
        1000 + (i + number) % 500,
    )
}

pub(crate) fn task_row(alloc: Global, number: u32, size: u32, i: u32) -> Result<Row, NoMemory>
    requires number { number < 2 ^ 30 }
    requires size { 0 < size }
    requires i { i < 2 ^ 30 }
    ensures { IfOk result (λ row. row ≡ task_row number size i) }
{
    row_of(alloc, i, (i + number) % size, (3 * i + number) % 40)
}

/// The task of a number that a change text enters.
pub(crate) fn entering_row(
    alloc: Global,
    number: u32,
    size: u32,
    task: u32,
) -> Result<Row, NoMemory>
    requires number { number < 2 ^ 30 }
    requires size { 0 < size }
    requires task { task < 2 ^ 30 }
    ensures { IfOk result (λ row. row ≡ entering_row number size task) }
{
    row_of(alloc, task, task % size, (task + number) % 40)
}
