// Rows with given values at columns.
ghost use Rattle.std.specs.Prelude.{◌≡◌, filter, IfOk};
ghost use Rattle.wh_base.specs.Columns.{picked, value_at};
ghost use Rattle.wh_base.specs.Heads.{columns_at};
ghost use Rattle.wh_base.specs.Tables.{matching};
ghost use Rattle.wh_base.specs.Value.{value_eq, row_eq};

use std::alloc::Global;
use wh_base::{Duplicate, Heads, Name, Names, NoMemory, Row, Rows, Value, names_of, places_of};

/// The columns of a number, or none past the last head.
pub fn columns_of(alloc: Global, heads: &Heads, n: u32) -> Result<Names, NoMemory>
    ensures { IfOk result (λ names. names ≡ columns_at heads.now n) }
{
    match heads.get(n as usize) {
        Some(head) => names_of(alloc, &head.attrs),
        None => Ok(Names::new(alloc)),
    }
}

fn value_is(row: &Row, place: usize, value: &Value) -> bool
    ensures { result ≡ value_eq (value_at row.now place) value.now }
{
    match row.get(place) {
        Some(held) => held == value,
        None => Value::Int(0) == *value,
    }
}

/// Whether a row has these values at the places. A place that it lacks reads as 0.
fn has_values(row: &Row, places: &[usize], values: &[Value]) -> bool
    ensures { result ≡ row_eq (picked places.now row.now) values.now }
{
    if places.len() != values.len() {
        return false;
    }
    for (place, value) in places.iter().zip(values) {
        if !value_is(row, *place, value) {
            return false;
        }
    }
    true
}

fn copies_at(
    alloc: Global,
    rows: &[Row],
    places: &[usize],
    values: &[Value],
) -> Result<Rows, NoMemory>
    ensures { IfOk result (λ kept. kept ≡ filter (λ r. row_eq (picked places.now r) values.now) rows.now) }
{
    let mut kept = Rows::new(alloc);
    for row in rows {
        if has_values(row, places, values) {
            kept.push(row.copy(alloc)?)?;
        }
    }
    Ok(kept)
}

fn rows_at(rows: Rows, places: &[usize], values: &[Value]) -> Rows
    ensures { result ≡ filter (λ r. row_eq (picked places.now r) values.now) rows }
{
    let mut items = rows.into_vec();
    items.retain(|row| has_values(row, places, values));
    Rows::from_vec(items)
}

/// Copies of the rows whose values at the names are these.
pub(crate) fn copies_where(
    alloc: Global,
    rows: &[Row],
    columns: &[Name],
    names: &[Name],
    values: &Row,
) -> Result<Rows, NoMemory>
    ensures { IfOk result (λ kept. kept ≡ matching columns.now names.now values.now rows.now) }
{
    let places = places_of(alloc, columns, names)?;
    copies_at(alloc, rows, places.as_slice(), values.as_slice())
}

/// The rows whose values at the names are these.
pub(crate) fn rows_where(
    alloc: Global,
    rows: Rows,
    columns: &[Name],
    names: &[Name],
    values: &Row,
) -> Result<Rows, NoMemory>
    ensures { IfOk result (λ kept. kept ≡ matching columns.now names.now values.now rows) }
{
    let places = places_of(alloc, columns, names)?;
    Ok(rows_at(rows, places.as_slice(), values.as_slice()))
}
