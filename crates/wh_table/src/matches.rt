// Whether a row has given values at places.
ghost use Rattle.std.specs.Prelude.{◌≡◌};
ghost use Rattle.wh_base.specs.Columns.{picked, value_at};
ghost use Rattle.wh_base.specs.Value.{value_eq, row_eq};

use wh_base::{Row, Value};

fn value_is(row: &Row, place: u32, value: &Value) -> bool
    ensures { result ≡ value_eq (value_at row.now place) value.now }
{
    match row.get(place as usize) {
        Some(held) => held == value,
        None => Value::Int(0) == *value,
    }
}

/// Whether a row has these values at the places. A place that it lacks reads as 0.
pub(crate) fn has_values(row: &Row, places: &[u32], values: &[Value]) -> bool
    ensures { result ≡ row_eq (picked places.now row.now) values.now }
{
    if places.len() != values.len() {
        return false;
    }
    for (place, value) in places.iter().zip(values) {
        if !value_is(row, *place, value) {
            return false;
        }
    }
    true
}
