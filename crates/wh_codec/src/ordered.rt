// The order and the kinds of the rows of a table.
ghost use Rattle.std.specs.Prelude.{◌≡◌};
ghost use Rattle.std.specs.List.{list_all};
ghost use Rattle.wh_codec.specs.Reading.{same_kind, same_kinds, alike, is_below, ascends, is_in_form};

use wh_base::{Row, Value};

fn same_kind(a: &Value, b: &Value) -> bool
    ensures { result ≡ same_kind a.now b.now }
{
    matches!(
        (a, b),
        (Value::Int(_), Value::Int(_)) | (Value::Text(_), Value::Text(_))
    )
}

fn same_kinds(a: &[Value], b: &[Value]) -> bool
    ensures { result ≡ same_kinds a.now b.now }
{
    match (a, b) {
        ([], []) => true,
        ([x, xs @ ..], [y, ys @ ..]) => same_kind(x, y) && same_kinds(xs, ys),
        _ => false,
    }
}

fn all_alike(first: &Row, rows: &[Row]) -> bool
    ensures { result ≡ list_all (same_kinds first.now) rows.now }
{
    rows.iter()
        .all(|row| same_kinds(first.as_slice(), row.as_slice()))
}

fn alike(rows: &[Row]) -> bool
    ensures { result ≡ alike rows.now }
{
    match rows {
        [] => true,
        [first, rest @ ..] => all_alike(first, rest),
    }
}

fn is_below(a: &Row, b: &Row) -> bool
    ensures { result ≡ is_below a.now b.now }
{
    a.cmp(b).is_lt()
}

fn ascends(rows: &[Row]) -> bool
    ensures { result ≡ ascends rows.now }
{
    let [first, rest @ ..] = rows else {
        return true;
    };
    let mut last = first;
    for row in rest {
        if !is_below(last, row) {
            return false;
        }
        last = row;
    }
    true
}

/// Whether rows stand in strictly ascending order and are of one width and of the same kinds.
pub(crate) fn is_in_form(rows: &[Row]) -> bool
    ensures { result ≡ is_in_form rows.now }
{
    alike(rows) && ascends(rows)
}
