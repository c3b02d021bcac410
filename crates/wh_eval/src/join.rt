ghost use Rattle.std.specs.Prelude.{◌≡◌, ◌++◌, ◌∷◌, [], List, map, IfOk, OnOk, if◌then◌else◌};
ghost use Rattle.std.specs.List.{flat_map};
ghost use Rattle.wh_base.specs.declared.value.Value.{Value};
ghost use Rattle.wh_base.specs.Value.{row_eq};
ghost use Rattle.wh_eval.specs.Partners.{partners_of, PartnersIn, joined_by};

use indexmap::IndexMap;
use std::alloc::Global;
use wh_base::{Duplicate, NoMemory, Row, Rows, pick_at};

/// From the values at the shared columns to the other values of the rows that have them.
type Partners = IndexMap<Row, Rows>;

fn add_partner(alloc: Global, partners: &mut Partners, key: Row, rest: Row) -> Result<(), NoMemory>
    ensures { OnOk result ((q : List Value) → partners_of partners.new q ≡ partners_of partners.old q ++ (if row_eq q key then rest ∷ [] else [])) }
{
    match partners.get_mut(&key) {
        Some(rests) => {
            rests.push(rest)?;
            Ok(())
        }
        None => {
            let mut rests = Rows::new(alloc);
            rests.push(rest)?;
            partners.insert(key, rests)?;
            Ok(())
        }
    }
}

/// The rows by their values at the key's places.
fn by_key(
    alloc: Global,
    rows: &[Row],
    key_places: &[usize],
    rest_places: &[usize],
) -> Result<Partners, NoMemory>
    ensures { IfOk result (λ partners. PartnersIn partners key_places.now rest_places.now rows.now) }
{
    let mut partners = Partners::new(alloc);
    for row in rows {
        let key = pick_at(alloc, row, key_places)?;
        let rest = pick_at(alloc, row, rest_places)?;
        add_partner(alloc, &mut partners, key, rest)?;
    }
    Ok(partners)
}

fn rests_at<'a>(partners: &'a Partners, key: &Row) -> &'a [Row]
    ensures { result.now ≡ partners_of partners.entry.now key.now }
{
    match partners.get(key) {
        Some(rests) => rests.as_slice(),
        None => &[],
    }
}

/// A row with further values. It is moved, and the values are copied.
fn joined_row(alloc: Global, row: Row, rest: &Row) -> Result<Row, NoMemory>
    ensures { IfOk result (λ values. values ≡ row ++ rest.now) }
{
    let mut values = row;
    for value in rest.as_slice() {
        values.push(value.copy(alloc)?)?;
    }
    Ok(values)
}

/// The row with each of the rests; the last one takes the row itself.
fn add_joined(alloc: Global, rows: &mut Rows, row: Row, rests: &[Row]) -> Result<(), NoMemory>
    ensures { OnOk result (rows.new ≡ rows.old ++ map (λ rest. row ++ rest) rests.now) }
{
    let Some((last, others)) = rests.split_last() else {
        return Ok(());
    };
    for rest in others {
        rows.push(joined_row(alloc, row.copy(alloc)?, rest)?)?;
    }
    rows.push(joined_row(alloc, row, last)?)?;
    Ok(())
}

/// Each left row with the rest of each right row that has the same key.
pub fn join_rows(
    alloc: Global,
    left: Rows,
    left_key: &[usize],
    right: &[Row],
    right_key: &[usize],
    rest: &[usize],
) -> Result<Rows, NoMemory>
    ensures { IfOk result (λ rows. rows ≡ flat_map (joined_by left_key.now right_key.now rest.now right.now) left) }
{
    let partners = by_key(alloc, right, right_key, rest)?;
    let mut rows = Rows::new(alloc);
    for row in left.into_vec() {
        let key = pick_at(alloc, &row, left_key)?;
        add_joined(alloc, &mut rows, row, rests_at(&partners, &key))?;
    }
    Ok(rows)
}
