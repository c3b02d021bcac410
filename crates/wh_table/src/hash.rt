// Hashes of rows.
ghost use Rattle.std.specs.Prelude.{◌≡◌, ◌<◌, ℕ, List, length, fold, slice_index, All, Contains};
ghost use Rattle.wh_base.specs.Columns.{picked, value_at};
ghost use Rattle.wh_base.specs.declared.value.Value.{Value};
ghost use Rattle.wh_table.specs.Hash.{stirred, hash_with, hash_of, key_at};
ghost use Rattle.wh_table.specs.Table.{AreAmong};

use wh_base::Value;

const MULTIPLIER: u64 = 0x9E37_79B9_7F4A_7C15;

#[tactic(auto, unfolding(crate::specs::Hash::stirred))]
fn stirred(hash: u64, word: u64) -> u64
    ensures { result ≡ stirred hash word }
{
    let mixed = (hash ^ word).wrapping_mul(MULTIPLIER);
    mixed ^ (mixed >> 32)
}

fn hash_with_text(hash: u64, bytes: &[u8]) -> u64
    ensures { result ≡ fold stirred (stirred hash (length bytes.now)) bytes.now }
{
    let mut mixed = stirred(hash, bytes.len() as u64);
    for byte in bytes {
        mixed = stirred(mixed, *byte as u64);
    }
    mixed
}

#[tactic(auto, unfolding(crate::specs::Hash::hash_with))]
fn hash_with(hash: u64, value: &Value) -> u64
    ensures { result ≡ hash_with hash value.now }
{
    match value {
        Value::Int(number) => stirred(hash, number.unsigned_abs()),
        Value::Text(bytes) => hash_with_text(hash, bytes.as_slice()),
    }
}

/// The hash of a row's values.
pub(crate) fn row_hash(row: &[Value]) -> u64
    ensures { result ≡ hash_of row.now }
{
    let mut hash = 0;
    for value in row {
        hash = hash_with(hash, value);
    }
    hash
}

fn hash_with_place(hash: u64, row: &[Value], place: u32) -> u64
    ensures { result ≡ hash_with hash (value_at row.now place) }
{
    match row.get(place as usize) {
        Some(value) => hash_with(hash, value),
        None => hash_with(hash, &Value::Int(0)),
    }
}

/// The hash of a row's values at places. A place that it lacks reads as 0.
pub(crate) fn hash_at(row: &[Value], places: &[u32]) -> u64
    ensures { result ≡ key_at places.now row.now }
{
    let mut hash = 0;
    for place in places {
        hash = hash_with_place(hash, row, *place);
    }
    hash
}

/// The value that is asked for at a place.
fn asked_at<'a>(place: u32, cols: &[u32], vals: &'a [Value]) -> &'a Value
    requires among { Contains cols.now place }
    requires one_each { length vals.now ≡ length cols.now }
    ensures { (row : List Value) → picked cols.now row ≡ vals.now → result.now ≡ value_at row place }
{
    for (k, col) in cols.iter().enumerate() {
        if *col == place {
            return &vals[k];
        }
    }
    unreachable!()
}

/// The hash at places of each row that has these values at the columns.
pub(crate) fn asked_hash(places: &[u32], cols: &[u32], vals: &[Value]) -> u64
    requires among { AreAmong places.now cols.now }
    requires one_each { length vals.now ≡ length cols.now }
    ensures { (row : List Value) → picked cols.now row ≡ vals.now → result ≡ key_at places.now row }
{
    let mut hash = 0;
    for place in places {
        hash = hash_with(hash, asked_at(*place, cols, vals));
    }
    hash
}
