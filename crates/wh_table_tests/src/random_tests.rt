// A random run of insertions and deletions against a plain list.
ghost use Rattle.std.specs.Prelude.{◌≡◌, ◌∷◌, []};

use crate::rows::{pair, put, take, two_columns, with_both, with_second};
use std::alloc::Global;
use std::test::*;
use wh_base::{Bytes, Duplicate, NoMemory, Row, Value};
use wh_steps::{NoLedger, Steps};
use wh_table::Table;

// Integers below and above 0, and texts, one of them empty.
fn value(alloc: Global, n: u64) -> Result<Value, NoMemory> {
    match n % 6 {
        0 => Ok(Value::Int(0)),
        1 => Ok(Value::Int(5)),
        2 => Ok(Value::Int(-5)),
        3 => Ok(Value::Text(Bytes::new(alloc))),
        4 => Ok(Value::Text(Bytes::from_vec(Vec::from_slice(alloc, b"0")?))),
        _ => Ok(Value::Text(Bytes::from_vec(Vec::from_slice(alloc, b"five")?))),
    }
}

fn next(seed: u64) -> u64 {
    seed.wrapping_mul(6_364_136_223_846_793_005)
        .wrapping_add(1_442_695_040_888_963_407)
}

// One random step of a table and of a list, and whether both did the same.
fn is_same_step(
    alloc: Global,
    table: &mut Table,
    list: &mut Vec<Row>,
    random: u64,
) -> Result<bool, NoMemory>
    ensures { table.new.indexes ≡ table.old.indexes }
{
    let first = value(alloc, random >> 33)?;
    let second = value(alloc, random >> 43)?;
    let row = pair(alloc, first, second)?;
    let there = list.iter().any(|other| *other == row);
    let inserts = (random >> 60) % 2 == 0;
    if inserts && !there {
        list.push(row.copy(alloc)?)?;
    }
    if !inserts {
        list.retain(|other| *other != row);
    }
    let done = if inserts {
        put(alloc, table, row)?
    } else {
        take(alloc, table, row)?
    };
    Ok(done == (inserts != there))
}

// Whether a table and a list have as many rows with a value in the second column, and the same row of both values.
fn are_found(
    alloc: Global,
    table: &Table,
    list: &[Row],
    random: u64,
    steps: &mut Steps<NoLedger>,
) -> Result<bool, NoMemory>
    requires { table.now.indexes ≡ (0 ∷ []) ∷ (1 ∷ []) ∷ (0 ∷ 1 ∷ []) ∷ [] }
{
    let first = value(alloc, random >> 13)?;
    let second = value(alloc, random >> 23)?;
    let found = with_second(alloc, table, second.copy(alloc)?, steps)?;
    let wanted = list
        .iter()
        .filter(|row| row.get(1) == Some(&second))
        .count();
    let row = pair(alloc, first.copy(alloc)?, second.copy(alloc)?)?;
    let there = list.iter().any(|other| *other == row);
    let both = with_both(alloc, table, first, second, steps)?;
    let known = found
        .as_slice()
        .iter()
        .all(|one| list.iter().any(|other| one == other));
    Ok(
        found.len() == wanted
            && known
            && both.as_slice().iter().all(|one| *one == row)
            && (both.len() == 1) == there,
    )
}

// Whether a table does as a list in so many random steps.
fn is_as_a_list(alloc: Global, count: u32, steps: &mut Steps<NoLedger>) -> Result<bool, NoMemory> {
    let mut table = two_columns(alloc)?;
    let mut list = Vec::new(alloc);
    let mut random = 1;
    for _ in 0..count {
        random = next(random);
        if !is_same_step(alloc, &mut table, &mut list, random)? {
            return Ok(false);
        }
        if table.len() != list.len() || !are_found(alloc, &table, &list, random, steps)? {
            return Ok(false);
        }
    }
    Ok(true)
}

#[test]
fn a_table_does_as_a_list(rt: HostRuntime) -> Result<(), Fail> {
    let mut steps = Steps::new(&rt, NoLedger);
    assert!(rt; is_as_a_list(rt.alloc(), 2000, &mut steps)?);
    Ok(())
}
