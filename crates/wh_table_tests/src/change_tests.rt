// Rows (i, i mod 7) come and go.
ghost use Rattle.std.specs.Prelude.{◌≡◌, ◌<◌, ◌∷◌, []};

use crate::rows::{pair, put, take, two_columns, with_both, with_second};
use std::alloc::Global;
use std::test::*;
use wh_base::{NoMemory, Row, Value};
use wh_steps::{CountLedger, NoLedger, Steps};
use wh_table::Table;

fn numbered(alloc: Global, i: u32) -> Result<Row, NoMemory> {
    pair(alloc, Value::Int(i as i64), Value::Int((i % 7) as i64))
}

// Inserts the rows of the numbers below one.
fn put_below(alloc: Global, table: &mut Table, end: u32) -> Result<(), NoMemory>
    ensures { table.new.indexes ≡ table.old.indexes }
{
    for i in 0..end {
        put(alloc, table, numbered(alloc, i)?)?;
    }
    Ok(())
}

// Deletes the rows of each so manieth number below one.
fn take_below(alloc: Global, table: &mut Table, end: u32, every: u32) -> Result<(), NoMemory>
    requires { 0 < every }
    ensures { table.new.indexes ≡ table.old.indexes }
{
    for i in 0..end {
        if i % every == 0 {
            take(alloc, table, numbered(alloc, i)?)?;
        }
    }
    Ok(())
}

// Whether a row has 6 behind a number below 10,000 that leaves 6 by 7 and is no multiple of 3.
fn is_wanted(row: &Row) -> bool {
    match (row.get(0), row.get(1)) {
        (Some(Value::Int(i)), Some(Value::Int(6))) => {
            (0..10_000).contains(i) && i % 7 == 6 && i % 3 != 0
        }
        _ => false,
    }
}

// 10,000 rows, then those of the multiples of 3 leave.
fn a_third_leaves(alloc: Global, steps: &mut Steps<CountLedger>) -> Result<bool, NoMemory> {
    let mut table = two_columns(alloc)?;
    put_below(alloc, &mut table, 10_000)?;
    take_below(alloc, &mut table, 10_000, 3)?;
    let found = with_second(alloc, &table, Value::Int(6), steps)?;
    Ok(
        table.len() == 6666
            && found.len() == 952
            && found.as_slice().iter().all(|row| is_wanted(row))
            && steps.ledger().probes == 953
            && steps.ledger().scans == 0,
    )
}

#[test]
fn the_rows_that_are_left_are_found(rt: HostRuntime) -> Result<(), Fail> {
    let mut steps = Steps::new(&rt, CountLedger::new());
    assert!(rt; a_third_leaves(rt.alloc(), &mut steps)?);
    Ok(())
}

// All rows leave, and come back.
fn all_come_back(alloc: Global, steps: &mut Steps<NoLedger>) -> Result<bool, NoMemory> {
    let mut table = two_columns(alloc)?;
    put_below(alloc, &mut table, 700)?;
    take_below(alloc, &mut table, 700, 1)?;
    let empty = table.len() == 0 && with_second(alloc, &table, Value::Int(6), steps)?.is_empty();
    put_below(alloc, &mut table, 350)?;
    take_below(alloc, &mut table, 350, 2)?;
    put_below(alloc, &mut table, 700)?;
    let found = with_second(alloc, &table, Value::Int(6), steps)?;
    let both = with_both(alloc, &table, Value::Int(13), Value::Int(6), steps)?;
    Ok(empty && table.len() == 700 && found.len() == 100 && both.len() == 1)
}

#[test]
fn a_table_is_emptied_and_filled_again(rt: HostRuntime) -> Result<(), Fail> {
    let mut steps = Steps::new(&rt, NoLedger);
    assert!(rt; all_come_back(rt.alloc(), &mut steps)?);
    Ok(())
}
