// A crash at each call of the first disk in a run of three change files.
use crate::refresh_tests::{HELD_B, LOADED, THREE, TOOK_TWO, is_reached};
use crate::runs::{Store, ends, show};
use crate::store_tests::{CRASHES, Row, Story, crashed, rows_end, store_of};
use std::alloc::Global;
use std::test::Fail;
use wh_base::NoMemory;
use wh_steps::{NoLedger, Steps};

const LOADED_ALONE: &[Row<'static>] = &[LOADED];

// A loaded store whose first disk fails from a call on.
fn failing<'a>(fails: &'a [u64]) -> Story<'a> {
    Story {
        first: b"",
        second: b"",
        disk_fails: fails,
        held: HELD_B,
        rows: LOADED_ALONE,
        left: &[],
    }
}

// Whether a run of three change files comes to its end over a store.
pub(crate) fn is_whole(
    alloc: Global,
    counts: &mut Steps<NoLedger>,
    store: &mut Store,
) -> Result<bool, NoMemory> {
    ends(alloc, counts, store, &show(THREE, HELD_B), &TOOK_TWO)
}

fn is_reached_after_crash(
    alloc: Global,
    counts: &mut Steps<NoLedger>,
    store: &Store,
    fill: u8,
    torn: bool,
) -> Result<bool, NoMemory> {
    let mut left = crashed(alloc, store, fill, torn)?;
    is_reached(alloc, counts, &mut left)
}

// Whether the run fails on the store of a story, and what a crash leaves is reached.
fn survives_on(
    alloc: Global,
    counts: &mut Steps<NoLedger>,
    store: &mut Store,
    story: &Story<'_>,
    fill: u8,
    torn: bool,
) -> Result<bool, NoMemory> {
    Ok(
        rows_end(alloc, counts, store, story)?
            && !is_whole(alloc, counts, store)?
            && is_reached_after_crash(alloc, counts, store, fill, torn)?,
    )
}

fn survives(
    alloc: Global,
    counts: &mut Steps<NoLedger>,
    story: &Story<'_>,
    fill: u8,
    torn: bool,
) -> Result<bool, NoMemory> {
    let mut store = store_of(alloc, story)?;
    survives_on(alloc, counts, &mut store, story, fill, torn)
}

// The numbers of the calls of the first disk behind those of the load: four to open it, and four for each change.
pub(crate) const CALLS: &[u64] = &[12, 13, 14, 15, 16, 17, 18, 19, 20, 21, 22, 23];

fn survives_all(
    alloc: Global,
    counts: &mut Steps<NoLedger>,
    story: &Story<'_>,
) -> Result<bool, NoMemory> {
    for (fill, torn) in CRASHES {
        if !survives(alloc, counts, story, *fill, *torn)? {
            return Ok(false);
        }
    }
    Ok(true)
}

fn survives_each(alloc: Global, counts: &mut Steps<NoLedger>) -> Result<bool, NoMemory> {
    for passed in 0..CALLS.len() {
        if !survives_all(alloc, counts, &failing(&CALLS[passed..]))? {
            return Ok(false);
        }
    }
    Ok(true)
}

#[test]
fn a_crash_leaves_the_first_changes(rt: HostRuntime) -> Result<(), Fail> {
    let mut counts = Steps::new(&rt, NoLedger);
    assert!(rt; survives_each(rt.alloc(), &mut counts)?);
    Ok(())
}
