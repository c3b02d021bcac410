// One failing call of each device, at each number, in a run of three change files of which the second is refused.
use crate::crash_tests::{CALLS, is_whole};
use crate::refresh_tests::{
    AT_FIRST, EMPLOYEES, HELD_B, LOADED, SALES, SOLD_BY_ZOE, THREE, WITH_ZOE, is_reached,
};
use crate::runs::{End, Store, ends, show};
use crate::store_tests::{Fails, LOAD_B, NONE, Row, Story, are_told, empty_store};
use std::alloc::Global;
use std::test::Fail;
use wh_base::NoMemory;
use wh_command::Status;
use wh_steps::{NoLedger, Steps};

const READ_FIRST: Row<'static> = Row(
    THREE,
    Fails(&[1], &[]),
    End(Status::ReadFault, "", "read fault: a.csv\n"),
);

const READ_LAST: Row<'static> = Row(
    THREE,
    Fails(&[3], &[]),
    End(
        Status::ReadFault,
        "a.csv: refresh 1, sources -0 +1, stored -0 +1
b.csv: refused, inclusion 3 Sale(clerk) in Emp(clerk) lacks (Nobody)\n",
        "read fault: c.csv\n",
    ),
);

const WRITE_FIRST: Row<'static> = Row(
    THREE,
    Fails(&[], &[1]),
    End(Status::WriteFault, "", "write fault\n"),
);

const WRITE_SECOND: Row<'static> = Row(
    THREE,
    Fails(&[], &[2]),
    End(
        Status::WriteFault,
        "a.csv: refresh 1, sources -0 +1, stored -0 +1\n",
        "write fault\n",
    ),
);

const WRITE_LAST: Row<'static> = Row(
    THREE,
    Fails(&[], &[3]),
    End(
        Status::WriteFault,
        "a.csv: refresh 1, sources -0 +1, stored -0 +1
b.csv: refused, inclusion 3 Sale(clerk) in Emp(clerk) lacks (Nobody)\n",
        "write fault\n",
    ),
);

const HAS_ZOE: Row<'static> = Row(EMPLOYEES, NONE, WITH_ZOE);

const FAULTS: &[Story<'static>] = &[
    Story {
        first: b"",
        second: b"",
        disk_fails: &[],
        held: HELD_B,
        rows: &[LOADED, READ_FIRST, Row(EMPLOYEES, NONE, AT_FIRST)],
        left: &[],
    },
    Story {
        first: b"",
        second: b"",
        disk_fails: &[],
        held: HELD_B,
        rows: &[LOADED, READ_LAST, HAS_ZOE],
        left: &[],
    },
    Story {
        first: b"",
        second: b"",
        disk_fails: &[],
        held: HELD_B,
        rows: &[LOADED, WRITE_FIRST, HAS_ZOE],
        left: &[],
    },
    Story {
        first: b"",
        second: b"",
        disk_fails: &[],
        held: HELD_B,
        rows: &[LOADED, WRITE_SECOND, HAS_ZOE],
        left: &[],
    },
    // The line of the last file is lost, and its change is made.
    Story {
        first: b"",
        second: b"",
        disk_fails: &[],
        held: HELD_B,
        rows: &[LOADED, WRITE_LAST, Row(SALES, NONE, SOLD_BY_ZOE)],
        left: &[],
    },
];

#[test]
fn reads_and_writes_fail(rt: HostRuntime) -> Result<(), Fail> {
    let mut counts = Steps::new(&rt, NoLedger);
    assert!(rt; are_told(rt.alloc(), &mut counts, FAULTS)?);
    Ok(())
}

fn is_loaded(
    alloc: Global,
    counts: &mut Steps<NoLedger>,
    store: &mut Store,
) -> Result<bool, NoMemory> {
    ends(alloc, counts, store, &show(LOAD_B, HELD_B), &LOADED.2)
}

// Whether a store of which a disk failed in the run, and which is opened again, is one after some first changes.
fn recovers(
    alloc: Global,
    counts: &mut Steps<NoLedger>,
    store: &mut Store,
) -> Result<bool, NoMemory> {
    Ok(
        is_loaded(alloc, counts, store)?
            && !is_whole(alloc, counts, store)?
            && is_reached(alloc, counts, store)?,
    )
}

fn recovers_from(
    alloc: Global,
    counts: &mut Steps<NoLedger>,
    first_fails: &[u64],
    second_fails: &[u64],
) -> Result<bool, NoMemory> {
    let mut store = empty_store(alloc, first_fails, second_fails)?;
    recovers(alloc, counts, &mut store)
}

// The numbers of the calls of the second disk behind those of the load: it is only opened.
const SECOND_CALLS: &[u64] = &[5, 6, 7];

fn recovers_from_first(alloc: Global, counts: &mut Steps<NoLedger>) -> Result<bool, NoMemory> {
    for call in CALLS {
        if !recovers_from(alloc, counts, &[*call], &[])? {
            return Ok(false);
        }
    }
    Ok(true)
}

fn recovers_from_second(alloc: Global, counts: &mut Steps<NoLedger>) -> Result<bool, NoMemory> {
    for call in SECOND_CALLS {
        if !recovers_from(alloc, counts, &[], &[*call])? {
            return Ok(false);
        }
    }
    Ok(true)
}

#[test]
fn each_call_of_the_first_disk_fails(rt: HostRuntime) -> Result<(), Fail> {
    let mut counts = Steps::new(&rt, NoLedger);
    assert!(rt; recovers_from_first(rt.alloc(), &mut counts)?);
    Ok(())
}

#[test]
fn each_call_of_the_second_disk_fails(rt: HostRuntime) -> Result<(), Fail> {
    let mut counts = Steps::new(&rt, NoLedger);
    assert!(rt; recovers_from_second(rt.alloc(), &mut counts)?);
    Ok(())
}
