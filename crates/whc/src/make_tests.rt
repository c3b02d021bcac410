// Generated cases over stores in memory.
use crate::runs::{End, Store, answer, ends, show};
use crate::store_tests::{NONE, Row, Story, are_told, crashed, empty_store};
use std::alloc::Global;
use std::test::Fail;
use wh_base::{ByteText, NoMemory};
use wh_command::Status;
use wh_steps::{NoLedger, Steps};

const MADE_0_1: &str = "loaded: tables 5, rows 3
change-1: refresh 1, sources -1 +1, stored -1 +1
change-2: refresh 2, sources -1 +1, stored -1 +1
change-3: refresh 3, sources -0 +1, stored -0 +1
change-4: refresh 4, sources -0 +1, stored -0 +1
change-5: refresh 5, sources -0 +1, stored -0 +1
change-6: refresh 6, sources -0 +1, stored -0 +1
change-7: refresh 7, sources -0 +1, stored -0 +1
change-8: refresh 8, sources -0 +1, stored -0 +1
change-9: refresh 9, sources -0 +1, stored -0 +1
change-10: refused, inclusion 4 Emp(dept) in Dept(dept) lacks (0)
refreshes 9
view Staff 1
view Work 0
complement Dept 0
complement Emp 0 always empty
complement Task 9
relation Dept 1
relation Emp 1
relation Task 9
stored 10, sources 11
";

const MADE_3_10: &str = "loaded: tables 5, rows 31
change-1: refresh 1, sources -2 +2, stored -2 +2
change-2: refresh 2, sources -2 +2, stored -2 +2
change-3: refresh 3, sources -2 +2, stored -2 +2
change-4: refresh 4, sources -2 +2, stored -2 +2
change-5: refresh 5, sources -2 +2, stored -2 +2
change-6: refresh 6, sources -2 +2, stored -2 +2
change-7: refresh 7, sources -2 +2, stored -2 +2
change-8: refresh 8, sources -2 +2, stored -2 +2
change-9: refresh 9, sources -2 +2, stored -2 +2
change-10: refused, inclusion 4 Emp(dept) in Dept(dept) lacks (0)
refreshes 9
view Staff 10
view Work 19
complement Dept 1
complement Emp 0 always empty
complement Task 1
relation Dept 2
relation Emp 10
relation Task 20
stored 31, sources 32
";

const USAGE: &str = "usage: whc STORE COMMAND
  show SPEC DIR
  plan SPEC
  load SPEC DIR
  refresh FILE..
  query TEXT
  dump RELATION
  audit RELATION FILE
  report
  make NUMBER SIZE
";

const NO_COMMAND: End<'static> = End(Status::Usage, "", USAGE);

const LOADED_BEFORE: End<'static> = End(Status::AlreadyLoaded, "", "already loaded\n");

const MAKE_0_1: &[&str] = &["make", "0", "1"];

const CASES: &[Story<'static>] = &[
    Story {
        first: b"",
        second: b"",
        disk_fails: &[],
        held: &[],
        rows: &[
            Row(MAKE_0_1, NONE, End(Status::Ok, MADE_0_1, "")),
            Row(MAKE_0_1, NONE, LOADED_BEFORE),
            Row(
                &["query", "project (emp, dept, pay) Staff"],
                NONE,
                End(Status::Ok, "emp,dept,pay\n0,0,1000\n", ""),
            ),
        ],
        left: &[],
    },
    Story {
        first: b"",
        second: b"",
        disk_fails: &[],
        held: &[],
        rows: &[Row(&["make", "3", "10"], NONE, End(Status::Ok, MADE_3_10, ""))],
        left: &[],
    },
    // A sign and leading zeros are read as in a dump.
    Story {
        first: b"",
        second: b"",
        disk_fails: &[],
        held: &[],
        rows: &[Row(&["make", "+0", "01"], NONE, End(Status::Ok, MADE_0_1, ""))],
        left: &[],
    },
];

#[test]
fn cases_are_made(rt: HostRuntime) -> Result<(), Fail> {
    let mut counts = Steps::new(&rt, NoLedger);
    assert!(rt; are_told(rt.alloc(), &mut counts, CASES)?);
    Ok(())
}

const OTHER_WORDS: &[Story<'static>] = &[Story {
    first: b"",
    second: b"",
    disk_fails: &[],
    held: &[],
    rows: &[
        Row(&["make", "0", "0"], NONE, NO_COMMAND),
        Row(&["make", "1000000", "1"], NONE, NO_COMMAND),
        Row(&["make", "0", "100001"], NONE, NO_COMMAND),
        Row(&["make", "-1", "1"], NONE, NO_COMMAND),
        Row(&["make", "0", "one"], NONE, NO_COMMAND),
        Row(&["make", "0", ""], NONE, NO_COMMAND),
        Row(&["make", "0", "18446744073709551617"], NONE, NO_COMMAND),
        Row(&["make", "0"], NONE, NO_COMMAND),
        Row(&["make"], NONE, NO_COMMAND),
        Row(&["make", "0", "1", "1"], NONE, NO_COMMAND),
    ],
    left: &[(b"", b"")],
}];

#[test]
fn other_words_make_nothing(rt: HostRuntime) -> Result<(), Fail> {
    let mut counts = Steps::new(&rt, NoLedger);
    assert!(rt; are_told(rt.alloc(), &mut counts, OTHER_WORDS)?);
    Ok(())
}

// What is told of the store of `make 0 1` after so many of its changes.
fn report_after(alloc: Global, changes: u8) -> Result<String, NoMemory> {
    let tasks = u32::from(changes.max(2));
    format!(in alloc;
        "refreshes {changes}\nview Staff 1\nview Work 0\n\
complement Dept 0\ncomplement Emp 0 always empty\ncomplement Task {tasks}\n\
relation Dept 1\nrelation Emp 1\nrelation Task {tasks}\nstored {}, sources {}\n",
        tasks + 1,
        tasks + 2
    )
}

fn is_report_after(alloc: Global, text: &ByteText, changes: u8) -> Result<bool, NoMemory> {
    let report = report_after(alloc, changes)?;
    Ok(text.as_bytes() == report.as_bytes())
}

fn is_report(alloc: Global, text: &ByteText) -> Result<bool, NoMemory> {
    for changes in 0..10 {
        if is_report_after(alloc, text, changes)? {
            return Ok(true);
        }
    }
    Ok(false)
}

fn is_answer(alloc: Global, status: Status, text: &ByteText) -> Result<bool, NoMemory> {
    match status {
        Status::NotLoaded => Ok(text.len() == 0),
        Status::Ok => is_report(alloc, text),
        _ => Ok(false),
    }
}

// Whether a store is empty, or stands after some of the changes.
fn is_reached(
    alloc: Global,
    counts: &mut Steps<NoLedger>,
    store: &mut Store,
) -> Result<bool, NoMemory> {
    let (status, text) = answer(alloc, counts, store, &show(&["report"], &[]))?;
    is_answer(alloc, status, &text)
}

fn is_reached_after_crash(
    alloc: Global,
    counts: &mut Steps<NoLedger>,
    failing: &Store,
    fill: u8,
    torn: bool,
) -> Result<bool, NoMemory> {
    let mut left = crashed(alloc, failing, fill, torn)?;
    is_reached(alloc, counts, &mut left)
}

// What fills the places that were pending in a crash, and whether it was a torn one.
const CRASHES: &[(u8, bool)] = &[(0, true), (1, true), (255, true), (0, false)];

// Whether all that a crash may leave of a store is reached.
fn all_are_reached(
    alloc: Global,
    counts: &mut Steps<NoLedger>,
    failing: &Store,
) -> Result<bool, NoMemory> {
    for (fill, torn) in CRASHES {
        if !is_reached_after_crash(alloc, counts, failing, *fill, *torn)? {
            return Ok(false);
        }
    }
    Ok(true)
}

// Whether a case is not made to its end on a store of which calls fail, and what a crash leaves is reached.
fn survives_on(
    alloc: Global,
    counts: &mut Steps<NoLedger>,
    store: &mut Store,
) -> Result<bool, NoMemory> {
    let whole = End(Status::Ok, MADE_0_1, "");
    Ok(
        !ends(alloc, counts, store, &show(MAKE_0_1, &[]), &whole)?
            && all_are_reached(alloc, counts, store)?,
    )
}

fn survives(alloc: Global, counts: &mut Steps<NoLedger>, fails: &[u64]) -> Result<bool, NoMemory> {
    let mut store = empty_store(alloc, fails, &[])?;
    survives_on(alloc, counts, &mut store)
}

// The numbers of the calls of the first disk: eleven of the load, four to open it, four for each of nine changes, and four
// to open it for the report.
const CALLS: &[u64] = &[
    1, 2, 3, 4, 5, 6, 7, 8, 9, 10, 11, 12, 13, 14, 15, 16, 17, 18, 19, 20, 21, 22, 23, 24, 25, 26,
    27, 28, 29, 30, 31, 32, 33, 34, 35, 36, 37, 38, 39, 40, 41, 42, 43, 44, 45, 46, 47, 48, 49, 50,
    51, 52, 53, 54, 55,
];

fn survives_each(alloc: Global, counts: &mut Steps<NoLedger>) -> Result<bool, NoMemory> {
    for passed in 0..CALLS.len() {
        if !survives(alloc, counts, &CALLS[passed..])? {
            return Ok(false);
        }
    }
    Ok(true)
}

#[test]
fn a_crash_leaves_the_first_changes_of_a_case(rt: HostRuntime) -> Result<(), Fail> {
    let mut counts = Steps::new(&rt, NoLedger);
    assert!(rt; survives_each(rt.alloc(), &mut counts)?);
    Ok(())
}
