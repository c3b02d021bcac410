// The commands on a store, over devices in memory: stories of runs, and crashes.
use crate::runs::{Case, End, Held, Store, disk, ends, show};
use crate::tests::FILES_A;
use std::alloc::Global;
use std::test::Fail;
use wh_base::NoMemory;
use wh_command::Status;
use wh_steps::{NoLedger, Steps};

// The reads of files, and the writes of `out`, that fail in a run: the numbers of their calls.
#[derive(Clone, Copy)]
pub(crate) struct Fails<'a>(pub(crate) &'a [u64], pub(crate) &'a [u64]);

pub(crate) const NONE: Fails<'static> = Fails(&[], &[]);

// A run on a store: its words, what fails in it, and its end.
#[derive(Clone, Copy)]
pub(crate) struct Row<'a>(
    pub(crate) &'a [&'a str],
    pub(crate) Fails<'a>,
    pub(crate) End<'a>,
);

// A store, told from its beginning: its two files at first, the calls of the first one that fail, the files at hand, the
// runs one after another, and what the two files then hold, where that is told.
#[derive(Clone, Copy)]
pub(crate) struct Story<'a> {
    pub(crate) first: &'a [u8],
    pub(crate) second: &'a [u8],
    pub(crate) disk_fails: &'a [u64],
    pub(crate) held: Held<'a>,
    pub(crate) rows: &'a [Row<'a>],
    pub(crate) left: &'a [(&'a [u8], &'a [u8])],
}

// An empty store, with the calls of its two disks that fail.
pub(crate) fn empty_store(
    alloc: Global,
    first_fails: &[u64],
    second_fails: &[u64],
) -> Result<Store, NoMemory> {
    let first = disk(alloc, b"", first_fails)?;
    let second = disk(alloc, b"", second_fails)?;
    Ok(Store { first, second })
}

// The store of a story before its first row.
pub(crate) fn store_of(alloc: Global, story: &Story<'_>) -> Result<Store, NoMemory> {
    let first = disk(alloc, story.first, story.disk_fails)?;
    let second = disk(alloc, story.second, &[])?;
    Ok(Store { first, second })
}

fn row_ends<'a>(
    alloc: Global,
    counts: &mut Steps<NoLedger>,
    store: &mut Store,
    held: Held<'a>,
    row: &Row<'a>,
) -> Result<bool, NoMemory> {
    let Row(words, fails, end) = row;
    let mut case = show(words, held);
    case.read_fails = fails.0;
    case.out_fails = fails.1;
    ends(alloc, counts, store, &case, end)
}

// Whether each row of a story comes to its end, over the story's store.
pub(crate) fn rows_end(
    alloc: Global,
    counts: &mut Steps<NoLedger>,
    store: &mut Store,
    story: &Story<'_>,
) -> Result<bool, NoMemory> {
    for row in story.rows {
        if !row_ends(alloc, counts, store, story.held, row)? {
            return Ok(false);
        }
    }
    Ok(true)
}

// Whether the two files hold what is told of them.
fn is_left(store: &Store, left: &[(&[u8], &[u8])]) -> bool {
    for (first, second) in left {
        if store.first.content() != *first || store.second.content() != *second {
            return false;
        }
    }
    true
}

fn is_told_on(
    alloc: Global,
    counts: &mut Steps<NoLedger>,
    store: &mut Store,
    story: &Story<'_>,
) -> Result<bool, NoMemory> {
    Ok(rows_end(alloc, counts, store, story)? && is_left(store, story.left))
}

fn is_told(
    alloc: Global,
    counts: &mut Steps<NoLedger>,
    story: &Story<'_>,
) -> Result<bool, NoMemory> {
    let mut store = store_of(alloc, story)?;
    is_told_on(alloc, counts, &mut store, story)
}

/// Whether each story is told from its beginning. A test of stories asks it once of a constant: a test function is proved,
/// and what it makes and lends itself costs the proof dear.
pub(crate) fn are_told(
    alloc: Global,
    counts: &mut Steps<NoLedger>,
    stories: &[Story<'_>],
) -> Result<bool, NoMemory> {
    for story in stories {
        if !is_told(alloc, counts, story)? {
            return Ok(false);
        }
    }
    Ok(true)
}

pub(crate) const LOAD_B: &[&str] = &["load", "spec_b.txt", "dir_a"];

pub(crate) const LOADED_B: &str = "loaded: tables 3, rows 4\n";

const EMP: &[&str] = &["dump", "Emp"];

const EMP_ROWS: &str = "clerk,age\nJohn,25\nMary,23\nPaula,32\n";

const EMPLOYEES: End<'static> = End(Status::Ok, EMP_ROWS, "");

const NOT_LOADED: End<'static> = End(Status::NotLoaded, "", "not loaded\n");

const LOAD_FAILS: End<'static> = End(Status::DiskFault, "", "disk fault\n");

// What a crash leaves that fills what was pending.
pub(crate) fn crashed(
    alloc: Global,
    store: &Store,
    fill: u8,
    torn: bool,
) -> Result<Store, NoMemory> {
    let first = store.first.after_crash(alloc, fill, torn)?;
    let second = store.second.after_crash(alloc, fill, torn)?;
    Ok(Store { first, second })
}

// Whether a store is empty or loaded.
fn is_kept(
    alloc: Global,
    counts: &mut Steps<NoLedger>,
    store: &mut Store,
) -> Result<bool, NoMemory> {
    let asked = show(EMP, &[]);
    let is_empty = ends(alloc, counts, store, &asked, &NOT_LOADED)?;
    let is_loaded = ends(alloc, counts, store, &asked, &EMPLOYEES)?;
    Ok(is_empty || is_loaded)
}

fn is_kept_after_crash(
    alloc: Global,
    counts: &mut Steps<NoLedger>,
    store: &Store,
    fill: u8,
    torn: bool,
) -> Result<bool, NoMemory> {
    let mut left = crashed(alloc, store, fill, torn)?;
    is_kept(alloc, counts, &mut left)
}

// Whether a load fails on a store, and a crash leaves nothing or the loaded store.
fn survives_on(
    alloc: Global,
    counts: &mut Steps<NoLedger>,
    store: &mut Store,
    fill: u8,
    torn: bool,
) -> Result<bool, NoMemory> {
    let load = show(LOAD_B, FILES_A);
    Ok(
        ends(alloc, counts, store, &load, &LOAD_FAILS)?
            && is_kept_after_crash(alloc, counts, store, fill, torn)?,
    )
}

fn survives(
    alloc: Global,
    counts: &mut Steps<NoLedger>,
    fails: &[u64],
    fill: u8,
    torn: bool,
) -> Result<bool, NoMemory> {
    let mut store = empty_store(alloc, fails, &[])?;
    survives_on(alloc, counts, &mut store, fill, torn)
}

// The numbers of the calls of a disk in a load: a sync and a length, the same again, a length, and then two settled writes
// for the closed mark and four calls for the frame.
const CALLS: &[u64] = &[1, 2, 3, 4, 5, 6, 7, 8, 9, 10, 11];

// What fills the places that were pending in a crash, and whether it was a torn one.
pub(crate) const CRASHES: &[(u8, bool)] = &[
    (0, true),
    (0, false),
    (1, true),
    (1, false),
    (255, true),
    (255, false),
];

fn survives_all(
    alloc: Global,
    counts: &mut Steps<NoLedger>,
    fails: &[u64],
) -> Result<bool, NoMemory> {
    for (fill, torn) in CRASHES {
        if !survives(alloc, counts, fails, *fill, *torn)? {
            return Ok(false);
        }
    }
    Ok(true)
}

fn survives_each(alloc: Global, counts: &mut Steps<NoLedger>) -> Result<bool, NoMemory> {
    for passed in 0..CALLS.len() {
        if !survives_all(alloc, counts, &CALLS[passed..])? {
            return Ok(false);
        }
    }
    Ok(true)
}

#[test]
fn a_crash_leaves_nothing_or_the_store(rt: HostRuntime) -> Result<(), Fail> {
    let mut counts = Steps::new(&rt, NoLedger);
    assert!(rt; survives_each(rt.alloc(), &mut counts)?);
    Ok(())
}

// A dump with a byte order mark, quotes and a line feed in a text, and dumps of headers alone.
const TEXTS: Held<'static> = &[
    (
        "s",
        b"relation T(k int, v text) key (k); relation Empty(e int) key (e); view Keys(k) = T;",
    ),
    (
        "d/T.csv",
        b"\xef\xbb\xbfk,v\r\n-9223372036854775808,\"a,b\"\r\n1,\"say \"\"x\"\"\"\r\n2,\"two\nlines\"\r\n",
    ),
    ("d/Empty.csv", b"e\n"),
    ("r", b"relation R(k int) key (k);"),
    ("d/R.csv", b"k\n"),
];

const LOAD_R: &[&str] = &["load", "r", "d"];

const DUMP_R: &[&str] = &["dump", "R"];

const NO_ROWS: &str = "loaded: tables 1, rows 0\n";

const QUOTED: &str = "k,v\n-9223372036854775808,\"a,b\"\n1,\"say \"\"x\"\"\"\n2,\"two\nlines\"\n";

// The store of `relation R(k int) key (k);` with no row: a frame of 65 bytes, and a closed mark.
const FILE_R: &[u8] = b"\x01\x00\x00\x00\x00\x00\x00\x00\x38\
\x01\x00\x00\x00\x00\x00\x00\x00\x01\x00\x00\x00\x00\x00\x00\x00\x00\
\x00\x00\x00\x1brelation R(k int) key (k);\n\x00\x00\x00\x01\x00\x00\x00\x00\x00";

// Bytes behind the closed mark are no part of it.
const LONGER_R: &[u8] = b"\x01\x00\x00\x00\x00\x00\x00\x00\x38\
\x01\x00\x00\x00\x00\x00\x00\x00\x01\x00\x00\x00\x00\x00\x00\x00\x00\
\x00\x00\x00\x1brelation R(k int) key (k);\n\x00\x00\x00\x01\x00\x00\x00\x00\x00\
\x07\x07\x07\x07\x07\x07\x07\x07\x07\x07";

// The frame alone, without a mark behind it.
const UNMARKED_R: &[u8] = b"\x01\x00\x00\x00\x00\x00\x00\x00\x38\
\x01\x00\x00\x00\x00\x00\x00\x00\x01\x00\x00\x00\x00\x00\x00\x00\x00\
\x00\x00\x00\x1brelation R(k int) key (k);\n\x00\x00\x00\x01\x00\x00\x00\x00";

// The first fifty bytes.
const CUT_R: &[u8] = b"\x01\x00\x00\x00\x00\x00\x00\x00\x38\
\x01\x00\x00\x00\x00\x00\x00\x00\x01\x00\x00\x00\x00\x00\x00\x00\x00\
\x00\x00\x00\x1brelation R(k int) k";

const LOADS: &[Story<'static>] = &[
    // The first byte of a file is no open mark, so it is empty.
    Story {
        first: b"\x07\x01",
        second: b"",
        disk_fails: &[],
        held: TEXTS,
        rows: &[
            Row(
                &["load", "s", "d"],
                NONE,
                End(Status::Ok, "loaded: tables 3, rows 6\n", ""),
            ),
            Row(&["dump", "T"], NONE, End(Status::Ok, QUOTED, "")),
            Row(
                &["query", "Keys"],
                NONE,
                End(Status::Ok, "k\n-9223372036854775808\n1\n2\n", ""),
            ),
            Row(&["dump", "Empty"], NONE, End(Status::Ok, "e\n", "")),
        ],
        left: &[],
    },
    Story {
        first: b"",
        second: b"\x02",
        disk_fails: &[],
        held: TEXTS,
        rows: &[
            Row(LOAD_R, NONE, End(Status::Ok, NO_ROWS, "")),
            Row(DUMP_R, NONE, End(Status::Ok, "k\n", "")),
            Row(
                LOAD_R,
                NONE,
                End(Status::AlreadyLoaded, "", "already loaded\n"),
            ),
        ],
        left: &[(FILE_R, b"\x02")],
    },
    Story {
        first: b"",
        second: b"",
        disk_fails: &[],
        held: FILES_A,
        rows: &[
            Row(EMP, NONE, End(Status::NotLoaded, "", "not loaded\n")),
            Row(LOAD_B, NONE, End(Status::Ok, LOADED_B, "")),
            Row(
                LOAD_B,
                NONE,
                End(Status::AlreadyLoaded, "", "already loaded\n"),
            ),
            Row(EMP, NONE, End(Status::Ok, EMP_ROWS, "")),
            Row(
                &["dump", "Sale"],
                NONE,
                End(Status::Ok, "item,clerk\nPC,John\nTV,Mary\nVCR,Mary\n", ""),
            ),
            Row(
                &["dump", "Sold"],
                NONE,
                End(Status::BadInput, "", "input: unknown relation Sold\n"),
            ),
        ],
        left: &[],
    },
    Story {
        first: b"",
        second: b"",
        disk_fails: &[],
        held: &[
            (
                "s",
                b"relation Emp(clerk text, age int) key (clerk); relation Sale(item text, clerk text) key (item, clerk);
view Sold = Sale join Emp;",
            ),
            ("d/Emp.csv", b"clerk,age\n"),
            ("d/Sale.csv", b"item,clerk\n"),
        ],
        rows: &[
            Row(
                &["load", "s", "d"],
                NONE,
                End(Status::Ok, "loaded: tables 3, rows 0\n", ""),
            ),
            Row(&["query", "Emp"], NONE, End(Status::Ok, "clerk,age\n", "")),
        ],
        left: &[],
    },
];

#[test]
fn loads_are_kept(rt: HostRuntime) -> Result<(), Fail> {
    let mut counts = Steps::new(&rt, NoLedger);
    assert!(rt; are_told(rt.alloc(), &mut counts, LOADS)?);
    Ok(())
}

const FILES: &[Story<'static>] = &[
    Story {
        first: LONGER_R,
        second: b"\x00",
        disk_fails: &[],
        held: &[],
        rows: &[Row(DUMP_R, NONE, End(Status::Ok, "k\n", ""))],
        left: &[(LONGER_R, b"\x00")],
    },
    Story {
        first: b"\x01",
        second: b"\x02\x01",
        disk_fails: &[],
        held: TEXTS,
        rows: &[
            Row(DUMP_R, NONE, End(Status::NotLoaded, "", "not loaded\n")),
            Row(
                &["query", "(("],
                NONE,
                End(Status::NotLoaded, "", "not loaded\n"),
            ),
            Row(LOAD_R, NONE, End(Status::Ok, NO_ROWS, "")),
        ],
        left: &[(FILE_R, b"\x02\x01")],
    },
    Story {
        first: CUT_R,
        second: b"",
        disk_fails: &[],
        held: TEXTS,
        rows: &[
            Row(
                DUMP_R,
                NONE,
                End(Status::Damaged, "", "damaged: first file at 0\n"),
            ),
            Row(
                LOAD_R,
                NONE,
                End(Status::AlreadyLoaded, "", "already loaded\n"),
            ),
        ],
        left: &[(CUT_R, b"")],
    },
    Story {
        first: UNMARKED_R,
        second: b"",
        disk_fails: &[],
        held: &[],
        rows: &[Row(
            DUMP_R,
            NONE,
            End(Status::Damaged, "", "damaged: first file at 65\n"),
        )],
        left: &[],
    },
    Story {
        first: b"",
        second: FILE_R,
        disk_fails: &[],
        held: TEXTS,
        rows: &[
            Row(DUMP_R, NONE, End(Status::Ok, "k\n", "")),
            Row(
                LOAD_R,
                NONE,
                End(Status::AlreadyLoaded, "", "already loaded\n"),
            ),
        ],
        left: &[],
    },
    Story {
        first: FILE_R,
        second: CUT_R,
        disk_fails: &[],
        held: &[],
        rows: &[Row(
            DUMP_R,
            NONE,
            End(Status::Damaged, "", "damaged: second file at 0\n"),
        )],
        left: &[],
    },
    Story {
        first: FILE_R,
        second: FILE_R,
        disk_fails: &[],
        held: &[],
        rows: &[Row(
            DUMP_R,
            NONE,
            End(Status::Damaged, "", "damaged: equal generations\n"),
        )],
        left: &[],
    },
];

#[test]
fn files_are_told_apart(rt: HostRuntime) -> Result<(), Fail> {
    let mut counts = Steps::new(&rt, NoLedger);
    assert!(rt; are_told(rt.alloc(), &mut counts, FILES)?);
    Ok(())
}

const TWICE: Held<'static> = &[
    ("r", b"relation R(k int, a int) key (k);"),
    ("bad", b"relation R(k int, a int key (k);"),
    ("d/R.csv", b"k,a\n1,1\n2,1\n1,2\n"),
    ("e/R.csv", b"k,a\n1\n"),
];

const FAULTS: &[Story<'static>] = &[
    // Nothing of a load that is refused or that fails stands in the store.
    Story {
        first: b"",
        second: b"\x02",
        disk_fails: &[],
        held: TWICE,
        rows: &[
            Row(
                LOAD_R,
                NONE,
                End(Status::Refused, "", "refused: key 1 R(k) twice (1)\n"),
            ),
            Row(
                &["load", "r", "e"],
                NONE,
                End(
                    Status::BadInput,
                    "",
                    "input: e/R.csv: record 2: wrong width\n",
                ),
            ),
            Row(
                &["load", "r", "f"],
                NONE,
                End(Status::NoFile, "", "no file: f/R.csv\n"),
            ),
            Row(
                &["load", "bad", "d"],
                NONE,
                End(Status::BadSpec, "", "spec: byte 24: syntax\n"),
            ),
            Row(
                LOAD_R,
                Fails(&[2], &[]),
                End(Status::ReadFault, "", "read fault: d/R.csv\n"),
            ),
        ],
        left: &[(b"", b"\x02")],
    },
    Story {
        first: b"",
        second: b"",
        disk_fails: &[],
        held: FILES_A,
        rows: &[
            Row(
                LOAD_B,
                Fails(&[2], &[]),
                End(Status::ReadFault, "", "read fault: dir_a/Emp.csv\n"),
            ),
            Row(EMP, NONE, End(Status::NotLoaded, "", "not loaded\n")),
            // The store is loaded before anything is printed.
            Row(
                LOAD_B,
                Fails(&[], &[1]),
                End(Status::WriteFault, "", "write fault\n"),
            ),
            Row(EMP, NONE, End(Status::Ok, EMP_ROWS, "")),
        ],
        left: &[],
    },
    Story {
        first: b"",
        second: b"",
        disk_fails: &[1],
        held: FILES_A,
        rows: &[
            Row(LOAD_B, NONE, End(Status::DiskFault, "", "disk fault\n")),
            Row(EMP, NONE, End(Status::NotLoaded, "", "not loaded\n")),
        ],
        left: &[(b"", b"")],
    },
    // The specification comes before the store, and the store before the dumps.
    Story {
        first: FILE_R,
        second: b"",
        disk_fails: &[],
        held: TWICE,
        rows: &[
            Row(
                &["load", "bad", "d"],
                NONE,
                End(Status::BadSpec, "", "spec: byte 24: syntax\n"),
            ),
            Row(
                &["load", "r", "f"],
                NONE,
                End(Status::AlreadyLoaded, "", "already loaded\n"),
            ),
        ],
        left: &[],
    },
];

#[test]
fn faults_are_told(rt: HostRuntime) -> Result<(), Fail> {
    let mut counts = Steps::new(&rt, NoLedger);
    assert!(rt; are_told(rt.alloc(), &mut counts, FAULTS)?);
    Ok(())
}
