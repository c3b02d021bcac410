// Change files over a store, over devices in memory.
use crate::runs::{End, Held, Store, ends, show};
use crate::store_tests::{Fails, LOAD_B, LOADED_B, NONE, Row, Story, are_told};
use crate::tests::{EMP, SALE, SPEC_B, USAGE};
use std::alloc::Global;
use std::test::Fail;
use wh_base::NoMemory;
use wh_command::Status;
use wh_steps::{NoLedger, Steps};

// The dumps of a store of sales, and change files.
pub(crate) const HELD_B: Held<'static> = &[
    ("spec_b.txt", SPEC_B),
    ("dir_a/Emp.csv", EMP),
    ("dir_a/Sale.csv", SALE),
    ("computer", b"+,Sale,Computer,Paula\n"),
    ("mary", b"-,Emp,Mary,23\n-,Sale,TV,Mary\n-,Sale,VCR,Mary\n"),
    ("mary_short", b"-,Emp,Mary,23\n-,Sale,TV,Mary\n"),
    ("john", b"-,Emp,John,25\n+,Emp,John,26\n"),
    ("john_short", b"+,Emp,John,26\n"),
    ("thrice", b"+,Emp,Zoe,40\n-,Emp,Zoe,40\n+,Emp,Zoe,40\n"),
    ("zoe", b"+,Emp,Zoe,40\n"),
    (
        "four",
        b"+,Emp,Mary,24\n+,Emp,John,26\n+,Sale,X,\xc3\x89mile\n+,Sale,X,Zoe\n",
    ),
    ("two", b"+,Sale,X,\xc3\x89mile\n+,Sale,X,Zoe\n"),
    ("a.csv", b"+,Emp,Zoe,40\n"),
    ("b.csv", b"+,Sale,X,Nobody\n"),
    ("c.csv", b"+,Sale,TV,Zoe\n"),
    ("none", b""),
    ("sign", b"+,Emp,Zoe,40\n*,Emp,Zoe,41\n"),
    ("alone", b"+\n"),
    ("view", b"+,Sold,TV,Mary,23\n"),
    ("wide", b"-,Emp,Mary,23\n-,Emp,John\n"),
    ("word", b"+,Emp,Zoe,forty\n"),
    ("bytes", b"+,Emp,\xff,40\n"),
];

pub(crate) const LOADED: Row<'static> = Row(LOAD_B, NONE, End(Status::Ok, LOADED_B, ""));

pub(crate) const EMPLOYEES: &[&str] = &["dump", "Emp"];

pub(crate) const SALES: &[&str] = &["dump", "Sale"];

const CHANGES: &[Story<'static>] = &[
    Story {
        first: b"",
        second: b"",
        disk_fails: &[],
        held: HELD_B,
        rows: &[
            LOADED,
            Row(
                &["refresh", "computer"],
                NONE,
                End(
                    Status::Ok,
                    "computer: refresh 1, sources -0 +1, stored -1 +1\n",
                    "",
                ),
            ),
            Row(
                &["query", "Sold"],
                NONE,
                End(
                    Status::Ok,
                    "item,clerk,age\nComputer,Paula,32\nPC,John,25\nTV,Mary,23\nVCR,Mary,23\n",
                    "",
                ),
            ),
        ],
        left: &[],
    },
    Story {
        first: b"",
        second: b"",
        disk_fails: &[],
        held: HELD_B,
        rows: &[
            LOADED,
            Row(
                &["refresh", "mary_short"],
                NONE,
                End(
                    Status::Refused,
                    "mary_short: refused, inclusion 3 Sale(clerk) in Emp(clerk) lacks (Mary)\n",
                    "",
                ),
            ),
            Row(
                &["refresh", "mary"],
                NONE,
                End(
                    Status::Ok,
                    "mary: refresh 1, sources -3 +0, stored -2 +0\n",
                    "",
                ),
            ),
            Row(
                EMPLOYEES,
                NONE,
                End(Status::Ok, "clerk,age\nJohn,25\nPaula,32\n", ""),
            ),
            Row(SALES, NONE, End(Status::Ok, "item,clerk\nPC,John\n", "")),
        ],
        left: &[],
    },
    Story {
        first: b"",
        second: b"",
        disk_fails: &[],
        held: HELD_B,
        rows: &[
            LOADED,
            Row(
                &["refresh", "john_short"],
                NONE,
                End(
                    Status::Refused,
                    "john_short: refused, key 1 Emp(clerk) twice (John)\n",
                    "",
                ),
            ),
            Row(
                &["refresh", "john"],
                NONE,
                End(
                    Status::Ok,
                    "john: refresh 1, sources -1 +1, stored -1 +1\n",
                    "",
                ),
            ),
            Row(
                &["query", "select (clerk = 'John') Sold"],
                NONE,
                End(Status::Ok, "item,clerk,age\nPC,John,26\n", ""),
            ),
        ],
        left: &[],
    },
    // The first broken constraint is told, and of it the least value by the bytes.
    Story {
        first: b"",
        second: b"",
        disk_fails: &[],
        held: HELD_B,
        rows: &[
            LOADED,
            Row(
                &["refresh", "four"],
                NONE,
                End(
                    Status::Refused,
                    "four: refused, key 1 Emp(clerk) twice (John)\n",
                    "",
                ),
            ),
            Row(
                &["refresh", "two"],
                NONE,
                End(
                    Status::Refused,
                    "two: refused, inclusion 3 Sale(clerk) in Emp(clerk) lacks (Zoe)\n",
                    "",
                ),
            ),
        ],
        left: &[],
    },
];

#[test]
fn changes_are_made_or_refused(rt: HostRuntime) -> Result<(), Fail> {
    let mut counts = Steps::new(&rt, NoLedger);
    assert!(rt; are_told(rt.alloc(), &mut counts, CHANGES)?);
    Ok(())
}

const HELD_ITEMS: Held<'static> = &[
    (
        "s",
        b"relation Item(sku int, cat int, price int) key (sku); relation Line(line int, sku int, cat int) key (line);
inclusion Line(sku, cat) in Item(sku, cat); view Prices(sku, price) = Item;",
    ),
    ("d/Item.csv", b"sku,cat,price\n1,10,100\n2,20,200\n"),
    ("d/Line.csv", b"line,sku,cat\n7,1,10\n"),
    ("d.csv", b"-,Line,7,1,10\n"),
];

// The row of an item enters its complement where no line tells its category any more.
const ITEMS_LEFT: &[u8] = b"\x01\x00\x00\x00\x00\x00\x00\x01\x3b\
\x01\x00\x00\x00\x00\x00\x00\x00\x01\x00\x00\x00\x00\x00\x00\x00\x00\
\x00\x00\x00\xb8\
relation Item(sku int, cat int, price int) key (sku);\n\
relation Line(line int, sku int, cat int) key (line);\n\
inclusion Line(sku, cat) in Item(sku, cat);\n\
view Prices(sku, price) = Item;\n\
\x00\x00\x00\x03\x00\x00\x00\x02\
\x02\x01\x00\x00\x00\x00\x00\x00\x00\x01\x01\x00\x00\x00\x00\x00\x00\x00\x64\
\x02\x01\x00\x00\x00\x00\x00\x00\x00\x02\x01\x00\x00\x00\x00\x00\x00\x00\xc8\
\x00\x00\x00\x01\
\x03\x01\x00\x00\x00\x00\x00\x00\x00\x02\x01\x00\x00\x00\x00\x00\x00\x00\x14\x01\x00\x00\x00\x00\x00\x00\x00\xc8\
\x00\x00\x00\x01\
\x03\x01\x00\x00\x00\x00\x00\x00\x00\x07\x01\x00\x00\x00\x00\x00\x00\x00\x01\x01\x00\x00\x00\x00\x00\x00\x00\x0a\
\x01\x00\x00\x00\x00\x00\x00\x00\x5d\
\x02\x00\x00\x00\x00\x00\x00\x00\x01\x00\x00\x00\x03\x00\x00\x00\x00\
\x00\x00\x00\x00\x00\x00\x00\x00\x00\x00\x00\x01\
\x03\x01\x00\x00\x00\x00\x00\x00\x00\x01\x01\x00\x00\x00\x00\x00\x00\x00\x0a\x01\x00\x00\x00\x00\x00\x00\x00\x64\
\x00\x00\x00\x01\
\x03\x01\x00\x00\x00\x00\x00\x00\x00\x07\x01\x00\x00\x00\x00\x00\x00\x00\x01\x01\x00\x00\x00\x00\x00\x00\x00\x0a\
\x00\x00\x00\x00\x00";

const HELD_PICKS: Held<'static> = &[
    (
        "s",
        b"relation Item(sku int, cat int) key (sku); relation Pick(pick int, cat int) key (pick);
inclusion Pick(cat) in Item(cat);",
    ),
    ("d/Item.csv", b"sku,cat\n"),
    ("d/Pick.csv", b"pick,cat\n"),
    ("pick", b"+,Pick,1,9\n"),
];

const HELD_AGES: Held<'static> = &[
    (
        "s",
        b"relation Emp(clerk text, age int) key (clerk); view Ages(age) = Emp;",
    ),
    ("d/Emp.csv", b"clerk,age\nMary,23\nZoe,23\n"),
    ("zoe", b"-,Emp,Zoe,23\n"),
];

// Two changes of a store of sales, of which the second one changes nothing: it takes 46 bytes.
const TWICE_LEFT: &[u8] = b"\x01\x00\x00\x00\x00\x00\x00\x01\x33\
\x01\x00\x00\x00\x00\x00\x00\x00\x01\x00\x00\x00\x00\x00\x00\x00\x00\
\x00\x00\x00\xb9\
relation Emp(clerk text, age int) key (clerk);\n\
relation Sale(item text, clerk text) key (item, clerk);\n\
inclusion Sale(clerk) in Emp(clerk);\n\
view Sold(item, clerk, age) = Sale join Emp;\n\
\x00\x00\x00\x03\x00\x00\x00\x03\
\x03\x02\x00\x02PC\x02\x00\x04John\x01\x00\x00\x00\x00\x00\x00\x00\x19\
\x03\x02\x00\x02TV\x02\x00\x04Mary\x01\x00\x00\x00\x00\x00\x00\x00\x17\
\x03\x02\x00\x03VCR\x02\x00\x04Mary\x01\x00\x00\x00\x00\x00\x00\x00\x17\
\x00\x00\x00\x01\
\x02\x02\x00\x05Paula\x01\x00\x00\x00\x00\x00\x00\x00\x20\
\x00\x00\x00\x00\x01\x00\x00\x00\x00\x00\x00\x00\x35\
\x02\x00\x00\x00\x00\x00\x00\x00\x01\x00\x00\x00\x03\x00\x00\x00\x00\
\x00\x00\x00\x00\x00\x00\x00\x00\x00\x00\x00\x01\
\x02\x02\x00\x03Zoe\x01\x00\x00\x00\x00\x00\x00\x00\x28\x00\x00\x00\x00\
\x00\x00\x00\x00\x01\x00\x00\x00\x00\x00\x00\x00\x25\
\x02\x00\x00\x00\x00\x00\x00\x00\x02\x00\x00\x00\x03\x00\x00\x00\x00\
\x00\x00\x00\x00\x00\x00\x00\x00\x00\x00\x00\x00\x00\x00\x00\x00\x00\x00\x00\x00\
\x00";

const LOAD: &[&str] = &["load", "s", "d"];

const STORED: &[Story<'static>] = &[
    Story {
        first: b"",
        second: b"",
        disk_fails: &[],
        held: HELD_ITEMS,
        rows: &[
            Row(
                LOAD,
                NONE,
                End(Status::Ok, "loaded: tables 3, rows 4\n", ""),
            ),
            Row(
                &["refresh", "d.csv"],
                NONE,
                End(
                    Status::Ok,
                    "d.csv: refresh 1, sources -1 +0, stored -1 +1\n",
                    "",
                ),
            ),
            Row(
                &["dump", "Item"],
                NONE,
                End(Status::Ok, "sku,cat,price\n1,10,100\n2,20,200\n", ""),
            ),
        ],
        left: &[(ITEMS_LEFT, b"")],
    },
    Story {
        first: b"",
        second: b"",
        disk_fails: &[],
        held: HELD_PICKS,
        rows: &[
            Row(
                LOAD,
                NONE,
                End(Status::Ok, "loaded: tables 2, rows 0\n", ""),
            ),
            Row(
                &["refresh", "pick"],
                NONE,
                End(
                    Status::Refused,
                    "pick: refused, inclusion 3 Pick(cat) in Item(cat) lacks (9)\n",
                    "",
                ),
            ),
            Row(&["dump", "Pick"], NONE, End(Status::Ok, "pick,cat\n", "")),
        ],
        left: &[],
    },
    // A row of a view stays where another row of the relation still gives it.
    Story {
        first: b"",
        second: b"",
        disk_fails: &[],
        held: HELD_AGES,
        rows: &[
            Row(
                LOAD,
                NONE,
                End(Status::Ok, "loaded: tables 2, rows 3\n", ""),
            ),
            Row(
                &["refresh", "zoe"],
                NONE,
                End(
                    Status::Ok,
                    "zoe: refresh 1, sources -1 +0, stored -1 +0\n",
                    "",
                ),
            ),
            Row(&["query", "Ages"], NONE, End(Status::Ok, "age\n23\n", "")),
        ],
        left: &[],
    },
    Story {
        first: b"",
        second: b"",
        disk_fails: &[],
        held: HELD_B,
        rows: &[
            LOADED,
            Row(
                &["refresh", "thrice"],
                NONE,
                End(
                    Status::Ok,
                    "thrice: refresh 1, sources -0 +1, stored -0 +1\n",
                    "",
                ),
            ),
            Row(
                &["refresh", "zoe"],
                NONE,
                End(
                    Status::Ok,
                    "zoe: refresh 2, sources -0 +0, stored -0 +0\n",
                    "",
                ),
            ),
        ],
        left: &[(TWICE_LEFT, b"")],
    },
];

#[test]
fn changes_are_stored(rt: HostRuntime) -> Result<(), Fail> {
    let mut counts = Steps::new(&rt, NoLedger);
    assert!(rt; are_told(rt.alloc(), &mut counts, STORED)?);
    Ok(())
}

const HELD_R: Held<'static> = &[
    ("r", b"relation R(k int) key (k);"),
    ("d/R.csv", b"k\n"),
    ("five", b"+,R,5\n"),
];

const FIVE: &[&str] = &["refresh", "five"];

const TOOK_FIVE: End<'static> = End(
    Status::Ok,
    "five: refresh 1, sources -0 +1, stored -0 +1\n",
    "",
);

const DUMP_R: &[&str] = &["dump", "R"];

const NO_ROW: End<'static> = End(Status::Ok, "k\n", "");

const ROW_FIVE: End<'static> = End(Status::Ok, "k\n5\n", "");

const DISK_FAULT: End<'static> = End(Status::DiskFault, "", "disk fault\n");

// A store without a row, and what it is with the row 5.
const FILE_R: &[u8] = b"\x01\x00\x00\x00\x00\x00\x00\x00\x38\
\x01\x00\x00\x00\x00\x00\x00\x00\x01\x00\x00\x00\x00\x00\x00\x00\x00\
\x00\x00\x00\x1b\
relation R(k int) key (k);\n\
\x00\x00\x00\x01\x00\x00\x00\x00\
\x00";

const FILE_R5: &[u8] = b"\x01\x00\x00\x00\x00\x00\x00\x00\x38\
\x01\x00\x00\x00\x00\x00\x00\x00\x01\x00\x00\x00\x00\x00\x00\x00\x00\
\x00\x00\x00\x1b\
relation R(k int) key (k);\n\
\x00\x00\x00\x01\x00\x00\x00\x00\
\x01\x00\x00\x00\x00\x00\x00\x00\x1f\
\x02\x00\x00\x00\x00\x00\x00\x00\x01\x00\x00\x00\x01\x00\x00\x00\x00\
\x00\x00\x00\x01\x01\x01\x00\x00\x00\x00\x00\x00\x00\x05\
\x00";

// Its first hundred bytes, and all but the closed mark.
const CUT_100: &[u8] = b"\x01\x00\x00\x00\x00\x00\x00\x00\x38\
\x01\x00\x00\x00\x00\x00\x00\x00\x01\x00\x00\x00\x00\x00\x00\x00\x00\
\x00\x00\x00\x1b\
relation R(k int) key (k);\n\
\x00\x00\x00\x01\x00\x00\x00\x00\
\x01\x00\x00\x00\x00\x00\x00\x00\x1f\
\x02\x00\x00\x00\x00\x00\x00\x00\x01\x00\x00\x00\x01\
\x00\x00\x00\x00\x00\x00\x00\x01\x01\x01\x00\x00\x00";

const CUT_105: &[u8] = b"\x01\x00\x00\x00\x00\x00\x00\x00\x38\
\x01\x00\x00\x00\x00\x00\x00\x00\x01\x00\x00\x00\x00\x00\x00\x00\x00\
\x00\x00\x00\x1b\
relation R(k int) key (k);\n\
\x00\x00\x00\x01\x00\x00\x00\x00\
\x01\x00\x00\x00\x00\x00\x00\x00\x1f\
\x02\x00\x00\x00\x00\x00\x00\x00\x01\x00\x00\x00\x01\x00\x00\x00\x00\
\x00\x00\x00\x01\x01\x01\x00\x00\x00\x00\x00\x00\x00\x05";

const FRAMES: &[Story<'static>] = &[
    Story {
        first: b"",
        second: b"",
        disk_fails: &[],
        held: HELD_R,
        rows: &[
            Row(FIVE, NONE, End(Status::NotLoaded, "", "not loaded\n")),
            Row(
                &["load", "r", "d"],
                NONE,
                End(Status::Ok, "loaded: tables 1, rows 0\n", ""),
            ),
            Row(FIVE, NONE, TOOK_FIVE),
            Row(DUMP_R, NONE, ROW_FIVE),
        ],
        left: &[(FILE_R5, b"")],
    },
    Story {
        first: CUT_100,
        second: b"",
        disk_fails: &[],
        held: HELD_R,
        rows: &[
            Row(
                DUMP_R,
                NONE,
                End(Status::Damaged, "", "damaged: first file at 65\n"),
            ),
            Row(
                FIVE,
                NONE,
                End(Status::Damaged, "", "damaged: first file at 65\n"),
            ),
        ],
        left: &[(CUT_100, b"")],
    },
    Story {
        first: CUT_105,
        second: b"",
        disk_fails: &[],
        held: HELD_R,
        rows: &[Row(
            DUMP_R,
            NONE,
            End(Status::Damaged, "", "damaged: first file at 105\n"),
        )],
        left: &[],
    },
    // The store is opened before the files are read. A store in the second file is changed there.
    Story {
        first: b"\x00",
        second: FILE_R,
        disk_fails: &[],
        held: HELD_R,
        rows: &[Row(FIVE, NONE, TOOK_FIVE), Row(DUMP_R, NONE, ROW_FIVE)],
        left: &[(b"\x00", FILE_R5)],
    },
    // The disk's calls: a sync, a length and two reads to open it, then the frame and its sync, then the mark and its sync.
    // The frame of a change that failed stands behind the closed mark, and is cut off by the next one.
    Story {
        first: FILE_R,
        second: b"",
        disk_fails: &[1],
        held: HELD_R,
        rows: &[
            Row(FIVE, NONE, DISK_FAULT),
            Row(DUMP_R, NONE, NO_ROW),
            Row(FIVE, NONE, TOOK_FIVE),
        ],
        left: &[(FILE_R5, b"")],
    },
    Story {
        first: FILE_R,
        second: b"",
        disk_fails: &[6],
        held: HELD_R,
        rows: &[
            Row(FIVE, NONE, DISK_FAULT),
            Row(DUMP_R, NONE, NO_ROW),
            Row(FIVE, NONE, TOOK_FIVE),
        ],
        left: &[(FILE_R5, b"")],
    },
    Story {
        first: FILE_R,
        second: b"",
        disk_fails: &[8],
        held: HELD_R,
        rows: &[Row(FIVE, NONE, DISK_FAULT), Row(DUMP_R, NONE, ROW_FIVE)],
        left: &[(FILE_R5, b"")],
    },
];

#[test]
fn frames_are_added(rt: HostRuntime) -> Result<(), Fail> {
    let mut counts = Steps::new(&rt, NoLedger);
    assert!(rt; are_told(rt.alloc(), &mut counts, FRAMES)?);
    Ok(())
}

pub(crate) const WITH_ZOE: End<'static> = End(
    Status::Ok,
    "clerk,age\nJohn,25\nMary,23\nPaula,32\nZoe,40\n",
    "",
);

pub(crate) const SOLD_BY_ZOE: End<'static> = End(
    Status::Ok,
    "item,clerk\nPC,John\nTV,Mary\nTV,Zoe\nVCR,Mary\n",
    "",
);

pub(crate) const THREE: &[&str] = &["refresh", "a.csv", "b.csv", "c.csv"];

pub(crate) const TOOK_TWO: End<'static> = End(
    Status::Refused,
    "a.csv: refresh 1, sources -0 +1, stored -0 +1
b.csv: refused, inclusion 3 Sale(clerk) in Emp(clerk) lacks (Nobody)
c.csv: refresh 2, sources -0 +1, stored -1 +1\n",
    "",
);

const RUNS: &[Story<'static>] = &[
    Story {
        first: b"",
        second: b"",
        disk_fails: &[],
        held: HELD_B,
        rows: &[
            LOADED,
            Row(THREE, NONE, TOOK_TWO),
            Row(EMPLOYEES, NONE, WITH_ZOE),
            Row(SALES, NONE, SOLD_BY_ZOE),
            Row(
                &["query", "select (clerk = 'Zoe') Sold"],
                NONE,
                End(Status::Ok, "item,clerk,age\nTV,Zoe,40\n", ""),
            ),
        ],
        left: &[],
    },
    Story {
        first: b"",
        second: b"",
        disk_fails: &[],
        held: HELD_B,
        rows: &[
            LOADED,
            Row(
                &["refresh", "a.csv", "nix", "b.csv", "c.csv", "none"],
                NONE,
                End(
                    Status::NoFile,
                    "a.csv: refresh 1, sources -0 +1, stored -0 +1
nix: no file
b.csv: refused, inclusion 3 Sale(clerk) in Emp(clerk) lacks (Nobody)
c.csv: refresh 2, sources -0 +1, stored -1 +1
none: refresh 3, sources -0 +0, stored -0 +0\n",
                    "",
                ),
            ),
            Row(SALES, NONE, SOLD_BY_ZOE),
        ],
        left: &[],
    },
    // Nothing of a file with a bad record is done.
    Story {
        first: b"",
        second: b"",
        disk_fails: &[],
        held: HELD_B,
        rows: &[
            LOADED,
            Row(
                &[
                    "refresh", "sign", "alone", "view", "wide", "word", "bytes", "nix",
                ],
                NONE,
                End(
                    Status::BadInput,
                    "sign: record 2: bad sign
alone: record 1: wrong width
view: record 1: unknown relation
wide: record 2: wrong width
word: record 1: bad integer
bytes: record 1: not UTF-8
nix: no file\n",
                    "",
                ),
            ),
            Row(
                EMPLOYEES,
                NONE,
                End(Status::Ok, "clerk,age\nJohn,25\nMary,23\nPaula,32\n", ""),
            ),
            Row(&["refresh"], NONE, End(Status::Usage, "", USAGE)),
        ],
        left: &[],
    },
    Story {
        first: b"",
        second: b"",
        disk_fails: &[],
        held: HELD_B,
        rows: &[
            LOADED,
            Row(
                &["refresh", "a.csv", "b.csv", "c.csv"],
                Fails(&[2], &[]),
                End(
                    Status::ReadFault,
                    "a.csv: refresh 1, sources -0 +1, stored -0 +1\n",
                    "read fault: b.csv\n",
                ),
            ),
            Row(EMPLOYEES, NONE, WITH_ZOE),
            // A change is made before its line is printed.
            Row(
                &["refresh", "none", "c.csv", "mary"],
                Fails(&[], &[2]),
                End(
                    Status::WriteFault,
                    "none: refresh 2, sources -0 +0, stored -0 +0\n",
                    "write fault\n",
                ),
            ),
            Row(EMPLOYEES, NONE, WITH_ZOE),
            Row(SALES, NONE, SOLD_BY_ZOE),
        ],
        left: &[],
    },
];

#[test]
fn files_are_taken_in_their_order(rt: HostRuntime) -> Result<(), Fail> {
    let mut counts = Steps::new(&rt, NoLedger);
    assert!(rt; are_told(rt.alloc(), &mut counts, RUNS)?);
    Ok(())
}

pub(crate) const AT_FIRST: End<'static> = End(
    Status::Ok,
    "clerk,age\nJohn,25\nMary,23\nPaula,32\n",
    "",
);

const SOLD_AT_FIRST: End<'static> = End(Status::Ok, "item,clerk\nPC,John\nTV,Mary\nVCR,Mary\n", "");

// The dumps after no change, after the first one, and after the first and the last one.
const STATES: &[(End<'static>, End<'static>)] = &[
    (AT_FIRST, SOLD_AT_FIRST),
    (WITH_ZOE, SOLD_AT_FIRST),
    (WITH_ZOE, SOLD_BY_ZOE),
];

fn is_state(
    alloc: Global,
    counts: &mut Steps<NoLedger>,
    store: &mut Store,
    state: &(End<'_>, End<'_>),
) -> Result<bool, NoMemory> {
    let is_first = ends(alloc, counts, store, &show(EMPLOYEES, &[]), &state.0)?;
    let is_second = ends(alloc, counts, store, &show(SALES, &[]), &state.1)?;
    Ok(is_first && is_second)
}

pub(crate) fn is_reached(
    alloc: Global,
    counts: &mut Steps<NoLedger>,
    store: &mut Store,
) -> Result<bool, NoMemory> {
    for state in STATES {
        if is_state(alloc, counts, store, state)? {
            return Ok(true);
        }
    }
    Ok(false)
}
