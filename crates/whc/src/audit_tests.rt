// Reports and audits of a store, over devices in memory.
use crate::runs::{Case, End, Held, Store, answer, show};
use crate::store_tests::{Fails, LOAD_B, LOADED_B, NONE, Row, Story, are_told, rows_end, store_of};
use crate::tests::{EMP, FILES_A, SALE, SPEC_B, USAGE};
use std::alloc::Global;
use std::test::Fail;
use wh_base::NoMemory;
use wh_command::Status;
use wh_steps::{NoLedger, Steps};

const OLDER: &[u8] = b"age,clerk\n23,Mary\n26,John\n32,Paula\n";

const HELD: Held<'static> = &[
    ("spec_b.txt", SPEC_B),
    ("dir_a/Emp.csv", EMP),
    ("dir_a/Sale.csv", SALE),
    ("f.csv", OLDER),
    ("change", b"-,Emp,John,25\n+,Emp,John,26\n"),
];

const BAD_HEADER: Held<'static> = &[
    ("spec_b.txt", SPEC_B),
    ("dir_a/Emp.csv", EMP),
    ("dir_a/Sale.csv", SALE),
    ("f.csv", b"clerk\nMary\n"),
];

const LOADED: Row<'static> = Row(LOAD_B, NONE, End(Status::Ok, LOADED_B, ""));

const AUDIT: &[&str] = &["audit", "Emp", "f.csv"];

const OLDER_BY_ONE: End<'static> = End(Status::Ok, "-,Emp,John,25\n+,Emp,John,26\n", "");

const NOTHING: End<'static> = End(Status::Ok, "", "");

const NOT_LOADED: End<'static> = End(Status::NotLoaded, "", "not loaded\n");

const REPORT: End<'static> = End(
    Status::Ok,
    "refreshes 0
view Sold 3
complement Emp 1
complement Sale 0 always empty
relation Emp 3
relation Sale 3
stored 4, sources 6\n",
    "",
);

const LATER_REPORT: End<'static> = End(
    Status::Ok,
    "refreshes 1
view Sold 3
complement Emp 1
complement Sale 0 always empty
relation Emp 3
relation Sale 3
stored 4, sources 6\n",
    "",
);

const USED_WRONG: End<'static> = End(Status::Usage, "", USAGE);

const STORIES: &[Story<'static>] = &[
    Story {
        first: b"",
        second: b"",
        disk_fails: &[],
        held: HELD,
        rows: &[
            // The store is opened before the name is read.
            Row(&["audit", "Nix", "nix"], NONE, NOT_LOADED),
            Row(&["report"], NONE, NOT_LOADED),
            LOADED,
            Row(&["report"], NONE, REPORT),
            Row(AUDIT, NONE, OLDER_BY_ONE),
            Row(&["audit", "Emp", "dir_a/Emp.csv"], NONE, NOTHING),
            // The name is read before the file.
            Row(
                &["audit", "Nix", "nix"],
                NONE,
                End(Status::BadInput, "", "input: unknown relation Nix\n"),
            ),
            Row(
                &["audit", "Sold", "f.csv"],
                NONE,
                End(Status::BadInput, "", "input: unknown relation Sold\n"),
            ),
            Row(
                &["audit", "Emp", "nix"],
                NONE,
                End(Status::NoFile, "", "no file: nix\n"),
            ),
            Row(&["audit", "Emp"], NONE, USED_WRONG),
            Row(&["audit"], NONE, USED_WRONG),
            Row(&["audit", "Emp", "f.csv", "f.csv"], NONE, USED_WRONG),
            Row(&["report", "x"], NONE, USED_WRONG),
            Row(
                AUDIT,
                Fails(&[1], &[]),
                End(Status::ReadFault, "", "read fault: f.csv\n"),
            ),
            Row(
                AUDIT,
                Fails(&[], &[1]),
                End(Status::WriteFault, "", "write fault\n"),
            ),
            Row(
                &["report"],
                Fails(&[], &[1]),
                End(Status::WriteFault, "", "write fault\n"),
            ),
            Row(
                &["refresh", "change"],
                NONE,
                End(
                    Status::Ok,
                    "change: refresh 1, sources -1 +1, stored -1 +1\n",
                    "",
                ),
            ),
            Row(AUDIT, NONE, NOTHING),
            Row(&["report"], NONE, LATER_REPORT),
        ],
        left: &[],
    },
    Story {
        first: b"",
        second: b"",
        disk_fails: &[],
        held: BAD_HEADER,
        rows: &[
            LOADED,
            Row(
                AUDIT,
                NONE,
                End(Status::BadInput, "", "input: f.csv: record 1: header\n"),
            ),
        ],
        left: &[],
    },
];

#[test]
fn stores_are_audited(rt: HostRuntime) -> Result<(), Fail> {
    let mut counts = Steps::new(&rt, NoLedger);
    assert!(rt; are_told(rt.alloc(), &mut counts, STORIES)?);
    Ok(())
}

const STORE_B: Story<'static> = Story {
    first: b"",
    second: b"",
    disk_fails: &[],
    held: FILES_A,
    rows: &[LOADED],
    left: &[],
};

// A dump, the change that leads there, and the relation's rows in row order then. The words ask for the change, make it,
// and ask for the rows.
struct Dump<'a> {
    audit: &'a [&'a str],
    refresh: &'a [&'a str],
    dump: &'a [&'a str],
    held: Held<'a>,
    change: &'a [u8],
    rows: &'a [u8],
}

// Whether a run ends with Ok and prints these bytes.
fn prints(
    alloc: Global,
    counts: &mut Steps<NoLedger>,
    store: &mut Store,
    case: &Case<'_>,
    told: &[u8],
) -> Result<bool, NoMemory> {
    let (status, text) = answer(alloc, counts, store, case)?;
    Ok(status == Status::Ok && text.as_bytes() == told)
}

fn is_ok(
    alloc: Global,
    counts: &mut Steps<NoLedger>,
    store: &mut Store,
    case: &Case<'_>,
) -> Result<bool, NoMemory> {
    let (status, _text) = answer(alloc, counts, store, case)?;
    Ok(status == Status::Ok)
}

// Makes the change that an audit prints, and audits again.
fn audit_comes_true(
    alloc: Global,
    counts: &mut Steps<NoLedger>,
    store: &mut Store,
    dump: &Dump<'_>,
) -> Result<bool, NoMemory> {
    let audit = show(dump.audit, dump.held);
    Ok(
        prints(alloc, counts, store, &audit, dump.change)?
            && is_ok(alloc, counts, store, &show(dump.refresh, dump.held))?
            && prints(alloc, counts, store, &audit, b"")?
            && prints(alloc, counts, store, &show(dump.dump, dump.held), dump.rows)?,
    )
}

fn audits_come_true(
    alloc: Global,
    counts: &mut Steps<NoLedger>,
    store: &mut Store,
) -> Result<bool, NoMemory> {
    for dump in DUMPS {
        if !audit_comes_true(alloc, counts, store, dump)? {
            return Ok(false);
        }
    }
    Ok(true)
}

fn loads_and_comes_true(
    alloc: Global,
    counts: &mut Steps<NoLedger>,
    store: &mut Store,
) -> Result<bool, NoMemory> {
    Ok(rows_end(alloc, counts, store, &STORE_B)? && audits_come_true(alloc, counts, store)?)
}

fn all_come_true(alloc: Global, counts: &mut Steps<NoLedger>) -> Result<bool, NoMemory> {
    let mut store = store_of(alloc, &STORE_B)?;
    loads_and_comes_true(alloc, counts, &mut store)
}

const REFRESH: &[&str] = &["refresh", "change"];

const AUDIT_SALE: &[&str] = &["audit", "Sale", "f.csv"];

const DUMP_EMP: &[&str] = &["dump", "Emp"];

const DUMP_SALE: &[&str] = &["dump", "Sale"];

const JOHN_IS_OLDER: &[u8] = b"-,Emp,John,25\n+,Emp,John,26\n";

const LI_COMES: &[u8] = b"-,Emp,Mary,23\n-,Emp,Paula,32\n+,Emp,\"Li, A\",40\n+,Emp,Mary,-1\n";

const OTHER_SALES: &[u8] = b"-,Sale,PC,John\n-,Sale,VCR,Mary\n+,Sale,\"a \"\"b\"\"\",John\n";

const NO_SALES: &[u8] = b"-,Sale,TV,Mary\n-,Sale,\"a \"\"b\"\"\",John\n";

const NO_CLERKS: &[u8] = b"-,Emp,John,26\n-,Emp,\"Li, A\",40\n-,Emp,Mary,-1\n";

const DUMPS: &[Dump<'static>] = &[
    Dump {
        audit: AUDIT,
        refresh: REFRESH,
        dump: DUMP_EMP,
        held: &[("f.csv", OLDER), ("change", JOHN_IS_OLDER)],
        change: JOHN_IS_OLDER,
        rows: b"clerk,age\nJohn,26\nMary,23\nPaula,32\n",
    },
    Dump {
        audit: AUDIT,
        refresh: REFRESH,
        dump: DUMP_EMP,
        held: &[
            (
                "f.csv",
                b"clerk,age\r\n\"Li, A\",40\r\nMary,-1\r\nJohn,26\r\n\"Li, A\",40\r\n",
            ),
            ("change", LI_COMES),
        ],
        change: LI_COMES,
        rows: b"clerk,age\nJohn,26\n\"Li, A\",40\nMary,-1\n",
    },
    Dump {
        audit: AUDIT_SALE,
        refresh: REFRESH,
        dump: DUMP_SALE,
        held: &[
            ("f.csv", b"clerk,item\nMary,TV\nJohn,\"a \"\"b\"\"\"\n"),
            ("change", OTHER_SALES),
        ],
        change: OTHER_SALES,
        rows: b"item,clerk\nTV,Mary\n\"a \"\"b\"\"\",John\n",
    },
    Dump {
        audit: AUDIT_SALE,
        refresh: REFRESH,
        dump: DUMP_SALE,
        held: &[("f.csv", b"item,clerk\n"), ("change", NO_SALES)],
        change: NO_SALES,
        rows: b"item,clerk\n",
    },
    Dump {
        audit: AUDIT,
        refresh: REFRESH,
        dump: DUMP_EMP,
        held: &[("f.csv", b"clerk,age\n"), ("change", NO_CLERKS)],
        change: NO_CLERKS,
        rows: b"clerk,age\n",
    },
];

#[test]
fn an_audit_is_the_change_to_make(rt: HostRuntime) -> Result<(), Fail> {
    let mut counts = Steps::new(&rt, NoLedger);
    assert!(rt; all_come_true(rt.alloc(), &mut counts)?);
    Ok(())
}
