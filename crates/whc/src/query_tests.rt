// Queries over a store, over devices in memory.
use crate::runs::{End, Store, ends, show};
use crate::store_tests::{LOAD_B, LOADED_B, NONE, Row, Story, are_told, rows_end, store_of};
use crate::tests::FILES_A;
use std::alloc::Global;
use std::test::Fail;
use wh_base::NoMemory;
use wh_command::Status;
use wh_steps::{NoLedger, Steps};

const SOLD_ROWS: &str = "item,clerk,age\nPC,John,25\nTV,Mary,23\nVCR,Mary,23\n";

const ANSWERS: &[Story<'static>] = &[Story {
    first: b"",
    second: b"\x02",
    disk_fails: &[],
    held: FILES_A,
    rows: &[
        // The store is opened before the query is read.
        Row(
            &["query", "(("],
            NONE,
            End(Status::NotLoaded, "", "not loaded\n"),
        ),
        Row(LOAD_B, NONE, End(Status::Ok, LOADED_B, "")),
        Row(
            &["query", "Emp"],
            NONE,
            End(Status::Ok, "clerk,age\nJohn,25\nMary,23\nPaula,32\n", ""),
        ),
        Row(&["query", "Sold"], NONE, End(Status::Ok, SOLD_ROWS, "")),
        Row(
            &["query", "Sale join Emp -- as the view"],
            NONE,
            End(Status::Ok, SOLD_ROWS, ""),
        ),
        Row(
            &[
                "query",
                "(project (clerk) Emp) minus (project (clerk) Sale)",
            ],
            NONE,
            End(Status::Ok, "clerk\nPaula\n", ""),
        ),
        Row(
            &["query", "select (clerk = 'Mary') Emp"],
            NONE,
            End(Status::Ok, "clerk,age\nMary,23\n", ""),
        ),
        Row(
            &[
                "query",
                "select (age < 24 or not age <= 25 and clerk <> 'Paul') Emp",
            ],
            NONE,
            End(Status::Ok, "clerk,age\nMary,23\nPaula,32\n", ""),
        ),
        Row(
            &["query", "select (age > 32) Emp"],
            NONE,
            End(Status::Ok, "clerk,age\n", ""),
        ),
        Row(
            &["query", "project (age, item) Sold"],
            NONE,
            End(Status::Ok, "age,item\n23,TV\n23,VCR\n25,PC\n", ""),
        ),
        // The rows of the right side are put in the order of the left one.
        Row(
            &["query", "project (age, clerk) Sold union Emp"],
            NONE,
            End(Status::Ok, "age,clerk\n23,Mary\n25,John\n32,Paula\n", ""),
        ),
        Row(
            &["query", "Emp minus project (age, clerk) Sold"],
            NONE,
            End(Status::Ok, "clerk,age\nPaula,32\n", ""),
        ),
        // Two names are exchanged at once.
        Row(
            &["query", "rename (clerk to age, age to clerk) Emp"],
            NONE,
            End(Status::Ok, "age,clerk\nJohn,25\nMary,23\nPaula,32\n", ""),
        ),
        // Nothing is shared, so every pair joins.
        Row(
            &[
                "query",
                "project (item) select (clerk = 'Mary') Sale join project (age) Emp",
            ],
            NONE,
            End(
                Status::Ok,
                "item,age\nTV,23\nTV,25\nTV,32\nVCR,23\nVCR,25\nVCR,32\n",
                "",
            ),
        ),
    ],
    left: &[],
}];

#[test]
fn queries_are_answered(rt: HostRuntime) -> Result<(), Fail> {
    let mut counts = Steps::new(&rt, NoLedger);
    assert!(rt; are_told(rt.alloc(), &mut counts, ANSWERS)?);
    Ok(())
}

// A query in which a piece is repeated, and what it comes to.
#[derive(Clone, Copy)]
struct Query<'a>(&'a str, &'a str, usize, &'a str, End<'a>);

fn append_times(text: &mut String, piece: &str, count: usize) -> Result<(), NoMemory> {
    for _ in 0..count {
        text.push_str(piece)?;
    }
    Ok(())
}

fn text_of(alloc: Global, query: &Query<'_>) -> Result<String, NoMemory> {
    let Query(before, piece, count, after, _end) = query;
    let mut text = String::from_str(alloc, before)?;
    append_times(&mut text, piece, *count)?;
    text.push_str(after)?;
    Ok(text)
}

// Whether a query's text comes to this end over the store.
fn text_ends(
    alloc: Global,
    counts: &mut Steps<NoLedger>,
    store: &mut Store,
    text: &str,
    end: &End<'_>,
) -> Result<bool, NoMemory> {
    let words = ["query", text];
    ends(alloc, counts, store, &show(&words, &[]), end)
}

fn is_told(
    alloc: Global,
    counts: &mut Steps<NoLedger>,
    store: &mut Store,
    query: &Query<'_>,
) -> Result<bool, NoMemory> {
    let text = text_of(alloc, query)?;
    text_ends(alloc, counts, store, text.as_str(), &query.4)
}

fn queries_are_told(
    alloc: Global,
    counts: &mut Steps<NoLedger>,
    store: &mut Store,
) -> Result<bool, NoMemory> {
    for query in QUERIES {
        if !is_told(alloc, counts, store, query)? {
            return Ok(false);
        }
    }
    Ok(true)
}

fn loads_and_tells(
    alloc: Global,
    counts: &mut Steps<NoLedger>,
    store: &mut Store,
) -> Result<bool, NoMemory> {
    Ok(rows_end(alloc, counts, store, &STORE_RS)? && queries_are_told(alloc, counts, store)?)
}

fn all_are_told(alloc: Global, counts: &mut Steps<NoLedger>) -> Result<bool, NoMemory> {
    let mut store = store_of(alloc, &STORE_RS)?;
    loads_and_tells(alloc, counts, &mut store)
}

const STORE_RS: Story<'static> = Story {
    first: b"",
    second: b"",
    disk_fails: &[],
    held: &[
        (
            "s",
            b"relation R(k int, a int) key (k); relation S(k int, b text) key (k);",
        ),
        ("d/R.csv", b"k,a\n1,5\n"),
        ("d/S.csv", b"k,b\n1,x\n"),
    ],
    rows: &[Row(
        &["load", "s", "d"],
        NONE,
        End(Status::Ok, "loaded: tables 2, rows 2\n", ""),
    )],
    left: &[],
};

const QUERIES: &[Query<'static>] = &[
    Query(
        "Nix",
        "",
        0,
        "",
        End(Status::BadInput, "", "query: byte 0: unknown name\n"),
    ),
    Query(
        "R union C_R",
        "",
        0,
        "",
        End(Status::BadInput, "", "query: byte 8: unknown name\n"),
    ),
    Query(
        "R join project (nix) R",
        "",
        0,
        "",
        End(Status::BadInput, "", "query: byte 7: unknown attribute\n"),
    ),
    Query(
        "project (k, a, k) R",
        "",
        0,
        "",
        End(Status::BadInput, "", "query: byte 0: repeated attribute\n"),
    ),
    Query(
        "select (a = 'x') R",
        "",
        0,
        "",
        End(Status::BadInput, "", "query: byte 0: kinds differ\n"),
    ),
    Query(
        "R join rename (b to a) S",
        "",
        0,
        "",
        End(Status::BadInput, "", "query: byte 2: kinds differ\n"),
    ),
    Query(
        "R minus S",
        "",
        0,
        "",
        End(Status::BadInput, "", "query: byte 2: heads differ\n"),
    ),
    Query(
        "R union",
        "",
        0,
        "",
        End(Status::BadInput, "", "query: byte 7: syntax\n"),
    ),
    Query(
        "R ?",
        "",
        0,
        "",
        End(Status::BadInput, "", "query: byte 2: bad byte\n"),
    ),
    Query(
        "select (b = 'x) S",
        "",
        0,
        "",
        End(Status::BadInput, "", "query: byte 12: open quote\n"),
    ),
    Query(
        "select (k = 9223372036854775808) R",
        "",
        0,
        "",
        End(
            Status::BadInput,
            "",
            "query: byte 12: number out of range\n",
        ),
    ),
    Query(
        "'",
        "a",
        65536,
        "'",
        End(Status::BadInput, "", "query: byte 0: text too long\n"),
    ),
    Query(
        "",
        "(",
        65,
        "R",
        End(Status::BadInput, "", "query: byte 64: too nested\n"),
    ),
    // The connective that is one too many.
    Query(
        "R",
        " union R",
        2001,
        "",
        End(Status::BadInput, "", "query: byte 16002: too nested\n"),
    ),
    Query(
        "R",
        " union R",
        2000,
        "",
        End(Status::BadInput, "", "query: byte 0: too deep\n"),
    ),
    Query(
        "",
        "project (k) ",
        64,
        "R",
        End(Status::BadInput, "", "query: byte 0: too deep\n"),
    ),
    Query("", "project (k) ", 63, "R", End(Status::Ok, "k\n1\n", "")),
    Query(
        "select (k = 1",
        " or k = 1",
        499,
        ") R",
        End(Status::BadInput, "", "query: byte 0: too big\n"),
    ),
    // A thousand nodes.
    Query(
        "project (k) select (k = 1",
        " or k = 1",
        498,
        ") R",
        End(Status::Ok, "k\n1\n", ""),
    ),
];

#[test]
fn queries_are_refused_at_their_place(rt: HostRuntime) -> Result<(), Fail> {
    let mut counts = Steps::new(&rt, NoLedger);
    assert!(rt; all_are_told(rt.alloc(), &mut counts)?);
    Ok(())
}
