// The top call over devices in memory: worked rows, byte by byte.
use crate::runs::{Case, End, Held, ends_apart, show};
use std::alloc::Global;
use std::test::Fail;
use wh_base::NoMemory;
use wh_command::Status;
use wh_steps::{NoLedger, Steps};

// A run that nothing fails: its words, the files that are held, and its end.
#[derive(Clone, Copy)]
struct Run<'a>(&'a [&'a str], Held<'a>, End<'a>);

// Whether each run comes to its end.
fn all_end(
    alloc: Global,
    counts: &mut Steps<NoLedger>,
    runs: &[Run<'_>],
) -> Result<bool, NoMemory> {
    for Run(words, held, end) in runs {
        if !ends_apart(alloc, counts, &show(words, held), end)? {
            return Ok(false);
        }
    }
    Ok(true)
}

// The same of runs in which calls fail.
fn all_cases_end(
    alloc: Global,
    counts: &mut Steps<NoLedger>,
    cases: &[(Case<'_>, End<'_>)],
) -> Result<bool, NoMemory> {
    for (case, end) in cases {
        if !ends_apart(alloc, counts, case, end)? {
            return Ok(false);
        }
    }
    Ok(true)
}

fn all_come_to(
    alloc: Global,
    counts: &mut Steps<NoLedger>,
    runs: &[Run<'_>],
    cases: &[(Case<'_>, End<'_>)],
) -> Result<bool, NoMemory> {
    Ok(all_end(alloc, counts, runs)? && all_cases_end(alloc, counts, cases)?)
}

const SPEC_A: &[u8] = b"relation Emp(clerk text, age int) key (clerk);
relation Sale(item text, clerk text) key (item, clerk);
view Sold = Sale join Emp;
";

pub(crate) const SPEC_B: &[u8] = b"relation Emp(clerk text, age int) key (clerk);
relation Sale(item text, clerk text) key (item, clerk);
inclusion Sale(clerk) in Emp(clerk);
view Sold = Sale join Emp;
";

pub(crate) const EMP: &[u8] = b"clerk,age\nMary,23\nJohn,25\nPaula,32\n";

pub(crate) const SALE: &[u8] = b"item,clerk\nTV,Mary\nVCR,Mary\nPC,John\n";

pub(crate) const FILES_A: Held<'static> = &[
    ("spec_a.txt", SPEC_A),
    ("spec_b.txt", SPEC_B),
    ("dir_a/Emp.csv", EMP),
    ("dir_a/Sale.csv", SALE),
];

const SHOW_A: &[&str] = &["show", "spec_a.txt", "dir_a"];

const SOLD: &str = "view Sold: 3\nitem,clerk,age\nPC,John,25\nTV,Mary,23\nVCR,Mary,23\n";

const STORED_A: &str = "view Sold: 3\nitem,clerk,age\nPC,John,25\nTV,Mary,23\nVCR,Mary,23
complement Emp: 1\nclerk,age\nPaula,32
complement Sale: 0\nitem,clerk\n";

const SHOW_B: &[&str] = &["show", "spec_b.txt", "dir_a"];

const SHOW: &[&str] = &["show", "s", "d"];

const ITEMS: &[u8] = b"relation Item(sku int, cat int, price int) key (sku);
relation Line(line int, sku int, cat int) key (line);
inclusion Line(sku, cat) in Item(sku, cat);
view Prices(sku, price) = Item;
";

const PICKS: &[u8] = b"relation Item(sku int, cat int) key (sku);
relation Pick(pick int, cat int) key (pick);
inclusion Pick(cat) in Item(cat);
";

const PLAN_B: &str = "order: Sale, Emp
relation Emp
piece 1: project (clerk, age) Sold
piece 2: project (clerk) Sale
cover: 1
inverse: C_Emp union project (clerk, age) Sold
always empty: no
key probes: not stated
relation Sale
piece 1: project (item, clerk) Sold
cover: 1
inverse: C_Sale union project (item, clerk) Sold
always empty: yes
key probes: 2
";

const PLAN_HEADS: &str = "order: R
relation R
piece 1: project (k, a) Va
piece 2: project (k, b) Vb
cover: 1, 2
inverse: C_R union project (k, a) Va join project (k, b) Vb
always empty: no
key probes: 3
";

const PLAN_ITEMS: &str = "order: Line, Item
relation Item
piece 1: project (sku, price) Prices
piece 2: project (sku, cat) Line
cover: 1, 2
inverse: C_Item union project (sku, cat, price) (project (sku, price) Prices join project (sku, cat) Line)
always empty: no
key probes: not stated
relation Line
inverse: C_Line
always empty: no
key probes: 1
";

const PLAN_PICKS: &str = "order: Pick, Item
relation Item
inverse: C_Item
always empty: no
key probes: 1
relation Pick
inverse: C_Pick
always empty: no
key probes: 1
";

// An inclusion between columns of other names, declared twice: two pieces, and each is a cover.
const REFS: &[u8] = b"relation Item(sku int) key (sku); relation Line(line int, ref int) key (line);
inclusion Line(ref) in Item(sku); inclusion Line(ref) in Item(sku);
";

const PLAN_REFS: &str = "order: Line, Item
relation Item
piece 1: rename (ref to sku) project (ref) Line
piece 2: rename (ref to sku) project (ref) Line
cover: 1
cover: 2
inverse: C_Item union rename (ref to sku) project (ref) Line union rename (ref to sku) project (ref) Line
always empty: no
key probes: not stated
relation Line
inverse: C_Line
always empty: no
key probes: 1
";

const PIECES_12: &[u8] = b"relation R(k int, a int) key (k);
view V1 = R; view V2 = R; view V3 = R; view V4 = R; view V5 = R; view V6 = R; view V7 = R;
view V8 = R; view V9 = R; view V10 = R; view V11 = R; view V12 = R;";

const PLAN_12: &str = "order: R
relation R
piece 1: project (k, a) V1
piece 2: project (k, a) V2
piece 3: project (k, a) V3
piece 4: project (k, a) V4
piece 5: project (k, a) V5
piece 6: project (k, a) V6
piece 7: project (k, a) V7
piece 8: project (k, a) V8
piece 9: project (k, a) V9
piece 10: project (k, a) V10
piece 11: project (k, a) V11
piece 12: project (k, a) V12
cover: 1
cover: 2
cover: 3
cover: 4
cover: 5
cover: 6
cover: 7
cover: 8
cover: 9
cover: 10
cover: 11
cover: 12
inverse: C_R union project (k, a) V1 union project (k, a) V2 union project (k, a) V3 union project (k, a) V4 union project (k, a) V5 union project (k, a) V6 union project (k, a) V7 union project (k, a) V8 union project (k, a) V9 union project (k, a) V10 union project (k, a) V11 union project (k, a) V12
always empty: yes
key probes: 13
";

const CYCLE: &[u8] =
    b"relation A(x int) key (x); relation B(x int) key (x); relation C(x int) key (x);
inclusion A(x) in B(x); inclusion B(x) in C(x); inclusion C(x) in A(x);";

const NOTE: &[u8] = b"relation Note(id int, body text) key (id);";

const OLD: &[u8] = b"relation Emp(clerk text, age int) key (clerk); view Old = Emp where age > 30;";

const HEADS: &[u8] = b"relation R(k int, a int, b int) key (k);
view Va(k, a) = R where a > 0; view Vb(k, b) = R where b > 0;";

const T: &[u8] = b"relation T(k int, v text) key (k);";

const MARKED_T: &[u8] =
    b"\xef\xbb\xbfrelation T(k int, v text) key (k); -- one mark is taken off\n";

const QUOTED: &[u8] = b"\xef\xbb\xbfk,v\r\n-9223372036854775808,\"a,b\"\r
1,\"say \"\"x\"\"\"\r\n2,\"two\nlines\"\r\n";

const SHOWN: &[Run<'static>] = &[
    Run(SHOW_A, FILES_A, End(Status::Ok, STORED_A, "")),
    Run(
        SHOW,
        &[("s", NOTE), ("d/Note.csv", b"id,body\n2,b\n1,a\n")],
        End(Status::Ok, "complement Note: 2\nid,body\n1,a\n2,b\n", ""),
    ),
    Run(
        SHOW,
        &[("s", OLD), ("d/Emp.csv", EMP)],
        End(
            Status::Ok,
            "view Old: 1\nclerk,age\nPaula,32\ncomplement Emp: 2\nclerk,age\nJohn,25\nMary,23\n",
            "",
        ),
    ),
    Run(
        SHOW,
        &[("s", HEADS), ("d/R.csv", b"k,a,b\n1,5,6\n2,0,7\n3,8,0\n")],
        End(
            Status::Ok,
            "view Va: 2\nk,a\n1,5\n3,8\nview Vb: 2\nk,b\n1,6\n2,7\ncomplement R: 2\nk,a,b\n2,0,7\n3,8,0\n",
            "",
        ),
    ),
    Run(
        SHOW,
        &[("s", MARKED_T), ("d/T.csv", QUOTED)],
        End(
            Status::Ok,
            "complement T: 3\nk,v\n-9223372036854775808,\"a,b\"\n1,\"say \"\"x\"\"\"\n2,\"two\nlines\"\n",
            "",
        ),
    ),
    // A lone CR ends a record, and so does the end of the text inside quotes. A quote opens a field only as its
    // first byte, and what stands behind a closing one belongs to the field. The columns stand in any order,
    // and a row that comes again is one row.
    Run(
        SHOW,
        &[
            ("s", T),
            (
                "d/T.csv",
                b"v,k\r\"a\"b\"c,+01\n\nx\"y,3\n\"\",4\nx\"y,3\nopen,\"2",
            ),
        ],
        End(
            Status::Ok,
            "complement T: 4\nk,v\n1,\"ab\"\"c\"\n2,open\n3,\"x\"\"y\"\n4,\"\"\n",
            "",
        ),
    ),
    Run(
        &["plan", "spec_b.txt"],
        FILES_A,
        End(Status::Ok, PLAN_B, ""),
    ),
    Run(
        &["plan", "s"],
        &[("s", HEADS)],
        End(Status::Ok, PLAN_HEADS, ""),
    ),
    Run(
        &["plan", "s"],
        &[("s", ITEMS)],
        End(Status::Ok, PLAN_ITEMS, ""),
    ),
    Run(
        &["plan", "s"],
        &[("s", PICKS)],
        End(Status::Ok, PLAN_PICKS, ""),
    ),
    Run(
        &["plan", "s"],
        &[("s", REFS)],
        End(Status::Ok, PLAN_REFS, ""),
    ),
    Run(
        &["plan", "s"],
        &[("s", PIECES_12)],
        End(Status::Ok, PLAN_12, ""),
    ),
    Run(
        &["plan", "s"],
        &[("s", b"")],
        End(Status::Ok, "order: \n", ""),
    ),
    Run(SHOW, &[("s", b"")], End(Status::Ok, "", "")),
    Run(
        SHOW,
        &[("s", b"\xef\xbb\xbf -- nothing\r\n\t")],
        End(Status::Ok, "", ""),
    ),
    Run(SHOW_B, FILES_A, End(Status::Ok, STORED_A, "")),
    Run(
        SHOW,
        &[
            ("s", ITEMS),
            ("d/Item.csv", b"sku,cat,price\n1,10,100\n2,20,200\n"),
            ("d/Line.csv", b"line,sku,cat\n7,1,10\n"),
        ],
        End(
            Status::Ok,
            "view Prices: 2\nsku,price\n1,100\n2,200\ncomplement Item: 1\nsku,cat,price\n2,20,200\ncomplement Line: 1\nline,sku,cat\n7,1,10\n",
            "",
        ),
    ),
];

// A sink that takes one byte in a call.
const BY_BYTES: &[(Case<'static>, End<'static>)] = &[(
    Case {
        words: SHOW_A,
        held: FILES_A,
        read_fails: &[],
        out_most: 1,
        out_fails: &[],
        err_fails: &[],
    },
    End(Status::Ok, STORED_A, ""),
)];

#[test]
fn stored_tables_are_printed(rt: HostRuntime) -> Result<(), Fail> {
    let mut counts = Steps::new(&rt, NoLedger);
    assert!(rt; all_come_to(rt.alloc(), &mut counts, SHOWN, BY_BYTES)?);
    Ok(())
}

const PIECES_13: &[u8] = b"relation R(k int, a int) key (k);
view V1 = R; view V2 = R; view V3 = R; view V4 = R; view V5 = R; view V6 = R; view V7 = R;
view V8 = R; view V9 = R; view V10 = R; view V11 = R; view V12 = R; view V13 = R;";

const LONG_NAME: &[u8] = b"relation R(k int) key (k);
view V = R where aaaaaaaaaaaaaaaaaaaaaaaaaaaaaaaaaaaaaaaaaaaaaaaaaaaaaaaaaaaaaaaaa = 1;";

// Specifications, and the line of the fault of each.
const BAD_SPECS: &[(&[u8], &str)] = &[
    (b"relation R(k int key (k);", "spec: byte 17: syntax\n"),
    (b"relation R(k int) key (k)", "spec: byte 25: syntax\n"),
    (
        b"relation R(k int, k int) key (k);",
        "spec: statement 1: repeated name k\n",
    ),
    (
        b"relation R(k int) key (k); view V = R; view W = V;",
        "spec: statement 3: unknown relation V\n",
    ),
    (LONG_NAME, "spec: statement 2: limit: name\n"),
    (
        CYCLE,
        "spec: statement 6: cyclic inclusion C -> A -> B -> C\n",
    ),
    (
        b"relation P(id int, boss int) key (id); inclusion P(boss) in P(id);",
        "spec: statement 2: cyclic inclusion P -> P\n",
    ),
    (
        b"relation P(id int, boss text) key (id); relation Q(id int) key (id); inclusion P(boss) in Q(id);",
        "spec: statement 3: bad inclusion\n",
    ),
    (PIECES_13, "spec: relation R has 13 pieces\n"),
    (b"\xef\xbb\xbf\xef\xbb\xbf", "spec: byte 0: bad byte\n"),
    (b"\xef\xbb\xbf -- \xc3\n", "spec: byte 4: bad byte\n"),
    (b"'a\xffc", "spec: byte 0: open quote\n"),
    (b"'a\xffc'", "spec: byte 2: bad byte\n"),
    (
        b"k = 'it''s' 9223372036854775808",
        "spec: byte 12: number out of range\n",
    ),
    // Sixty-five parentheses open at once: a mark that closes nothing is no credit, and `;` closes none.
    (
        b")(((((((((((((((((((((((((((((((((((((((((((((((((((((((((((((((((",
        "spec: byte 65: too nested\n",
    ),
    (
        b"((((((((((((((((((((((((((((((((((((((((((((((((((((((((((((((((;(",
        "spec: byte 65: too nested\n",
    ),
];

fn is_bad_spec(
    alloc: Global,
    counts: &mut Steps<NoLedger>,
    spec: &[u8],
    line: &str,
) -> Result<bool, NoMemory> {
    let held = [("s", spec)];
    let end = End(Status::BadSpec, "", line);
    ends_apart(alloc, counts, &show(SHOW, &held), &end)
}

fn are_bad_specs(alloc: Global, counts: &mut Steps<NoLedger>) -> Result<bool, NoMemory> {
    for (spec, line) in BAD_SPECS {
        if !is_bad_spec(alloc, counts, spec, line)? {
            return Ok(false);
        }
    }
    Ok(true)
}

#[test]
fn each_specification_is_refused_at_its_place(rt: HostRuntime) -> Result<(), Fail> {
    let mut counts = Steps::new(&rt, NoLedger);
    assert!(rt; are_bad_specs(rt.alloc(), &mut counts)?);
    Ok(())
}

pub(crate) const USAGE: &str =
    "usage: whc STORE COMMAND\n  show SPEC DIR\n  plan SPEC\n  load SPEC DIR\n  refresh FILE..\n  query TEXT\n  dump RELATION\n  audit RELATION FILE\n  report\n  make NUMBER SIZE\n";

const HELD_T: &[(&str, &[u8])] = &[
    ("s", T),
    ("twice/T.csv", b"\xef\xbb\xbf\xef\xbb\xbfk,v\n1,a\n"),
    ("range/T.csv", b"k,v\n9223372036854775808,\"a,b\"\n"),
    ("other/T.csv", b"k,w\n1,a\n"),
    ("empty/T.csv", b"\n"),
    ("wide/T.csv", b"k,v\n1,a\n2,b,c\n"),
    ("left/T.csv", b"v,k\n\xff,z\n"),
];

const KEY_TWICE: Held<'static> = &[
    ("spec_a.txt", SPEC_A),
    ("dir_a/Emp.csv", b"clerk,age\nMary,23\nMary,24\n"),
    ("dir_a/Sale.csv", SALE),
];

// The bytes of a capital E with an accent stand above those of every ASCII letter.
const LACKING: Held<'static> = &[
    ("spec_b.txt", SPEC_B),
    ("dir_a/Emp.csv", EMP),
    (
        "dir_a/Sale.csv",
        b"item,clerk\nX,\xc3\x89mile\nX,Zoe\nTV,Mary\n",
    ),
];

const ALONE: Held<'static> = &[("spec_a.txt", SPEC_A), ("dir_a/Emp.csv", EMP)];

const REFUSED: &[Run<'static>] = &[
    Run(
        SHOW_A,
        KEY_TWICE,
        End(
            Status::Refused,
            "",
            "refused: key 1 Emp(clerk) twice (Mary)\n",
        ),
    ),
    Run(
        SHOW_B,
        LACKING,
        End(
            Status::Refused,
            "",
            "refused: inclusion 3 Sale(clerk) in Emp(clerk) lacks (Zoe)\n",
        ),
    ),
    Run(
        &["show", "s", "twice"],
        HELD_T,
        End(
            Status::BadInput,
            "",
            "input: twice/T.csv: record 1: header\n",
        ),
    ),
    Run(
        &["show", "s", "range"],
        HELD_T,
        End(
            Status::BadInput,
            "",
            "input: range/T.csv: record 2: bad integer\n",
        ),
    ),
    Run(
        &["show", "s", "other"],
        HELD_T,
        End(
            Status::BadInput,
            "",
            "input: other/T.csv: record 1: header\n",
        ),
    ),
    Run(
        &["show", "s", "empty"],
        HELD_T,
        End(
            Status::BadInput,
            "",
            "input: empty/T.csv: record 1: header\n",
        ),
    ),
    Run(
        &["show", "s", "wide"],
        HELD_T,
        End(
            Status::BadInput,
            "",
            "input: wide/T.csv: record 3: wrong width\n",
        ),
    ),
    Run(
        &["show", "s", "left"],
        HELD_T,
        End(
            Status::BadInput,
            "",
            "input: left/T.csv: record 2: not UTF-8\n",
        ),
    ),
    Run(
        &["show", "s", "none/"],
        HELD_T,
        End(Status::NoFile, "", "no file: none//T.csv\n"),
    ),
    Run(
        SHOW_A,
        ALONE,
        End(Status::NoFile, "", "no file: dir_a/Sale.csv\n"),
    ),
    Run(
        SHOW_A,
        HELD_T,
        End(Status::NoFile, "", "no file: spec_a.txt\n"),
    ),
    Run(
        &["plan", "s"],
        &[("s", PIECES_13)],
        End(Status::BadSpec, "", "spec: relation R has 13 pieces\n"),
    ),
    Run(&[], FILES_A, End(Status::Usage, "", USAGE)),
    Run(&["plan"], FILES_A, End(Status::Usage, "", USAGE)),
    Run(&["show"], FILES_A, End(Status::Usage, "", USAGE)),
    Run(
        &["show", "spec_a.txt", "dir_a", ""],
        FILES_A,
        End(Status::Usage, "", USAGE),
    ),
    Run(
        &["Show", "spec_a.txt", "dir_a"],
        FILES_A,
        End(Status::Usage, "", USAGE),
    ),
];

const FAILING: &[(Case<'static>, End<'static>)] = &[
    (
        Case {
            words: SHOW_A,
            held: FILES_A,
            read_fails: &[2],
            out_most: 1000,
            out_fails: &[],
            err_fails: &[],
        },
        End(Status::ReadFault, "", "read fault: dir_a/Emp.csv\n"),
    ),
    (
        Case {
            words: SHOW_A,
            held: FILES_A,
            read_fails: &[],
            out_most: 1000,
            out_fails: &[1],
            err_fails: &[],
        },
        End(Status::WriteFault, "", "write fault\n"),
    ),
    (
        Case {
            words: SHOW_A,
            held: FILES_A,
            read_fails: &[],
            out_most: 1000,
            out_fails: &[2],
            err_fails: &[],
        },
        End(Status::WriteFault, SOLD, "write fault\n"),
    ),
    // Where `err` fails as well, a refusal gives way to WriteFault, and a fault stays.
    (
        Case {
            words: SHOW_A,
            held: ALONE,
            read_fails: &[],
            out_most: 1000,
            out_fails: &[],
            err_fails: &[2],
        },
        End(Status::WriteFault, "", "no file: "),
    ),
    (
        Case {
            words: &["show"],
            held: FILES_A,
            read_fails: &[],
            out_most: 1000,
            out_fails: &[],
            err_fails: &[1],
        },
        End(Status::WriteFault, "", ""),
    ),
    (
        Case {
            words: SHOW_A,
            held: FILES_A,
            read_fails: &[1],
            out_most: 1000,
            out_fails: &[],
            err_fails: &[1],
        },
        End(Status::ReadFault, "", ""),
    ),
];

#[test]
fn refusals_and_faults_are_told(rt: HostRuntime) -> Result<(), Fail> {
    let mut counts = Steps::new(&rt, NoLedger);
    assert!(rt; all_come_to(rt.alloc(), &mut counts, REFUSED, FAILING)?);
    Ok(())
}
