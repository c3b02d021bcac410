// The lines of queries: of a fault, or the printed form and the attributes.
ghost use Rattle.std.specs.Prelude.{◌+◌, ◌<◌, ◌^◌, length};

use crate::pieces::{Repeated, text_of};
use std::alloc::Global;
use std::test::Fail;
use wh_base::{Attr, ByteText, NoMemory};
use wh_query_text::{Query, parse_query, print_expr, put_query_fault};
use wh_schema::{Spec, heads};
use wh_spec_text::parse_spec;

const SPEC: &[u8] = b"relation R(k int, a int) key (k);
relation S(k int, b text) key (k);
view V(a, k) = R;
";

// A text, and its line.
type Told<'a> = (&'a [u8], &'a [u8]);

const FAULTS: &[Told<'_>] = &[
    (b"", b"byte 0: syntax"),
    (b"R union", b"byte 7: syntax"),
    (b"R V", b"byte 2: syntax"),
    (b"project () R", b"byte 9: syntax"),
    (b"select R", b"byte 7: syntax"),
    (b"rename (a b) R", b"byte 10: syntax"),
    (b"R; ", b"byte 1: syntax"),
    (b" \xff", b"byte 1: bad byte"),
    // No byte order mark is taken off.
    (b"\xef\xbb\xbfR", b"byte 0: bad byte"),
    (b"select (a = 'x) R", b"byte 12: open quote"),
    (b"9223372036854775808", b"byte 0: number out of range"),
    (b"R union C_R", b"byte 8: unknown name"),
    (b"project (k) (R join Nix)", b"byte 20: unknown name"),
    // Parts come before the node, and the left one before the right one.
    (b"project (nix) Nix minus Nix", b"byte 14: unknown name"),
    (b"R join project (nix) R", b"byte 7: unknown attribute"),
    (b"project (a, a, nix) R", b"byte 0: unknown attribute"),
    (b"project (a, a) R", b"byte 0: repeated attribute"),
    (b"rename (a to b, a to c) R", b"byte 0: repeated attribute"),
    (b"R union rename (a to k) R", b"byte 8: repeated attribute"),
    (b"select (a = 'x' and nix = 1) R", b"byte 0: kinds differ"),
    (b"R join rename (b to a) S", b"byte 2: kinds differ"),
    (b"(R) minus S", b"byte 4: heads differ"),
    (b"R minus (R minus S)", b"byte 11: heads differ"),
    (b"R minus R join S minus V", b"byte 2: heads differ"),
];

const REPEATED_FAULTS: &[Repeated<'_>] = &[
    Repeated {
        before: b"'",
        piece: b"a",
        count: 65536,
        after: b"'",
        line: b"byte 0: text too long",
    },
    Repeated {
        before: b"",
        piece: b"(",
        count: 65,
        after: b"R",
        line: b"byte 64: too nested",
    },
    // Nesting comes before syntax, and the depth before the rules of the nodes.
    Repeated {
        before: b"union ",
        piece: b"(",
        count: 65,
        after: b"R",
        line: b"byte 70: too nested",
    },
    Repeated {
        before: b"",
        piece: b"project (k) ",
        count: 64,
        after: b"Nix",
        line: b"byte 0: too deep",
    },
    Repeated {
        before: b"",
        piece: b"project (k) ",
        count: 63,
        after: b"Nix",
        line: b"byte 756: unknown name",
    },
    Repeated {
        before: b"select (nix = 1",
        piece: b" or k = 1",
        count: 499,
        after: b") R",
        line: b"byte 0: too big",
    },
    Repeated {
        before: b"select (nix = 1",
        piece: b" or k = 1",
        count: 498,
        after: b") R",
        line: b"byte 0: unknown attribute",
    },
];

const QUERIES: &[Told<'_>] = &[
    (b" R -- a relation", b"R: k a"),
    (b"V", b"V: a k"),
    // The right side may have its attributes in another order.
    (b"R union V", b"R union V: k a"),
    (b"R minus V union R", b"R minus V union R: k a"),
    (b"R minus (V union R)", b"R minus (V union R): k a"),
    (
        b"((R)) join S minus(R join S)",
        b"R join S minus R join S: k a b",
    ),
    (b"R join (S join V)", b"R join (S join V): k a b"),
    (b"(R minus V) join S", b"(R minus V) join S: k a b"),
    (b"project (b) S join R", b"project (b) S join R: b k a"),
    (b"project (b) (R join S)", b"project (b) (R join S): b"),
    // Names change at once, and so two of them may change places.
    (
        b"rename (k to a, a to k) R",
        b"rename (k to a, a to k) R: a k",
    ),
    (
        b"select (not(k = -007 or a <> k)) R",
        b"select (not (k = -7 or a <> k)) R: k a",
    ),
    (
        b"project (k)(project (k) R)",
        b"project (k) project (k) R: k",
    ),
];

fn put_attrs(line: &mut ByteText, attrs: &[Attr]) -> Result<(), NoMemory> {
    line.append(b":")?;
    for attr in attrs {
        line.append(b" ")?;
        line.append(attr.name.as_slice())?;
    }
    Ok(())
}

fn put_query(
    alloc: Global,
    query: &Query,
    spec: &Spec,
    line: &mut ByteText,
) -> Result<(), NoMemory> {
    let heads = heads(alloc, spec)?;
    print_expr(alloc, &query.expr, &heads, line)?;
    put_attrs(line, query.attrs.as_slice())
}

fn put_line(alloc: Global, text: &[u8], spec: &Spec, line: &mut ByteText) -> Result<(), NoMemory>
    requires { length spec.now.relations + length spec.now.relations + length spec.now.views < 2 ^ 32 }
{
    match parse_query(alloc, text, spec) {
        Ok(query) => put_query(alloc, &query, spec, line),
        Err(fault) => put_query_fault(alloc, &fault, line),
    }
}

fn has_line(alloc: Global, text: &[u8], spec: &Spec, told: &[u8]) -> Result<bool, NoMemory>
    requires { length spec.now.relations + length spec.now.relations + length spec.now.views < 2 ^ 32 }
{
    let mut line = ByteText::new(alloc);
    put_line(alloc, text, spec, &mut line)?;
    Ok(line.as_bytes() == told)
}

fn has_repeated_line(alloc: Global, row: &Repeated<'_>, spec: &Spec) -> Result<bool, NoMemory>
    requires { length spec.now.relations + length spec.now.relations + length spec.now.views < 2 ^ 32 }
{
    let text = text_of(alloc, row)?;
    has_line(alloc, text.as_bytes(), spec, row.line)
}

fn have_lines(alloc: Global, rows: &[Told<'_>], spec: &Spec) -> Result<bool, NoMemory>
    requires { length spec.now.relations + length spec.now.relations + length spec.now.views < 2 ^ 32 }
{
    for (text, told) in rows {
        if !has_line(alloc, text, spec, told)? {
            return Ok(false);
        }
    }
    Ok(true)
}

fn have_repeated_lines(alloc: Global, rows: &[Repeated<'_>], spec: &Spec) -> Result<bool, NoMemory>
    requires { length spec.now.relations + length spec.now.relations + length spec.now.views < 2 ^ 32 }
{
    for row in rows {
        if !has_repeated_line(alloc, row, spec)? {
            return Ok(false);
        }
    }
    Ok(true)
}

fn all_have_lines(
    alloc: Global,
    rows: &[Told<'_>],
    repeated: &[Repeated<'_>],
    spec: &Spec,
) -> Result<bool, NoMemory> {
    if spec.relations.len() != 2 || spec.views.len() != 1 {
        return Ok(false);
    }
    Ok(have_lines(alloc, rows, spec)? && have_repeated_lines(alloc, repeated, spec)?)
}

fn all_are_told(
    alloc: Global,
    rows: &[Told<'_>],
    repeated: &[Repeated<'_>],
) -> Result<bool, NoMemory> {
    match parse_spec(alloc, SPEC) {
        Ok(spec) => all_have_lines(alloc, rows, repeated, &spec),
        Err(_) => Ok(false),
    }
}

#[test]
fn faults_are_told(rt: HostRuntime) -> Result<(), Fail> {
    assert!(rt; all_are_told(rt.alloc(), FAULTS, REPEATED_FAULTS)?);
    Ok(())
}

#[test]
fn queries_are_printed(rt: HostRuntime) -> Result<(), Fail> {
    assert!(rt; all_are_told(rt.alloc(), QUERIES, &[])?);
    Ok(())
}
