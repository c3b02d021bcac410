// The first constraint that a change of a small store breaks.
ghost use Rattle.std.specs.Prelude.{◌<◌, length};
ghost use Rattle.std.specs.List.{AllByRecursion};
ghost use Rattle.wh_csv.specs.declared.change.Line as csv;
ghost use Rattle.wh_store.specs.Warehouse.{IsInForm};

use std::alloc::Global;
use std::test::Fail;
use wh_base::{ByteText, NoMemory, Numbers, Value};
use wh_check::{effective, first_broken};
use wh_csv::{Change, read_change};
use wh_io::MemDisk;
use wh_schema::Broken;
use wh_steps::{NoLedger, Steps};
use wh_store::{Warehouse, open_store};

// A store with the rows (1, 10) and (2, 20) of A, and (1) of B: a frame of 175 bytes, and a closed mark.
const STORE: &[u8] = b"\x01\x00\x00\x00\x00\x00\x00\x00\xa6\
\x01\x00\x00\x00\x00\x00\x00\x00\x01\x00\x00\x00\x00\x00\x00\x00\x00\
\x00\x00\x00Urelation A(k int, v int) key (k);\nrelation B(k int) key (k);\ninclusion B(k) in A(k);\n\
\x00\x00\x00\x02\x00\x00\x00\x02\
\x02\x01\x00\x00\x00\x00\x00\x00\x00\x01\x01\x00\x00\x00\x00\x00\x00\x00\n\
\x02\x01\x00\x00\x00\x00\x00\x00\x00\x02\x01\x00\x00\x00\x00\x00\x00\x00\x14\
\x00\x00\x00\x01\x01\x01\x00\x00\x00\x00\x00\x00\x00\x01\x00";

// Change files, and the constraint that each breaks first with its value. The keys are 1 and 2, and the inclusion is 3.
const CHANGES: &[(&[u8], Option<(u32, i64)>)] = &[
    (b"", None),
    (b"+,A,3,30\n+,B,3\n", None),
    (b"-,B,1\n-,A,1,10\n", None),
    (b"+,A,2,21\n-,A,2,20\n", None),
    (b"-,A,1,10\n", Some((3, 1))),
    (b"+,B,9\n+,B,7\n", Some((3, 7))),
    (b"+,A,2,21\n+,A,1,11\n", Some((1, 1))),
    (b"+,A,2,21\n-,A,1,10\n", Some((1, 2))),
];

fn is_told(found: &Option<Broken>, told: &Option<(u32, i64)>) -> bool {
    match (found, told) {
        (None, None) => true,
        (Some(broken), Some((constraint, value))) => {
            broken.constraint == *constraint
                && broken.value.as_slice() == [Value::Int(*value)].as_slice()
        }
        _ => false,
    }
}

// The first constraint that a change breaks.
fn broken_after(
    alloc: Global,
    w: &Warehouse,
    change: &Change,
    steps: &mut Steps<NoLedger>,
) -> Result<Option<Broken>, NoMemory>
    requires form { IsInForm w.now }
    requires lines { AllByRecursion (λ (l : csv.Line). l.relation < length w.now.plan.spec.relations) change.now }
{
    let deltas = effective(alloc, w, change, steps)?;
    first_broken(alloc, w, &deltas, steps)
}

// The same of a change file; none where the bytes are none.
#[tactic(auto, using(wh_fit::proofs::LineLemmas::changes_fit))]
fn broken_by(
    alloc: Global,
    w: &Warehouse,
    bytes: &[u8],
    steps: &mut Steps<NoLedger>,
) -> Result<Option<Broken>, NoMemory>
    requires { IsInForm w.now }
{
    match read_change(alloc, bytes, &w.plan.spec) {
        Ok(change) => broken_after(alloc, w, &change, steps),
        Err(_) => Ok(None),
    }
}

fn are_told(alloc: Global, w: &Warehouse, steps: &mut Steps<NoLedger>) -> Result<bool, NoMemory>
    requires { IsInForm w.now }
{
    for (bytes, told) in CHANGES {
        if !is_told(&broken_by(alloc, w, bytes, steps)?, told) {
            return Ok(false);
        }
    }
    Ok(true)
}

fn disk(alloc: Global, bytes: &[u8]) -> Result<MemDisk, NoMemory> {
    let content = ByteText::from_slice(alloc, bytes)?;
    MemDisk::new(alloc, content, 200, 20, Numbers::new(alloc))
}

// Whether the first broken constraint of each change of a store is told.
fn is_store_told(
    alloc: Global,
    first: &mut MemDisk,
    second: &mut MemDisk,
    steps: &mut Steps<NoLedger>,
) -> Result<bool, NoMemory> {
    match open_store(alloc, first, second) {
        Ok((w, _place)) => are_told(alloc, &w, steps),
        Err(_) => Ok(false),
    }
}

fn all_are_told(alloc: Global, steps: &mut Steps<NoLedger>) -> Result<bool, NoMemory> {
    let mut first = disk(alloc, STORE)?;
    let mut second = disk(alloc, b"")?;
    is_store_told(alloc, &mut first, &mut second, steps)
}

#[test]
fn the_first_broken_constraint_is_told(rt: HostRuntime) -> Result<(), Fail> {
    let mut steps = Steps::new(&rt, NoLedger);
    assert!(rt; all_are_told(rt.alloc(), &mut steps)?);
    Ok(())
}
