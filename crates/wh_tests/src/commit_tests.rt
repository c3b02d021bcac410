ghost use Rattle.std.specs.Prelude.{◌≡◌, [], ◌∷◌, IfOk, pos};
ghost use Rattle.wh_base.specs.declared.value.Value.TheVariants.{Int};

use std::alloc::Global;
use std::test::*;
use wh_base::{ByteText, ColumnSets, Delta, NoMemory, Numbers, Row, Rows, StoredDeltas, Value};
use wh_io::{Disk, MemDisk};
use wh_journal::{Found, Journal, recover};
use wh_plan::make_plan;
use wh_spec_text::parse_spec;
use wh_store::{Place, StoreFault, Warehouse, Which};
use wh_table::{Table, Tables};

const SPEC: &[u8] = b"relation R(k int) key (k);\n";

// A snapshot of one table with no row, and a closed mark.
const FILE: &[u8] = b"\x01\x00\x00\x00\x00\x00\x00\x00\x38\
\x01\x00\x00\x00\x00\x00\x00\x00\x01\x00\x00\x00\x00\x00\x00\x00\x00\
\x00\x00\x00\x1brelation R(k int) key (k);\n\x00\x00\x00\x01\x00\x00\x00\x00\x00";

// The row of the integer 5 is inserted.
const CHANGE: [u8; 31] = [
    2, 0, 0, 0, 0, 0, 0, 0, 1, 0, 0, 0, 1, 0, 0, 0, 0, 0, 0, 0, 1, 1, 1, 0, 0, 0, 0, 0, 0, 0, 5,
];

fn disk_of(alloc: Global, content: &[u8], fails: Numbers) -> Result<MemDisk, NoMemory> {
    MemDisk::new(alloc, ByteText::from_slice(alloc, content)?, 200, 20, fails)
}

fn one_table(alloc: Global) -> Result<Tables, NoMemory>
    ensures { IfOk result (λ tables. tables ≡ record { rows = []; width = 1; indexes = []; spare = 0 } ∷ []) }
{
    let mut tables = Tables::new(alloc);
    tables.push(Table::new(alloc, 1, ColumnSets::new(alloc))?)?;
    Ok(tables)
}

fn five(alloc: Global) -> Result<Rows, NoMemory>
    ensures { IfOk result (λ rows. rows ≡ (Int (pos 5) ∷ []) ∷ []) }
{
    let mut row = Row::new(alloc);
    row.push(Value::Int(5))?;
    let mut rows = Rows::new(alloc);
    rows.push(row)?;
    Ok(rows)
}

fn one_delta(alloc: Global) -> Result<StoredDeltas, NoMemory>
    ensures { IfOk result (λ deltas. deltas ≡ record { deleted = []; inserted = (Int (pos 5) ∷ []) ∷ [] } ∷ []) }
{
    let mut deltas = StoredDeltas::new(alloc);
    deltas.push(Delta {
        deleted: Rows::new(alloc),
        inserted: five(alloc)?,
    })?;
    Ok(deltas)
}

fn warehouse(alloc: Global) -> Result<Warehouse, StoreFault>
    ensures { IfOk result (λ w. w.tables ≡ record { rows = []; width = 1; indexes = []; spare = 0 } ∷ []) }
{
    let Ok(spec) = parse_spec(alloc, SPEC) else {
        return Err(StoreFault::NotLoaded);
    };
    let Ok(plan) = make_plan(alloc, spec) else {
        return Err(StoreFault::NotLoaded);
    };
    let tables = one_table(alloc)?;
    Ok(Warehouse {
        plan,
        tables,
        seq: 0,
    })
}

// Commits the change behind the frames of the first file.
fn commit_change<D: Disk>(
    alloc: Global,
    w: &mut Warehouse,
    first: &mut D,
    second: &mut D,
) -> Result<Place, StoreFault>
    requires { w.old.tables ≡ record { rows = []; width = 1; indexes = []; spare = 0 } ∷ [] }
{
    let Ok(found) = recover(alloc, first) else {
        return Err(StoreFault::DiskFault);
    };
    let Found::Frames {
        bodies: _bodies,
        journal,
    } = found
    else {
        return Err(StoreFault::NotLoaded);
    };
    let mut place = Place {
        which: Which::First,
        generation: 1,
        journal,
        live: true,
    };
    let r = w.ready(alloc, &place, one_delta(alloc)?)?;
    w.commit(&mut place, r, first, second)?;
    Ok(place)
}

fn is_changed(w: &Warehouse, place: &Place) -> bool {
    let end = Journal {
        end: 105,
        length: 106,
    };
    w.seq == 1 && w.tables.len() == 1 && place.live && place.journal == end
}

// Whether a file has the frame of the change, its mark and a closed one.
fn is_appended(bytes: &[u8]) -> bool {
    bytes.len() == 106 && bytes[65] == 1 && &bytes[74..105] == CHANGE.as_slice()
}

fn commits<D: Disk>(alloc: Global, first: &mut D, second: &mut D) -> Result<bool, StoreFault> {
    let mut w = warehouse(alloc)?;
    let place = commit_change(alloc, &mut w, first, second)?;
    Ok(is_changed(&w, &place))
}

fn is_committed(alloc: Global) -> Result<bool, NoMemory> {
    let mut first = disk_of(alloc, FILE, Numbers::new(alloc))?;
    let mut second = disk_of(alloc, b"", Numbers::new(alloc))?;
    let is_changed = matches!(commits(alloc, &mut first, &mut second), Ok(true));
    Ok(is_changed && is_appended(first.content()) && second.content().is_empty())
}

#[test]
fn a_change_is_committed(rt: HostRuntime) -> Result<(), Fail> {
    assert!(rt; is_committed(rt.alloc())?);
    Ok(())
}
