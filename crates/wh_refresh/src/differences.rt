// What the stored tables lose and gain on the way to others.
ghost use Rattle.std.specs.Prelude.{◌≡◌, ◌<◌, ◌≤◌, ℕ, map, length, IfOk, OnOk};
ghost use Rattle.std.specs.List.{AllByRecursion};
ghost use Rattle.wh_base.specs.RowSet.{AreDistinct, IsAscending, has, in_order};
ghost use Rattle.wh_base.specs.Tables.{without};
ghost use Rattle.wh_fit.specs.Differences.{difference, differences};
ghost use Rattle.wh_store.specs.Warehouse.{table_at};

use std::alloc::Global;
use wh_base::{Delta, Duplicate, NoMemory, Row, Rows, StoredDeltas, StoredRows, sort_rows};
use wh_steps::{Ledger, Steps};
use wh_table::{Table, Tables};

// Whether a row is among ascending ones.
fn contains(rows: &[Row], row: &Row) -> bool
    requires { IsAscending rows.now }
    ensures { result ≡ has rows.now row.now }
{
    rows.binary_search(row).is_ok()
}

// The rows that are not among others.
fn lacking(alloc: Global, rows: &[Row], others: &[Row]) -> Result<Rows, NoMemory>
    requires { IsAscending others.now }
    ensures { IfOk result (λ found. found ≡ without rows.now others.now) }
{
    let mut found = Rows::new(alloc);
    for row in rows {
        if !contains(others, row) {
            found.push(row.copy(alloc)?)?;
        }
    }
    Ok(found)
}

// The rows of a table in row order. One without rows is not scanned.
fn ordered_rows<L: Ledger>(
    alloc: Global,
    table: &Table,
    steps: &mut Steps<L>,
) -> Result<Rows, NoMemory>
    ensures rows { IfOk result (λ rows. rows ≡ in_order table.now.rows) }
    ensures distinct { AreDistinct table.now.rows }
    ensures probes { steps.old.probes ≤ steps.new.probes }
    ensures scans { steps.old.scans ≤ steps.new.scans }
{
    if table.len() == 0 {
        return Ok(Rows::new(alloc));
    }
    sort_rows(table.scan(alloc, steps)?)
}

// What a table loses and gains on the way to other rows. Both lists are searched in row order, so this takes no time
// that grows with the product of their lengths.
fn table_difference<L: Ledger>(
    alloc: Global,
    table: &Table,
    after: &[Row],
    steps: &mut Steps<L>,
) -> Result<Delta, NoMemory>
    requires { IsAscending after.now }
    ensures delta { IfOk result (λ d. d ≡ difference (in_order table.now.rows) after.now) }
    ensures distinct { OnOk result (AreDistinct table.now.rows) }
    ensures probes { steps.old.probes ≤ steps.new.probes }
    ensures scans { steps.old.scans ≤ steps.new.scans }
{
    let before = ordered_rows(alloc, table, steps)?;
    let deleted = sort_rows(lacking(alloc, before.as_slice(), after)?)?;
    let inserted = sort_rows(lacking(alloc, after, before.as_slice())?)?;
    Ok(Delta { deleted, inserted })
}

/// What each table loses and gains on the way to others, of which there are as many.
pub(crate) fn table_differences<L: Ledger>(
    alloc: Global,
    tables: &Tables,
    after: &StoredRows,
    steps: &mut Steps<L>,
) -> Result<StoredDeltas, NoMemory>
    requires count { length after.now ≡ length tables.now }
    requires ascending { AllByRecursion IsAscending after.now }
    ensures deltas { IfOk result (λ deltas. deltas ≡ differences (map (λ t. in_order t.rows) tables.now) after.now) }
    ensures distinct { OnOk result ((k : ℕ) → k < length tables.now → AreDistinct (table_at tables.now k).rows) }
    ensures probes { steps.old.probes ≤ steps.new.probes }
    ensures scans { steps.old.scans ≤ steps.new.scans }
{
    let mut deltas = StoredDeltas::new(alloc);
    for (k, table) in tables.as_slice().iter().enumerate() {
        let delta = table_difference(alloc, table, after.as_slice()[k].as_slice(), steps)?;
        deltas.push(delta)?;
    }
    Ok(deltas)
}
