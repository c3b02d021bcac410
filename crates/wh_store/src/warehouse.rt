ghost use Rattle.std.specs.Prelude.{◌≡◌, [], All, IfOk, None, get_or, length, true};
ghost use Rattle.std.specs.List.{AllByRecursion};
ghost use Rattle.wh_base.specs.RowSet.{AreDistinct, SameRows, IsAscending};
ghost use Rattle.wh_plan.specs.Plan.{IsPlan};
ghost use Rattle.wh_spec_text.specs.Textual.{IsTextualSpec};
ghost use Rattle.wh_store.specs.Image.{fit_stored, first_over};
ghost use Rattle.wh_store.specs.Opening.{stored_heads, AreSpelledTables, AreTablesOf};
ghost use Rattle.wh_store.specs.Warehouse.{HoldsValues, IsInForm, HasRows};
ghost use Rattle.wh_table.specs.Table.{IsColumnSet};

use crate::changes::apply;
use crate::tables::{attrs_at, stored_heads};
use std::alloc::Global;
use wh_base::{
    ColumnSets, Delta, Duplicate, Head, NoMemory, Rows, SourceDeltas, StoredDeltas, StoredRows,
};
use wh_journal::Journal;
use wh_plan::Plan;
use wh_table::{Table, Tables};

/// One of the two files of a store.
#[derive(Clone, Copy, Debug, PartialEq, Eq)]
pub enum Which {
    First,
    Second,
}

/// The plan of a specification, its stored tables, and the number of changes so far. It has no row of the sources.
#[derive(Drop)]
pub struct Warehouse {
    pub plan: Plan,
    pub tables: Tables,
    pub seq: u64,
}

/// Where the next change is written: the active file, its generation, and the end of its journal.
#[derive(Debug, Drop)]
pub struct Place {
    pub which: Which,
    pub generation: u64,
    pub journal: Journal,
    /// Whether it may be written at. A disk fault ends that: the store is then opened again.
    pub live: bool,
}

/// What a change made of the sources, one delta for each relation, and of the stored tables, one for each.
#[derive(Debug, Drop)]
pub struct NetChange {
    pub source: SourceDeltas,
    pub stored: StoredDeltas,
}

// The indexed sets of a stored table.
#[tactic(auto, using(crate::proofs::StoredLemmas::get_or_none))]
fn indexes_at(alloc: Global, plan: &Plan, k: usize) -> Result<ColumnSets, NoMemory>
    ensures { IfOk result (λ sets. sets ≡ get_or plan.now.indexes k []) }
{
    match plan.indexes.get(k) {
        Some(sets) => sets.copy(alloc),
        None => Ok(ColumnSets::new(alloc)),
    }
}

// A table with these rows.
fn table_of(alloc: Global, width: usize, indexes: ColumnSets, rows: Rows) -> Result<Table, NoMemory>
    requires indexes { All (IsColumnSet width) indexes }
    requires distinct { AreDistinct rows }
    ensures rows { IfOk result (λ table. SameRows table.rows rows) }
    ensures distinct { IfOk result (λ table. AreDistinct table.rows) }
    ensures width { IfOk result (λ table. table.width ≡ width) }
    ensures indexes { IfOk result (λ table. table.indexes ≡ indexes) }
{
    let Ok(width) = u32::try_from(width) else {
        // No memory has rows so wide.
        return Err(NoMemory);
    };
    let mut table = Table::new(alloc, width, indexes)?;
    let change = Delta {
        deleted: Rows::new(alloc),
        inserted: rows,
    };
    let prepared = table.prepare(alloc, change)?;
    apply(&mut table, prepared);
    Ok(table)
}

/// The stored tables with these rows.
pub(crate) fn tables_of(
    alloc: Global,
    plan: &Plan,
    stored: &[Head],
    rows: StoredRows,
) -> Result<Tables, NoMemory>
    requires plan { IsPlan plan.now }
    requires stored { stored.now ≡ stored_heads plan.now.spec }
    requires ascending { AllByRecursion IsAscending rows }
    ensures { IfOk result (AreTablesOf plan.now stored.now rows) }
{
    let mut tables = Tables::new(alloc);
    for table_rows in rows.into_vec() {
        let k = tables.len();
        let indexes = indexes_at(alloc, plan, k)?;
        tables.push(table_of(alloc, attrs_at(stored, k).len(), indexes, table_rows)?)?;
    }
    Ok(tables)
}

// The same, where the heads are not at hand.
fn stored_tables(alloc: Global, plan: &Plan, rows: StoredRows) -> Result<Tables, NoMemory>
    requires plan { IsPlan plan.now }
    requires ascending { AllByRecursion IsAscending rows }
    ensures { IfOk result (AreTablesOf plan.now (stored_heads plan.now.spec) rows) }
{
    let stored = stored_heads(alloc, &plan.spec)?;
    tables_of(alloc, plan, stored.as_slice(), rows)
}

/// The warehouse of a plan with these rows in its stored tables.
pub(crate) fn warehouse_of(
    alloc: Global,
    plan: Plan,
    rows: StoredRows,
    seq: u64,
) -> Result<Warehouse, NoMemory>
    requires textual { IsTextualSpec plan.spec }
    requires plan { IsPlan plan }
    requires fits { fit_stored plan.spec rows ≡ true }
    requires ascending { AllByRecursion IsAscending rows }
    requires spelled { AreSpelledTables rows }
    requires few { first_over rows ≡ None }
    ensures form { IfOk result IsInForm }
    ensures values { IfOk result HoldsValues }
    ensures plan { IfOk result (λ warehouse. warehouse.plan ≡ plan) }
    ensures rows { IfOk result (HasRows plan.spec rows) }
    ensures seq { IfOk result (λ warehouse. warehouse.seq ≡ seq) }
{
    let tables = stored_tables(alloc, &plan, rows)?;
    Ok(Warehouse { plan, tables, seq })
}
