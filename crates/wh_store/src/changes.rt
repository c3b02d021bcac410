// What a change does to all tables.
ghost use Rattle.std.specs.Prelude.{◌≡◌, ◌+◌, ◌-◌, ◌≤◌, ◌++◌, nat_lt, length, vec_len, IfOk, OnOk};
ghost use Rattle.wh_base.specs.RowSet.{AreDistinct, SameRows};
ghost use Rattle.wh_base.specs.Tables.{without};
ghost use Rattle.wh_store.specs.Commit.{CanApplyAll, AreKept, AreChanged, HasRoom, first_over_after};
ghost use Rattle.wh_store.specs.Image.{row_limit};
ghost use Rattle.wh_store.specs.Opening.{AreDistinctTables};
ghost use Rattle.wh_table.specs.Table.{CanApply};

use crate::tables::ROW_LIMIT;
use std::alloc::Global;
use std::mem;
use wh_base::{Delta, NoMemory, Sequence, StoredDeltas};
use wh_table::{Prepared, Table, Tables};

fn prepare_each(
    alloc: Global,
    tables: &mut Vec<Table>,
    deltas: StoredDeltas,
) -> Result<Vec<Prepared>, NoMemory>
    requires { length deltas ≡ vec_len tables.old }
    ensures prepared { IfOk result (λ made. made.items ≡ deltas) }
    ensures kept { AreKept tables.old.items tables.new.items }
    ensures room { OnOk result (HasRoom tables.new.items deltas) }
{
    let mut prepared = Vec::with_capacity(alloc, deltas.len())?;
    for (table, delta) in deltas.into_vec().into_iter().enumerate() {
        prepared.push(tables[table].prepare(alloc, delta)?)?;
    }
    Ok(prepared)
}

/// Takes all memory that the deltas need, one for each table. The rows stay.
pub(crate) fn prepare_all(
    alloc: Global,
    tables: &mut Tables,
    deltas: StoredDeltas,
) -> Result<Vec<Prepared>, NoMemory>
    requires { length deltas ≡ length tables.old }
    ensures prepared { IfOk result (λ made. made.items ≡ deltas) }
    ensures kept { AreKept tables.old tables.new }
    ensures room { OnOk result (HasRoom tables.new deltas) }
{
    let mut items = mem::replace(tables, Tables::new(alloc)).into_vec();
    let prepared = prepare_each(alloc, &mut items, deltas);
    *tables = Sequence::from_vec(items);
    prepared
}

/// Makes a change of a table, for which there is room, and answers how many rows the table has then.
pub(crate) fn apply(table: &mut Table, change: Prepared) -> usize
    requires fits { CanApply table.old.rows change }
    requires room { length change.inserted ≤ table.old.spare }
    ensures count { result ≡ length table.new.rows }
    ensures rows { SameRows table.new.rows (without table.old.rows change.deleted ++ change.inserted) }
    ensures distinct { AreDistinct table.new.rows }
    ensures width { table.new.width ≡ table.old.width }
    ensures indexes { table.new.indexes ≡ table.old.indexes }
{
    table.apply(change);
    table.len()
}

fn apply_each(tables: &mut Vec<Table>, prepared: Vec<Prepared>)
    requires fits { CanApplyAll tables.old.items prepared.items }
    requires room { HasRoom tables.old.items prepared.items }
    ensures { AreChanged tables.old.items prepared.items tables.new.items }
{
    for (table, change) in prepared.into_iter().enumerate() {
        apply(&mut tables[table], change);
    }
}

/// Makes a change of all tables, for which there is room.
pub(crate) fn apply_all(tables: &mut Tables, prepared: Vec<Prepared>)
    requires fits { CanApplyAll tables.old prepared.items }
    requires room { HasRoom tables.old prepared.items }
    ensures { AreChanged tables.old prepared.items tables.new }
{
    let none = Tables::new(*prepared.allocator());
    let mut items = mem::replace(tables, none).into_vec();
    apply_each(&mut items, prepared);
    *tables = Sequence::from_vec(items);
}

// Makes a change of one table, which is not touched where no row is changed.
fn change(alloc: Global, table: &mut Table, delta: Delta) -> Result<(), NoMemory>
    requires fits { CanApply table.old.rows delta }
    requires distinct { AreDistinct table.old.rows }
    ensures rows { OnOk result (SameRows table.new.rows (without table.old.rows delta.deleted ++ delta.inserted)) }
    ensures distinct { OnOk result (AreDistinct table.new.rows) }
    ensures width { OnOk result (table.new.width ≡ table.old.width) }
    ensures indexes { OnOk result (table.new.indexes ≡ table.old.indexes) }
{
    if delta.deleted.is_empty() && delta.inserted.is_empty() {
        return Ok(());
    }
    let prepared = table.prepare(alloc, delta)?;
    apply(table, prepared);
    Ok(())
}

fn change_each(alloc: Global, tables: &mut Vec<Table>, deltas: StoredDeltas) -> Result<(), NoMemory>
    requires fits { CanApplyAll tables.old.items deltas }
    requires distinct { AreDistinctTables tables.old.items }
    ensures { OnOk result (AreChanged tables.old.items deltas tables.new.items) }
{
    for (table, delta) in deltas.into_vec().into_iter().enumerate() {
        change(alloc, &mut tables[table], delta)?;
    }
    Ok(())
}

/// The tables after deltas, one for each.
pub(crate) fn change_all(
    alloc: Global,
    tables: Tables,
    deltas: StoredDeltas,
) -> Result<Tables, NoMemory>
    requires fits { CanApplyAll tables deltas }
    requires distinct { AreDistinctTables tables }
    ensures { IfOk result (AreChanged tables deltas) }
{
    let mut items = tables.into_vec();
    change_each(alloc, &mut items, deltas)?;
    Ok(Sequence::from_vec(items))
}

// Whether a table would have too many rows.
fn is_over(table: &Table, delta: &Delta) -> bool
    ensures { result ≡ nat_lt row_limit (length table.now.rows - length delta.now.deleted + length delta.now.inserted) }
{
    let kept = table.len().saturating_sub(delta.deleted.len());
    kept.saturating_add(delta.inserted.len()) > ROW_LIMIT
}

/// The first table that would have too many rows.
pub(crate) fn first_over(tables: &Tables, deltas: &StoredDeltas) -> Option<usize>
    requires { length deltas.now ≡ length tables.now }
    ensures { result ≡ first_over_after tables.now deltas.now }
{
    tables
        .as_slice()
        .iter()
        .zip(deltas.as_slice())
        .position(|(table, delta)| is_over(table, delta))
}
