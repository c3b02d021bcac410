// A table of two columns, its rows one by one, and what it finds.
ghost use Rattle.std.specs.Prelude.{◌≡◌, ◌∷◌, [], length, IfOk};
ghost use Rattle.wh_table.specs.Table.{IsColumnSet, CanApply};

use std::alloc::Global;
use wh_base::{ColumnSets, Delta, NoMemory, Places, Row, Rows, Value};
use wh_steps::{Ledger, Steps};
use wh_table::Table;

fn places(alloc: Global, listed: &[u32]) -> Result<Places, NoMemory>
    ensures { IfOk result (λ places. places ≡ listed.now) }
{
    Ok(Places::from_vec(Vec::from_slice(alloc, listed)?))
}

fn column_sets(alloc: Global) -> Result<ColumnSets, NoMemory>
    ensures { IfOk result (λ sets. sets ≡ (0 ∷ []) ∷ (1 ∷ []) ∷ (0 ∷ 1 ∷ []) ∷ []) }
{
    let mut sets = ColumnSets::new(alloc);
    sets.push(places(alloc, &[0])?)?;
    sets.push(places(alloc, &[1])?)?;
    sets.push(places(alloc, &[0, 1])?)?;
    Ok(sets)
}

/// An empty table with each column indexed, and both.
pub(crate) fn two_columns(alloc: Global) -> Result<Table, NoMemory>
    ensures { IfOk result (λ table. table.indexes ≡ (0 ∷ []) ∷ (1 ∷ []) ∷ (0 ∷ 1 ∷ []) ∷ []) }
{
    let sets = column_sets(alloc)?;
    Table::new(alloc, 2, sets)
}

pub(crate) fn pair(alloc: Global, first: Value, second: Value) -> Result<Row, NoMemory>
    ensures { IfOk result (λ row. length row ≡ 2) }
{
    let mut row = Row::new(alloc);
    row.push(first)?;
    row.push(second)?;
    Ok(row)
}

fn one(alloc: Global, row: Row) -> Result<Rows, NoMemory>
    ensures { IfOk result (λ rows. rows ≡ row ∷ []) }
{
    let mut rows = Rows::new(alloc);
    rows.push(row)?;
    Ok(rows)
}

/// Inserts a row, and answers whether it was missing.
pub(crate) fn put(alloc: Global, table: &mut Table, row: Row) -> Result<bool, NoMemory>
    ensures { table.new.indexes ≡ table.old.indexes }
{
    if table.contains(&row) {
        return Ok(false);
    }
    let change = Delta {
        deleted: Rows::new(alloc),
        inserted: one(alloc, row)?,
    };
    let prepared = table.prepare(alloc, change)?;
    table.apply(prepared);
    Ok(true)
}

/// Deletes a row, and answers whether it was there.
pub(crate) fn take(alloc: Global, table: &mut Table, row: Row) -> Result<bool, NoMemory>
    ensures { table.new.indexes ≡ table.old.indexes }
{
    if !table.contains(&row) {
        return Ok(false);
    }
    let change = Delta {
        deleted: one(alloc, row)?,
        inserted: Rows::new(alloc),
    };
    let prepared = table.prepare(alloc, change)?;
    table.apply(prepared);
    Ok(true)
}

/// The rows with a value in the second column.
pub(crate) fn with_second<L: Ledger>(
    alloc: Global,
    table: &Table,
    value: Value,
    steps: &mut Steps<L>,
) -> Result<Rows, NoMemory>
    requires { table.now.indexes ≡ (0 ∷ []) ∷ (1 ∷ []) ∷ (0 ∷ 1 ∷ []) ∷ [] }
{
    let cols = places(alloc, &[1])?;
    let mut vals = Row::new(alloc);
    vals.push(value)?;
    table.probe(alloc, &cols, &vals, steps)
}

/// The rows with values in both columns, which are asked for in the other order.
pub(crate) fn with_both<L: Ledger>(
    alloc: Global,
    table: &Table,
    first: Value,
    second: Value,
    steps: &mut Steps<L>,
) -> Result<Rows, NoMemory>
    requires { table.now.indexes ≡ (0 ∷ []) ∷ (1 ∷ []) ∷ (0 ∷ 1 ∷ []) ∷ [] }
{
    let cols = places(alloc, &[1, 0])?;
    let vals = pair(alloc, second, first)?;
    table.probe(alloc, &cols, &vals, steps)
}
