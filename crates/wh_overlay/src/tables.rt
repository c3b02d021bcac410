//! Tables of the rows that deltas delete or insert.
ghost use Rattle.std.specs.Prelude.{◌≡◌, ◌∷◌, ℕ, [], get_or, length, map, IfOk};
ghost use Rattle.std.specs.List.{range_with_len};
ghost use Rattle.wh_base.specs.Heads.{attrs_at};
ghost use Rattle.wh_base.specs.RowSet.{SameRows};
ghost use Rattle.wh_overlay.specs.Overlay.{FitNumbers, HaveRows};

use std::alloc::Global;
use wh_base::{ColumnSets, Delta, Duplicate, Heads, NoMemory, Places, Rows, State, distinct_rows};
use wh_table::{Table, Tables};

fn single(alloc: Global, place: u32) -> Result<Places, NoMemory>
    ensures { IfOk result (λ set. set ≡ place ∷ []) }
{
    let mut set = Places::new(alloc);
    set.push(place)?;
    Ok(set)
}

/// Each column alone.
fn single_sets(alloc: Global, width: u32) -> Result<ColumnSets, NoMemory>
    ensures { IfOk result (λ sets. sets ≡ map (λ i. i ∷ []) (range_with_len 0 width)) }
{
    let mut sets = ColumnSets::new(alloc);
    for place in 0..width {
        sets.push(single(alloc, place)?)?;
    }
    Ok(sets)
}

fn empty_table(alloc: Global, width: usize) -> Result<Table, NoMemory>
    ensures width { IfOk result (λ table. table.width ≡ width) }
    ensures indexes { IfOk result (λ table. table.indexes ≡ map (λ i. i ∷ []) (range_with_len 0 width)) }
    ensures rows { IfOk result (λ table. table.rows ≡ []) }
{
    let Ok(width) = u32::try_from(width) else {
        // No memory has rows so wide.
        return Err(NoMemory);
    };
    Table::new(alloc, width, single_sets(alloc, width)?)
}

/// A table of rows, with each column to look them up by.
fn table_of(alloc: Global, width: usize, rows: Rows) -> Result<Table, NoMemory>
    ensures width { IfOk result (λ table. table.width ≡ width) }
    ensures indexes { IfOk result (λ table. table.indexes ≡ map (λ i. i ∷ []) (range_with_len 0 width)) }
    ensures rows { IfOk result (λ table. SameRows table.rows rows) }
{
    let mut table = empty_table(alloc, width)?;
    let change = Delta {
        deleted: Rows::new(alloc),
        inserted: distinct_rows(alloc, rows)?,
    };
    let prepared = table.prepare(alloc, change)?;
    table.apply(prepared);
    Ok(table)
}

fn width_at(heads: &Heads, n: usize) -> usize
    ensures { result ≡ length (attrs_at heads.now n) }
{
    match heads.get(n) {
        Some(head) => head.attrs.len(),
        None => 0,
    }
}

/// A table for each number, with each column to look its rows up by.
pub(crate) fn tables_of(alloc: Global, heads: &Heads, rows: State) -> Result<Tables, NoMemory>
    ensures fit { IfOk result (FitNumbers heads.now) }
    ensures rows { IfOk result (HaveRows (λ (n : ℕ). get_or rows n [])) }
{
    let mut tables = Tables::new(alloc);
    for own in rows.into_vec() {
        let width = width_at(heads, tables.len());
        tables.push(table_of(alloc, width, own)?)?;
    }
    Ok(tables)
}

/// What is deleted from each number.
pub(crate) fn deleted_rows(alloc: Global, deltas: &[Delta]) -> Result<State, NoMemory>
    ensures { IfOk result (λ rows. rows ≡ map (λ d. d.deleted) deltas.now) }
{
    let mut rows = State::new(alloc);
    for delta in deltas {
        rows.push(delta.deleted.copy(alloc)?)?;
    }
    Ok(rows)
}

/// What is inserted into each number.
pub(crate) fn inserted_rows(alloc: Global, deltas: &[Delta]) -> Result<State, NoMemory>
    ensures { IfOk result (λ rows. rows ≡ map (λ d. d.inserted) deltas.now) }
{
    let mut rows = State::new(alloc);
    for delta in deltas {
        rows.push(delta.inserted.copy(alloc)?)?;
    }
    Ok(rows)
}
