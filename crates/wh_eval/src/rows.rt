ghost use Rattle.std.specs.Prelude.{◌≡◌, ◌↔◌, ◌++◌, List, ℕ, not, map, filter, length, slice_index, EachIndex, All, IsTrue, IfOk};
ghost use Rattle.indexmap.specs.IndexSet.{contains};
ghost use Rattle.wh_base.specs.declared.value.Value.{Value};
ghost use Rattle.wh_base.specs.Columns.{picked};
ghost use Rattle.wh_base.specs.Cond.{holds};
ghost use Rattle.wh_base.specs.RowSet.{has};
ghost use Rattle.wh_base.specs.Tables.{without as without_of};
ghost use Rattle.wh_base.specs.Value.{row_eq};

use indexmap::IndexSet;
use std::alloc::Global;
use wh_base::{Cond, Duplicate, Name, NoMemory, Row, Rows, is_true_of, pick_at};

/// Rows for look-up.
pub type RowSet = IndexSet<Row>;

/// The rows cut to places.
pub fn pick_all(alloc: Global, rows: &[Row], places: &[usize]) -> Result<Rows, NoMemory>
    ensures { IfOk result (λ cuts. cuts ≡ map (picked places.now) rows.now) }
{
    let mut cuts = Rows::new(alloc);
    for row in rows {
        cuts.push(pick_at(alloc, row, places)?)?;
    }
    Ok(cuts)
}

/// Whether the places are 0, 1, 2 and so on.
fn are_in_turn(places: &[usize]) -> bool
    ensures { IsTrue result ↔ EachIndex places.now (λ k. slice_index places.now k ≡ k) }
{
    places.iter().enumerate().all(|(i, place)| *place == i)
}

fn have_width(rows: &[Row], width: usize) -> bool
    ensures { IsTrue result ↔ All (λ (row : List Value). length row ≡ width) rows.now }
{
    rows.iter().all(|row| row.len() == width)
}

/// The rows cut to places. Rows that stay as they are are not copied.
pub fn cut_all(alloc: Global, rows: Rows, places: &[usize]) -> Result<Rows, NoMemory>
    ensures { IfOk result (λ cuts. cuts ≡ map (picked places.now) rows) }
{
    if are_in_turn(places) && have_width(rows.as_slice(), places.len()) {
        return Ok(rows);
    }
    pick_all(alloc, rows.as_slice(), places)
}

fn is_satisfied(cond: &Cond, columns: &[Name], row: &Row) -> bool
    ensures { result ≡ holds cond.now columns.now row.now }
{
    is_true_of(cond, columns, row)
}

/// The rows on which a condition is true.
pub fn select(rows: Rows, cond: &Cond, columns: &[Name]) -> Rows
    ensures { result ≡ filter (holds cond.now columns.now) rows }
{
    let mut items = rows.into_vec();
    items.retain(|row| is_satisfied(cond, columns, row));
    Rows::from_vec(items)
}

/// The set of the rows.
pub fn set_of(alloc: Global, rows: Rows) -> Result<RowSet, NoMemory>
    ensures { IfOk result (λ set. (row : List Value) → contains row_eq set row ≡ has rows row) }
{
    rows.into_vec().into_iter().collect(alloc)
}

fn is_held(set: &RowSet, row: &Row) -> bool
    ensures { result ≡ contains row_eq set.now row.now }
{
    set.contains(row)
}

/// The rows that are not in a set.
fn not_in(rows: Rows, gone: &RowSet) -> Rows
    ensures { result ≡ filter (λ r. not (contains row_eq gone.now r)) rows }
{
    let mut items = rows.into_vec();
    items.retain(|row| !is_held(gone, row));
    Rows::from_vec(items)
}

/// Copies of the rows that are not in a set.
fn copies_not_in(alloc: Global, rows: &[Row], gone: &RowSet) -> Result<Rows, NoMemory>
    ensures { IfOk result (λ kept. kept ≡ filter (λ r. not (contains row_eq gone.now r)) rows.now) }
{
    let mut kept = Rows::new(alloc);
    for row in rows {
        if !is_held(gone, row) {
            kept.push(row.copy(alloc)?)?;
        }
    }
    Ok(kept)
}

/// The rows that are not among others.
pub fn without(alloc: Global, rows: Rows, gone: Rows) -> Result<Rows, NoMemory>
    ensures { IfOk result (λ kept. kept ≡ without_of rows gone) }
{
    let gone = set_of(alloc, gone)?;
    Ok(not_in(rows, &gone))
}

/// Copies of the rows that are not among others.
pub fn rows_without(alloc: Global, rows: &[Row], gone: Rows) -> Result<Rows, NoMemory>
    ensures { IfOk result (λ kept. kept ≡ without_of rows.now gone) }
{
    let gone = set_of(alloc, gone)?;
    copies_not_in(alloc, rows, &gone)
}

/// The left rows and then the right ones.
pub fn append(left: Rows, right: Rows) -> Result<Rows, NoMemory>
    ensures { IfOk result (λ rows. rows ≡ left ++ right) }
{
    let mut items = left.into_vec();
    items.append(&mut right.into_vec())?;
    Ok(Rows::from_vec(items))
}
