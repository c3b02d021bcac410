//! The join of rows with the rows of a base, one number after another, by look-ups.
ghost use Rattle.std.specs.Prelude.{◌≡◌, ◌≢◌, ◌≤◌, ◌<◌, ◌++◌, ℕ, [], map, length, Contains, IfOk, IsTrue};
ghost use Rattle.wh_base.specs.Columns.{shared as shared_names, all_in, picked};
ghost use Rattle.wh_base.specs.Heads.{columns_at};
ghost use Rattle.wh_base.specs.RowSet.{SameRows};
ghost use Rattle.wh_base.specs.Tables.{join, matching};
ghost use Rattle.wh_delta.specs.Join.{joined_with, SharesColumns};
ghost use Rattle.wh_eval.specs.Relation.{table_of};
ghost use Rattle.wh_expr.specs.Meaning.{tables};
ghost use Rattle.wh_expr.specs.SameTable.{SameTable};
ghost use Rattle.wh_expr.specs.Typing.{are_distinct};

use std::alloc::Global;
use wh_base::{
    Duplicate, Names, NoMemory, Row, Rows, append_names, others, pick_at, places_of, shared,
};
use wh_eval::{Base, Relation, append, columns_of};
use wh_steps::{Ledger, Steps};

/// A row with further values.
fn with_values(alloc: Global, row: &Row, more: Row) -> Result<Row, NoMemory>
    ensures { IfOk result (λ values. values ≡ row.now ++ more) }
{
    let mut values = row.copy(alloc)?.into_vec();
    values.append(&mut more.into_vec())?;
    Ok(Row::from_vec(values))
}

/// A row with the values that each of its partners has at some places.
fn with_partners(
    alloc: Global,
    row: &Row,
    partners: &[Row],
    rest: &[usize],
) -> Result<Rows, NoMemory>
    ensures { IfOk result (λ rows. rows ≡ map (λ partner. row.now ++ picked rest.now partner) partners.now) }
{
    let mut rows = Rows::new(alloc);
    for partner in partners {
        let more = pick_at(alloc, partner, rest)?;
        rows.push(with_values(alloc, row, more)?)?;
    }
    Ok(rows)
}

/// A row with each of its partners under a number, which are looked up by its values at the places.
fn joined_row<B: Base, L: Ledger>(
    alloc: Global,
    base: &B,
    n: u32,
    row: &Row,
    key: &Names,
    places: &[usize],
    rest: &[usize],
    steps: &mut Steps<L>,
) -> Result<Rows, NoMemory>
    requires held { IsTrue (B.has_number base.now n) }
    requires columns { IsTrue (all_in (columns_at (B.heads_of base.now) n) key.now) }
    requires some { 0 < length key.now }
    requires distinct { IsTrue (are_distinct key.now) }
    requires places { length places.now ≡ length key.now }
    ensures rows { IfOk result (λ rows. SameRows rows (map (λ partner. row.now ++ picked rest.now partner)
        (matching (columns_at (B.heads_of base.now) n) key.now (picked places.now row.now) (B.rows_at base.now n)))) }
    ensures probes { steps.old.probes ≤ steps.new.probes }
    ensures scans { steps.new.scans ≡ steps.old.scans }
{
    let values = pick_at(alloc, row, places)?;
    let partners = base.rows_where(alloc, n, key, &values, steps)?;
    with_partners(alloc, row, partners.as_slice(), rest)
}

/// The join of a relation with the rows under a number, where they share the columns of the key.
fn join_by_look_ups<B: Base, L: Ledger>(
    alloc: Global,
    base: &B,
    left: &Relation,
    n: u32,
    columns: &Names,
    key: &Names,
    steps: &mut Steps<L>,
) -> Result<Relation, NoMemory>
    requires held { IsTrue (B.has_number base.now n) }
    requires columns { columns.now ≡ columns_at (B.heads_of base.now) n }
    requires distinct { IsTrue (are_distinct columns.now) }
    requires key { key.now ≡ shared_names left.now.columns columns.now }
    requires some { 0 < length key.now }
    ensures rows { IfOk result (λ both. SameTable (table_of both) (join (table_of left.now) (tables (B.heads_of base.now) (B.rows_at base.now) n))) }
    ensures probes { steps.old.probes ≤ steps.new.probes }
    ensures scans { steps.new.scans ≡ steps.old.scans }
{
    let own = left.columns.as_slice();
    let more = others(alloc, own, columns.as_slice())?;
    let places = places_of(alloc, own, key.as_slice())?;
    let rest = places_of(alloc, columns.as_slice(), more.as_slice())?;
    let mut rows = Rows::new(alloc);
    for row in left.rows.as_slice() {
        let found = joined_row(
            alloc,
            base,
            n,
            row,
            key,
            places.as_slice(),
            rest.as_slice(),
            steps,
        )?;
        rows = append(rows, found)?;
    }
    Ok(Relation {
        columns: append_names(alloc, own, more.as_slice())?,
        rows,
    })
}

/// The join of a relation with all rows under a number, where they share no column.
fn join_whole<B: Base, L: Ledger>(
    alloc: Global,
    base: &B,
    left: Relation,
    n: u32,
    columns: &Names,
    steps: &mut Steps<L>,
) -> Result<Relation, NoMemory>
    requires held { IsTrue (B.has_number base.now n) }
    requires columns { columns.now ≡ columns_at (B.heads_of base.now) n }
    ensures rows { IfOk result (λ both. SameTable (table_of both) (join (table_of left) (tables (B.heads_of base.now) (B.rows_at base.now) n))) }
    ensures probes { steps.old.probes ≤ steps.new.probes }
    ensures scans { steps.old.scans ≤ steps.new.scans }
{
    let rows = base.rows(alloc, n, steps)?;
    left.join_rows(alloc, columns.as_slice(), rows.as_slice())
}

/// The join of a relation with the rows under a number. They are looked up, row for row, where there is a column to look them up by.
fn join_next<B: Base, L: Ledger>(
    alloc: Global,
    base: &B,
    left: Relation,
    n: u32,
    steps: &mut Steps<L>,
) -> Result<Relation, NoMemory>
    requires held { IsTrue (B.has_number base.now n) }
    requires distinct { IsTrue (are_distinct (columns_at (B.heads_of base.now) n)) }
    ensures rows { IfOk result (λ both. SameTable (table_of both) (join (table_of left) (tables (B.heads_of base.now) (B.rows_at base.now) n))) }
    ensures probes { steps.old.probes ≤ steps.new.probes }
    ensures rise { steps.old.scans ≤ steps.new.scans }
    ensures scans { shared_names left.columns (columns_at (B.heads_of base.now) n) ≢ [] → steps.new.scans ≡ steps.old.scans }
{
    let columns = columns_of(alloc, base.heads(), n)?;
    let key = shared(alloc, left.columns.as_slice(), columns.as_slice())?;
    if key.len() == 0 {
        return join_whole(alloc, base, left, n, &columns, steps);
    }
    join_by_look_ups(alloc, base, &left, n, &columns, &key, steps)
}

/// The join of a relation with the rows of a base under some numbers, one after another. Where each number shares a column with the join
/// of those before it, no whole table is read.
pub fn outward_join<B: Base, L: Ledger>(
    alloc: Global,
    base: &B,
    first: Relation,
    numbers: &[u32],
    steps: &mut Steps<L>,
) -> Result<Relation, NoMemory>
    requires held { (n : ℕ) → Contains numbers.now n → IsTrue (B.has_number base.now n) }
    requires distinct { (n : ℕ) → Contains numbers.now n → IsTrue (are_distinct (columns_at (B.heads_of base.now) n)) }
    ensures rows { IfOk result (λ all. SameTable (table_of all) (joined_with (table_of first) (tables (B.heads_of base.now) (B.rows_at base.now)) numbers.now)) }
    ensures probes { steps.old.probes ≤ steps.new.probes }
    ensures rise { steps.old.scans ≤ steps.new.scans }
    ensures scans { SharesColumns (table_of first) (tables (B.heads_of base.now) (B.rows_at base.now)) numbers.now → steps.new.scans ≡ steps.old.scans }
{
    let mut joined = first;
    for n in numbers {
        joined = join_next(alloc, base, joined, *n, steps)?;
    }
    Ok(joined)
}
