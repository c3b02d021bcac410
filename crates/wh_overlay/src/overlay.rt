ghost use Rattle.std.specs.Prelude.{◌≡◌, ℕ, ◌++◌, ◌<◌, ◌≤◌, [], Some, get_or, length, map, nat_lt, slice_get, IfOk, IsTrue};
ghost use Rattle.wh_base.specs.Columns.{all_in};
ghost use Rattle.wh_base.specs.RowSet.{AreDistinct, IsSetOf};
ghost use Rattle.wh_base.specs.Tables.{matching, without};
ghost use Rattle.wh_eval.specs.Stored.{has_singles, rows_in};
ghost use Rattle.wh_overlay.specs.Overlay.{no_delta, deleted_at, inserted_at, overlay_rows, HasBelow, HasBelow-prop, FitNumbers, FitNumbers-prop, HaveRows, HaveRows-prop};
ghost use Rattle.wh_table.specs.Table.{IndexedRows};

use crate::tables::{deleted_rows, inserted_rows, tables_of};
use std::alloc::Global;
use wh_base::{
    Delta, Duplicate, Heads, Name, Names, NoMemory, Row, Rows, SourceDeltas, distinct_rows,
};
use wh_eval::{Base, append, columns_of, probe_where, without};
use wh_steps::{Ledger, Steps};
use wh_table::Tables;

/// The rows of a base below without the deleted and with the inserted ones, for the numbers that have a delta.
pub struct Overlay<'a, B: Base> {
    lower: &'a B,
    deltas: &'a SourceDeltas,
    deleted: Tables,
    inserted: Tables,
    ghost held: { HasBelow (B.has_number lower.now) (length deltas.now) } by { HasBelow-prop (B.has_number lower.now) (length deltas.now) },
    ghost deleted_fit: { FitNumbers (B.heads_of lower.now) deleted } by { FitNumbers-prop (B.heads_of lower.now) deleted },
    ghost deleted_rows: { HaveRows (deleted_at deltas.now) deleted } by { HaveRows-prop (deleted_at deltas.now) deleted },
    ghost inserted_fit: { FitNumbers (B.heads_of lower.now) inserted } by { FitNumbers-prop (B.heads_of lower.now) inserted },
    ghost inserted_rows: { HaveRows (inserted_at deltas.now) inserted } by { HaveRows-prop (inserted_at deltas.now) inserted },
}

impl<'a, B: Base> Drop for Overlay<'a, B> {
    fn drop(self) {
        let Overlay {
            lower: _,
            deltas: _,
            deleted: _,
            inserted: _,
        } = self;
    }
}

impl<'a, B: Base> Overlay<'a, B> {
    /// Borrows both. The deltas may delete rows that are not there, and insert rows that are.
    pub fn new(
        alloc: Global,
        lower: &'a B,
        deltas: &'a SourceDeltas,
    ) -> Result<Overlay<'a, B>, NoMemory>
        requires { (n : ℕ) → n < length deltas.now → IsTrue (B.has_number lower.now n) }
        ensures lower { IfOk result (λ overlay. overlay.lower.now ≡ lower.entry.now) }
        ensures deltas { IfOk result (λ overlay. overlay.deltas.now ≡ deltas.entry.now) }
    {
        let deleted = deleted_rows(alloc, deltas.as_slice())?;
        let inserted = inserted_rows(alloc, deltas.as_slice())?;
        Ok(Overlay {
            lower,
            deltas,
            deleted: tables_of(alloc, lower.heads(), deleted)?,
            inserted: tables_of(alloc, lower.heads(), inserted)?,
        })
    }

    fn delta_at(&self, n: u32) -> &Delta
        requires { IsTrue (nat_lt n (length self.now.deltas.now)) }
        ensures { get_or self.now.deltas.now n no_delta ≡ result.now }
    {
        &self.deltas.as_slice()[n as usize]
    }
}

impl<'a, B: Base> Base for Overlay<'a, B> {
    ghost heads_of = { λ s. B.heads_of s.lower.now };

    ghost has_number = { λ s n. nat_lt n (length s.deltas.now) };

    ghost rows_at = { λ s n. overlay_rows (B.rows_at s.lower.now) s.deltas.now n };

    fn heads(&self) -> &Heads {
        self.lower.heads()
    }

    fn rows<L: Ledger>(
        &self,
        alloc: Global,
        n: u32,
        steps: &mut Steps<L>,
    ) -> Result<Rows, NoMemory> {
        let rows = self.lower.rows(alloc, n, steps)?;
        let delta = self.delta_at(n);
        let gone = delta.deleted.copy(alloc)?;
        let added = distinct_rows(alloc, delta.inserted.copy(alloc)?)?;
        exchange(alloc, rows, gone, added)
    }

    fn rows_where<L: Ledger>(
        &self,
        alloc: Global,
        n: u32,
        cols: &Names,
        vals: &Row,
        steps: &mut Steps<L>,
    ) -> Result<Rows, NoMemory> {
        let columns = columns_of(alloc, self.lower.heads(), n)?;
        let columns = columns.as_slice();
        let names = cols.as_slice();
        let rows = self.lower.rows_where(alloc, n, cols, vals, steps)?;
        let gone = rows_in_table(alloc, &self.deleted, n, columns, names, vals, steps)?;
        let added = rows_in_table(alloc, &self.inserted, n, columns, names, vals, steps)?;
        exchange(alloc, rows, gone, added)
    }
}

/// The rows without some and with others, each once.
fn exchange(alloc: Global, rows: Rows, gone: Rows, added: Rows) -> Result<Rows, NoMemory>
    requires rows { AreDistinct rows }
    requires added { AreDistinct added }
    ensures { IfOk result (λ changed. IsSetOf changed (without rows gone ++ added)) }
{
    // An added row that is there already would stand twice.
    let leaving = append(gone, added.copy(alloc)?)?;
    append(without(alloc, rows, leaving)?, added)
}

/// The rows with these values at the names, of the table of a number.
fn rows_in_table<L: Ledger>(
    alloc: Global,
    tables: &Tables,
    n: u32,
    columns: &[Name],
    names: &[Name],
    vals: &Row,
    steps: &mut Steps<L>,
) -> Result<Rows, NoMemory>
    requires columns { IsTrue (all_in columns.now names.now) }
    requires some { 0 < length names.now }
    requires singles { (t : IndexedRows) → slice_get tables.now n ≡ Some t → IsTrue (has_singles t.indexes (length columns.now)) }
    ensures rows { IfOk result (λ rows. IsSetOf rows (matching columns.now names.now vals.now (rows_in (slice_get tables.now n)))) }
    ensures probes { steps.old.probes ≤ steps.new.probes }
    ensures scans { steps.new.scans ≡ steps.old.scans }
{
    match tables.get(n as usize) {
        Some(table) => probe_where(alloc, table, columns, names, vals, steps),
        None => Ok(Rows::new(alloc)),
    }
}
