ghost use Rattle.std.specs.Prelude.{◌≡◌, ◌+◌, ◌≤◌, [], ◌++◌, length, vec_len, All, IfOk, OnOk, OnErr, MatchOption, IsTrue};
ghost use Rattle.wh_base.specs.RowSet.{has, AreDistinct, SameRows, IsSetOf};
ghost use Rattle.wh_base.specs.Tables.{without};
ghost use Rattle.wh_table.specs.Table.{IsColumnSet, IsIndexed, HasSetWithin, matching, CanApply};

use crate::prepared::Prepared;
use crate::slots::Slots;
use std::alloc::Global;
use std::marker::Model;
use wh_base::{ColumnSets, Delta, NoMemory, Places, Row, Rows, Sequence};
use wh_steps::{Ledger, Steps};

/// Distinct rows of one width.
#[derive(Debug, Drop)]
pub struct Table {
    slots: Slots,
    width: u32,
}

impl Model for Table {
    ghost use Rattle.wh_base.specs.RowSet.{AreDistinct};
    ghost use Rattle.wh_table.specs.Table.{IndexedRows};

    ghost Value = { IndexedRows };

    ghost view = { λ t. record { rows = t.slots.rows; width = t.width; indexes = t.slots.indexes; spare = t.slots.spare } };

    ghost invariant = { λ t. AreDistinct t.slots.rows };
}

pub type Tables = Sequence<Table>;

impl Table {
    /// An empty table of a width, with sets of columns to look its rows up by.
    pub fn new(alloc: Global, width: u32, indexes: ColumnSets) -> Result<Table, NoMemory>
        requires { All (IsColumnSet width) indexes }
        ensures { IfOk result (λ table. table ≡ record { rows = []; width = width; indexes = indexes; spare = 0 }) }
    {
        Ok(Table {
            slots: Slots::new(alloc, indexes)?,
            width,
        })
    }

    /// The number of rows.
    pub fn len(&self) -> usize
        ensures count { result ≡ length self.now.rows }

        // They are distinct in every table.
        ensures distinct { AreDistinct self.now.rows }
    {
        self.slots.len()
    }

    /// Whether a row is there.
    pub fn contains(&self, r: &Row) -> bool
        ensures { result ≡ has self.now.rows r.now }
    {
        self.slots.contains(r)
    }

    /// All rows, which is one scan.
    pub fn scan<L: Ledger>(&self, alloc: Global, steps: &mut Steps<L>) -> Result<Rows, NoMemory>
        ensures rows { IfOk result (λ rows. IsSetOf rows self.now.rows) }
        ensures scans { steps.new.scans ≡ steps.old.scans + 1 }
        ensures probes { steps.new.probes ≡ steps.old.probes }
    {
        steps.scan();
        self.slots.copies(alloc)
    }

    /// The rows with these values at the columns of an indexed set: one probe, and one more for each answer.
    pub fn probe<L: Ledger>(
        &self,
        alloc: Global,
        cols: &Places,
        vals: &Row,
        steps: &mut Steps<L>,
    ) -> Result<Rows, NoMemory>
        requires indexed { IsIndexed self.now.indexes cols.now }
        requires one_each { length vals.now ≡ length cols.now }
        ensures rows { IfOk result (λ rows. IsSetOf rows (matching cols.now vals.now self.now.rows)) }
        ensures probes { IfOk result (λ rows. steps.new.probes ≡ steps.old.probes + 1 + length rows) }
        ensures probes_at_error { OnErr result (steps.new.probes ≡ steps.old.probes + 1) }
        ensures scans { steps.new.scans ≡ steps.old.scans }
    {
        self.probe_within(alloc, cols, vals, steps)
    }

    /// The rows with these values at columns, by the largest indexed set that is among the columns: one probe, and one more for
    /// each answer.
    pub fn probe_within<L: Ledger>(
        &self,
        alloc: Global,
        cols: &Places,
        vals: &Row,
        steps: &mut Steps<L>,
    ) -> Result<Rows, NoMemory>
        requires { HasSetWithin self.now.indexes cols.now }
        ensures rows { IfOk result (λ rows. IsSetOf rows (matching cols.now vals.now self.now.rows)) }
        ensures probes { IfOk result (λ rows. steps.new.probes ≡ steps.old.probes + 1 + length rows) }
        ensures probes_at_error { OnErr result (steps.new.probes ≡ steps.old.probes + 1) }
        ensures scans { steps.new.scans ≡ steps.old.scans }
    {
        steps.probe(1);
        let rows = self
            .slots
            .copies_where(alloc, cols.as_slice(), vals.as_slice())?;
        steps.probe(rows.len() as u64);
        Ok(rows)
    }

    /// A row with these values at the columns of an indexed set, where there is one: one probe.
    pub fn probe_first<L: Ledger>(
        &self,
        alloc: Global,
        cols: &Places,
        vals: &Row,
        steps: &mut Steps<L>,
    ) -> Result<Option<Row>, NoMemory>
        requires indexed { IsIndexed self.now.indexes cols.now }
        requires one_each { length vals.now ≡ length cols.now }
        ensures row { IfOk result (λ found. MatchOption found
            (matching cols.now vals.now self.now.rows ≡ [])
            (λ row. IsTrue (has (matching cols.now vals.now self.now.rows) row))) }
        ensures probes { steps.new.probes ≡ steps.old.probes + 1 }
        ensures scans { steps.new.scans ≡ steps.old.scans }
    {
        steps.probe(1);
        self.slots
            .copy_where(alloc, cols.as_slice(), vals.as_slice())
    }

    /// Takes all memory that a change needs.
    pub fn prepare(&mut self, alloc: Global, d: Delta) -> Result<Prepared, NoMemory>
        ensures prepared { IfOk result (λ p. p ≡ d) }
        ensures room { OnOk result (length d.inserted ≤ self.new.spare) }
        ensures rows { self.new.rows ≡ self.old.rows }
        ensures width { self.new.width ≡ self.old.width }
        ensures indexes { self.new.indexes ≡ self.old.indexes }
        ensures spare { self.old.spare ≤ self.new.spare }
    {
        self.slots.reserve(alloc, d.inserted.len())?;
        Ok(Prepared::new(d))
    }

    /// Makes a change for which there is room.
    pub fn apply(&mut self, p: Prepared)
        requires fits { CanApply self.old.rows p }
        requires room { length p.inserted ≤ self.old.spare }
        ensures rows { SameRows self.new.rows (without self.old.rows p.deleted ++ p.inserted) }
        ensures spare { self.new.spare + length p.inserted ≡ self.old.spare }
        ensures width { self.new.width ≡ self.old.width }
        ensures indexes { self.new.indexes ≡ self.old.indexes }
    {
        let Delta { deleted, inserted } = p.into_delta();
        delete_all(&mut self.slots, deleted.as_slice());
        insert_all(&mut self.slots, inserted.into_vec());
    }
}

fn delete_all(slots: &mut Slots, deleted: &[Row])
    requires { AreDistinct slots.old.rows }
    ensures rows { slots.new.rows ≡ without slots.old.rows deleted.now }
    ensures spare { slots.new.spare ≡ slots.old.spare }
    ensures indexes { slots.new.indexes ≡ slots.old.indexes }
{
    for row in deleted {
        slots.delete(row);
    }
}

fn insert_all(slots: &mut Slots, inserted: Vec<Row>)
    requires { vec_len inserted ≤ slots.old.spare }
    ensures rows { slots.new.rows ≡ slots.old.rows ++ inserted.items }
    ensures spare { slots.new.spare + vec_len inserted ≡ slots.old.spare }
    ensures indexes { slots.new.indexes ≡ slots.old.indexes }
{
    for row in inserted {
        slots.insert(row);
    }
}
