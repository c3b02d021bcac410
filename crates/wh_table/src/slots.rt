ghost use Rattle.std.specs.Prelude.{◌≡◌, ◌+◌, ◌<◌, ◌≤◌, [], ◌∷◌, ◌++◌, length, reverse, IfOk, OnOk, MatchOption, IsTrue};
ghost use Rattle.wh_base.specs.RowSet.{has, AreDistinct};
ghost use Rattle.wh_base.specs.Tables.{without};
ghost use Rattle.wh_table.specs.Slots.{SlottedRows, live_rows, rows_of};
ghost use Rattle.wh_table.specs.Table.{HasSetWithin, matching};

use crate::hash::{asked_hash, row_hash};
use crate::index::{
    Index, index_within, link_all, new_indexes, relink_all, relink_whole, reserve_all,
};
use crate::slot::Slot;
use crate::walk::{copies_where, slot_of, slot_where};
use std::alloc::Global;
use std::marker::Model;
use wh_base::{ColumnSets, Duplicate, NoMemory, Places, Row, Rows, Value};
use wh_chains::Chains;

/// Rows in numbered slots, with chains over the whole rows and over the values at sets of columns.
#[derive(Debug, Drop)]
pub(crate) struct Slots {
    slots: Vec<Slot>,
    live: usize,
    whole: Chains,
    indexes: Vec<Index>,
    spare: usize,
}

impl Model for Slots {
    ghost use Rattle.std.specs.Prelude.{◌+◌, ◌≤◌, vec_len, vec_capacity};
    ghost use Rattle.wh_table.specs.Slots.{SlottedRows, live_rows, column_sets, AreKept};

    ghost Value = { SlottedRows };

    ghost view = { λ s. record { rows = live_rows s.slots.items; indexes = column_sets s.indexes.items; spare = s.spare } };

    ghost invariant = { λ s. AreKept s.slots.items s.live s.spare s.whole s.indexes.items × (vec_len s.slots + s.spare ≤ vec_capacity s.slots) };
}

impl Slots {
    /// No rows, with sets of columns to look rows up by.
    pub(crate) fn new(alloc: Global, sets: ColumnSets) -> Result<Slots, NoMemory>
        ensures { IfOk result (λ slots. slots ≡ record { rows = []; indexes = sets; spare = 0 }) }
    {
        Ok(Slots {
            slots: Vec::new(alloc),
            live: 0,
            whole: Chains::new(alloc)?,
            indexes: new_indexes(alloc, sets)?,
            spare: 0,
        })
    }

    pub(crate) fn len(&self) -> usize
        ensures { result ≡ length self.now.rows }
    {
        self.live
    }

    /// Whether a row is there.
    pub(crate) fn contains(&self, row: &Row) -> bool
        ensures { result ≡ has self.now.rows row.now }
    {
        let key = row_hash(row.as_slice());
        slot_of(&self.whole, key, self.slots.as_slice(), row).is_some()
    }

    /// Copies of all rows.
    pub(crate) fn copies(&self, alloc: Global) -> Result<Rows, NoMemory>
        ensures { IfOk result (λ rows. rows ≡ self.now.rows) }
    {
        live_copies(alloc, self.slots.as_slice())
    }

    /// Copies of the rows with these values at the columns, the last one first. An indexed set is among the columns.
    pub(crate) fn copies_where(
        &self,
        alloc: Global,
        cols: &[u32],
        vals: &[Value],
    ) -> Result<Rows, NoMemory>
        requires { HasSetWithin self.now.indexes cols.now }
        ensures { IfOk result (λ rows. rows ≡ reverse (matching cols.now vals.now self.now.rows)) }
    {
        if vals.len() != cols.len() {
            return Ok(Rows::new(alloc));
        }
        let index = index_within(self.indexes.as_slice(), cols);
        let key = asked_hash(index.places.as_slice(), cols, vals);
        copies_where(alloc, &index.chains, key, self.slots.as_slice(), cols, vals)
    }

    /// A copy of the last row with these values at the columns. An indexed set is among the columns.
    pub(crate) fn copy_where(
        &self,
        alloc: Global,
        cols: &[u32],
        vals: &[Value],
    ) -> Result<Option<Row>, NoMemory>
        requires within { HasSetWithin self.now.indexes cols.now }
        requires one_each { length vals.now ≡ length cols.now }
        ensures { IfOk result (λ found. MatchOption found
            (matching cols.now vals.now self.now.rows ≡ [])
            (λ row. IsTrue (has (matching cols.now vals.now self.now.rows) row))) }
    {
        let index = index_within(self.indexes.as_slice(), cols);
        let key = asked_hash(index.places.as_slice(), cols, vals);
        match slot_where(&index.chains, key, self.slots.as_slice(), cols, vals) {
            Some(slot) => Ok(Some(self.slots[slot].row.copy(alloc)?)),
            None => Ok(None),
        }
    }

    /// Takes the memory for more rows. Where at least half of the slots are dead, the live ones are numbered anew.
    pub(crate) fn reserve(&mut self, alloc: Global, additional: usize) -> Result<(), NoMemory>
        ensures rows { self.new.rows ≡ self.old.rows }
        ensures indexes { self.new.indexes ≡ self.old.indexes }
        ensures spare { self.old.spare ≤ self.new.spare }
        ensures room { OnOk result (additional ≤ self.new.spare) }
    {
        if self.live <= self.slots.len() / 2 {
            self.renumber();
        }
        let spare = self.spare.max(additional);
        self.slots.reserve(spare)?;
        self.whole.reserve(alloc, spare)?;
        reserve_all(self.indexes.as_mut_slice(), alloc, spare)?;
        self.spare = spare;
        Ok(())
    }

    /// Drops the dead slots, and numbers the live ones anew. It takes no memory.
    fn renumber(&mut self)
        ensures { self.new ≡ self.old }
    {
        self.slots.retain(|slot| !slot.dead);
        relink_whole(&mut self.whole, self.slots.as_slice());
        relink_all(self.indexes.as_mut_slice(), self.slots.as_slice());
    }

    /// Marks the slot of a row as dead, where the row is there.
    pub(crate) fn delete(&mut self, row: &Row)
        requires { AreDistinct self.old.rows }
        ensures rows { self.new.rows ≡ without self.old.rows (row.now ∷ []) }
        ensures indexes { self.new.indexes ≡ self.old.indexes }
        ensures spare { self.new.spare ≡ self.old.spare }
    {
        let key = row_hash(row.as_slice());
        match slot_of(&self.whole, key, self.slots.as_slice(), row) {
            Some(slot) => {
                let found = &mut self.slots[slot];
                found.dead = true;
                self.live -= 1;
            }
            None => {}
        }
    }

    /// Appends a row, for which there is room.
    pub(crate) fn insert(&mut self, row: Row)
        requires { 0 < self.old.spare }
        ensures rows { self.new.rows ≡ self.old.rows ++ row ∷ [] }
        ensures indexes { self.new.indexes ≡ self.old.indexes }
        ensures spare { self.new.spare + 1 ≡ self.old.spare }
    {
        self.spare -= 1;
        self.whole.link(row_hash(row.as_slice()));
        link_all(self.indexes.as_mut_slice(), &row);
        self.slots.push_reserved(Slot { row, dead: false });
        self.live += 1;
    }
}

/// Copies of the rows of the live slots.
fn live_copies(alloc: Global, slots: &[Slot]) -> Result<Rows, NoMemory>
    ensures { IfOk result (λ rows. rows ≡ live_rows slots.now) }
{
    let mut rows = Rows::new(alloc);
    for slot in slots {
        if !slot.dead {
            rows.push(slot.row.copy(alloc)?)?;
        }
    }
    Ok(rows)
}
