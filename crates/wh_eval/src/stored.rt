ghost use Rattle.std.specs.Prelude.{◌≡◌, ◌+◌, ◌-◌, ◌<◌, ◌≤◌, [], ◌∷◌, Some, length, map, take, slice_get, IsTrue, IfOk, OnOk, OnErr, MatchOption};
ghost use Rattle.std.specs.List.{range_with_len, list_all};
ghost use Rattle.std.specs.Coded.{le_prop};
ghost use Rattle.wh_base.specs.Columns.{all_in, place_of, picked};
ghost use Rattle.wh_base.specs.Heads.{columns_at};
ghost use Rattle.wh_base.specs.RowSet.{IsSetOf, has};
ghost use Rattle.wh_base.specs.Tables.{matching};
ghost use Rattle.wh_expr.specs.Typing.{are_distinct};
ghost use Rattle.wh_eval.specs.Stored.{first_stored, is_stored, stored_table, stored_rows, stored_indexes, has_singles, FitHeads, FitHeads-prop, FitsByIndexes, SinglesFit};
ghost use Rattle.wh_table.specs.Table.{IsIndexed, matching as matching_at};

use crate::base::Base;
use crate::look_up;
use std::alloc::Global;
use wh_base::{Heads, Name, Names, NoMemory, Places, Row, Rows, place_of};
use wh_steps::{Ledger, Steps};
use wh_table::{Table, Tables};

/// Rows in tables: the last numbers of the heads, in the order of the tables.
#[derive(Drop)]
pub struct Stored<'a> {
    heads: &'a Heads,
    tables: &'a Tables,
    ghost enough: { length tables.now ≤ length heads.now } by { le_prop },
    ghost fits: { FitHeads heads.now tables.now } by { FitHeads-prop heads.now tables.now },
}

impl<'a> Stored<'a> {
    /// Borrows both.
    pub fn new(heads: &'a Heads, tables: &'a Tables) -> Stored<'a>
        requires enough { length tables.now ≤ length heads.now }
        requires fits { FitHeads heads.now tables.now }
        ensures heads { result.heads.now ≡ heads.entry.now }
        ensures tables { result.tables.now ≡ tables.entry.now }
    {
        Stored { heads, tables }
    }

    fn table_at(&self, n: u32) -> &Table
        requires { IsTrue (is_stored self.now.heads.now self.now.tables.now n) }
        ensures { stored_table self.now.heads.now self.now.tables.now n ≡ Some result.now }
    {
        &self.tables.as_slice()[n as usize - (self.heads.len() - self.tables.len())]
    }

    fn places_at(&self, alloc: Global, n: u32, cols: &Names) -> Result<Places, NoMemory>
        ensures { IfOk result (λ places. places ≡ map (place_of (columns_at self.now.heads.now n)) cols.now) }
    {
        let columns = look_up::columns_of(alloc, self.heads, n)?;
        places_of(alloc, columns.as_slice(), cols.as_slice())
    }

    /// A row of a number with these values at columns that are an indexed set, where there is one: one probe.
    pub fn first_where<L: Ledger>(
        &self,
        alloc: Global,
        n: u32,
        cols: &Names,
        vals: &Row,
        steps: &mut Steps<L>,
    ) -> Result<Option<Row>, NoMemory>
        requires held { IsTrue (is_stored self.now.heads.now self.now.tables.now n) }
        requires columns { IsTrue (all_in (columns_at self.now.heads.now n) cols.now) }
        requires some { 0 < length cols.now }
        requires distinct { IsTrue (are_distinct cols.now) }
        requires one_each { length vals.now ≡ length cols.now }
        requires indexed { IsIndexed (stored_indexes self.now.heads.now self.now.tables.now n) (map (place_of (columns_at self.now.heads.now n)) cols.now) }
        ensures row { IfOk result (λ found. MatchOption found
            (matching (columns_at self.now.heads.now n) cols.now vals.now (stored_rows self.now.heads.now self.now.tables.now n) ≡ [])
            (λ row. IsTrue (has (matching (columns_at self.now.heads.now n) cols.now vals.now (stored_rows self.now.heads.now self.now.tables.now n)) row))) }
        ensures probes { steps.new.probes ≡ steps.old.probes + 1 }
        ensures scans { steps.new.scans ≡ steps.old.scans }
    {
        match self.places_at(alloc, n, cols) {
            Ok(places) => self.table_at(n).probe_first(alloc, &places, vals, steps),
            Err(error) => {
                // It counts as a probe also where there is no memory for it.
                steps.probe(1);
                Err(error)
            }
        }
    }
}

impl<'a> Base for Stored<'a> {
    ghost heads_of = { λ s. s.heads.now };

    ghost has_number = { λ s n. is_stored s.heads.now s.tables.now n };

    ghost rows_at = { λ s n. stored_rows s.heads.now s.tables.now n };

    fn heads(&self) -> &Heads {
        self.heads
    }

    fn rows<L: Ledger>(
        &self,
        alloc: Global,
        n: u32,
        steps: &mut Steps<L>,
    ) -> Result<Rows, NoMemory> {
        self.table_at(n).scan(alloc, steps)
    }

    fn rows_where<L: Ledger>(
        &self,
        alloc: Global,
        n: u32,
        cols: &Names,
        vals: &Row,
        steps: &mut Steps<L>,
    ) -> Result<Rows, NoMemory> {
        let columns = look_up::columns_of(alloc, self.heads, n)?;
        probe_where(
            alloc,
            self.table_at(n),
            columns.as_slice(),
            cols.as_slice(),
            vals,
            steps,
        )
    }
}

/// The places of names among columns.
fn places_of(alloc: Global, columns: &[Name], names: &[Name]) -> Result<Places, NoMemory>
    ensures { IfOk result (λ places. places ≡ map (place_of columns.now) names.now) }
{
    let mut places = Places::new(alloc);
    for name in names {
        let Ok(place) = u32::try_from(place_of(columns, name)) else {
            // No memory has rows so wide.
            return Err(NoMemory);
        };
        places.push(place)?;
    }
    Ok(places)
}

/// The rows of a table with these values at the names, by a probe of the largest indexed set among their columns. The columns
/// of the table are named, and each is an indexed set.
pub fn probe_where<L: Ledger>(
    alloc: Global,
    table: &Table,
    columns: &[Name],
    names: &[Name],
    vals: &Row,
    steps: &mut Steps<L>,
) -> Result<Rows, NoMemory>
    requires columns { IsTrue (all_in columns.now names.now) }
    requires some { 0 < length names.now }
    requires singles { IsTrue (has_singles table.now.indexes (length columns.now)) }
    ensures rows { IfOk result (λ rows. IsSetOf rows (matching columns.now names.now vals.now table.now.rows)) }
    ensures probes { steps.old.probes ≤ steps.new.probes }
    ensures scans { steps.new.scans ≡ steps.old.scans }
{
    let places = places_of(alloc, columns, names)?;
    table.probe_within(alloc, &places, vals, steps)
}

/// A table fits the attributes of its number exactly where it is as wide, and each of its columns alone is an indexed set.
pub fn fits_by_indexes()
    ensures { FitsByIndexes }
{}

/// A table whose sets begin with each of its columns alone fits attributes that are as many.
pub fn singles_fit()
    ensures { SinglesFit }
{}
