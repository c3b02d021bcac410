// Indexes of slots by the values at sets of columns.
ghost use Rattle.std.specs.Prelude.{◌≡◌, ◌+◌, ◌<◌, ◌≤◌, ℕ, [], ◌∷◌, ◌++◌, List, length, map, All, Any, Contains, IsPermutation, IsTrue, IfOk, OnOk, MatchOption};
ghost use Rattle.wh_base.specs.declared.value.Value.{Value};
ghost use Rattle.wh_table.specs.Hash.{key_at, hash_of};
ghost use Rattle.wh_table.specs.Table.{AreAmong, HasSetWithin};
ghost use Rattle.wh_table.specs.Slots.{IsIndexOf, AreIndexesOf, column_sets, rows_of, linked, relinked, with_keys};

use crate::hash::{hash_at, row_hash};
use crate::slot::Slot;
use std::alloc::Global;
use wh_base::{ColumnSets, NoMemory, Places, Row};
use wh_chains::Chains;

/// The chains of slots by the values at a set of columns.
#[derive(Debug, Drop)]
pub(crate) struct Index {
    pub(crate) places: Places,
    pub(crate) chains: Chains,
}

/// Indexes without slots.
pub(crate) fn new_indexes(alloc: Global, sets: ColumnSets) -> Result<Vec<Index>, NoMemory>
    ensures sets { IfOk result (λ indexes. column_sets indexes.items ≡ sets) }
    ensures empty { IfOk result (λ indexes. AreIndexesOf [] 0 indexes.items) }
{
    let mut indexes = Vec::new(alloc);
    for places in sets.into_vec() {
        let chains = Chains::new(alloc)?;
        indexes.push(Index { places, chains })?;
    }
    Ok(indexes)
}

/// Takes the memory for more slots.
pub(crate) fn reserve_all(
    indexes: &mut [Index],
    alloc: Global,
    additional: usize,
) -> Result<(), NoMemory>
    ensures sets { column_sets indexes.new ≡ column_sets indexes.old }
    ensures kept { (rows : List (List Value)) (spare : ℕ) → AreIndexesOf rows spare indexes.old → AreIndexesOf rows spare indexes.new }
    ensures room { OnOk result (All (λ index. additional ≤ index.chains.spare) indexes.new) }
{
    for index in indexes.iter_mut() {
        index.chains.reserve(alloc, additional)?;
    }
    Ok(())
}

/// Appends a slot with a row to each index.
pub(crate) fn link_all(indexes: &mut [Index], row: &Row)
    requires { All (λ index. 0 < index.chains.spare) indexes.old }
    ensures { indexes.new ≡ map (linked row.now) indexes.old }
{
    for index in indexes.iter_mut() {
        index
            .chains
            .link(hash_at(row.as_slice(), index.places.as_slice()));
    }
}

/// Takes all slots away, and then appends these.
fn relink_at(chains: &mut Chains, places: &[u32], slots: &[Slot])
    requires { length slots.now ≤ length chains.old.keys }
    ensures { chains.new ≡ with_keys chains.old (map (key_at places.now) (rows_of slots.now)) }
{
    chains.clear();
    for slot in slots {
        chains.link(hash_at(slot.row.as_slice(), places));
    }
}

/// The same by the whole rows.
pub(crate) fn relink_whole(chains: &mut Chains, slots: &[Slot])
    requires { length slots.now ≤ length chains.old.keys }
    ensures { chains.new ≡ with_keys chains.old (map hash_of (rows_of slots.now)) }
{
    chains.clear();
    for slot in slots {
        chains.link(row_hash(slot.row.as_slice()));
    }
}

/// Takes all slots away from each index, and then appends these.
pub(crate) fn relink_all(indexes: &mut [Index], slots: &[Slot])
    requires { All (λ index. length slots.now ≤ length index.chains.keys) indexes.old }
    ensures { indexes.new ≡ map (relinked (rows_of slots.now)) indexes.old }
{
    for index in indexes.iter_mut() {
        relink_at(&mut index.chains, index.places.as_slice(), slots);
    }
}

fn is_among(columns: &[u32], place: u32) -> bool
    ensures yes { IsTrue result → Contains columns.now place }
    ensures no { Contains columns.now place → IsTrue result }
{
    for column in columns {
        if *column == place {
            return true;
        }
    }
    false
}

/// Whether each of some places is among columns.
fn are_among(places: &[u32], columns: &[u32]) -> bool
    ensures yes { IsTrue result → AreAmong places.now columns.now }
    ensures no { AreAmong places.now columns.now → IsTrue result }
{
    for place in places {
        if !is_among(columns, *place) {
            return false;
        }
    }
    true
}

/// The first index whose columns are among these.
fn first_within<'a>(indexes: &'a [Index], columns: &[u32]) -> &'a Index
    requires { HasSetWithin (column_sets indexes.now) columns.now }
    ensures one_of { Contains indexes.now result.now }
    ensures among { AreAmong result.now.places columns.now }
{
    for index in indexes {
        if are_among(index.places.as_slice(), columns) {
            return index;
        }
    }
    unreachable!()
}

/// The first index with the most columns of those whose columns are among these.
pub(crate) fn index_within<'a>(indexes: &'a [Index], columns: &[u32]) -> &'a Index
    requires { HasSetWithin (column_sets indexes.now) columns.now }
    ensures one_of { Contains indexes.now result.now }
    ensures among { AreAmong result.now.places columns.now }
{
    let mut chosen = first_within(indexes, columns);
    for index in indexes {
        if index.places.len() > chosen.places.len() && are_among(index.places.as_slice(), columns) {
            chosen = index;
        }
    }
    chosen
}
