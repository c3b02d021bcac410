// Walks along a chain of slots to live rows.
ghost use Rattle.std.specs.Prelude.{◌≡◌, ◌++◌, [], filter, reverse, IfOk, MatchOption};
ghost use Rattle.wh_table.specs.Slots.{is_row, has_at, is_live_with, rows_of, AreKeyed, IsFound};

use crate::slot::Slot;
use std::alloc::Global;
use wh_base::{Duplicate, NoMemory, Row, Rows, Value};
use wh_chains::Chains;

/// The last live slot with a row.
pub(crate) fn slot_of(chains: &Chains, key: u64, slots: &[Slot], row: &Row) -> Option<usize>
    requires { AreKeyed (is_row row.now) slots.now chains.now.keys key }
    ensures { MatchOption result
        (filter (is_live_with (is_row row.now)) slots.now ≡ [])
        (λ slot. IsFound (is_row row.now) slots.now slot) }
{
    let mut at = chains.last(key);
    while let Some(slot) = at {
        if slots[slot].holds(row) {
            return Some(slot);
        }
        at = chains.before(slot, key);
    }
    None
}

/// The last live slot whose row has these values at the places.
pub(crate) fn slot_where(
    chains: &Chains,
    key: u64,
    slots: &[Slot],
    places: &[u32],
    values: &[Value],
) -> Option<usize>
    requires { AreKeyed (has_at places.now values.now) slots.now chains.now.keys key }
    ensures { MatchOption result
        (filter (is_live_with (has_at places.now values.now)) slots.now ≡ [])
        (λ slot. IsFound (has_at places.now values.now) slots.now slot) }
{
    let mut at = chains.last(key);
    while let Some(slot) = at {
        if slots[slot].matches(places, values) {
            return Some(slot);
        }
        at = chains.before(slot, key);
    }
    None
}

/// Copies of the live rows that have these values at the places, the last one first.
pub(crate) fn copies_where(
    alloc: Global,
    chains: &Chains,
    key: u64,
    slots: &[Slot],
    places: &[u32],
    values: &[Value],
) -> Result<Rows, NoMemory>
    requires { AreKeyed (has_at places.now values.now) slots.now chains.now.keys key }
    ensures { IfOk result (λ kept. kept ≡ reverse (rows_of (filter (is_live_with (has_at places.now values.now)) slots.now))) }
{
    let mut kept = Rows::new(alloc);
    let mut at = chains.last(key);
    while let Some(slot) = at {
        if slots[slot].matches(places, values) {
            kept.push(slots[slot].row.copy(alloc)?)?;
        }
        at = chains.before(slot, key);
    }
    Ok(kept)
}
