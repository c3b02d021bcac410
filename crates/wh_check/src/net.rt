ghost use Rattle.std.specs.Prelude.{◌≡◌, ◌<◌, ◌≤◌, ◌&&◌, nat_eq, ℕ, [], List, true, false, if◌then◌else◌, map, length, get_or, IfOk, OnOk};
ghost use Rattle.std.specs.List.{AllByRecursion};
ghost use Rattle.indexmap.specs.IndexSet.{contains};
ghost use Rattle.wh_base.specs.declared.value.Value.{Value};
ghost use Rattle.wh_base.specs.RowSet.{SameRows, has};
ghost use Rattle.wh_base.specs.Value.{row_eq};
ghost use Rattle.wh_check.specs.Check.{source_deltas};
ghost use Rattle.wh_csv.specs.declared.change.Line as csv;
ghost use Rattle.wh_fit.specs.Differences.{difference, differences};
ghost use Rattle.wh_fit.specs.Fit.{as_line};
ghost use Rattle.wh_schema.specs.Changes.{apply};
ghost use Rattle.wh_schema.specs.Warehouse.{State as SourceState};
ghost use Rattle.wh_store.specs.Image.{Image};
ghost use Rattle.wh_store.specs.Warehouse.{IsInForm, IsWarehouseOf};

use crate::sources::{held_sources, rows_at};
use indexmap::IndexSet;
use std::alloc::Global;
use wh_base::{Delta, Duplicate, NoMemory, Row, Rows, SourceDeltas, State, sort_rows};
use wh_csv::{Change, Line};
use wh_eval::{rows_without, without};
use wh_steps::{Ledger, Steps};
use wh_store::Warehouse;

fn set_of(alloc: Global, rows: Rows) -> Result<IndexSet<Row>, NoMemory>
    ensures { IfOk result (λ set. (q : List Value) → contains row_eq set q ≡ has rows q) }
{
    rows.into_vec().into_iter().collect(alloc)
}

fn rows_of(alloc: Global, set: IndexSet<Row>) -> Result<Rows, NoMemory>
    ensures { IfOk result (λ rows. (q : List Value) → has rows q ≡ contains row_eq set q) }
{
    let rows: Vec<Row> = set.into_iter().collect(alloc)?;
    Ok(Rows::from_vec(rows))
}

fn add(set: &mut IndexSet<Row>, row: Row) -> Result<(), NoMemory>
    ensures { OnOk result ((q : List Value) → contains row_eq set.new q ≡ (if row_eq row q then true else contains row_eq set.old q)) }
{
    let (_place, _is_new) = set.insert_full(row)?;
    Ok(())
}

fn remove(set: &mut IndexSet<Row>, row: &Row)
    ensures { (q : List Value) → contains row_eq set.new q ≡ (if row_eq row.now q then false else contains row_eq set.old q) }
{
    let _was_held = set.swap_remove(row);
}

/// What a line makes of the rows of a relation. A line of another relation leaves them.
fn apply_line(
    alloc: Global,
    set: &mut IndexSet<Row>,
    relation: usize,
    line: &Line,
) -> Result<(), NoMemory>
    ensures { OnOk result ((q : List Value) → contains row_eq set.new q ≡ (if nat_eq relation line.now.relation && row_eq line.now.row q then line.now.insert else contains row_eq set.old q)) }
{
    if relation != line.relation as usize {
        return Ok(());
    }
    if line.insert {
        return add(set, line.row.copy(alloc)?);
    }
    remove(set, &line.row);
    Ok(())
}

/// The rows of a relation after the lines, from those before.
fn rows_after(alloc: Global, rows: &Rows, relation: usize, lines: &[Line]) -> Result<Rows, NoMemory>
    ensures { IfOk result (λ after. (s : SourceState) → relation < length s → SameRows rows.now (get_or s relation []) → SameRows after (get_or (apply s (map as_line lines.now)) relation [])) }
{
    let mut set = set_of(alloc, rows.copy(alloc)?)?;
    for line in lines {
        apply_line(alloc, &mut set, relation, line)?;
    }
    rows_of(alloc, set)
}

/// The rows that the lines take from a relation and bring to it in the end, in row order.
fn delta_of(alloc: Global, rows: &Rows, relation: usize, lines: &[Line]) -> Result<Delta, NoMemory>
    ensures { IfOk result (λ d. (s : SourceState) → relation < length s → SameRows rows.now (get_or s relation []) → d ≡ difference (get_or s relation []) (get_or (apply s (map as_line lines.now)) relation [])) }
{
    let after = rows_after(alloc, rows, relation, lines)?;
    let deleted = sort_rows(rows_without(alloc, rows.as_slice(), after.copy(alloc)?)?)?;
    let before = rows.copy(alloc)?;
    let inserted = sort_rows(without(alloc, after, before)?)?;
    Ok(Delta { deleted, inserted })
}

/// The same of each relation.
fn deltas_of(alloc: Global, held: &State, lines: &[Line]) -> Result<SourceDeltas, NoMemory>
    ensures { IfOk result (λ d. (s : SourceState) → length s ≡ length held.now → ((k : ℕ) → k < length held.now → SameRows (get_or held.now k []) (get_or s k [])) → d ≡ differences s (apply s (map as_line lines.now))) }
{
    let mut deltas = SourceDeltas::new(alloc);
    for relation in 0..held.len() {
        deltas.push(delta_of(alloc, rows_at(held, relation), relation, lines)?)?;
    }
    Ok(deltas)
}

/// The rows that a change takes from each relation and the rows that it brings to it in the end, in row order.
pub fn effective<L: Ledger>(
    alloc: Global,
    w: &Warehouse,
    c: &Change,
    steps: &mut Steps<L>,
) -> Result<SourceDeltas, NoMemory>
    requires form { IsInForm w.now }
    requires lines { AllByRecursion (λ (l : csv.Line). l.relation < length w.now.plan.spec.relations) c.now }
    ensures count { IfOk result (λ d. length d ≡ length w.now.plan.spec.relations) }
    ensures deltas { IfOk result (λ d. (i : Image) → IsWarehouseOf i w.now → d ≡ source_deltas i (map as_line c.now)) }
    ensures probes { steps.old.probes ≤ steps.new.probes }
    ensures scans { steps.old.scans ≤ steps.new.scans }
{
    let held = held_sources(alloc, w, steps)?;
    deltas_of(alloc, &held, c.as_slice())
}
