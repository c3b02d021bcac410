// The complements of a state, from its relations and its views.
ghost use Rattle.std.specs.Prelude.{◌≡◌, ◌<◌, ◌≤◌, ◌++◌, [], length, replicate, IfOk};
ghost use Rattle.wh_base.specs.RowSet.{in_order};
ghost use Rattle.wh_covers.specs.Covers.{IsNumbered};
ghost use Rattle.wh_load.specs.Load.{HasDistinctRows};
ghost use Rattle.wh_load.specs.Sources.{source_lists, complement_lists};
ghost use Rattle.wh_plan.specs.Plan.{IsPlan};
ghost use Rattle.wh_schema.specs.Heads.{heads_of};
ghost use Rattle.wh_schema.specs.Legality.{WellFormed};
ghost use Rattle.wh_schema.specs.Warehouse.{sources_of, complement};

use crate::source::rows_of;
use std::alloc::Global;
use wh_base::{Duplicate, Heads, NoMemory, Rows, State, StoredRows, sort_rows};
use wh_eval::{Lists, eval, rows_without};
use wh_plan::Plan;
use wh_steps::{Ledger, Steps};

fn empty_lists(alloc: Global, count: usize) -> Result<State, NoMemory>
    ensures { IfOk result (λ lists. lists ≡ replicate count []) }
{
    let mut lists = State::new(alloc);
    for _turn in 0..count {
        lists.push(Rows::new(alloc))?;
    }
    Ok(lists)
}

/// The relations, copies of the views, and nothing for the complements.
pub fn source_lists(alloc: Global, relations: State, views: &StoredRows) -> Result<State, NoMemory>
    ensures { IfOk result (λ lists. lists ≡ (relations ++ views.now) ++ replicate (length relations) []) }
{
    let complements = empty_lists(alloc, relations.len())?;
    let mut lists = relations.into_vec();
    lists.append(&mut views.copy(alloc)?.into_vec())?;
    lists.append(&mut complements.into_vec())?;
    Ok(State::from_vec(lists))
}

/// The rows of a relation that its covers do not give back, in row order.
fn complement_rows<L: Ledger>(
    alloc: Global,
    plan: &Plan,
    heads: &Heads,
    s: &State,
    sources: &State,
    relation: u32,
    steps: &mut Steps<L>,
) -> Result<Rows, NoMemory>
    requires plan { IsPlan plan.now }
    requires rules { WellFormed plan.now.spec }
    requires heads { heads.now ≡ heads_of plan.now.spec }
    requires sources { sources.now ≡ source_lists plan.now.spec s.now }
    requires distinct { HasDistinctRows s.now }
    requires relation { relation < length plan.now.spec.relations }
    ensures rows { IfOk result (λ rows. rows ≡ in_order (complement plan.now.spec (sources_of plan.now.spec s.now) relation)) }
    ensures probes { steps.old.probes ≤ steps.new.probes }
    ensures scans { steps.old.scans ≤ steps.new.scans }
{
    let lists = Lists::new(heads, sources);
    let covered = eval(alloc, plan.inverse_of(relation), &lists, steps)?;
    let rest = rows_without(alloc, rows_of(s, relation), covered)?;
    sort_rows(rest)
}

/// The complement of each relation, in row order.
pub fn complement_lists<L: Ledger>(
    alloc: Global,
    plan: &Plan,
    heads: &Heads,
    s: &State,
    sources: &State,
    steps: &mut Steps<L>,
) -> Result<StoredRows, NoMemory>
    requires numbered { IsNumbered plan.now.spec }
    requires plan { IsPlan plan.now }
    requires rules { WellFormed plan.now.spec }
    requires heads { heads.now ≡ heads_of plan.now.spec }
    requires sources { sources.now ≡ source_lists plan.now.spec s.now }
    requires distinct { HasDistinctRows s.now }
    ensures tables { IfOk result (λ tables. tables ≡ complement_lists plan.now.spec s.now) }
    ensures probes { steps.old.probes ≤ steps.new.probes }
    ensures scans { steps.old.scans ≤ steps.new.scans }
{
    let mut tables = StoredRows::new(alloc);
    for relation in 0..plan.spec.relations.len() as u32 {
        tables.push(complement_rows(alloc, plan, heads, s, sources, relation, steps)?)?;
    }
    Ok(tables)
}
