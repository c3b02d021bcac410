// The relations of a state under their numbers, and its views.
ghost use Rattle.std.specs.Prelude.{◌≡◌, ◌<◌, ◌≤◌, length, IfOk};
ghost use Rattle.wh_base.specs.RowSet.{in_order};
ghost use Rattle.wh_covers.specs.Covers.{IsNumbered};
ghost use Rattle.wh_load.specs.Load.{HasDistinctRows};
ghost use Rattle.wh_load.specs.Sources.{relation_lists, view_lists};
ghost use Rattle.wh_plan.specs.Plan.{IsPlan};
ghost use Rattle.wh_schema.specs.Heads.{heads_of};
ghost use Rattle.wh_schema.specs.Legality.{WellFormed};
ghost use Rattle.wh_schema.specs.Warehouse.{view_table};

use crate::source::copy_rows;
use std::alloc::Global;
use wh_base::{Heads, NoMemory, Rows, State, StoredRows, sort_rows};
use wh_eval::{Lists, eval};
use wh_plan::Plan;
use wh_schema::Spec;
use wh_steps::{Ledger, Steps};

/// Copies of the rows of each relation.
pub fn relation_lists(alloc: Global, spec: &Spec, s: &State) -> Result<State, NoMemory>
    requires { IsNumbered spec.now }
    ensures { IfOk result (λ lists. lists ≡ relation_lists spec.now s.now) }
{
    let mut lists = State::new(alloc);
    for relation in 0..spec.relations.len() as u32 {
        lists.push(copy_rows(alloc, s, relation)?)?;
    }
    Ok(lists)
}

/// The rows of a view, in row order.
fn view_rows<L: Ledger>(
    alloc: Global,
    plan: &Plan,
    heads: &Heads,
    s: &State,
    view: u32,
    steps: &mut Steps<L>,
) -> Result<Rows, NoMemory>
    requires plan { IsPlan plan.now }
    requires rules { WellFormed plan.now.spec }
    requires heads { heads.now ≡ heads_of plan.now.spec }
    requires whole { length s.now ≡ length plan.now.spec.relations }
    requires distinct { HasDistinctRows s.now }
    requires view { view < length plan.now.spec.views }
    ensures rows { IfOk result (λ rows. rows ≡ in_order (view_table plan.now.spec s.now view).rows) }
    ensures probes { steps.old.probes ≤ steps.new.probes }
    ensures scans { steps.old.scans ≤ steps.new.scans }
{
    let lists = Lists::new(heads, s);
    let rows = eval(alloc, plan.view_of(view), &lists, steps)?;
    sort_rows(rows)
}

/// The rows of each view, in row order.
pub fn view_lists<L: Ledger>(
    alloc: Global,
    plan: &Plan,
    heads: &Heads,
    s: &State,
    steps: &mut Steps<L>,
) -> Result<StoredRows, NoMemory>
    requires numbered { IsNumbered plan.now.spec }
    requires plan { IsPlan plan.now }
    requires rules { WellFormed plan.now.spec }
    requires heads { heads.now ≡ heads_of plan.now.spec }
    requires whole { length s.now ≡ length plan.now.spec.relations }
    requires distinct { HasDistinctRows s.now }
    ensures tables { IfOk result (λ tables. tables ≡ view_lists plan.now.spec s.now) }
    ensures probes { steps.old.probes ≤ steps.new.probes }
    ensures scans { steps.old.scans ≤ steps.new.scans }
{
    let mut tables = StoredRows::new(alloc);
    for view in 0..plan.spec.views.len() as u32 {
        tables.push(view_rows(alloc, plan, heads, s, view, steps)?)?;
    }
    Ok(tables)
}
