ghost use Rattle.std.specs.Prelude.{◌≡◌, ◌≤◌, ◌++◌, None, IfOk, OnOk, IfErr};
ghost use Rattle.wh_covers.specs.Covers.{IsNumbered};
ghost use Rattle.wh_load.specs.Load.{HasDistinctRows, IsLoadFault, first_over};
ghost use Rattle.wh_plan.specs.Plan.{IsPlan};
ghost use Rattle.wh_schema.specs.Constraints.{broken};
ghost use Rattle.wh_schema.specs.Legality.{WellFormed};
ghost use Rattle.wh_schema.specs.Warehouse.{stored};

use crate::broken::first_broken;
use crate::complements::{complement_lists, source_lists};
use crate::fault::LoadFault;
use crate::limit::limited;
use crate::views::{relation_lists, view_lists};
use std::alloc::Global;
use wh_base::{NoMemory, Sequence, State, StoredRows};
use wh_plan::Plan;
use wh_schema::heads;
use wh_steps::{Ledger, Steps};

fn append_tables(left: StoredRows, right: StoredRows) -> Result<StoredRows, NoMemory>
    ensures { IfOk result (λ tables. tables ≡ left ++ right) }
{
    let mut items = left.into_vec();
    items.append(&mut right.into_vec())?;
    Ok(Sequence::from_vec(items))
}

fn stored_tables<L: Ledger>(
    alloc: Global,
    plan: &Plan,
    s: &State,
    steps: &mut Steps<L>,
) -> Result<StoredRows, NoMemory>
    requires numbered { IsNumbered plan.now.spec }
    requires plan { IsPlan plan.now }
    requires rules { WellFormed plan.now.spec }
    requires distinct { HasDistinctRows s.now }
    ensures tables { IfOk result (λ tables. tables ≡ stored plan.now.spec s.now) }
    ensures probes { steps.old.probes ≤ steps.new.probes }
    ensures scans { steps.old.scans ≤ steps.new.scans }
{
    let heads = heads(alloc, &plan.spec)?;
    let relations = relation_lists(alloc, &plan.spec, s)?;
    let views = view_lists(alloc, plan, &heads, &relations, steps)?;
    let sources = source_lists(alloc, relations, &views)?;
    let rests = complement_lists(alloc, plan, &heads, s, &sources, steps)?;
    append_tables(views, rests)
}

/// The stored tables of a state: the views, then the complements, each with its distinct rows in row order.
/// `Broken` comes exactly where the state is not legal. `RowLimit` names the first of the tables with more than
/// 4,000,000 rows, where the state is legal.
pub fn load_rows<L: Ledger>(
    alloc: Global,
    plan: &Plan,
    s: &State,
    steps: &mut Steps<L>,
) -> Result<StoredRows, LoadFault>
    requires numbered { IsNumbered plan.now.spec }
    requires plan { IsPlan plan.now }
    requires rules { WellFormed plan.now.spec }
    requires distinct { HasDistinctRows s.now }
    ensures ok { IfOk result (λ tables. tables ≡ stored plan.now.spec s.now) }
    ensures legal { OnOk result (broken plan.now.spec s.now ≡ None) }
    ensures small { OnOk result (first_over (stored plan.now.spec s.now) ≡ None) }
    ensures fault { IfErr result (IsLoadFault plan.now.spec s.now) }
    ensures probes { steps.old.probes ≤ steps.new.probes }
    ensures scans { steps.old.scans ≤ steps.new.scans }
{
    match first_broken(alloc, &plan.spec, s)? {
        Some(broken) => Err(LoadFault::Broken(broken)),
        None => limited(stored_tables(alloc, plan, s, steps)?),
    }
}
