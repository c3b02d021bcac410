ghost use Rattle.std.specs.Prelude.{◌≡◌, ◌<◌, ◌≤◌, length, IfOk};
ghost use Rattle.wh_answer.specs.Answer.{rows_of};
ghost use Rattle.wh_base.specs.RowSet.{SameRows};
ghost use Rattle.wh_eval.specs.Lists.{HasDistinctRows};
ghost use Rattle.wh_report.specs.Report.{rows_at};
ghost use Rattle.wh_schema.specs.Reconstruction.{reconstructed};
ghost use Rattle.wh_schema.specs.Warehouse.{SameState};
ghost use Rattle.wh_store.specs.Warehouse.{IsInForm};

use std::alloc::Global;
use wh_base::{NoMemory, Rows, State};
use wh_eval::{Base, Stored};
use wh_inverse::Inverse;
use wh_schema::heads;
use wh_steps::{Ledger, Steps};
use wh_store::Warehouse;

/// The relations that the stored tables give back, each row once.
pub(crate) fn held_relations<L: Ledger>(
    alloc: Global,
    w: &Warehouse,
    steps: &mut Steps<L>,
) -> Result<State, NoMemory>
    requires { IsInForm w.now }
    ensures count { IfOk result (λ s. length s ≡ length w.now.plan.spec.relations) }
    ensures distinct { IfOk result HasDistinctRows }
    ensures rows { IfOk result (λ s. SameState w.now.plan.spec s (reconstructed w.now.plan.spec (rows_of w.now.tables))) }
    ensures probes { steps.old.probes ≤ steps.new.probes }
    ensures scans { steps.old.scans ≤ steps.new.scans }
{
    let heads = heads(alloc, &w.plan.spec)?;
    let stored = Stored::new(&heads, &w.tables);
    let inverse = Inverse::new(&w.plan, &stored);
    inverse.relations(alloc, steps)
}

/// The rows of one relation that the stored tables give back.
pub(crate) fn held_relation<L: Ledger>(
    alloc: Global,
    w: &Warehouse,
    rel: u32,
    steps: &mut Steps<L>,
) -> Result<Rows, NoMemory>
    requires form { IsInForm w.now }
    requires relation { rel < length w.now.plan.spec.relations }
    ensures rows { IfOk result (λ rows. SameRows rows (rows_at (reconstructed w.now.plan.spec (rows_of w.now.tables)) rel)) }
    ensures probes { steps.old.probes ≤ steps.new.probes }
    ensures scans { steps.old.scans ≤ steps.new.scans }
{
    let heads = heads(alloc, &w.plan.spec)?;
    let stored = Stored::new(&heads, &w.tables);
    let inverse = Inverse::new(&w.plan, &stored);
    inverse.rows(alloc, rel, steps)
}
