// What a change comes to before anything is written.
ghost use Rattle.std.specs.Prelude.{◌≡◌, ◌<◌, ◌≤◌, ℕ, None, map, length, IfOk, IfErr, OnOk};
ghost use Rattle.std.specs.List.{AllByRecursion};
ghost use Rattle.wh_base.specs.RowSet.{AreDistinct};
ghost use Rattle.wh_check.specs.Check.{sources_with};
ghost use Rattle.wh_csv.specs.declared.change.Line as csv;
ghost use Rattle.wh_fit.specs.Fit.{IsFittingLine, as_line};
ghost use Rattle.wh_load.specs.Load.{IsLoadFault, first_over};
ghost use Rattle.wh_refresh.specs.Net.{IsNet, IsRefused, own_image};
ghost use Rattle.wh_schema.specs.Constraints.{broken};
ghost use Rattle.wh_schema.specs.Legality.{IsState};
ghost use Rattle.wh_schema.specs.Warehouse.{stored};
ghost use Rattle.wh_store.specs.Warehouse.{HoldsValues, IsInForm, table_at};

use crate::differences::table_differences;
use crate::fault::RefreshFault;
use std::alloc::Global;
use wh_base::{SourceDeltas, StoredRows};
use wh_check::{changed_sources, effective};
use wh_csv::Change;
use wh_load::{LoadFault, load_rows};
use wh_steps::{Ledger, Steps};
use wh_store::{NetChange, Warehouse};

// What is stored of the changed sources, which `load_rows` finds legal and within the limit of rows.
fn tables_after<L: Ledger>(
    alloc: Global,
    w: &Warehouse,
    d: &SourceDeltas,
    steps: &mut Steps<L>,
) -> Result<StoredRows, LoadFault>
    requires form { IsInForm w.now }
    requires count { length d.now ≡ length w.now.plan.spec.relations }
    requires state { IsState w.now.plan.spec (sources_with (own_image w.now) d.now) }
    ensures tables { IfOk result (λ tables. tables ≡ stored w.now.plan.spec (sources_with (own_image w.now) d.now)) }
    ensures legal { OnOk result (broken w.now.plan.spec (sources_with (own_image w.now) d.now) ≡ None) }
    ensures under { OnOk result (first_over (stored w.now.plan.spec (sources_with (own_image w.now) d.now)) ≡ None) }
    ensures fault { IfErr result (IsLoadFault w.now.plan.spec (sources_with (own_image w.now) d.now)) }
    ensures probes { steps.old.probes ≤ steps.new.probes }
    ensures scans { steps.old.scans ≤ steps.new.scans }
{
    let sources = changed_sources(alloc, w, d, steps)?;
    load_rows(alloc, &w.plan, &sources, steps)
}

/// What the lines make of the sources and of the stored tables, or why they are refused. Nothing is changed.
pub(crate) fn net_change<L: Ledger>(
    alloc: Global,
    w: &Warehouse,
    c: &Change,
    steps: &mut Steps<L>,
) -> Result<NetChange, RefreshFault>
    requires form { IsInForm w.now }
    requires values { HoldsValues w.now }
    requires lines { AllByRecursion (λ (l : csv.Line). IsFittingLine w.now.plan.spec (as_line l)) c.now }
    ensures net { IfOk result (IsNet (own_image w.now) (map as_line c.now)) }
    ensures distinct { OnOk result ((k : ℕ) → k < length w.now.tables → AreDistinct (table_at w.now.tables k).rows) }
    ensures refused { IfErr result (IsRefused (own_image w.now) (map as_line c.now)) }
    ensures probes { steps.old.probes ≤ steps.new.probes }
    ensures scans { steps.old.scans ≤ steps.new.scans }
{
    let source = effective(alloc, w, c, steps)?;
    let after = tables_after(alloc, w, &source, steps)?;
    let stored = table_differences(alloc, &w.tables, &after, steps)?;
    Ok(NetChange { source, stored })
}
