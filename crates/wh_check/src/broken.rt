ghost use Rattle.std.specs.Prelude.{◌≡◌, ◌≤◌, true, IfOk};
ghost use Rattle.wh_check.specs.Check.{held_sources, sources_with};
ghost use Rattle.wh_schema.specs.Constraints.{broken};
ghost use Rattle.wh_store.specs.Image.{Image, apply_to};
ghost use Rattle.wh_store.specs.Warehouse.{IsInForm, IsWarehouseOf};

use crate::sources::changed_sources;
use std::alloc::Global;
use wh_base::{NoMemory, SourceDeltas};
use wh_schema::Broken;
use wh_steps::{Ledger, Steps};
use wh_store::Warehouse;

/// The first constraint that is broken after a change of the sources, with its least value; none where the changed
/// sources are legal.
pub fn first_broken<L: Ledger>(
    alloc: Global,
    w: &Warehouse,
    d: &SourceDeltas,
    steps: &mut Steps<L>,
) -> Result<Option<Broken>, NoMemory>
    requires form { IsInForm w.now }
    requires deltas { (i : Image) → IsWarehouseOf i w.now → apply_to (held_sources i) d.now ≡ true }
    ensures first { IfOk result (λ found. (i : Image) → IsWarehouseOf i w.now → found ≡ broken i.spec (sources_with i d.now)) }
    ensures probes { steps.old.probes ≤ steps.new.probes }
    ensures scans { steps.old.scans ≤ steps.new.scans }
{
    let changed = changed_sources(alloc, w, d, steps)?;
    wh_load::first_broken(alloc, &w.plan.spec, &changed)
}
