// Laws of what is held, in files and in tables.
ghost use Rattle.std.specs.Prelude.{◌≡◌, ◌<◌, ℕ, true, List, get_or, Ok, Some, None};
ghost use Rattle.std.specs.List.{AllByRecursion};
ghost use Rattle.wh_base.specs.declared.value.Delta.{Delta};
ghost use Rattle.wh_codec.specs.Body.{IsSpelledDelta};
ghost use Rattle.wh_store.specs.declared.warehouse.Warehouse.{Warehouse};
ghost use Rattle.wh_store.specs.Commit.{AreChanged, CanApplyAll, first_over_after};
ghost use Rattle.wh_store.specs.Held.{IsHeld};
ghost use Rattle.wh_store.specs.Image.{Active, fits_stored, holding, no_delta, stored_count};
ghost use Rattle.wh_store.specs.Warehouse.{HoldsValues, IsInForm};

/// What two files hold is the stored tables of an accepted specification, in row order and within the limits.
pub fn held_is_stored()
    ensures { (first second : List ℕ) (active : Active) → holding first second ≡ Ok (Some active) → IsHeld active.image }
{}

/// The rows of a warehouse's tables keep the kinds of the tables, a spelling and their limit through deltas that can be applied,
/// if the inserted rows have these kinds and a spelling, and no table would have too many rows.
pub fn changed_tables_hold_values()
    ensures { (w_old w_new : Warehouse) (deltas : List Delta) → w_new.plan ≡ w_old.plan → IsInForm w_old → HoldsValues w_old → CanApplyAll w_old.tables deltas → AreChanged w_old.tables deltas w_new.tables
        → ((k : ℕ) → k < stored_count w_old.plan.spec → fits_stored w_old.plan.spec k (get_or deltas k no_delta).inserted ≡ true) → AllByRecursion IsSpelledDelta deltas → first_over_after w_old.tables deltas ≡ None
        → HoldsValues w_new }
{}
