// Laws of what a change is made ready and committed for.
ghost use Rattle.std.specs.Prelude.{◌≡◌, ◌<◌, ℕ, true, List, get_or, Ok, Some, None};
ghost use Rattle.wh_base.specs.declared.value.Delta.{Delta};
ghost use Rattle.wh_journal.specs.Journal.{IsJournalOf};
ghost use Rattle.wh_store.specs.declared.warehouse.Place.{Place};
ghost use Rattle.wh_store.specs.declared.warehouse.Warehouse.{Warehouse};
ghost use Rattle.wh_store.specs.Commit.{CanApplyAll, Matches, first_over_after};
ghost use Rattle.wh_store.specs.Image.{Active, are_stored_deltas, fits_stored, holding, no_delta, stored_count};
ghost use Rattle.wh_store.specs.Warehouse.{IsPlaceOf, file_in};

/// Where a place is that of the active file, its journal ends where the file's frames do.
pub fn active_file_is_a_journal()
    ensures { (first second : List ℕ) (active : Active) (p : Place) → holding first second ≡ Ok (Some active) → IsPlaceOf active first second p → IsJournalOf (file_in p.which first second) p.journal }
{}

/// Where a warehouse and a place match the files, deltas obey the rules behind what is held if they can be applied to the
/// tables, their inserted rows have the kinds of the tables, and no table would have too many rows.
pub fn ready_deltas_may_follow()
    ensures { (first second : List ℕ) (active : Active) (w : Warehouse) (p : Place) (deltas : List Delta) → Matches active first second w p → CanApplyAll w.tables deltas
        → ((k : ℕ) → k < stored_count active.image.spec → fits_stored active.image.spec k (get_or deltas k no_delta).inserted ≡ true) → first_over_after w.tables deltas ≡ None
        → are_stored_deltas active.image.spec active.image.tables deltas ≡ true }
{}
