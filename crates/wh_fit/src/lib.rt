//! Rows that are read have the kinds of their attributes and values that have a spelling, and so has what is stored of them: laws, each as
//! the clause of a function that does nothing.
#![tactic(auto)]

ghost use Rattle.wh_fit.specs.Differences.{DifferencesApply, ChangesAreStored, RefreshesAreStored};
ghost use Rattle.wh_fit.specs.Example.{ShopFits};
ghost use Rattle.wh_fit.specs.Fit.{FittingIsState, ValuesAreCarried, ComplementsAreRows, TextsAreWellFormed, StoredFits, StoredIsSpelled, PartsAreSpelled, SourcesFit, ReconstructedFits, UnderIsCounted, DumpsFit, DumpsAreLoaded, ChangesFit, LinesKeepFit, BodiesAreRead};
ghost use Rattle.wh_fit.specs.Held.{ChangedAreSpelled, ImagesFit, StandingFits};

/// A state whose rows have the kinds of their attributes has rows of the right widths.
pub fn fitting_is_state()
    ensures { FittingIsState }
{}

/// Each value of a row of a view stands under the same name in a row of a relation of the view.
pub fn values_are_carried()
    ensures { ValuesAreCarried }
{}

/// Each row of a complement is a row of its relation.
pub fn complements_are_rows()
    ensures { ComplementsAreRows }
{}

/// The specification of a text is well formed and within the limits.
pub fn texts_are_well_formed()
    ensures { TextsAreWellFormed }
{}

/// What is stored of a state whose rows have the kinds of their attributes has the kinds of the stored tables.
pub fn stored_fits()
    ensures { StoredFits }
{}

/// What is stored of a state whose values have a spelling has a spelling.
pub fn stored_is_spelled()
    ensures { StoredIsSpelled }
{}

/// Rows in order out of a table that has a spelling have one.
pub fn parts_are_spelled()
    ensures { PartsAreSpelled }
{}

/// A state has the kinds and the spelling that what is stored of it has.
pub fn sources_fit()
    ensures { SourcesFit }
{}

/// What tables give back has the kinds and the spelling that they have.
pub fn reconstructed_fits()
    ensures { ReconstructedFits }
{}

/// Tables of which none is over the limit have few enough rows for a spelling.
pub fn under_is_counted()
    ensures { UnderIsCounted }
{}

/// The rows of a dump have the kinds of the attributes, and values that have a spelling.
pub fn dumps_fit()
    ensures { DumpsFit }
{}

/// What is stored of a state that dumps give, by the specification of a text, is what a store asks of tables to load.
pub fn dumps_are_loaded()
    ensures { DumpsAreLoaded }
{}

/// The lines of a change file have rows of their relations' kinds, with values that have a spelling.
pub fn changes_fit()
    ensures { ChangesFit }
{}

/// A state keeps its kinds and its spelling through lines that have them.
pub fn lines_keep_fit()
    ensures { LinesKeepFit }
{}

/// The body of a frame that has one is read as this frame.
pub fn bodies_are_read()
    ensures { BodiesAreRead }
{}

/// The differences between tables that have a spelling have one, apply, and lead from the first tables to the second.
pub fn differences_apply()
    ensures { DifferencesApply }
{}

/// The differences between what is stored of two states are a change of the stored tables.
pub fn changes_are_stored()
    ensures { ChangesAreStored }
{}

/// Lines make of what tables give back a state into whose stored tables these tables may be changed.
pub fn refreshes_are_stored()
    ensures { RefreshesAreStored }
{}

/// Tables keep their spelling through deltas that have one.
pub fn changed_are_spelled()
    ensures { ChangedAreSpelled }
{}

/// What a file holds fits its specification, and its values have a spelling.
pub fn images_fit()
    ensures { ImagesFit }
{}

/// The state that two files stand for fits, and its values have a spelling.
pub fn standing_fits()
    ensures { StandingFits }
{}

/// A shop: its state fits, and rows of other kinds or widths do not.
pub fn shop_fits()
    ensures { ShopFits }
{}
