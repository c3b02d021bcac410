//! What an inverse gives over the stored tables of a legal state.
ghost use Rattle.wh_inverse.specs.Laws.{InverseGivesState};

/// Over the stored tables of a legal state each relation has the rows of the state, and each view its own.
pub fn inverse_gives_state()
    ensures { InverseGivesState }
{}
