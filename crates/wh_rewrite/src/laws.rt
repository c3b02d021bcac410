ghost use Rattle.wh_rewrite.specs.States.{StatesAreWide};

/// Over every state, with its views, a query and what it is rewritten to mean the same: the rows are wide enough.
pub fn states_are_wide()
    ensures { StatesAreWide }
{}
