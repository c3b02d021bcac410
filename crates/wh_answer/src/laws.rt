ghost use Rattle.wh_answer.specs.Answer.{AnswersAreOfState, QueriesAreOverSources};

/// Over the stored tables of a legal state a query prints its rows over that state, in row order.
pub fn answers_are_of_state()
    ensures { AnswersAreOfState }
{}

/// The query of a text names relations and views alone.
pub fn queries_are_over_sources()
    ensures { QueriesAreOverSources }
{}
