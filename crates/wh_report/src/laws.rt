ghost use Rattle.wh_report.specs.Audit.{AuditsAreOfState, SameRowsAreSilent};
ghost use Rattle.wh_report.specs.Example.{ClerksAreAudited, ShopIsReported};
ghost use Rattle.wh_report.specs.Report.{ReportsAreOfState};

/// Over the stored tables of a legal state the report is the one of that state.
pub fn reports_are_of_state()
    ensures { ReportsAreOfState }
{}

/// Over the stored tables of a legal state an audit starts from the rows of that state.
pub fn audits_are_of_state()
    ensures { AuditsAreOfState }
{}

/// An audit of a relation says nothing exactly where it has the rows that were handed.
pub fn same_rows_are_silent()
    ensures { SameRowsAreSilent }
{}

/// Worked rows: the report of a shop, and an audit of three clerks.
pub fn rows_are_worked()
    ensures report { ShopIsReported }
    ensures audit { ClerksAreAudited }
{}
