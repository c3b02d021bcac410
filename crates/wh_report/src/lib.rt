//! The report of a warehouse in numbers of rows, and the audit of a relation against other rows.
#![tactic(auto)]

mod auditing;
mod counting;
mod held;
mod laws;
mod reporting;

pub use auditing::audit;
pub use laws::{audits_are_of_state, reports_are_of_state, rows_are_worked, same_rows_are_silent};
pub use reporting::report;
