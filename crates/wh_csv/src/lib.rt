//! Reads CSV files: the dump of a relation, and a list of changes.
#![tactic(auto)]

mod change;
mod dump;
mod fault;
mod field;
mod laws;
mod record;

pub use change::{Change, Line, read_change};
pub use dump::read_dump;
pub use fault::{CsvCause, CsvFault};
pub use laws::integers_are_tested;
