//! What the grammars of specification and query texts share: symbols, nesting, the place of a syntax fault, names and conditions.
#![tactic(auto)]

mod cond_printing;
mod cond_reading;
mod cursor;
mod fault;
mod nesting;
mod scanning;
mod symbol;

pub use cond_printing::{print_cond, reads_printed_cond};
pub use cond_reading::{cond, conditions_agree, depth_free};
pub use cursor::Cursor;
pub use fault::TextFault;
pub use nesting::too_nested;
pub use scanning::scan;
pub use symbol::{Symbol, symbol_for};
