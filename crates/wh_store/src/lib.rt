//! The store: a warehouse in memory beside the two files that keep it.
#![tactic(auto)]

mod change_laws;
mod changes;
mod commit;
mod creation;
mod emptiness;
mod fault;
mod held_laws;
mod opening;
mod reading;
mod ready;
mod replay;
mod tables;
mod warehouse;

pub use change_laws::{active_file_is_a_journal, ready_deltas_may_follow};
pub use creation::create;
pub use emptiness::both_empty;
pub use fault::StoreFault;
pub use held_laws::{changed_tables_hold_values, held_is_stored};
pub use opening::open_store;
pub use ready::Ready;
pub use warehouse::{NetChange, Place, Warehouse, Which};
