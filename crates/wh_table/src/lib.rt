//! Rows of one width, with sets of columns by which they are looked up. A change is prepared first, and is then applied
//! without memory.
#![tactic(auto)]

mod hash;
mod index;
mod matches;
mod prepared;
mod slot;
mod slots;
mod table;
mod walk;

pub use prepared::Prepared;
pub use table::{Table, Tables};
