//! Expressions of the relational algebra over numbered tables: what they mean, and which attributes they have.
#![tactic(auto)]

mod expr;
mod fault;
mod names;
mod rules;
mod typing;

pub use expr::{Expr, Pairs, Renaming};
pub use fault::{TypeCause, TypeFault};
pub use names::{are_distinct, new_name};
pub use typing::{MOST_DEPTH, MOST_NODES, typed};
