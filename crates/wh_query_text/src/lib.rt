//! The text of queries: what a text says, its first fault, and how expressions are printed.
#![tactic(auto)]

mod expressions;
mod fault;
mod fault_line;
mod parsing;
mod raw;
mod reading;
mod resolving;

pub use expressions::{name_at, print_expr};
pub use fault::QueryFault;
pub use fault_line::put_query_fault;
pub use parsing::{Query, answers_are_textual, answers_are_typed, parse_query};
pub use raw::{Infix, Prefix, RawQuery};
pub use reading::grammar_agrees;
