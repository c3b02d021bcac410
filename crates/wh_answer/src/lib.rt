//! The answers of queries.
#![tactic(auto)]

mod answering;
mod laws;

pub use answering::answer;
pub use laws::{answers_are_of_state, queries_are_over_sources};
