//! Queries rewritten: their selections and projections pushed down.
#![tactic(auto)]

mod conditions;
mod laws;
mod names;
mod nodes;
mod pushing;
mod rewriting;
mod wanted;

pub use laws::states_are_wide;
pub use rewriting::rewrite;

#[cfg(test)]
mod tests;
