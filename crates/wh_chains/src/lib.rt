//! A hash index over numbered slots: for each key the slots that have it, the newest first.
#![tactic(auto)]

mod chains;
mod links;

pub use chains::Chains;
