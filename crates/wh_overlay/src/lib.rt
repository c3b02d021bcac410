//! Rows under numbers with some deleted and others inserted, without a copy of the rows below.
#![tactic(auto)]

mod overlay;
mod tables;

pub use overlay::Overlay;
