//! Tests of several crates, in one of their own: a crate that has tests is proved once more with them.
#![tactic(auto)]

#[cfg(test)]
mod change_tests;
#[cfg(test)]
mod commit_tests;
#[cfg(test)]
mod look_up_tests;
#[cfg(test)]
mod mark_tests;
#[cfg(test)]
mod open_tests;
#[cfg(test)]
mod overlay_tests;
