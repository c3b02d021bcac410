//! Tests of tables, in a crate of their own: a crate that has tests is proved once more with them.
#![tactic(auto)]

#[cfg(test)]
mod change_tests;
#[cfg(test)]
mod random_tests;
#[cfg(test)]
mod rows;
