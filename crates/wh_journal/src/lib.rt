//! A journal in a file: frames that a crash leaves whole or out.
#![tactic(auto)]

mod clearing;
mod fault;
mod file;
mod found;
mod framed;
mod journal;
mod laws;
mod recovery;

pub use clearing::clear;
pub use fault::JournalFault;
pub use found::Found;
pub use framed::{Framed, frame};
pub use journal::Journal;
pub use laws::{damage_is_the_first_wrong_mark, frames_are_spelled};
pub use recovery::recover;

#[cfg(test)]
mod tests;
