//! Specification texts: what they say, their first fault, and how a specification is printed.
#![tactic(auto)]

mod fault;
mod fault_line;
mod parsing;
mod printing;
mod reading;

pub use fault::SpecTextFault;
pub use fault_line::put_spec_fault;
pub use parsing::{parse_raw, parse_spec};
pub use printing::{answers_are_textual, print_spec, reads_printed};
pub use reading::grammar_agrees;
