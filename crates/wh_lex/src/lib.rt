//! Tokens of specification and query texts.
#![tactic(auto)]

mod cause;
mod fault;
mod front;
mod reading;
mod token;

pub use cause::TextCause;
pub use fault::LexFault;
pub use reading::{lexes_every_text, one_reading, reads_printed, tokens};
pub use token::{Token, TokenKind, Tokens};
