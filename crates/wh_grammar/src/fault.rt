ghost use Rattle.std.specs.Prelude.{◌≡◌};
ghost use Rattle.wh_grammar.specs.TextFaults.{of_lexing};
ghost use Rattle.wh_grammar.specs.declared.fault.TextFault.TheVariants.{NoMemory as OutOfMemory};

use wh_base::NoMemory;
use wh_lex::{LexFault, TextCause};

/// The first fault of a text, before any rule on what it says, and the byte at which it stands.
#[derive(Clone, Copy, Debug, PartialEq, Eq)]
pub enum TextFault {
    At { at: u64, cause: TextCause },
    NoMemory,
}

impl From<NoMemory> for TextFault {
    ghost from_gives = { λ _ e. e ≡ OutOfMemory };

    fn from(_error: NoMemory) -> TextFault {
        TextFault::NoMemory
    }
}

impl From<LexFault> for TextFault {
    ghost from_gives = { λ fault e. e ≡ of_lexing fault };

    fn from(fault: LexFault) -> TextFault {
        let (at, cause) = match fault {
            LexFault::BadByte { at } => (at, TextCause::BadByte),
            LexFault::OpenQuote { at } => (at, TextCause::OpenQuote),
            LexFault::NumberRange { at } => (at, TextCause::NumberRange),
            LexFault::TextTooLong { at } => (at, TextCause::TextTooLong),
            LexFault::NoMemory => return TextFault::NoMemory,
        };
        TextFault::At { at, cause }
    }
}
