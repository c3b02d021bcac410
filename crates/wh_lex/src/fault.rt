ghost use Rattle.std.specs.Prelude.{◌≡◌};
ghost use Rattle.wh_lex.specs.declared.fault.LexFault.TheVariants.{NoMemory as OutOfMemory};

use wh_base::NoMemory;

/// The first fault from the left, and the byte at which it stands.
#[derive(Clone, Copy, Debug, PartialEq, Eq)]
pub enum LexFault {
    /// No token and no blank begins so, or these bytes of a text or a comment are not UTF-8.
    BadByte { at: u64 },
    /// A text that does not end begins here.
    OpenQuote { at: u64 },
    /// An integer that does not fit in an `i64` begins here.
    NumberRange { at: u64 },
    /// A text whose value has more than 65,535 bytes begins here.
    TextTooLong { at: u64 },
    NoMemory,
}

impl From<NoMemory> for LexFault {
    ghost from_gives = { λ _ e. e ≡ OutOfMemory };

    fn from(_error: NoMemory) -> LexFault {
        LexFault::NoMemory
    }
}
