ghost use Rattle.std.specs.Prelude.{◌≡◌};
ghost use Rattle.wh_lex.specs.Causes.{words};

/// Why a text is refused before any rule on what it says.
#[derive(Clone, Copy, Debug, PartialEq, Eq)]
pub enum TextCause {
    /// A byte that begins no token and no blank, or bytes that are not UTF-8.
    BadByte,
    /// A quoted text that does not end.
    OpenQuote,
    /// An integer outside `i64`.
    NumberRange,
    /// A quoted text of more than 65,535 bytes.
    TextTooLong,
    /// The 65th parenthesis open at once, or the 2,001st connective since the start or the last `;`.
    TooNested,
    /// A token that the grammar does not take.
    Syntax,
}

impl TextCause {
    /// The words that a line says for the cause.
    pub fn words(self) -> &'static [u8]
        ensures { result.now ≡ words self }
    {
        match self {
            TextCause::BadByte => b"bad byte",
            TextCause::OpenQuote => b"open quote",
            TextCause::NumberRange => b"number out of range",
            TextCause::TextTooLong => b"text too long",
            TextCause::TooNested => b"too nested",
            TextCause::Syntax => b"syntax",
        }
    }
}
