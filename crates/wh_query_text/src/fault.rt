ghost use Rattle.std.specs.Prelude.{◌≡◌};
ghost use Rattle.wh_query_text.specs.QueryTexts.{of_text};
ghost use Rattle.wh_query_text.specs.declared.fault.QueryFault.TheVariants.{NoMemory as OutOfMemory};

use wh_base::NoMemory;
use wh_expr::TypeCause;
use wh_grammar::TextFault;
use wh_lex::TextCause;

/// The first fault of a query text: of its tokens, else of its nesting, else of the grammar, else of the rules.
#[derive(Clone, Copy, Debug, PartialEq, Eq)]
pub enum QueryFault {
    /// A fault of the text, and the byte at which it stands.
    Text { at: u64, cause: TextCause },
    /// A broken rule, and the byte of the name or word that breaks it; of a query that is too deep or too big, byte 0.
    Rule { at: u64, cause: TypeCause },
    NoMemory,
}

impl From<NoMemory> for QueryFault {
    ghost from_gives = { λ _ e. e ≡ OutOfMemory };

    fn from(_error: NoMemory) -> QueryFault {
        QueryFault::NoMemory
    }
}

impl From<TextFault> for QueryFault {
    ghost from_gives = { λ fault e. e ≡ of_text fault };

    fn from(fault: TextFault) -> QueryFault {
        match fault {
            TextFault::At { at, cause } => QueryFault::Text { at, cause },
            TextFault::NoMemory => QueryFault::NoMemory,
        }
    }
}
