ghost use Rattle.std.specs.Prelude.{◌≡◌, IfOk};
ghost use Rattle.wh_spec_text.specs.SpecTexts.{of_text, of_rules};
ghost use Rattle.wh_spec_text.specs.declared.fault.SpecTextFault.TheVariants.{NoMemory as OutOfMemory};

use wh_base::NoMemory;
use wh_grammar::TextFault;
use wh_lex::TextCause;
use wh_schema::{SpecCause, SpecFault};

/// The first fault of a specification text: of its tokens, else of its nesting, else of the grammar, else of the rules.
#[derive(Debug, Drop)]
pub enum SpecTextFault {
    /// A fault of the text, and the byte at which it stands.
    Text { at: u64, cause: TextCause },
    /// The first statement, numbered from 1, that breaks a rule, and its first broken rule.
    Rule { statement: u32, cause: SpecCause },
    NoMemory,
}

impl From<NoMemory> for SpecTextFault {
    ghost from_gives = { λ _ e. e ≡ OutOfMemory };

    fn from(_error: NoMemory) -> SpecTextFault {
        SpecTextFault::NoMemory
    }
}

impl From<TextFault> for SpecTextFault {
    ghost from_gives = { λ fault e. e ≡ of_text fault };

    fn from(fault: TextFault) -> SpecTextFault {
        match fault {
            TextFault::At { at, cause } => SpecTextFault::Text { at, cause },
            TextFault::NoMemory => SpecTextFault::NoMemory,
        }
    }
}

impl From<SpecFault> for SpecTextFault {
    ghost from_gives = { λ fault e. e ≡ of_rules fault };

    fn from(fault: SpecFault) -> SpecTextFault {
        match fault {
            SpecFault::At { statement, cause } => SpecTextFault::Rule { statement, cause },
            SpecFault::NoMemory => SpecTextFault::NoMemory,
        }
    }
}
