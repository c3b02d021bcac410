ghost use Rattle.std.specs.Prelude.{◌≡◌, ◌≢◌, All, Ok, Err, IfOk, IfErr};
ghost use Rattle.wh_grammar.specs.Scanned.{scanned};
ghost use Rattle.wh_lex.specs.Lexes.{IsWithin};

use crate::cursor::Cursor;
use crate::fault::TextFault;
use crate::nesting::too_nested;
use std::alloc::Global;
use wh_lex::{TextCause, Tokens, tokens};

/// The tokens of a text, or the first fault of its tokens, else the first token that nests too deep.
pub fn scan(alloc: Global, text: &[u8]) -> Result<Tokens, TextFault>
    ensures ok { IfOk result (λ found. scanned text.now ≡ Ok found) }
    ensures fault { IfErr result (λ e. e ≢ TextFault.NoMemory → scanned text.now ≡ Err e) }
    ensures within { IfOk result (λ found. All (IsWithin text.now) found) }
{
    let found = tokens(alloc, text)?;
    if let Some(at) = too_nested(Cursor::new(text, found.as_slice())) {
        return Err(TextFault::At {
            at,
            cause: TextCause::TooNested,
        });
    }
    Ok(found)
}
