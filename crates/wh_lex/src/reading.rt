ghost use Rattle.std.specs.Prelude.{◌≡◌, ◌≢◌, ◌<◌, ◌+◌, ◌^◌, ◌++◌, All, Ok, Err, IfOk, IfErr, OnOk};
ghost use Rattle.wh_lex.specs.Lexed.{LexesEveryText, lexed};
ghost use Rattle.wh_lex.specs.Spelling.{IsReadBack};
ghost use Rattle.wh_lex.specs.Lexes.{IsOneReading, IsWithin, token_of};

use crate::fault::LexFault;
use crate::front::{Piece, front};
use crate::token::{Token, Tokens};
use std::alloc::Global;
use wh_base::{NoMemory, Sequence};

/// The tokens that the text spells, or its first fault from the left.
pub fn tokens(alloc: Global, text: &[u8]) -> Result<Tokens, LexFault>
    ensures ok { IfOk result (λ found. lexed text.now ≡ Ok found) }
    ensures fault { IfErr result (λ e. e ≢ LexFault.NoMemory → lexed text.now ≡ Err e) }
    ensures within { IfOk result (λ found. All (IsWithin text.now) found) }
{
    let mut found = Sequence::new(alloc);
    let mut rest = text;
    while !rest.is_empty() {
        let at = text.len() - rest.len();
        let piece = front(alloc, at, rest)?;
        rest = &rest[piece.1..];
        push_token(&mut found, at, piece)?;
    }
    Ok(found)
}

fn push_token(found: &mut Tokens, at: usize, piece: Piece) -> Result<(), NoMemory>
    requires { at + piece.1 < 2 ^ 63 }
    ensures { OnOk result (found.new ≡ found.old ++ token_of at piece) }
{
    let (kind, len) = piece;
    if let Some(kind) = kind {
        found.push(Token {
            kind,
            from: at,
            to: at + len,
        })?;
    }
    Ok(())
}

/// Every text spells a sequence of tokens or has a first fault, and `lexed` says which.
pub fn lexes_every_text()
    ensures { LexesEveryText }
{}

/// A text spells one sequence of tokens or has one first fault.
pub fn one_reading()
    ensures { IsOneReading }
{}

/// What is printed is read back.
pub fn reads_printed()
    ensures { IsReadBack }
{}
