ghost use Rattle.std.specs.Prelude.{◌≡◌, ◌≢◌, Ok, Err, IfOk, IfErr};
ghost use Rattle.wh_schema.specs.Rules.{IsWithinLimits};
ghost use Rattle.wh_spec_text.specs.SpecTexts.{spec_of_text};
ghost use Rattle.wh_spec_text.specs.Texts.{without_mark, raw_of_text};

use crate::fault::SpecTextFault;
use crate::reading::statements;
use std::alloc::Global;
use wh_grammar::{Cursor, TextFault, scan};
use wh_schema::{RawSpec, Spec, check_spec};

/// The UTF-8 byte order mark.
const BYTE_ORDER_MARK: [u8; 3] = [0xef, 0xbb, 0xbf];

/// The text behind the byte order mark that it may begin with.
fn without_mark(text: &[u8]) -> &[u8]
    ensures { result.now ≡ without_mark text.now }
{
    if text.starts_with(&BYTE_ORDER_MARK) {
        &text[3..]
    } else {
        text
    }
}

/// The statements that the text spells, or its first fault: of its tokens, else of its nesting, else of the grammar.
/// One byte order mark is taken off first, and places count from 0 after it.
pub fn parse_raw(alloc: Global, text: &[u8]) -> Result<RawSpec, TextFault>
    ensures ok { IfOk result (λ raw. raw_of_text text.now ≡ Ok raw) }
    ensures fault { IfErr result (λ e. e ≢ TextFault.NoMemory → raw_of_text text.now ≡ Err e) }
{
    let text = without_mark(text);
    let tokens = scan(alloc, text)?;
    let mut cursor = Cursor::new(text, tokens.as_slice());
    let raw = statements(alloc, &mut cursor, tokens.len())?;
    Ok(raw)
}

/// The specification that the text spells, or its first fault: lexical, then of nesting, then of the grammar, then of the rules.
pub fn parse_spec(alloc: Global, text: &[u8]) -> Result<Spec, SpecTextFault>
    ensures ok { IfOk result (λ spec. spec_of_text text.now ≡ Ok spec) }
    ensures fault { IfErr result (λ e. e ≢ SpecTextFault.NoMemory → spec_of_text text.now ≡ Err e) }
    ensures within { IfOk result IsWithinLimits }
{
    let raw = parse_raw(alloc, text)?;
    let spec = check_spec(alloc, &raw)?;
    Ok(spec)
}
