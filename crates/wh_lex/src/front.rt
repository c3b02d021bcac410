ghost use Rattle.std.specs.Prelude.{true, ◌≡◌, ◌<◌, ◌≤◌, ◌+◌, ◌-◌, ◌^◌, length, take, drop, slice_index, IfOk, IfSome, OnOk, option_map};
ghost use Rattle.std.specs.List.{prefix_len};
ghost use Rattle.std.specs.Str.Parse.{IsNumeral, without_leading_sign};
ghost use Rattle.wh_lex.specs.Front as spec;
ghost use Rattle.wh_lex.specs.Front.{Gives};

use crate::fault::LexFault;
use crate::token::TokenKind;
use std::alloc::Global;
use wh_base::{Bytes, NoMemory, Sequence};

/// How many bytes a text may have.
const MAX_TEXT: usize = 65535;

/// Bytes that go on with a word, with a number, or with a comment.
#[derive(Clone, Copy, Debug)]
enum Class {
    Word,
    Digit,
    Line,
}

fn is_in(class: Class, b: u8) -> bool
    ensures { result ≡ spec.is_in class b }
{
    match class {
        Class::Word => b.is_ascii_alphanumeric() || b == b'_',
        Class::Digit => b.is_ascii_digit(),
        Class::Line => b != b'\n',
    }
}

/// The first place from `at` on whose byte is not of the class.
fn past(class: Class, z: &[u8], at: usize) -> usize
    requires { at ≤ length z.now }
    ensures value { result ≡ spec.past class z.now at }
    ensures within { (at ≤ result) × (result ≤ length z.now) }
    ensures moves { at < length z.now → spec.is_in class (slice_index z.now at) ≡ true → at < result }
{
    let mut end = at;
    while end < z.len() && is_in(class, z[end]) {
        end += 1;
    }
    end
}

/// What stands at the front of a text: a token of this kind, or a blank, and how many bytes it takes.
pub type Piece = (Option<TokenKind>, usize);

fn byte(z: &[u8], at: usize) -> u8
    ensures { result ≡ slice_index z.now at }
{
    if at < z.len() { z[at] } else { 0 }
}

/// The value of digits, or of a minus and digits.
#[tactic(auto, using(crate::proofs::FrontLemmas::signed_utf8, crate::proofs::FrontLemmas::parsed))]
fn integer_value(digits: &[u8]) -> Option<i64>
    requires { IsNumeral 10 (without_leading_sign digits.now) }
    ensures { result ≡ spec.integer_value digits.now }
{
    match str::from_utf8(digits) {
        Ok(text) => text.parse::<i64>().ok(),
        Err(_) => None,
    }
}

#[tactic(auto, unfolding(crate::specs::Front::integer))]
fn integer(at: usize, z: &[u8], len: usize) -> Result<Piece, LexFault>
    requires whole { spec.IsInteger len z.now }
    ensures value { Gives (λ p. p) result (spec.integer at z.now len) }
    ensures within { IfOk result (λ p. p.1 ≡ len) }
{
    match integer_value(&z[..len]) {
        Some(value) => Ok((Some(TokenKind::Int(value)), len)),
        None => Err(LexFault::NumberRange { at: at as u64 }),
    }
}

/// The piece, where its bytes are UTF-8.
#[tactic(auto, using(crate::proofs::FrontLemmas::utf8_is, crate::proofs::FrontLemmas::not_utf8))]
fn if_utf8(at: usize, bytes: &[u8], piece: Piece) -> Result<Piece, LexFault>
    requires fits { at + length bytes.now < 2 ^ 63 }
    ensures value { Gives (λ p. p) result (spec.if_utf8 at bytes.now piece) }
    ensures within { IfOk result (λ p. p ≡ piece) }
{
    match str::from_utf8(bytes) {
        Ok(_) => Ok(piece),
        Err(e) => Err(LexFault::BadByte {
            at: (at + e.valid_up_to()) as u64,
        }),
    }
}

#[tactic(auto, unfolding(crate::specs::Front::comment))]
fn comment(at: usize, z: &[u8]) -> Result<Piece, LexFault>
    requires dashes { 2 ≤ length z.now }
    requires fits { at + length z.now < 2 ^ 63 }
    ensures value { Gives (λ p. p) result (spec.comment at z.now) }
    ensures within { IfOk result (λ p. (0 < p.1) × (p.1 ≤ length z.now)) }
{
    let len = past(Class::Line, z, 2);
    if_utf8(at, &z[..len], (None, len))
}

#[tactic(auto, using(crate::proofs::FrontLemmas::minus_whole), unfolding(crate::specs::Front::minus))]
fn minus(at: usize, z: &[u8]) -> Result<Piece, LexFault>
    requires dash { slice_index z.now 0 ≡ 45 }
    requires fits { at + length z.now < 2 ^ 63 }
    ensures value { Gives (λ p. p) result (spec.minus at z.now) }
    ensures within { IfOk result (λ p. (0 < p.1) × (p.1 ≤ length z.now)) }
{
    match byte(z, 1) {
        b'-' => comment(at, z),
        b'0'..=b'9' => integer(at, z, past(Class::Digit, z, 1)),
        _ => Err(LexFault::BadByte { at: at as u64 }),
    }
}

/// The text behind an opening quote, and what stands after the quote that closes it.
fn text_at(alloc: Global, z: &[u8]) -> Result<Option<(Bytes, &[u8])>, NoMemory>
    ensures value { IfOk result (λ found. option_map (λ p. (p.0, p.1.now)) found ≡ spec.text_at z.now) }
    ensures within { IfOk result (λ found. IfSome found (λ p. length p.1.now < length z.now)) }
{
    let mut value = Sequence::new(alloc);
    let mut rest = z;
    loop {
        match rest {
            [] => return Ok(None),
            [b'\'', b'\'', after @ ..] => {
                value.push(b'\'')?;
                rest = after;
            }
            [b'\'', after @ ..] => return Ok(Some((value, after))),
            [b, after @ ..] => {
                value.push(*b)?;
                rest = after;
            }
        }
    }
}

#[tactic(auto, unfolding(crate::specs::Front::text))]
fn text(alloc: Global, at: usize, z: &[u8]) -> Result<Piece, LexFault>
    requires quote { 0 < length z.now }
    requires fits { at + length z.now < 2 ^ 63 }
    ensures value { Gives (λ p. p) result (spec.text at z.now) }
    ensures within { IfOk result (λ p. (0 < p.1) × (p.1 ≤ length z.now)) }
{
    let Some((value, rest)) = text_at(alloc, &z[1..])? else {
        return Err(LexFault::OpenQuote { at: at as u64 });
    };
    if value.len() > MAX_TEXT {
        return Err(LexFault::TextTooLong { at: at as u64 });
    }
    let len = z.len() - rest.len();
    if_utf8(at, &z[..len], (Some(TokenKind::Text(value)), len))
}

#[tactic(auto, unfolding(crate::specs::Front::mark))]
fn mark(at: usize, b: u8, next: u8) -> Result<Piece, LexFault>
    ensures value { Gives (λ p. p) result (spec.mark at b next) }
    ensures within { IfOk result (λ p. spec.IsShort next p.1) }
{
    match b {
        b'<' if next == b'=' || next == b'>' => Ok((Some(TokenKind::Mark), 2)),
        b'>' if next == b'=' => Ok((Some(TokenKind::Mark), 2)),
        b'(' | b')' | b',' | b';' | b'=' | b'<' | b'>' => Ok((Some(TokenKind::Mark), 1)),
        _ => Err(LexFault::BadByte { at: at as u64 }),
    }
}

/// What stands at the front of a text at this place of the whole.
#[tactic(auto, using(crate::proofs::FrontLemmas::digits_whole), unfolding(crate::specs::Front::front))]
pub fn front(alloc: Global, at: usize, z: &[u8]) -> Result<Piece, LexFault>
    requires some { 0 < length z.now }
    requires fits { at + length z.now < 2 ^ 63 }
    ensures value { Gives (λ p. p) result (spec.front at z.now) }
    ensures within { IfOk result (λ p. (0 < p.1) × (p.1 ≤ length z.now)) }
{
    match z[0] {
        b' ' | b'\t' | b'\r' | b'\n' => Ok((None, 1)),
        b'a'..=b'z' | b'A'..=b'Z' | b'_' => Ok((Some(TokenKind::Word), past(Class::Word, z, 0))),
        b'0'..=b'9' => integer(at, z, past(Class::Digit, z, 0)),
        b'-' => minus(at, z),
        b'\'' => text(alloc, at, z),
        b => mark(at, b, byte(z, 1)),
    }
}
