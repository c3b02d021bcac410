ghost use Rattle.std.specs.Prelude.{◌≡◌, ◌≤◌, Some};
ghost use Rattle.wh_grammar.specs.Nesting as spec;

use crate::cursor::Cursor;
use crate::symbol::Symbol;

/// How many parentheses may be open at once.
const MAX_PARENS: usize = 64;

/// How many connectives there may be since the start of the text or the last `;`.
const MAX_CONNECTIVES: usize = 2000;

fn is_connective(symbol: Symbol) -> bool
    ensures { result ≡ spec.is_connective symbol }
{
    match symbol {
        Symbol::And | Symbol::Or | Symbol::Not | Symbol::Join | Symbol::Union => true,
        Symbol::Minus | Symbol::Project | Symbol::Select | Symbol::Rename => true,
        Symbol::Equal | Symbol::NotEqual | Symbol::Less | Symbol::LessEqual => true,
        Symbol::Greater | Symbol::GreaterEqual => true,
        _ => false,
    }
}

fn is_too_deep(parens: usize, connectives: usize, symbol: Symbol) -> bool
    ensures { result ≡ spec.is_too_deep parens connectives symbol }
{
    match symbol {
        Symbol::LeftParen => parens >= MAX_PARENS,
        symbol => is_connective(symbol) && connectives >= MAX_CONNECTIVES,
    }
}

fn parens_after(parens: usize, symbol: Symbol) -> usize
    requires { parens ≤ 64 }
    ensures { result ≡ spec.parens_after parens symbol }
{
    match symbol {
        Symbol::LeftParen => parens + 1,
        Symbol::RightParen => parens.saturating_sub(1),
        _ => parens,
    }
}

fn connectives_after(connectives: usize, symbol: Symbol) -> usize
    requires { connectives ≤ 2000 }
    ensures { result ≡ spec.connectives_after connectives symbol }
{
    match symbol {
        Symbol::Semicolon => 0,
        symbol if is_connective(symbol) => connectives + 1,
        _ => connectives,
    }
}

/// The place of the first token that is the 65th parenthesis open at once, or the 2,001st connective since the start of the text or the last `;`.
pub fn too_nested(mut cursor: Cursor<'_>) -> Option<u64>
    ensures { result ≡ spec.too_nested 0 0 cursor.entry.ahead }
{
    let mut parens = 0;
    let mut connectives = 0;
    'next: while !cursor.is_done() {
        let symbol = cursor.peek();
        if is_too_deep(parens, connectives, symbol) {
            return Some(cursor.place() as u64);
        }
        parens = parens_after(parens, symbol);
        connectives = connectives_after(connectives, symbol);
        cursor.advance();
    }
    None
}
