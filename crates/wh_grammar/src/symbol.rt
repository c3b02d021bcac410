ghost use Rattle.std.specs.Prelude.{◌≡◌, map};
ghost use Rattle.wh_grammar.specs.Symbols as spec;

use wh_lex::TokenKind;

/// What a grammar tells apart: each reserved word and each mark, a name, an integer, a quoted text, and the end.
#[derive(Clone, Copy, Debug, PartialEq, Eq)]
pub enum Symbol {
    Relation,
    Key,
    Inclusion,
    In,
    View,
    Join,
    Where,
    Check,
    And,
    Or,
    Not,
    Project,
    Select,
    Rename,
    To,
    Union,
    Minus,
    IntWord,
    TextWord,
    Name,
    Integer,
    Quoted,
    LeftParen,
    RightParen,
    Comma,
    Semicolon,
    Equal,
    NotEqual,
    Less,
    LessEqual,
    Greater,
    GreaterEqual,
    /// The text has ended.
    End,
}

/// The reserved words.
const WORDS: [(&[u8], Symbol); 19] = [
    (b"relation", Symbol::Relation),
    (b"key", Symbol::Key),
    (b"inclusion", Symbol::Inclusion),
    (b"in", Symbol::In),
    (b"view", Symbol::View),
    (b"join", Symbol::Join),
    (b"where", Symbol::Where),
    (b"check", Symbol::Check),
    (b"and", Symbol::And),
    (b"or", Symbol::Or),
    (b"not", Symbol::Not),
    (b"project", Symbol::Project),
    (b"select", Symbol::Select),
    (b"rename", Symbol::Rename),
    (b"to", Symbol::To),
    (b"union", Symbol::Union),
    (b"minus", Symbol::Minus),
    (b"int", Symbol::IntWord),
    (b"text", Symbol::TextWord),
];

/// The marks.
const MARKS: [(&[u8], Symbol); 10] = [
    (b"(", Symbol::LeftParen),
    (b")", Symbol::RightParen),
    (b",", Symbol::Comma),
    (b";", Symbol::Semicolon),
    (b"=", Symbol::Equal),
    (b"<>", Symbol::NotEqual),
    (b"<", Symbol::Less),
    (b"<=", Symbol::LessEqual),
    (b">", Symbol::Greater),
    (b">=", Symbol::GreaterEqual),
];

fn lookup(mut table: &[(&[u8], Symbol)], word: &[u8], other: Symbol) -> Symbol
    ensures { result ≡ spec.lookup (map (λ k. (k.0.now, k.1)) table.entry.now) word.now other }
{
    while let [entry, rest @ ..] = table {
        if entry.0 == word {
            return entry.1;
        }
        table = rest;
    }
    other
}

#[tactic(auto, unfolding(crate::specs::Symbols::symbol))]
/// The symbol of a token with these bytes.
pub fn symbol_for(kind: &TokenKind, bytes: &[u8]) -> Symbol
    ensures { result ≡ spec.symbol kind.now bytes.now }
{
    match kind {
        TokenKind::Word => lookup(&WORDS, bytes, Symbol::Name),
        TokenKind::Int(_) => Symbol::Integer,
        TokenKind::Text(_) => Symbol::Quoted,
        TokenKind::Mark => lookup(&MARKS, bytes, Symbol::End),
    }
}
