use wh_base::{Bytes, Sequence};

/// What a token is. The words and the marks are told apart by their bytes.
#[derive(Debug, Drop)]
pub enum TokenKind {
    Word,
    Int(i64),
    /// A text's value: what stands between its quotes, each doubled quote once.
    Text(Bytes),
    Mark,
}

/// A token, and the bytes of the text that it takes: those from `from` up to `to`.
#[derive(Debug, Drop)]
pub struct Token {
    pub kind: TokenKind,
    pub from: usize,
    pub to: usize,
}

pub type Tokens = Sequence<Token>;
