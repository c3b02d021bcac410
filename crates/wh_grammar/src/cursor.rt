ghost use Rattle.std.specs.Prelude.{◌≡◌, ◌≢◌, length, map, All, false, [], Err, OnErr, IsTrue, ◌↔◌};
ghost use Rattle.wh_grammar.specs.Grammar as spec;
ghost use Rattle.wh_grammar.specs.Grammar.{Reads};
ghost use Rattle.wh_grammar.specs.Conditions.{operand, literal};
ghost use Rattle.wh_lex.specs.Lexes.{IsWithin};

use crate::fault::TextFault;
use crate::symbol::{Symbol, symbol_for};
use std::alloc::Global;
use std::marker::Model;
use wh_base::{Duplicate, Name, Names, Operand, Sequence};
use wh_lex::{TextCause, Token, TokenKind};

/// A place in a text: its tokens from there on.
#[derive(Drop)]
pub struct Cursor<'a> {
    text: &'a [u8],
    ahead: &'a [Token],
}

impl<'a> Model for Cursor<'a> {
    ghost use Rattle.wh_grammar.specs.Grammar.{Input};

    ghost Value = { Input };

    ghost use Rattle.wh_grammar.specs.Cursor.{input_of, AreWithin};

    ghost view = { input_of };

    ghost invariant = { AreWithin };
}

impl<'a> Cursor<'a> {
    /// The start of a text whose tokens these are.
    pub fn new(text: &'a [u8], tokens: &'a [Token]) -> Cursor<'a>
        requires { All (IsWithin text.now) tokens.now }
        ensures { result ≡ spec.start_of text.now tokens.now }
    {
        Cursor {
            text,
            ahead: tokens,
        }
    }

    /// The symbol of the next token.
    #[tactic(auto, unfolding(crate::specs::Grammar::next))]
    pub fn peek(&self) -> Symbol
        ensures { result ≡ spec.next self.now }
    {
        match self.ahead {
            [] => Symbol::End,
            [token, ..] => symbol_for(&token.kind, &self.text[token.from..token.to]),
        }
    }

    /// Whether no token is left.
    pub fn is_done(&self) -> bool
        ensures { IsTrue result ↔ (self.now.ahead ≡ []) }
    {
        self.ahead.is_empty()
    }

    /// The byte at which the next token begins, or the length of the text.
    #[tactic(auto, unfolding(crate::specs::Grammar::place))]
    pub fn place(&self) -> usize
        ensures { result ≡ spec.place self.now }
    {
        match self.ahead {
            [] => self.text.len(),
            [token, ..] => token.from,
        }
    }

    /// Passes the next token.
    #[tactic(auto, unfolding(crate::specs::Grammar::after))]
    pub fn advance(&mut self)
        ensures { self.new ≡ spec.after self.old }
    {
        if let [_, rest @ ..] = self.ahead {
            self.ahead = rest;
        }
    }

    /// The bytes of the next token.
    #[tactic(auto, unfolding(crate::specs::Grammar::spelling))]
    pub fn spelling(&self) -> &'a [u8]
        ensures { result.now ≡ spec.spelling self.now }
    {
        match self.ahead {
            [] => &[],
            [token, ..] => &self.text[token.from..token.to],
        }
    }

    /// Whether the next token has this symbol.
    #[tactic(auto, unfolding(crate::specs::Grammar::same))]
    pub fn sees(&self, symbol: Symbol) -> bool
        ensures { result ≡ spec.same (spec.next self.now) symbol }
    {
        self.peek() == symbol
    }

    /// The fault of a text that goes on with another token than the grammar takes.
    pub fn refuse(&self) -> TextFault
        ensures { result ≡ spec.refusal self.now }
    {
        TextFault::At {
            at: self.place() as u64,
            cause: TextCause::Syntax,
        }
    }

    /// Passes a token with this symbol.
    pub fn expect(&mut self, symbol: Symbol) -> Result<(), TextFault>
        ensures read { Reads ((spec.token symbol).read self.old) result self.new }
        ensures refused { OnErr result (result ≡ Err (spec.refusal self.old)) }
    {
        if !self.sees(symbol) {
            return Err(self.refuse());
        }
        self.advance();
        Ok(())
    }

    /// A word that is not reserved.
    pub fn name(&mut self, alloc: Global) -> Result<Name, TextFault>
        ensures { Reads (spec.name.read self.old) result self.new }
    {
        if !self.sees(Symbol::Name) {
            return Err(self.refuse());
        }
        let name = Sequence::from_vec(Vec::from_slice(alloc, self.spelling())?);
        self.advance();
        Ok(name)
    }

    /// An integer or a text.
    #[tactic(auto, unfolding(crate::specs::Grammar::place, crate::specs::Grammar::after))]
    fn literal(&mut self, alloc: Global) -> Result<Operand, TextFault>
        ensures { Reads (literal.read self.old) result self.new }
    {
        let operand = match self.ahead {
            [] => return Err(self.refuse()),
            [token, ..] => match &token.kind {
                TokenKind::Int(value) => Operand::Int(*value),
                TokenKind::Text(bytes) => { Operand::Text(bytes.copy(alloc)?) }
                TokenKind::Word | TokenKind::Mark => return Err(self.refuse()),
            },
        };
        self.advance();
        Ok(operand)
    }

    /// A name, an integer or a text.
    #[tactic(auto, using(crate::proofs::CondLemmas::operand_else))]
    pub fn operand(&mut self, alloc: Global) -> Result<Operand, TextFault>
        ensures { Reads (operand.read self.old) result self.new }
    {
        if self.sees(Symbol::Name) {
            Ok(Operand::Attr(self.name(alloc)?))
        } else {
            self.literal(alloc)
        }
    }

    /// One name or more, with a symbol between them.
    pub fn names(&mut self, alloc: Global, between: Symbol) -> Result<Names, TextFault>
        requires { spec.same Symbol.End between ≡ false }
        ensures { Reads ((spec.separated spec.name between).read self.old) result self.new }
    {
        let mut found = Sequence::new(alloc);
        found.push(self.name(alloc)?)?;
        'more: while self.sees(between) {
            self.advance();
            found.push(self.name(alloc)?)?;
        }
        Ok(found)
    }
}
