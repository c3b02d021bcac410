ghost use Rattle.std.specs.Prelude.{◌≡◌, ◌≢◌, length, IfOk};
ghost use Rattle.wh_grammar.specs.Grammar.{Reads};
ghost use Rattle.wh_query_text.specs.declared.raw.RawQuery.TheVariants as raw;
ghost use Rattle.wh_query_text.specs.Queries as spec;
ghost use Rattle.wh_query_text.specs.QueryData.{QueriesAgree};

use crate::raw::{Infix, Prefix, RawQuery};
use sqlite_items::Boxed;
use std::alloc::Global;
use wh_base::{Cond, Names, NoMemory};
use wh_expr::{Pairs, Renaming};
use wh_grammar::{Cursor, Symbol, TextFault, cond};

// ---- prefixes

/// Names in parentheses.
#[tactic(auto, unfolding(wh_grammar::specs::Grammar::same))]
fn columns(alloc: Global, cursor: &mut Cursor<'_>) -> Result<Names, TextFault>
    ensures { Reads (spec.columns.read cursor.old) result cursor.new }
{
    cursor.expect(Symbol::LeftParen)?;
    let names = cursor.names(alloc, Symbol::Comma)?;
    cursor.expect(Symbol::RightParen)?;
    Ok(names)
}

/// A condition in parentheses, which nests at most so deep.
#[tactic(auto, unfolding(wh_grammar::specs::Grammar::same))]
fn selection(alloc: Global, cursor: &mut Cursor<'_>, depth: usize) -> Result<Cond, TextFault>
    ensures { Reads ((spec.selection depth).read cursor.old) result cursor.new }
{
    cursor.expect(Symbol::LeftParen)?;
    let cond = cond(alloc, cursor, depth)?;
    cursor.expect(Symbol::RightParen)?;
    Ok(cond)
}

fn renaming(alloc: Global, cursor: &mut Cursor<'_>) -> Result<Renaming, TextFault>
    ensures { Reads (spec.renaming.read cursor.old) result cursor.new }
{
    let from = cursor.name(alloc)?;
    cursor.expect(Symbol::To)?;
    let to = cursor.name(alloc)?;
    Ok(Renaming { from, to })
}

fn renamings(alloc: Global, cursor: &mut Cursor<'_>) -> Result<Pairs, TextFault>
    ensures { Reads (spec.renamings.read cursor.old) result cursor.new }
{
    let mut found = Pairs::new(alloc);
    found.push(renaming(alloc, cursor)?)?;
    'more: while cursor.sees(Symbol::Comma) {
        cursor.advance();
        found.push(renaming(alloc, cursor)?)?;
    }
    Ok(found)
}

/// Renamings in parentheses.
#[tactic(auto, unfolding(wh_grammar::specs::Grammar::same))]
fn renaming_columns(alloc: Global, cursor: &mut Cursor<'_>) -> Result<Pairs, TextFault>
    ensures { Reads (spec.renaming_columns.read cursor.old) result cursor.new }
{
    cursor.expect(Symbol::LeftParen)?;
    let pairs = renamings(alloc, cursor)?;
    cursor.expect(Symbol::RightParen)?;
    Ok(pairs)
}

/// What stands before a factor.
#[tactic(auto, unfolding(wh_grammar::specs::Grammar::same))]
fn before(alloc: Global, cursor: &mut Cursor<'_>, depth: usize) -> Result<Prefix, TextFault>
    ensures { Reads ((spec.before depth).read cursor.old) result cursor.new }
{
    match cursor.peek() {
        Symbol::Project => {
            cursor.advance();
            Ok(Prefix::Project(columns(alloc, cursor)?))
        }
        Symbol::Select => {
            cursor.advance();
            Ok(Prefix::Select(selection(alloc, cursor, depth)?))
        }
        Symbol::Rename => {
            cursor.advance();
            Ok(Prefix::Rename(renaming_columns(alloc, cursor)?))
        }
        _ => Err(cursor.refuse()),
    }
}

// ---- queries

fn named(alloc: Global, cursor: &mut Cursor<'_>) -> Result<RawQuery, TextFault>
    ensures { Reads (spec.named.read cursor.old) result cursor.new }
{
    let at = cursor.place() as u64;
    let name = cursor.name(alloc)?;
    Ok(RawQuery::Named(at, name))
}

/// The words between factors.
fn product_of(symbol: Symbol) -> Option<Infix>
    ensures { result ≡ spec.product_of symbol }
{
    match symbol {
        Symbol::Join => Some(Infix::Join),
        _ => None,
    }
}

/// The words between terms.
fn sum_of(symbol: Symbol) -> Option<Infix>
    ensures { result ≡ spec.sum_of symbol }
{
    match symbol {
        Symbol::Union => Some(Infix::Union),
        Symbol::Minus => Some(Infix::Minus),
        _ => None,
    }
}

fn behind(alloc: Global, at: u64, prefix: Prefix, part: RawQuery) -> Result<RawQuery, NoMemory>
    ensures { IfOk result (λ query. query ≡ raw.Behind at prefix part) }
{
    Ok(RawQuery::Behind(at, prefix, Boxed::new(alloc, part)?))
}

fn between(
    alloc: Global,
    at: u64,
    word: Infix,
    left: RawQuery,
    right: RawQuery,
) -> Result<RawQuery, NoMemory>
    ensures { IfOk result (λ query. query ≡ raw.Between at word left right) }
{
    let left = Boxed::new(alloc, left)?;
    let right = Boxed::new(alloc, right)?;
    Ok(RawQuery::Between(at, word, left, right))
}

#[cycle(query)]
fn behind_prefix(
    alloc: Global,
    cursor: &mut Cursor<'_>,
    depth: usize,
) -> Result<RawQuery, TextFault>
    ensures { Reads ((spec.inner depth).0 cursor.old) result cursor.new }
{
    if depth == 0 {
        return Err(cursor.refuse());
    }
    factor(alloc, cursor, depth - 1)
}

#[cycle(query)]
fn in_parentheses(
    alloc: Global,
    cursor: &mut Cursor<'_>,
    depth: usize,
) -> Result<RawQuery, TextFault>
    ensures { Reads ((spec.inner depth).1 cursor.old) result cursor.new }
{
    if depth == 0 {
        return Err(cursor.refuse());
    }
    query(alloc, cursor, depth - 1)
}

#[cycle(query)]
fn prefixed(alloc: Global, cursor: &mut Cursor<'_>, depth: usize) -> Result<RawQuery, TextFault>
    ensures { Reads ((spec.prefixed depth (spec.inner depth).0).read cursor.old) result cursor.new }
{
    let at = cursor.place() as u64;
    let prefix = before(alloc, cursor, depth)?;
    let part = behind_prefix(alloc, cursor, depth)?;
    Ok(behind(alloc, at, prefix, part)?)
}

#[cycle(query)]
#[tactic(auto, using(crate::proofs::QueryLemmas::factor_else), unfolding(wh_grammar::specs::Grammar::same, crate::specs::Queries::factor))]
fn factor(alloc: Global, cursor: &mut Cursor<'_>, depth: usize) -> Result<RawQuery, TextFault>
    ensures { Reads ((spec.factor depth).read cursor.old) result cursor.new }
{
    match cursor.peek() {
        Symbol::Name => named(alloc, cursor),
        Symbol::LeftParen => {
            cursor.advance();
            let inner = in_parentheses(alloc, cursor, depth)?;
            cursor.expect(Symbol::RightParen)?;
            Ok(inner)
        }
        _ => prefixed(alloc, cursor, depth),
    }
}

#[cycle(query)]
#[tactic(auto, unfolding(crate::specs::Queries::term))]
fn term(alloc: Global, cursor: &mut Cursor<'_>, depth: usize) -> Result<RawQuery, TextFault>
    ensures { Reads ((spec.term depth).read cursor.old) result cursor.new }
{
    let mut left = factor(alloc, cursor, depth)?;
    'more: while let Some(word) = product_of(cursor.peek()) {
        let at = cursor.place() as u64;
        cursor.advance();
        let right = factor(alloc, cursor, depth)?;
        left = between(alloc, at, word, left, right)?;
    }
    Ok(left)
}

/// A query that nests at most so deep.
#[cycle(query)]
#[tactic(auto, unfolding(crate::specs::Queries::query))]
pub fn query(alloc: Global, cursor: &mut Cursor<'_>, depth: usize) -> Result<RawQuery, TextFault>
    ensures { Reads ((spec.query depth).read cursor.old) result cursor.new }
{
    let mut left = term(alloc, cursor, depth)?;
    'more: while let Some(word) = sum_of(cursor.peek()) {
        let at = cursor.place() as u64;
        cursor.advance();
        let right = term(alloc, cursor, depth)?;
        left = between(alloc, at, word, left, right)?;
    }
    Ok(left)
}

/// A whole query text, whose parts nest at most so deep.
pub fn whole_query(
    alloc: Global,
    cursor: &mut Cursor<'_>,
    depth: usize,
) -> Result<RawQuery, TextFault>
    ensures { Reads (spec.whole_query depth cursor.old) result cursor.new }
{
    let query = query(alloc, cursor, depth)?;
    if !cursor.sees(Symbol::End) {
        return Err(cursor.refuse());
    }
    Ok(query)
}

/// The readers give the expression of the tree that the grammar of queries has, and fail where it fails.
pub fn grammar_agrees()
    ensures { QueriesAgree }
{}
