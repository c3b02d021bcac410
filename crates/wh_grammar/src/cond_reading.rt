ghost use Rattle.std.specs.Prelude.{◌≡◌, ◌≢◌, length};
ghost use Rattle.wh_grammar.specs.Grammar.{Reads};
ghost use Rattle.wh_grammar.specs.Conditions as spec;
ghost use Rattle.wh_grammar.specs.ConditionData.{ConditionsAgree};
ghost use Rattle.wh_grammar.specs.Depth.{IsDepthFree};

use crate::cursor::Cursor;
use crate::fault::TextFault;
use crate::symbol::Symbol;
use sqlite_items::Boxed;
use std::alloc::Global;
use wh_base::{Cond, Op};

fn comparison(cursor: &mut Cursor<'_>) -> Result<Op, TextFault>
    ensures { Reads (spec.comparison.read cursor.old) result cursor.new }
{
    let comparison = match cursor.peek() {
        Symbol::Equal => Op::Eq,
        Symbol::NotEqual => Op::Ne,
        Symbol::Less => Op::Lt,
        Symbol::LessEqual => Op::Le,
        Symbol::Greater => Op::Gt,
        Symbol::GreaterEqual => Op::Ge,
        _ => return Err(cursor.refuse()),
    };
    cursor.advance();
    Ok(comparison)
}

fn compare(alloc: Global, cursor: &mut Cursor<'_>) -> Result<Cond, TextFault>
    ensures { Reads (spec.compare.read cursor.old) result cursor.new }
{
    let left = cursor.operand(alloc)?;
    let comparison = comparison(cursor)?;
    let right = cursor.operand(alloc)?;
    Ok(Cond::Cmp(left, comparison, right))
}

#[cycle(cond)]
fn behind_not(alloc: Global, cursor: &mut Cursor<'_>, depth: usize) -> Result<Cond, TextFault>
    ensures { Reads ((spec.inner depth).0 cursor.old) result cursor.new }
{
    if depth == 0 {
        return Err(cursor.refuse());
    }
    neg(alloc, cursor, depth - 1)
}

#[cycle(cond)]
fn in_parentheses(alloc: Global, cursor: &mut Cursor<'_>, depth: usize) -> Result<Cond, TextFault>
    ensures { Reads ((spec.inner depth).1 cursor.old) result cursor.new }
{
    if depth == 0 {
        return Err(cursor.refuse());
    }
    cond(alloc, cursor, depth - 1)
}

#[cycle(cond)]
#[tactic(auto, using(crate::proofs::CondLemmas::neg_else), unfolding(crate::specs::Grammar::same, crate::specs::Conditions::neg))]
fn neg(alloc: Global, cursor: &mut Cursor<'_>, depth: usize) -> Result<Cond, TextFault>
    ensures { Reads ((spec.neg depth).read cursor.old) result cursor.new }
{
    match cursor.peek() {
        Symbol::Not => {
            cursor.advance();
            let inner = behind_not(alloc, cursor, depth)?;
            Ok(Cond::Not(Boxed::new(alloc, inner)?))
        }
        Symbol::LeftParen => {
            cursor.advance();
            let inner = in_parentheses(alloc, cursor, depth)?;
            cursor.expect(Symbol::RightParen)?;
            Ok(inner)
        }
        _ => compare(alloc, cursor),
    }
}

#[cycle(cond)]
#[tactic(auto, unfolding(crate::specs::Conditions::conj))]
fn conj(alloc: Global, cursor: &mut Cursor<'_>, depth: usize) -> Result<Cond, TextFault>
    ensures { Reads ((spec.conj depth).read cursor.old) result cursor.new }
{
    let mut left = neg(alloc, cursor, depth)?;
    'more: while cursor.sees(Symbol::And) {
        cursor.advance();
        let right = neg(alloc, cursor, depth)?;
        left = Cond::And(Boxed::new(alloc, left)?, Boxed::new(alloc, right)?);
    }
    Ok(left)
}

/// A condition that nests at most so deep.
#[cycle(cond)]
#[tactic(auto, unfolding(crate::specs::Conditions::cond))]
pub fn cond(alloc: Global, cursor: &mut Cursor<'_>, depth: usize) -> Result<Cond, TextFault>
    ensures { Reads ((spec.cond depth).read cursor.old) result cursor.new }
{
    let mut left = conj(alloc, cursor, depth)?;
    'more: while cursor.sees(Symbol::Or) {
        cursor.advance();
        let right = conj(alloc, cursor, depth)?;
        left = Cond::Or(Boxed::new(alloc, left)?, Boxed::new(alloc, right)?);
    }
    Ok(left)
}

/// A depth that is enough is as good as any other.
pub fn depth_free()
    ensures { IsDepthFree }
{}

/// The readers of conditions give the value of the tree that the grammar has, and fail where it fails.
pub fn conditions_agree()
    ensures { ConditionsAgree }
{}
