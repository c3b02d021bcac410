ghost use Rattle.std.specs.Prelude.{◌≡◌, ◌+◌, ◌<◌, ◌^◌, ◌∷◌, ℕ, List, length, min, nat_lt, IfOk, IsTrue};
ghost use Rattle.wh_base.specs.declared.value.Value.{Value};
ghost use Rattle.wh_base.specs.Columns.{names_of};
ghost use Rattle.wh_expr.specs.Meaning.{meaning, tables, uses_only};
ghost use Rattle.wh_expr.specs.Typing.{Answers, Typing, typing, limited_typing, from_part, depth, size};

use crate::expr::Expr;
use crate::fault::{TypeCause, TypeFault};
use crate::rules;
use std::alloc::Global;
use wh_base::{Attrs, Heads, NoMemory, Places, nodes_up_to};

/// The greatest depth of a query.
pub const MOST_DEPTH: usize = 64;

/// The greatest number of nodes of a query, those of its conditions among them.
pub const MOST_NODES: usize = 1000;

/// Whether an expression is deeper than a number. A name has depth 1.
fn is_deeper(e: &Expr, most: usize) -> bool
    ensures { result ≡ nat_lt most (depth e.now) }
{
    if most == 0 {
        return true;
    }
    match e {
        Expr::Base(_) => false,
        Expr::Select(_, child) | Expr::Project(_, child) | Expr::Rename(_, child) => {
            is_deeper(child.get(), most - 1)
        }
        Expr::Join(left, right) | Expr::Union(left, right) | Expr::Minus(left, right) => {
            is_deeper(left.get(), most - 1) || is_deeper(right.get(), most - 1)
        }
    }
}

/// How many nodes an expression and its conditions have, or `most + 1` where they have more.
fn size_up_to(e: &Expr, most: usize) -> usize
    requires { most < 2 ^ 32 }
    ensures { result ≡ min (size e.now) (most + 1) }
{
    match e {
        Expr::Base(_) => 1,
        Expr::Select(cond, child) => {
            (nodes_up_to(cond, most) + size_up_to(child.get(), most) + 1).min(most + 1)
        }
        Expr::Project(_, child) | Expr::Rename(_, child) => {
            (size_up_to(child.get(), most) + 1).min(most + 1)
        }
        Expr::Join(left, right) | Expr::Union(left, right) | Expr::Minus(left, right) => {
            let both = size_up_to(left.get(), most) + size_up_to(right.get(), most) + 1;
            both.min(most + 1)
        }
    }
}

/// A path with one more step before it.
fn from_above(step: u32, path: Places) -> Result<Places, NoMemory>
    ensures { IfOk result (λ longer. longer ≡ step ∷ path) }
{
    let mut steps = path.into_vec();
    steps.insert(0, step)?;
    Ok(Places::from_vec(steps))
}

/// The answer of a part, seen from the node above it.
fn of_part(answer: Result<Attrs, TypeFault>, step: u32) -> Result<Attrs, TypeFault>
    ensures { (t : Typing) → Answers answer t → Answers result (record { attrs = t.attrs; faults = from_part step t.faults }) }
{
    match answer {
        Ok(attrs) => Ok(attrs),
        Err(TypeFault::At { cause, path }) => Err(TypeFault::At {
            cause,
            path: from_above(step, path)?,
        }),
        Err(TypeFault::NoMemory) => Err(TypeFault::NoMemory),
    }
}

/// The attributes of an expression by the rules of its nodes, children before parents and left before right.
fn by_rules(alloc: Global, e: &Expr, heads: &Heads) -> Result<Attrs, TypeFault>
    ensures { Answers result (typing heads.now e.now) }
{
    match e {
        Expr::Base(number) => rules::base(alloc, *number, heads),
        Expr::Select(cond, child) => {
            let attrs = of_part(by_rules(alloc, child.get(), heads), 0)?;
            rules::select(alloc, cond, attrs)
        }
        Expr::Project(names, child) => {
            let attrs = of_part(by_rules(alloc, child.get(), heads), 0)?;
            rules::project(alloc, names, &attrs)
        }
        Expr::Join(left, right) => {
            let left = of_part(by_rules(alloc, left.get(), heads), 0)?;
            let right = of_part(by_rules(alloc, right.get(), heads), 1)?;
            rules::join(alloc, &left, &right)
        }
        Expr::Union(kept, other) | Expr::Minus(kept, other) => {
            let left = of_part(by_rules(alloc, kept.get(), heads), 0)?;
            let right = of_part(by_rules(alloc, other.get(), heads), 1)?;
            rules::same_head(alloc, left, &right)
        }
        Expr::Rename(pairs, child) => {
            let attrs = of_part(by_rules(alloc, child.get(), heads), 0)?;
            rules::rename(alloc, pairs, &attrs)
        }
    }
}

/// The attributes of an expression over numbered tables, or its first fault: the depth, the number of nodes, and then the
/// nodes, children before parents and left before right.
pub fn typed(alloc: Global, e: &Expr, heads: &Heads) -> Result<Attrs, TypeFault>
    ensures answer { Answers result (limited_typing heads.now e.now) }

    // The meaning has these columns, whatever rows the tables have.
    ensures columns { IfOk result (λ attrs. (rows : ℕ → List (List Value))
        → (meaning (tables heads.now rows) e.now).columns ≡ names_of attrs) }
    ensures numbers { IfOk result (λ _. IsTrue (uses_only (λ n. nat_lt n (length heads.now)) e.now)) }
{
    if is_deeper(e, MOST_DEPTH) {
        return Err(rules::fault(alloc, TypeCause::TooDeep));
    }
    if size_up_to(e, MOST_NODES) > MOST_NODES {
        return Err(rules::fault(alloc, TypeCause::TooBig));
    }
    by_rules(alloc, e, heads)
}
