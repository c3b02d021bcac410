//! Joins and other expressions of expressions.
ghost use Rattle.std.specs.Prelude.{◌≡◌, map, fold, IfOk};
ghost use Rattle.wh_expr.specs.declared.expr.Expr.TheVariants as expr;
ghost use Rattle.wh_plan.specs.Expressions.{join_exprs, renamed_expr};

use sqlite_items::Boxed;
use std::alloc::Global;
use wh_base::{Cond, Names, NoMemory};
use wh_expr::{Expr, Pairs};

fn boxed(alloc: Global, e: Expr) -> Result<Boxed<Expr>, NoMemory>
    ensures { IfOk result (λ b. b ≡ e) }
{
    Ok(Boxed::new(alloc, e)?)
}

pub(crate) fn selected(alloc: Global, cond: Cond, e: Expr) -> Result<Expr, NoMemory>
    ensures { IfOk result (λ s. s ≡ expr.Select cond e) }
{
    Ok(Expr::Select(cond, boxed(alloc, e)?))
}

pub(crate) fn projected(alloc: Global, names: Names, e: Expr) -> Result<Expr, NoMemory>
    ensures { IfOk result (λ p. p ≡ expr.Project names e) }
{
    Ok(Expr::Project(names, boxed(alloc, e)?))
}

pub(crate) fn united(alloc: Global, left: Expr, right: Expr) -> Result<Expr, NoMemory>
    ensures { IfOk result (λ u. u ≡ expr.Union left right) }
{
    let left = boxed(alloc, left)?;
    Ok(Expr::Union(left, boxed(alloc, right)?))
}

/// An expression under new names, or itself where there are none.
pub(crate) fn renamed(alloc: Global, pairs: Pairs, e: Expr) -> Result<Expr, NoMemory>
    ensures { IfOk result (λ r. r ≡ renamed_expr pairs e) }
{
    if pairs.is_empty() {
        return Ok(e);
    }
    Ok(Expr::Rename(pairs, boxed(alloc, e)?))
}

fn joined(alloc: Global, left: Expr, right: Expr) -> Result<Expr, NoMemory>
    ensures { IfOk result (λ j. j ≡ expr.Join left right) }
{
    let left = boxed(alloc, left)?;
    Ok(Expr::Join(left, boxed(alloc, right)?))
}

fn joined_with(alloc: Global, first: Expr, others: Vec<Expr>) -> Result<Expr, NoMemory>
    ensures { IfOk result (λ all. all ≡ fold (λ a b. expr.Join a b) first others.items) }
{
    let mut all = first;
    for other in others {
        all = joined(alloc, all, other)?;
    }
    Ok(all)
}

/// The join of expressions, grouped to the left.
pub(crate) fn join_exprs(alloc: Global, exprs: Vec<Expr>) -> Result<Expr, NoMemory>
    ensures { IfOk result (λ all. all ≡ join_exprs exprs.items) }
{
    if exprs.is_empty() {
        return Ok(Expr::Base(0));
    }
    let mut others = exprs;
    let first = others.remove(0);
    joined_with(alloc, first, others)
}
