// Nodes over expressions.
ghost use Rattle.std.specs.Prelude.{◌≡◌, IfOk};
ghost use Rattle.wh_expr.specs.declared.expr.Expr.TheVariants as expr;
ghost use Rattle.wh_rewrite.specs.Nodes.{OfBoth, OfOne, projection, selection};

use crate::wanted::Wanted;
use sqlite_items::Boxed;
use std::alloc::Global;
use wh_base::{Cond, Duplicate, NoMemory};
use wh_expr::{Expr, Pairs};

fn boxed(alloc: Global, e: Expr) -> Result<Boxed<Expr>, NoMemory>
    ensures { IfOk result (λ b. b ≡ e) }
{
    Ok(Boxed::new(alloc, e)?)
}

/// A selection, or the expression itself where the condition is always true.
fn selected(alloc: Global, cond: Cond, e: Expr) -> Result<Expr, NoMemory>
    ensures { IfOk result (λ s. s ≡ selection cond e) }
{
    match cond {
        Cond::Always => Ok(e),
        cond => Ok(Expr::Select(cond, boxed(alloc, e)?)),
    }
}

/// A projection, or the expression itself where all its columns are wanted.
fn projected(alloc: Global, wanted: &Wanted, e: Expr) -> Result<Expr, NoMemory>
    ensures { IfOk result (λ p. p ≡ projection wanted.now e) }
{
    match wanted {
        Wanted::All => Ok(e),
        Wanted::Only(names) => Ok(Expr::Project(names.copy(alloc)?, boxed(alloc, e)?)),
    }
}

/// A name under a condition, and the wanted columns of that.
pub(crate) fn over_base(
    alloc: Global,
    number: u32,
    cond: &Cond,
    wanted: &Wanted,
) -> Result<Expr, NoMemory>
    ensures { IfOk result (λ e. e ≡ projection wanted.now (selection cond.now (expr.Base number))) }
{
    let chosen = selected(alloc, cond.copy(alloc)?, Expr::Base(number))?;
    projected(alloc, wanted, chosen)
}

/// A join of what its sides became, under the conjuncts that need both, and the wanted columns of that.
pub(crate) fn over_join(
    alloc: Global,
    rest: Cond,
    left: Result<Expr, NoMemory>,
    right: Result<Expr, NoMemory>,
    wanted: &Wanted,
) -> Result<Expr, NoMemory>
    ensures { IfOk result (λ e. OfBoth left right (λ x y. e
        ≡ projection wanted.now (selection rest (expr.Join x y)))) }
{
    let left = boxed(alloc, left?)?;
    let joined = Expr::Join(left, boxed(alloc, right?)?);
    let chosen = selected(alloc, rest, joined)?;
    projected(alloc, wanted, chosen)
}

pub(crate) fn united(
    alloc: Global,
    left: Result<Expr, NoMemory>,
    right: Result<Expr, NoMemory>,
) -> Result<Expr, NoMemory>
    ensures { IfOk result (λ e. OfBoth left right (λ x y. e ≡ expr.Union x y)) }
{
    let left = boxed(alloc, left?)?;
    Ok(Expr::Union(left, boxed(alloc, right?)?))
}

/// The wanted columns of a difference of what its sides became.
pub(crate) fn over_minus(
    alloc: Global,
    left: Result<Expr, NoMemory>,
    right: Result<Expr, NoMemory>,
    wanted: &Wanted,
) -> Result<Expr, NoMemory>
    ensures { IfOk result (λ e. OfBoth left right (λ x y. e ≡ projection wanted.now (expr.Minus x y))) }
{
    let left = boxed(alloc, left?)?;
    let rest = Expr::Minus(left, boxed(alloc, right?)?);
    projected(alloc, wanted, rest)
}

/// The wanted columns of what a part became, under new names.
pub(crate) fn over_rename(
    alloc: Global,
    pairs: &Pairs,
    part: Result<Expr, NoMemory>,
    wanted: &Wanted,
) -> Result<Expr, NoMemory>
    ensures { IfOk result (λ r. OfOne part (λ x. r ≡ projection wanted.now (expr.Rename pairs.now x))) }
{
    let part = boxed(alloc, part?)?;
    let renamed = Expr::Rename(pairs.copy(alloc)?, part);
    projected(alloc, wanted, renamed)
}
