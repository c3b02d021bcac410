ghost use Rattle.std.specs.Prelude.{◌≡◌, IfOk};

use sqlite_items::Boxed;
use std::alloc::Global;
use wh_base::{Cond, Duplicate, Name, Names, NoMemory, Sequence};

/// A name, and what it becomes.
#[derive(Debug, Drop)]
pub struct Renaming {
    pub from: Name,
    pub to: Name,
}

/// Renamings that act at once.
pub type Pairs = Sequence<Renaming>;

/// An expression over tables under numbers.
#[derive(Debug, Drop)]
pub enum Expr {
    Base(u32),
    Select(Cond, Boxed<Expr>),
    Project(Names, Boxed<Expr>),
    Join(Boxed<Expr>, Boxed<Expr>),
    Union(Boxed<Expr>, Boxed<Expr>),
    Minus(Boxed<Expr>, Boxed<Expr>),
    Rename(Pairs, Boxed<Expr>),
}

impl Duplicate for Renaming {
    fn copy(&self, alloc: Global) -> Result<Renaming, NoMemory> {
        Ok(Renaming {
            from: self.from.copy(alloc)?,
            to: self.to.copy(alloc)?,
        })
    }
}

fn boxed(alloc: Global, e: Expr) -> Result<Boxed<Expr>, NoMemory>
    ensures { IfOk result (λ b. b ≡ e) }
{
    Ok(Boxed::new(alloc, e)?)
}

impl Duplicate for Expr {
    fn copy(&self, alloc: Global) -> Result<Expr, NoMemory> {
        match self {
            Expr::Base(number) => Ok(Expr::Base(*number)),
            Expr::Select(cond, child) => Ok(Expr::Select(
                cond.copy(alloc)?,
                boxed(alloc, child.get().copy(alloc)?)?,
            )),
            Expr::Project(names, child) => Ok(Expr::Project(
                names.copy(alloc)?,
                boxed(alloc, child.get().copy(alloc)?)?,
            )),
            Expr::Join(left, right) => Ok(Expr::Join(
                boxed(alloc, left.get().copy(alloc)?)?,
                boxed(alloc, right.get().copy(alloc)?)?,
            )),
            Expr::Union(left, right) => Ok(Expr::Union(
                boxed(alloc, left.get().copy(alloc)?)?,
                boxed(alloc, right.get().copy(alloc)?)?,
            )),
            Expr::Minus(left, right) => Ok(Expr::Minus(
                boxed(alloc, left.get().copy(alloc)?)?,
                boxed(alloc, right.get().copy(alloc)?)?,
            )),
            Expr::Rename(pairs, child) => Ok(Expr::Rename(
                pairs.copy(alloc)?,
                boxed(alloc, child.get().copy(alloc)?)?,
            )),
        }
    }
}
