ghost use Rattle.std.specs.Prelude.{◌≡◌, IfOk};
ghost use Rattle.wh_rewrite.specs.declared.wanted.Wanted.TheVariants as wanted;
ghost use Rattle.wh_rewrite.specs.Rewritten.{narrowed};

use std::alloc::Global;
use wh_base::{Duplicate, Names, NoMemory};

/// The columns that are wanted of an expression.
#[derive(Debug, Drop)]
pub(crate) enum Wanted {
    All,
    Only(Names),
}

impl Wanted {
    /// What is wanted of the part of a projection to the names: fewer of them, or all.
    pub(crate) fn among(&self, alloc: Global, names: &Names) -> Result<Wanted, NoMemory>
        ensures { IfOk result (λ w. w ≡ narrowed self.now names.now) }
    {
        match self {
            Wanted::All => Ok(Wanted::Only(names.copy(alloc)?)),
            Wanted::Only(fewer) => Ok(Wanted::Only(fewer.copy(alloc)?)),
        }
    }
}
