use wh_base::{ColumnSets, Flags, NoMemory, Places, Sequence};
use wh_covers::{CoverLists, PieceLists};
use wh_expr::Expr;
use wh_schema::Spec;

pub type Exprs = Sequence<Expr>;

/// Of each relation the most look-ups that find a row by its key, where that is known.
pub type ProbeBounds = Sequence<Option<u64>>;

/// Of each stored table the sets of columns that it is looked up by.
pub type IndexLists = Sequence<ColumnSets>;

/// What is computed of a specification once.
#[derive(Debug, Drop)]
pub struct Plan {
    pub spec: Spec,
    /// The relations in the order in which they are reconstructed.
    pub order: Places,
    pub pieces: PieceLists,
    /// Of each relation its covers, as numbers of its pieces from 1.
    pub covers: CoverLists,
    /// Of each relation whether its complement is empty in every legal state by the mark of `wh_lossless`.
    pub empties: Flags,
    /// Of each view its expression over the relations.
    pub view_exprs: Exprs,
    /// Of each relation its expression over its complement, the views and the relations before it in the order.
    pub inverse_exprs: Exprs,
    /// Of each stored table its indexed sets: the views, then the complements.
    pub indexes: IndexLists,
    pub key_probes: ProbeBounds,
}

/// The first relation, numbered from 0, with more than 12 pieces.
#[derive(Clone, Copy, Debug, PartialEq, Eq)]
pub enum PlanFault {
    TooManyPieces { relation: u32, count: u32 },
    NoMemory,
}

impl From<NoMemory> for PlanFault {
    ghost use Rattle.wh_plan.specs.declared.plan.PlanFault.TheVariants as fault;
    ghost use Rattle.std.specs.Prelude.{◌≡◌};

    ghost from_gives = { λ _ e. e ≡ fault.NoMemory };

    fn from(_error: NoMemory) -> PlanFault {
        PlanFault::NoMemory
    }
}
