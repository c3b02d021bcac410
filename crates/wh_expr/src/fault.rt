ghost use Rattle.std.specs.Prelude.{◌≡◌};

use wh_base::{NoMemory, Places};

/// Which rule of typing is broken.
#[derive(Clone, Copy, Debug, PartialEq, Eq)]
pub enum TypeCause {
    /// The expression is deeper than 64.
    TooDeep,
    /// The expression has more than 1,000 nodes, those of its conditions among them.
    TooBig,
    /// A number is that of no table.
    UnknownName,
    /// A projected, renamed or compared name is no attribute.
    UnknownAttr,
    /// A comparison has two kinds, or a join has an attribute of two kinds.
    KindMismatch,
    /// The sides of a union or difference differ in their attributes or kinds.
    HeadMismatch,
    /// A projection is to no attribute.
    EmptyHead,
    /// A name stands twice in a projection, among the old names of a renaming, or among the attributes after it.
    Repeated,
}

/// Why an expression has no attributes.
#[derive(Debug, Drop)]
pub enum TypeFault {
    /// The first fault: its cause, and the steps from the root to the node at fault, 0 to an only or left child and 1 to
    /// a right one. Of `TooDeep` and `TooBig` there are none.
    At { cause: TypeCause, path: Places },
    NoMemory,
}

impl From<NoMemory> for TypeFault {
    ghost use Rattle.wh_expr.specs.declared.fault.TypeFault.TheVariants as fault;

    ghost from_gives = { λ _ e. e ≡ fault.NoMemory };

    fn from(_error: NoMemory) -> TypeFault {
        TypeFault::NoMemory
    }
}
