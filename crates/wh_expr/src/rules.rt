// The rules of one node, whose parts have attributes.
ghost use Rattle.std.specs.Prelude.{◌≡◌, []};
ghost use Rattle.wh_base.specs.Heads.{attrs_at};
ghost use Rattle.wh_expr.specs.declared.fault.TypeFault.TheVariants.{At};
ghost use Rattle.wh_expr.specs.Typing.{Answers, Typing, here, base_causes, select_causes, project_causes, join_causes, same_head_causes, rename_causes, attrs_named, joined_attrs, renamed_attrs};

use crate::expr::Pairs;
use crate::fault::{TypeCause, TypeFault};
use crate::names;
use std::alloc::Global;
use wh_base::{Attrs, Cond, CondFault, Duplicate, Heads, Names, Places, cond_typed, names_of};

/// A fault of the node itself.
pub(crate) fn fault(alloc: Global, cause: TypeCause) -> TypeFault
    ensures { result ≡ At cause [] }
{
    TypeFault::At {
        cause,
        path: Places::new(alloc),
    }
}

/// A name has the attributes of its number.
pub(crate) fn base(alloc: Global, number: u32, heads: &Heads) -> Result<Attrs, TypeFault>
    ensures { Answers result (record { attrs = attrs_at heads.now number; faults = here (base_causes number heads.now) }) }
{
    match heads.get(number as usize) {
        Some(head) => Ok(head.attrs.copy(alloc)?),
        None => Err(fault(alloc, TypeCause::UnknownName)),
    }
}

/// A selection has the attributes of its part.
pub(crate) fn select(alloc: Global, cond: &Cond, attrs: Attrs) -> Result<Attrs, TypeFault>
    ensures { Answers result (record { attrs = attrs; faults = here (select_causes cond.now attrs) }) }
{
    match cond_typed(cond, &attrs) {
        Ok(()) => Ok(attrs),
        Err(CondFault::UnknownAttr) => Err(fault(alloc, TypeCause::UnknownAttr)),
        Err(CondFault::KindMismatch) => Err(fault(alloc, TypeCause::KindMismatch)),
    }
}

/// A projection has the attributes that it names.
pub(crate) fn project(alloc: Global, names: &Names, attrs: &Attrs) -> Result<Attrs, TypeFault>
    ensures { Answers result (record { attrs = attrs_named attrs.now names.now; faults = here (project_causes names.now attrs.now) }) }
{
    if !names::are_attrs(attrs.as_slice(), names.as_slice()) {
        return Err(fault(alloc, TypeCause::UnknownAttr));
    }
    if !names::are_distinct(names.as_slice()) {
        return Err(fault(alloc, TypeCause::Repeated));
    }
    if names.is_empty() {
        return Err(fault(alloc, TypeCause::EmptyHead));
    }
    Ok(names::attrs_named(alloc, attrs.as_slice(), names.as_slice())?)
}

/// A join has the left attributes, and then the right ones that are not among them.
pub(crate) fn join(alloc: Global, left: &Attrs, right: &Attrs) -> Result<Attrs, TypeFault>
    ensures { Answers result (record { attrs = joined_attrs left.now right.now; faults = here (join_causes left.now right.now) }) }
{
    if !names::can_join(left.as_slice(), right.as_slice()) {
        return Err(fault(alloc, TypeCause::KindMismatch));
    }
    Ok(names::joined_attrs(alloc, left, right.as_slice())?)
}

/// A union or difference has the left attributes, which have to be those of the right.
pub(crate) fn same_head(alloc: Global, left: Attrs, right: &Attrs) -> Result<Attrs, TypeFault>
    ensures { Answers result (record { attrs = left; faults = here (same_head_causes left right.now) }) }
{
    if !names::same_attrs(left.as_slice(), right.as_slice()) {
        return Err(fault(alloc, TypeCause::HeadMismatch));
    }
    Ok(left)
}

/// A renaming has the attributes of its part under new names.
pub(crate) fn rename(alloc: Global, pairs: &Pairs, attrs: &Attrs) -> Result<Attrs, TypeFault>
    ensures { Answers result (record { attrs = renamed_attrs pairs.now attrs.now; faults = here (rename_causes pairs.now attrs.now) }) }
{
    let old = names::old_names(alloc, pairs.as_slice())?;
    if !names::are_attrs(attrs.as_slice(), old.as_slice()) {
        return Err(fault(alloc, TypeCause::UnknownAttr));
    }
    let renamed = names::renamed_attrs(alloc, pairs.as_slice(), attrs.as_slice())?;
    let new = names_of(alloc, &renamed)?;
    if !names::are_distinct(old.as_slice()) || !names::are_distinct(new.as_slice()) {
        return Err(fault(alloc, TypeCause::Repeated));
    }
    Ok(renamed)
}
