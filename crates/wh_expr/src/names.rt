// Names and attributes, as the rules of typing speak of them.
ghost use Rattle.std.specs.Prelude.{◌≡◌, ℕ, List, map, IfOk};
ghost use Rattle.wh_base.specs.Columns.{is_in, all_in, names_of};
ghost use Rattle.wh_base.specs.Cond.{kind_of};
ghost use Rattle.wh_expr.specs.Rename.{new_name};
ghost use Rattle.wh_expr.specs.Typing.{kind_eq, are_distinct, attrs_named, kind_or_int, is_kind, is_kind_or_none, can_join, joined_attrs, has_attrs, same_attrs, old_names, renamed_attrs};

use crate::expr::{Pairs, Renaming};
use std::alloc::Global;
use wh_base::{Attr, Attrs, Duplicate, Kind, Name, Names, NoMemory, is_in, kind_of};

/// Whether an attribute has the name.
pub(crate) fn is_attr(attrs: &[Attr], name: &Name) -> bool
    ensures { result ≡ is_in (names_of attrs.now) name.now }
{
    for attr in attrs {
        if *name == attr.name {
            return true;
        }
    }
    false
}

/// Whether each of the names is an attribute's.
pub(crate) fn are_attrs(attrs: &[Attr], names: &[Name]) -> bool
    ensures { result ≡ all_in (names_of attrs.now) names.now }
{
    names.iter().all(|name| is_attr(attrs, name))
}

/// Whether no name stands twice.
pub fn are_distinct(names: &[Name]) -> bool
    ensures { result ≡ are_distinct names.now }
{
    for (place, name) in names.iter().enumerate() {
        if is_in(&names[place + 1..], name) {
            return false;
        }
    }
    true
}

fn same_kind(a: Kind, b: Kind) -> bool
    ensures { result ≡ kind_eq a b }
{
    match (a, b) {
        (Kind::Int, Kind::Int) | (Kind::Text, Kind::Text) => true,
        (_, _) => false,
    }
}

fn kind_or_int(name: &Name, attrs: &[Attr]) -> Kind
    ensures { result ≡ kind_or_int (kind_of name.now attrs.now) }
{
    kind_of(name, attrs).unwrap_or(Kind::Int)
}

/// The attributes with the names.
pub(crate) fn attrs_named(alloc: Global, attrs: &[Attr], names: &[Name]) -> Result<Attrs, NoMemory>
    ensures { IfOk result (λ named. named ≡ attrs_named attrs.now names.now) }
{
    let mut named = Attrs::new(alloc);
    for name in names {
        named.push(Attr {
            name: name.copy(alloc)?,
            kind: kind_or_int(name, attrs),
        })?;
    }
    Ok(named)
}

fn may_stand_beside(attrs: &[Attr], attr: &Attr) -> bool
    ensures { result ≡ is_kind_or_none (kind_of attr.now.name attrs.now) attr.now.kind }
{
    match kind_of(&attr.name, attrs) {
        Some(kind) => same_kind(kind, attr.kind),
        None => true,
    }
}

/// Whether no shared attribute has two kinds.
pub(crate) fn can_join(left: &[Attr], right: &[Attr]) -> bool
    ensures { result ≡ can_join left.now right.now }
{
    right.iter().all(|attr| may_stand_beside(left, attr))
}

/// The left attributes, and then the right ones that are not among them.
pub(crate) fn joined_attrs(alloc: Global, left: &Attrs, right: &[Attr]) -> Result<Attrs, NoMemory>
    ensures { IfOk result (λ joined. joined ≡ joined_attrs left.now right.now) }
{
    let mut joined = left.copy(alloc)?;
    for attr in right {
        if !is_attr(left.as_slice(), &attr.name) {
            joined.push(attr.copy(alloc)?)?;
        }
    }
    Ok(joined)
}

fn has_attr(attrs: &[Attr], attr: &Attr) -> bool
    ensures { result ≡ is_kind (kind_of attr.now.name attrs.now) attr.now.kind }
{
    match kind_of(&attr.name, attrs) {
        Some(kind) => same_kind(kind, attr.kind),
        None => false,
    }
}

fn has_attrs(attrs: &[Attr], others: &[Attr]) -> bool
    ensures { result ≡ has_attrs attrs.now others.now }
{
    others.iter().all(|attr| has_attr(attrs, attr))
}

/// Whether both lists have the same attributes with the same kinds.
pub(crate) fn same_attrs(left: &[Attr], right: &[Attr]) -> bool
    ensures { result ≡ same_attrs left.now right.now }
{
    has_attrs(left, right) && has_attrs(right, left)
}

/// The old names of renamings.
pub(crate) fn old_names(alloc: Global, pairs: &[Renaming]) -> Result<Names, NoMemory>
    ensures { IfOk result (λ names. names ≡ old_names pairs.now) }
{
    let mut names = Names::new(alloc);
    for pair in pairs {
        names.push(pair.from.copy(alloc)?)?;
    }
    Ok(names)
}

/// What a name becomes; all names change at once.
pub fn new_name(alloc: Global, pairs: &[Renaming], name: &Name) -> Result<Name, NoMemory>
    ensures { IfOk result (λ new. new ≡ new_name pairs.now name.now) }
{
    for pair in pairs {
        if *name == pair.from {
            return pair.to.copy(alloc);
        }
    }
    name.copy(alloc)
}

/// The attributes under their new names.
pub(crate) fn renamed_attrs(
    alloc: Global,
    pairs: &[Renaming],
    attrs: &[Attr],
) -> Result<Attrs, NoMemory>
    ensures { IfOk result (λ renamed. renamed ≡ renamed_attrs pairs.now attrs.now) }
{
    let mut renamed = Attrs::new(alloc);
    for attr in attrs {
        renamed.push(Attr {
            name: new_name(alloc, pairs, &attr.name)?,
            kind: attr.kind,
        })?;
    }
    Ok(renamed)
}
