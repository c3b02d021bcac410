//! The relations of a view that are joined one after another without the loss of a row.
ghost use Rattle.std.specs.Prelude.{◌≡◌, ◌&&◌, nat_eq, IfOk};
ghost use Rattle.std.specs.Cmp.Lexicographic.{pointwise};
ghost use Rattle.std.specs.List.{find, flat_map, list_any};
ghost use Rattle.wh_base.specs.Columns.{name_eq};
ghost use Rattle.wh_schema.specs.EmptyMark.{same_names, shared_with_taken, leads_into, is_joined_on, joined_on as joined_from};
ghost use Rattle.wh_schema.specs.Reconstruction.{is_taken, take_next as next_taken};
ghost use Rattle.wh_schema.specs.Warehouse.{columns_of};

use std::alloc::Global;
use wh_base::{Name, Names, NoMemory, Places, all_in, names_of, shared};
use wh_schema::{Inclusion, Spec};

pub(crate) fn is_taken(taken: &[u32], relation: u32) -> bool
    ensures { result ≡ is_taken taken.now relation }
{
    taken.iter().any(|other| relation == *other)
}

/// The names of a relation's attributes: none of a number past the last relation.
pub(crate) fn columns_of(alloc: Global, spec: &Spec, relation: u32) -> Result<Names, NoMemory>
    ensures { IfOk result (λ names. names ≡ columns_of spec.now relation) }
{
    match spec.relations.get(relation as usize) {
        Some(relation) => names_of(alloc, &relation.attrs),
        None => Ok(Names::new(alloc)),
    }
}

fn columns_of_all(alloc: Global, spec: &Spec, relations: &[u32]) -> Result<Names, NoMemory>
    ensures { IfOk result (λ names. names ≡ flat_map (columns_of spec.now) relations.now) }
{
    let mut names = Vec::new(alloc);
    for relation in relations {
        let columns = columns_of(alloc, spec, *relation)?;
        names.append(&mut columns.into_vec())?;
    }
    Ok(Names::from_vec(names))
}

/// The attributes of a relation that some taken relation has.
fn shared_with_taken(
    alloc: Global,
    spec: &Spec,
    taken: &[u32],
    relation: u32,
) -> Result<Names, NoMemory>
    ensures { IfOk result (λ names. names ≡ shared_with_taken spec.now taken.now relation) }
{
    let left = columns_of_all(alloc, spec, taken)?;
    let right = columns_of(alloc, spec, relation)?;
    shared(alloc, left.as_slice(), right.as_slice())
}

/// Whether two lists have the same names, in any order.
fn same_names(left: &[Name], right: &[Name]) -> bool
    ensures { result ≡ same_names left.now right.now }
{
    all_in(right, left) && all_in(left, right)
}

/// Whether an inclusion is between columns of the same names, position by position, and these are the shared ones.
fn is_on(inclusion: &Inclusion, common: &[Name]) -> bool
    ensures { result ≡ (pointwise name_eq inclusion.now.from_cols inclusion.now.to_cols && same_names inclusion.now.to_cols common.now) }
{
    inclusion.from_cols == inclusion.to_cols && same_names(inclusion.to_cols.as_slice(), common)
}

/// Whether an inclusion leads from a taken relation into this one, between the columns that it shares with the taken ones.
fn leads_into(inclusion: &Inclusion, taken: &[u32], relation: u32, common: &[Name]) -> bool
    ensures { result ≡ ((nat_eq inclusion.now.to relation && is_taken taken.now inclusion.now.from) && (pointwise name_eq inclusion.now.from_cols inclusion.now.to_cols && same_names inclusion.now.to_cols common.now)) }
{
    inclusion.to == relation && is_taken(taken, inclusion.from) && is_on(inclusion, common)
}

fn any_leads_into(
    alloc: Global,
    spec: &Spec,
    taken: &[u32],
    relation: u32,
) -> Result<bool, NoMemory>
    ensures { IfOk result (λ any. any ≡ list_any (leads_into spec.now taken.now relation) spec.now.inclusions) }
{
    let common = shared_with_taken(alloc, spec, taken, relation)?;
    Ok(
        spec.inclusions.as_slice().iter().any(|inclusion| leads_into(
            inclusion,
            taken,
            relation,
            common.as_slice(),
        )),
    )
}

/// Whether a relation is not taken, and an inclusion leads into it.
fn is_joined_on(alloc: Global, spec: &Spec, taken: &[u32], relation: u32) -> Result<bool, NoMemory>
    ensures { IfOk result (λ joined. joined ≡ is_joined_on spec.now taken.now relation) }
{
    if is_taken(taken, relation) {
        return Ok(false);
    }
    any_leads_into(alloc, spec, taken, relation)
}

fn first_joined(
    alloc: Global,
    spec: &Spec,
    members: &[u32],
    taken: &[u32],
) -> Result<Option<u32>, NoMemory>
    ensures { IfOk result (λ first. first ≡ find (is_joined_on spec.now taken.now) members.now) }
{
    for member in members {
        if is_joined_on(alloc, spec, taken, *member)? {
            return Ok(Some(*member));
        }
    }
    Ok(None)
}

fn take_next(alloc: Global, spec: &Spec, members: &[u32], taken: Places) -> Result<Places, NoMemory>
    ensures { IfOk result (λ more. more ≡ next_taken (is_joined_on spec.now) members.now taken) }
{
    let mut more = taken;
    if let Some(relation) = first_joined(alloc, spec, members, more.as_slice())? {
        more.push(relation)?;
    }
    Ok(more)
}

/// From one relation on, again and again the first of the members to which an inclusion leads.
pub(crate) fn joined_on(
    alloc: Global,
    spec: &Spec,
    members: &[u32],
    relation: u32,
) -> Result<Places, NoMemory>
    ensures { IfOk result (λ joined. joined ≡ joined_from spec.now members.now relation) }
{
    let mut taken = Places::new(alloc);
    taken.push(relation)?;
    for _turn in 0..members.len() {
        taken = take_next(alloc, spec, members, taken)?;
    }
    Ok(taken)
}
