//! The order in which the relations are reconstructed.
ghost use Rattle.std.specs.Prelude.{◌≡◌, ◌||◌, not, nat_eq, length, IfOk};
ghost use Rattle.std.specs.List.{find, list_all};
ghost use Rattle.wh_covers.specs.Covers.{IsNumbered};
ghost use Rattle.wh_schema.specs.Reconstruction.{is_taken, take_next as next_taken, is_ready, order as order_of};
ghost use Rattle.wh_schema.specs.Warehouse.{numbers};

use std::alloc::Global;
use wh_base::{NoMemory, Places};
use wh_schema::{Inclusion, Spec};

fn is_taken(taken: &[u32], relation: u32) -> bool
    ensures { result ≡ is_taken taken.now relation }
{
    taken.iter().any(|other| relation == *other)
}

/// Whether an inclusion leads elsewhere, or its left relation is taken.
fn lets_pass(inclusion: &Inclusion, taken: &[u32], relation: u32) -> bool
    ensures { result ≡ (not (nat_eq inclusion.now.to relation) || is_taken taken.now inclusion.now.from) }
{
    inclusion.to != relation || is_taken(taken, inclusion.from)
}

fn all_let_pass(inclusions: &[Inclusion], taken: &[u32], relation: u32) -> bool
    ensures { result ≡ list_all (λ c. not (nat_eq c.to relation) || is_taken taken.now c.from) inclusions.now }
{
    inclusions
        .iter()
        .all(|inclusion| lets_pass(inclusion, taken, relation))
}

/// Whether the relation is not taken, and all left relations of the inclusions into it are.
fn is_ready(spec: &Spec, taken: &[u32], relation: u32) -> bool
    ensures { result ≡ is_ready spec.now taken.now relation }
{
    !is_taken(taken, relation) && all_let_pass(spec.inclusions.as_slice(), taken, relation)
}

fn first_ready(spec: &Spec, taken: &[u32]) -> Option<u32>
    requires { IsNumbered spec.now }
    ensures { result ≡ find (is_ready spec.now taken.now) (numbers (length spec.now.relations)) }
{
    for relation in 0..spec.relations.len() as u32 {
        if is_ready(spec, taken, relation) {
            return Some(relation);
        }
    }
    None
}

fn take_next(spec: &Spec, taken: Places) -> Result<Places, NoMemory>
    requires { IsNumbered spec.now }
    ensures { IfOk result (λ more. more ≡ next_taken (is_ready spec.now) (numbers (length spec.now.relations)) taken) }
{
    let mut more = taken;
    if let Some(relation) = first_ready(spec, more.as_slice()) {
        more.push(relation)?;
    }
    Ok(more)
}

/// The lowest relation that is ready, again and again.
pub(crate) fn order(alloc: Global, spec: &Spec) -> Result<Places, NoMemory>
    requires { IsNumbered spec.now }
    ensures { IfOk result (λ taken. taken ≡ order_of spec.now) }
{
    let mut taken = Places::new(alloc);
    for _turn in 0..spec.relations.len() {
        taken = take_next(spec, taken)?;
    }
    Ok(taken)
}
