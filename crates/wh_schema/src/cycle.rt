//! The cycle that a further inclusion closes.
ghost use Rattle.std.specs.Prelude.{◌≡◌, ◌<◌, ◌^◌, ◌&&◌, ◌∷◌, [], Some, None, nat_eq, is_some, option_map, get_or, length, map, IfOk, if◌then◌else◌};
ghost use Rattle.std.specs.Option.{option_copied};
ghost use Rattle.wh_schema.specs.Cycles.{leads, next_relation, longer_path, paths_to, shortest_path, closed_cycle};
ghost use Rattle.wh_schema.specs.Warehouse.{numbers};

use crate::spec::{Inclusion, Spec};
use std::alloc::Global;
use wh_base::{Duplicate, NoMemory, Places, Sequence};

/// A path from each relation, where there is one.
type Paths = Sequence<Option<Places>>;

fn leads(inclusions: &[Inclusion], from: u32, to: u32) -> bool
    ensures { result ≡ leads inclusions.now from to }
{
    inclusions
        .iter()
        .any(|inclusion| inclusion.from == from && inclusion.to == to)
}

fn path_at(paths: &Paths, number: u32) -> Option<&Places>
    ensures { option_copied result ≡ get_or paths.now number None }
{
    match paths.get(number as usize) {
        Some(path) => path.as_ref(),
        None => None,
    }
}

fn is_next(spec: &Spec, paths: &Paths, from: u32, to: u32) -> bool
    ensures { result ≡ (leads spec.now.inclusions from to && is_some (get_or paths.now to None)) }
{
    leads(spec.inclusions.as_slice(), from, to) && path_at(paths, to).is_some()
}

fn next_relation(spec: &Spec, paths: &Paths, from: u32) -> Option<u32>
    requires { length spec.now.relations < 2 ^ 32 }
    ensures { result ≡ next_relation spec.now paths.now from }
{
    let count = spec.relations.len() as u32;
    (0..count).find(|number| is_next(spec, paths, from, *number))
}

fn path_through(alloc: Global, from: u32, rest: Option<&Places>) -> Result<Option<Places>, NoMemory>
    ensures { IfOk result (λ path. path ≡ option_map (λ p. from ∷ p) (option_copied rest.entry)) }
{
    match rest {
        Some(rest) => {
            let mut path = Vec::new(alloc);
            path.push(from)?;
            path.extend_from_slice(rest.as_slice())?;
            Ok(Some(Places::from_vec(path)))
        }
        None => Ok(None),
    }
}

fn longer_path(
    alloc: Global,
    spec: &Spec,
    paths: &Paths,
    from: u32,
) -> Result<Option<Places>, NoMemory>
    requires { length spec.now.relations < 2 ^ 32 }
    ensures { IfOk result (λ path. path ≡ longer_path spec.now paths.now from) }
{
    match next_relation(spec, paths, from) {
        Some(to) => path_through(alloc, from, path_at(paths, to)),
        None => Ok(None),
    }
}

/// The paths of one inclusion more.
#[tactic(auto, using(crate::proofs::Ranges::map_numbers_more))]
fn longer_paths(alloc: Global, spec: &Spec, paths: &Paths) -> Result<Paths, NoMemory>
    requires { length spec.now.relations < 2 ^ 32 }
    ensures { IfOk result (λ longer. longer ≡ map (longer_path spec.now paths.now) (numbers (length spec.now.relations))) }
{
    let mut longer = Paths::new(alloc);
    for number in 0..spec.relations.len() as u32 {
        longer.push(longer_path(alloc, spec, paths, number)?)?;
    }
    Ok(longer)
}

fn empty_path(alloc: Global, start: u32, end: u32) -> Option<Places>
    ensures { result ≡ (if nat_eq start end then Some [] else None) }
{
    if start == end {
        Some(Places::new(alloc))
    } else {
        None
    }
}

/// The paths of no inclusion: that of the end alone.
#[tactic(auto, using(crate::proofs::Ranges::map_numbers_more))]
fn empty_paths(alloc: Global, spec: &Spec, end: u32) -> Result<Paths, NoMemory>
    requires { length spec.now.relations < 2 ^ 32 }
    ensures { IfOk result (λ paths. paths ≡ paths_to spec.now end 0) }
{
    let mut paths = Paths::new(alloc);
    for number in 0..spec.relations.len() as u32 {
        paths.push(empty_path(alloc, number, end))?;
    }
    Ok(paths)
}

fn shortest_path(
    alloc: Global,
    spec: &Spec,
    start: u32,
    end: u32,
) -> Result<Option<Places>, NoMemory>
    requires { length spec.now.relations < 2 ^ 32 }
    ensures { IfOk result (λ path. path ≡ shortest_path spec.now start end) }
{
    let mut paths = empty_paths(alloc, spec, end)?;
    for length in 0..spec.relations.len() {
        if let Some(path) = path_at(&paths, start) {
            return Ok(Some(path.copy(alloc)?));
        }
        paths = longer_paths(alloc, spec, &paths)?;
    }
    Ok(None)
}

/// The cycle that an inclusion between two relations closes, if it closes one.
pub(crate) fn closed_cycle(
    alloc: Global,
    spec: &Spec,
    from: u32,
    to: u32,
) -> Result<Option<Places>, NoMemory>
    requires { length spec.now.relations < 2 ^ 32 }
    ensures { IfOk result (λ cycle. cycle ≡ closed_cycle spec.now from to) }
{
    let path = shortest_path(alloc, spec, to, from)?;
    path_through(alloc, from, path.as_ref())
}
