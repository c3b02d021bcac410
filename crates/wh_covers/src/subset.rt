ghost use Rattle.std.specs.Prelude.{◌≡◌, ◌∷◌, [], suc, map, IfOk};
ghost use Rattle.std.specs.List.{flat_map};
ghost use Rattle.wh_schema.specs.Warehouse.{numbers, subsets as subsets_of};

use std::alloc::Global;
use wh_base::{NoMemory, Places};

fn with_first(alloc: Global, first: u32, others: &Places) -> Result<Places, NoMemory>
    ensures { IfOk result (λ set. set ≡ first ∷ others.now) }
{
    let mut set = Places::new(alloc);
    set.push(first)?;
    for number in others.as_slice() {
        set.push(*number)?;
    }
    Ok(set)
}

/// Each set without a first number, and with it.
fn doubled(alloc: Global, first: u32, sets: Vec<Places>) -> Result<Vec<Places>, NoMemory>
    ensures { IfOk result (λ twice. twice.items ≡ flat_map (λ s. s ∷ (first ∷ s) ∷ []) sets.items) }
{
    let mut twice = Vec::new(alloc);
    for set in sets {
        let with = with_first(alloc, first, &set)?;
        twice.push(set)?;
        twice.push(with)?;
    }
    Ok(twice)
}

/// The subsets of 1 to `n`, in the order in which 1 weighs 1, 2 weighs 2, 3 weighs 4 and so on.
pub fn subsets(alloc: Global, n: u32) -> Result<Vec<Places>, NoMemory>
    ensures { IfOk result (λ sets. sets.items ≡ subsets_of (map suc (numbers n))) }
{
    let mut sets = Vec::new(alloc);
    sets.push(Places::new(alloc))?;
    for done in 0..n {
        sets = doubled(alloc, n - done, sets)?;
    }
    Ok(sets)
}
