ghost use Rattle.std.specs.Prelude.{◌≡◌, ◌+◌, ◌<◌, None, map, length, IfOk};
ghost use Rattle.wh_base.specs.RowSet.{in_order};
ghost use Rattle.wh_covers.specs.Covers.{IsNumbered};
ghost use Rattle.wh_load.specs.Load.{HasDistinctRows};
ghost use Rattle.wh_schema.specs.Constraints.{broken, first_break, least_or, repeated_keys as repeated_of, missing_values as missing_of};
ghost use Rattle.wh_schema.specs.Warehouse.{numbers};

use crate::repeats::{missing_values, repeated_keys};
use std::alloc::Global;
use wh_base::{NoMemory, Rows, State, sort_rows};
use wh_covers::inclusion_at;
use wh_schema::{Broken, Spec};

/// The least of the values that break a constraint, where there is one.
fn least_of(constraint: u32, values: Rows) -> Result<Option<Broken>, NoMemory>
    ensures { IfOk result (λ least. least ≡ least_or constraint (in_order values) None) }
{
    let mut values = sort_rows(values)?.into_vec();
    if values.is_empty() {
        return Ok(None);
    }
    let value = values.remove(0);
    Ok(Some(Broken { constraint, value }))
}

/// The first key that different rows share.
fn broken_key(alloc: Global, spec: &Spec, s: &State) -> Result<Option<Broken>, NoMemory>
    requires numbered { IsNumbered spec.now }
    requires distinct { HasDistinctRows s.now }
    ensures { IfOk result (λ first. first ≡ first_break 1 (map (repeated_of spec.now s.now) (numbers (length spec.now.relations)))) }
{
    for relation in 0..spec.relations.len() as u32 {
        let values = repeated_keys(alloc, spec, s, relation)?;
        let least = least_of(relation + 1, values)?;
        if least.is_some() {
            return Ok(least);
        }
    }
    Ok(None)
}

/// The first inclusion that lacks a value.
fn broken_inclusion(alloc: Global, spec: &Spec, s: &State) -> Result<Option<Broken>, NoMemory>
    requires { IsNumbered spec.now }
    ensures { IfOk result (λ first. first ≡ first_break (length spec.now.relations + 1) (map (missing_of spec.now s.now) spec.now.inclusions)) }
{
    let keys = spec.relations.len() as u32;
    for number in 0..spec.inclusions.len() as u32 {
        let values = missing_values(alloc, spec, s, inclusion_at(spec, number))?;
        let least = least_of(keys + number + 1, values)?;
        if least.is_some() {
            return Ok(least);
        }
    }
    Ok(None)
}

/// The first broken constraint with its least value; none where the state is legal.
pub fn first_broken(alloc: Global, spec: &Spec, s: &State) -> Result<Option<Broken>, NoMemory>
    requires numbered { IsNumbered spec.now }
    requires distinct { HasDistinctRows s.now }
    ensures { IfOk result (λ first. first ≡ broken spec.now s.now) }
{
    match broken_key(alloc, spec, s)? {
        Some(key) => Ok(Some(key)),
        None => broken_inclusion(alloc, spec, s),
    }
}
