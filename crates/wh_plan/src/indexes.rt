//! The sets of columns that the stored tables are looked up by.
ghost use Rattle.std.specs.Prelude.{◌≡◌, ◌++◌, ◌∷◌, [], map, length, IfOk};
ghost use Rattle.wh_base.specs.Columns.{names_of as names_in, place_of as place_in};
ghost use Rattle.wh_plan.specs.Indexes.{single_sets, is_wide_key, key_sets, index_sets, indexes};

use crate::plan::IndexLists;
use std::alloc::Global;
use wh_base::{ColumnSets, Name, NoMemory, Places, all_in, names_of, place_of};
use wh_expr::are_distinct;
use wh_schema::{Relation, Spec};

fn single(alloc: Global, place: u32) -> Result<Places, NoMemory>
    ensures { IfOk result (λ set. set ≡ place ∷ []) }
{
    let mut set = Places::new(alloc);
    set.push(place)?;
    Ok(set)
}

fn single_sets(alloc: Global, width: usize) -> Result<ColumnSets, NoMemory>
    ensures { IfOk result (λ sets. sets ≡ single_sets width) }
{
    let Ok(width) = u32::try_from(width) else {
        // No memory has rows so wide.
        return Err(NoMemory);
    };
    let mut sets = ColumnSets::new(alloc);
    for place in 0..width {
        sets.push(single(alloc, place)?)?;
    }
    Ok(sets)
}

/// The places of names among columns.
fn places_of(alloc: Global, columns: &[Name], names: &[Name]) -> Result<Places, NoMemory>
    ensures { IfOk result (λ places. places ≡ map (place_in columns.now) names.now) }
{
    let mut places = Places::new(alloc);
    for name in names {
        let Ok(place) = u32::try_from(place_of(columns, name)) else {
            // No memory has rows so wide.
            return Err(NoMemory);
        };
        places.push(place)?;
    }
    Ok(places)
}

fn is_wide_key(columns: &[Name], key: &[Name]) -> bool
    ensures { result ≡ is_wide_key columns.now key.now }
{
    key.len() > 1 && are_distinct(key) && all_in(columns, key)
}

/// The places of the keys of several names that lie in the columns.
fn key_sets(alloc: Global, columns: &[Name], relations: &[Relation]) -> Result<ColumnSets, NoMemory>
    ensures { IfOk result (λ sets. sets ≡ key_sets columns.now relations.now) }
{
    let mut sets = ColumnSets::new(alloc);
    for relation in relations {
        let key = relation.key.as_slice();
        if is_wide_key(columns, key) {
            sets.push(places_of(alloc, columns, key)?)?;
        }
    }
    Ok(sets)
}

/// Each column alone, and then the keys.
fn index_sets(alloc: Global, spec: &Spec, columns: &[Name]) -> Result<ColumnSets, NoMemory>
    ensures { IfOk result (λ sets. sets ≡ index_sets spec.now columns.now) }
{
    let mut sets = single_sets(alloc, columns.len())?.into_vec();
    let keys = key_sets(alloc, columns, spec.relations.as_slice())?;
    sets.append(&mut keys.into_vec())?;
    Ok(ColumnSets::from_vec(sets))
}

fn view_indexes(alloc: Global, spec: &Spec) -> Result<IndexLists, NoMemory>
    ensures { IfOk result (λ lists. lists ≡ map (λ v. index_sets spec.now v.head) spec.now.views) }
{
    let mut lists = IndexLists::new(alloc);
    for view in spec.views.as_slice() {
        lists.push(index_sets(alloc, spec, view.head.as_slice())?)?;
    }
    Ok(lists)
}

fn complement_indexes(alloc: Global, spec: &Spec) -> Result<IndexLists, NoMemory>
    ensures { IfOk result (λ lists. lists ≡ map (λ r. index_sets spec.now (names_in r.attrs)) spec.now.relations) }
{
    let mut lists = IndexLists::new(alloc);
    for relation in spec.relations.as_slice() {
        let columns = names_of(alloc, &relation.attrs)?;
        lists.push(index_sets(alloc, spec, columns.as_slice())?)?;
    }
    Ok(lists)
}

/// The indexed sets of each stored table: the views, then the complements.
pub(crate) fn indexes(alloc: Global, spec: &Spec) -> Result<IndexLists, NoMemory>
    ensures { IfOk result (λ lists. lists ≡ indexes spec.now) }
{
    let mut lists = view_indexes(alloc, spec)?.into_vec();
    let complements = complement_indexes(alloc, spec)?;
    lists.append(&mut complements.into_vec())?;
    Ok(IndexLists::from_vec(lists))
}
