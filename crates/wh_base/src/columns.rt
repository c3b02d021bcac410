ghost use Rattle.std.specs.Prelude.{◌≡◌, ◌++◌, List, ℕ, map, IfOk};
ghost use Rattle.wh_base.specs.Columns.{is_in, all_in, shared, others, names_of, place_of, value_at as value_in, picked};

use crate::memory::NoMemory;
use crate::sequence::{Duplicate, Sequence};
use crate::value::{Attr, Attrs, Name, Names, Places, Row, Value};
use std::alloc::Global;

/// What has a name: a name itself, or an attribute.
pub trait Named {
    ghost name_of: { Self → List ℕ };

    fn name(&self) -> &Name
        ensures { result.now ≡ name_of self.now };
}

impl Named for Name {
    ghost name_of = { λ name. name };

    fn name(&self) -> &Name {
        self
    }
}

impl Named for Attr {
    ghost name_of = { λ attr. attr.name };

    fn name(&self) -> &Name {
        &self.name
    }
}

/// Whether a name is among names.
pub fn is_in(names: &[Name], name: &Name) -> bool
    ensures { result ≡ is_in names.now name.now }
{
    names.iter().any(|other| name == other)
}

/// Whether each of some names is among the columns.
pub fn all_in(columns: &[Name], names: &[Name]) -> bool
    ensures { result ≡ all_in columns.now names.now }
{
    names.iter().all(|name| is_in(columns, name))
}

/// The names that both lists have, in the right one's order.
pub fn shared(alloc: Global, left: &[Name], right: &[Name]) -> Result<Names, NoMemory>
    ensures { IfOk result (λ names. names ≡ shared left.now right.now) }
{
    let mut names = Names::new(alloc);
    for name in right {
        if is_in(left, name) {
            names.push(name.copy(alloc)?)?;
        }
    }
    Ok(names)
}

/// The names that only the right list has, in its order.
pub fn others(alloc: Global, left: &[Name], right: &[Name]) -> Result<Names, NoMemory>
    ensures { IfOk result (λ names. names ≡ others left.now right.now) }
{
    let mut names = Names::new(alloc);
    for name in right {
        if !is_in(left, name) {
            names.push(name.copy(alloc)?)?;
        }
    }
    Ok(names)
}

/// The left names, and then the right ones.
pub fn append_names(alloc: Global, left: &[Name], right: &[Name]) -> Result<Names, NoMemory>
    ensures { IfOk result (λ names. names ≡ left.now ++ right.now) }
{
    let mut names = Names::new(alloc);
    for name in left {
        names.push(name.copy(alloc)?)?;
    }
    for name in right {
        names.push(name.copy(alloc)?)?;
    }
    Ok(names)
}

/// The names of attributes.
pub fn names_of(alloc: Global, attrs: &Attrs) -> Result<Names, NoMemory>
    ensures { IfOk result (λ names. names ≡ names_of attrs.now) }
{
    let mut names = Names::new(alloc);
    for attr in attrs.as_slice() {
        names.push(attr.name.copy(alloc)?)?;
    }
    Ok(names)
}

/// The place of a column, or the number of columns where none has the name.
pub fn place_of<N: Named>(columns: &[N], name: &Name) -> usize
    ensures { result ≡ place_of (map N.name_of columns.now) name.now }
{
    for (place, column) in columns.iter().enumerate() {
        if name == column.name() {
            return place;
        }
    }
    columns.len()
}

/// The places of names among columns.
pub fn places_of(alloc: Global, columns: &[Name], names: &[Name]) -> Result<Vec<usize>, NoMemory>
    ensures { IfOk result (λ places. places.items ≡ map (place_of columns.now) names.now) }
{
    let mut places = Vec::new(alloc);
    for name in names {
        places.push(place_of(columns, name))?;
    }
    Ok(places)
}

fn value_at(alloc: Global, row: &Row, place: usize) -> Result<Value, NoMemory>
    ensures { IfOk result (λ value. value ≡ value_in row.now place) }
{
    match row.get(place) {
        Some(value) => value.copy(alloc),
        None => Ok(Value::Int(0)),
    }
}

/// The values of a row at places. A place that the row lacks reads as 0.
pub fn pick_at(alloc: Global, row: &Row, places: &[usize]) -> Result<Row, NoMemory>
    ensures { IfOk result (λ values. values ≡ picked places.now row.now) }
{
    let mut values = Row::new(alloc);
    for place in places {
        values.push(value_at(alloc, row, *place)?)?;
    }
    Ok(values)
}

/// The values of a row at places. A place that the row lacks reads as 0.
pub fn pick(alloc: Global, r: &Row, places: &Places) -> Result<Row, NoMemory>
    ensures { IfOk result (λ row. row ≡ picked places.now r.now) }
{
    let mut row = Sequence::new(alloc);
    for place in places.as_slice() {
        row.push(value_at(alloc, r, *place as usize)?)?;
    }
    Ok(row)
}
