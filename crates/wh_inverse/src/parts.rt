//! Parts of rows and relations that look-ups need.
ghost use Rattle.std.specs.Prelude.{◌≡◌, ◌<◌, ◌≤◌, ◌-◌, ◌∷◌, [], ◌++◌, map, filter, unwrap_or, length, IfOk};
ghost use Rattle.std.specs.List.{position};
ghost use Rattle.wh_base.specs.Columns.{cut, picked};
ghost use Rattle.wh_base.specs.Tables.{project, with_columns, joined};
ghost use Rattle.wh_eval.specs.Relation.{table_of};
ghost use Rattle.wh_base.specs.Value.{row_eq};
ghost use Rattle.wh_expr.specs.Narrowed.{narrowed};
ghost use Rattle.wh_inverse.specs.Asked.{piece_numbered, has_one};
ghost use Rattle.wh_plan.specs.Expressions.{left_column};

use std::alloc::Global;
use wh_base::{Duplicate, Name, Names, NoMemory, Row, Rows, is_in, pick_at, place_of, places_of};
use wh_covers::Piece;
use wh_eval::{Relation, append};
use wh_schema::Inclusion;

/// The piece with a number, from 1.
pub(crate) fn piece_at(pieces: &[Piece], number: u32) -> &Piece
    requires low { 0 < number }
    requires high { number ≤ length pieces.now }
    ensures { result.now ≡ piece_numbered pieces.now number }
{
    &pieces[number as usize - 1]
}

fn has_one(names: &[Name], cols: &[Name]) -> bool
    ensures { result ≡ has_one cols.now names.now }
{
    cols.iter().any(|name| is_in(names, name))
}

fn has_one_at(pieces: &[Piece], number: u32, cols: &[Name]) -> bool
    ensures { result ≡ has_one cols.now (piece_numbered pieces.now number).attrs }
{
    let place = (number as usize).saturating_sub(1);
    match pieces.get(place) {
        Some(piece) => has_one(piece.attrs.as_slice(), cols),
        None => has_one(&[], cols),
    }
}

fn first_with(pieces: &[Piece], cover: &[u32], cols: &[Name]) -> Option<usize>
    ensures { result ≡ position (λ i. has_one cols.now (piece_numbered pieces.now i).attrs) cover.now }
{
    cover
        .iter()
        .position(|number| has_one_at(pieces, *number, cols))
}

/// The place in a cover of the first piece that has one of the columns, or 0.
pub(crate) fn first_place(pieces: &[Piece], cover: &[u32], cols: &[Name]) -> usize
    ensures { result ≡ unwrap_or (position (λ i. has_one cols.now (piece_numbered pieces.now i).attrs) cover.now) 0 }
{
    first_with(pieces, cover, cols).unwrap_or(0)
}

/// The row with these columns, cut to names.
pub(crate) fn cut(
    alloc: Global,
    columns: &[Name],
    names: &[Name],
    row: &Row,
) -> Result<Row, NoMemory>
    ensures { IfOk result (λ values. values ≡ cut columns.now names.now row.now) }
{
    let places = places_of(alloc, columns, names)?;
    pick_at(alloc, row, places.as_slice())
}

fn left_column(alloc: Global, inclusion: &Inclusion, target: &Name) -> Result<Name, NoMemory>
    ensures { IfOk result (λ name. name ≡ left_column inclusion.now target.now) }
{
    match inclusion
        .from_cols
        .get(place_of(inclusion.to_cols.as_slice(), target))
    {
        Some(name) => name.copy(alloc),
        None => Ok(Name::new(alloc)),
    }
}

/// The left columns that an inclusion has for right ones.
pub(crate) fn left_columns(
    alloc: Global,
    inclusion: &Inclusion,
    cols: &[Name],
) -> Result<Names, NoMemory>
    ensures { IfOk result (λ names. names ≡ map (left_column inclusion.now) cols.now) }
{
    let mut names = Names::new(alloc);
    for name in cols {
        names.push(left_column(alloc, inclusion, name)?)?;
    }
    Ok(names)
}

/// The rows at the left columns of an inclusion, under the right ones.
pub(crate) fn under_right(
    alloc: Global,
    relation: Relation,
    inclusion: &Inclusion,
) -> Result<Relation, NoMemory>
    ensures { IfOk result (λ r. table_of r ≡ with_columns inclusion.now.to_cols (project inclusion.now.from_cols (table_of relation))) }
{
    let cuts = relation.project(alloc, &inclusion.from_cols)?;
    Ok(Relation {
        columns: inclusion.to_cols.copy(alloc)?,
        rows: cuts.rows,
    })
}

/// The rows with these values at the columns.
pub(crate) fn narrow(
    alloc: Global,
    relation: Relation,
    cols: &Names,
    vals: &Row,
) -> Result<Relation, NoMemory>
    ensures { IfOk result (λ r. table_of r ≡ narrowed cols.now vals.now (table_of relation)) }
{
    let places = places_of(alloc, relation.columns.as_slice(), cols.as_slice())?;
    Ok(Relation {
        rows: rows_at(alloc, relation.rows, places.as_slice(), vals)?,
        columns: relation.columns,
    })
}

fn rows_at(alloc: Global, rows: Rows, places: &[usize], vals: &Row) -> Result<Rows, NoMemory>
    ensures { IfOk result (λ kept. kept ≡ filter (λ r. row_eq (picked places.now r) vals.now) rows) }
{
    let mut kept = Rows::new(alloc);
    for row in rows.into_vec() {
        if pick_at(alloc, &row, places)? == *vals {
            kept.push(row)?;
        }
    }
    Ok(kept)
}

fn one_row(alloc: Global, columns: &Names, row: &Row) -> Result<Relation, NoMemory>
    ensures { IfOk result (λ r. table_of r ≡ record { columns = columns.now; rows = row.now ∷ [] }) }
{
    let mut rows = Rows::new(alloc);
    rows.push(row.copy(alloc)?)?;
    Ok(Relation {
        columns: columns.copy(alloc)?,
        rows,
    })
}

/// The rows, and then the combined row of a row with each found one that agrees on all shared columns.
pub(crate) fn add_joined(
    alloc: Global,
    rows: Rows,
    columns: &Names,
    row: &Row,
    found: &Relation,
) -> Result<Rows, NoMemory>
    ensures { IfOk result (λ more. more ≡ rows ++ joined columns.now found.now.columns found.now.rows row.now) }
{
    let both = one_row(alloc, columns, row)?.join(alloc, found)?;
    append(rows, both.rows)
}
