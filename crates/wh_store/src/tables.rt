// The rules of stored tables, and changes of them.
ghost use Rattle.std.specs.Prelude.{◌≡◌, true, if◌then◌else◌, length, nat_lt, Some, None, IfOk, IfSome};
ghost use Rattle.std.specs.Cmp.Lexicographic.{pointwise};
ghost use Rattle.std.specs.List.{list_all, list_any, position, AllByRecursion};
ghost use Rattle.std.specs.Option.{option_map};
ghost use Rattle.wh_base.specs.Heads.{attrs_at};
ghost use Rattle.wh_base.specs.RowSet.{has};
ghost use Rattle.wh_base.specs.Value.{row_kinds, value_kind, kinds};
ghost use Rattle.wh_codec.specs.Body.{IsSpelledDelta};
ghost use Rattle.wh_expr.specs.Typing.{kind_eq};
ghost use Rattle.wh_store.specs.Image.{fit_attrs, first_over, row_limit, are_stored_tables, applies, changed_tables, are_stored_deltas};
ghost use Rattle.wh_store.specs.Opening.{stored_heads, fit_heads, takes, all_take, ordered_rows, AreSoundTables};

use crate::changes::change_all;
use std::alloc::Global;
use wh_base::{Attr, Delta, Head, Heads, Kind, NoMemory, Row, Rows, StoredDeltas, Value};
use wh_plan::Plan;
use wh_schema::{Spec, heads};
use wh_table::{Table, Tables};

/// The most rows that a stored table may have.
pub(crate) const ROW_LIMIT: usize = 4_000_000;

/// The first table with too many rows.
pub(crate) fn first_over(tables: &[Rows]) -> Option<usize>
    ensures { result ≡ first_over tables.now }
{
    tables.iter().position(|rows| rows.len() > ROW_LIMIT)
}

fn has_kind(value: &Value, kind: Kind) -> bool
    ensures { result ≡ kind_eq (value_kind value.now) kind }
{
    match (value, kind) {
        (Value::Int(_), Kind::Int) | (Value::Text(_), Kind::Text) => true,
        _ => false,
    }
}

fn fits_attrs(attrs: &[Attr], row: &[Value]) -> bool
    ensures { result ≡ pointwise kind_eq (row_kinds row.now) (kinds attrs.now) }
{
    match (attrs, row) {
        ([], []) => true,
        ([attr, attrs @ ..], [value, values @ ..]) => {
            has_kind(value, attr.kind) && fits_attrs(attrs, values)
        }
        _ => false,
    }
}

// Whether the values of each row have the kinds of the attributes.
fn fit_attrs(attrs: &[Attr], rows: &[Row]) -> bool
    ensures { result ≡ fit_attrs attrs.now rows.now }
{
    rows.iter().all(|row| fits_attrs(attrs, row.as_slice()))
}

/// The attributes of a number.
pub(crate) fn attrs_at(heads: &[Head], n: usize) -> &[Attr]
    ensures { result.now ≡ attrs_at heads.now n }
{
    match heads.get(n) {
        Some(head) => head.attrs.as_slice(),
        None => &[],
    }
}

/// The heads of the stored tables.
#[tactic(auto, using(crate::proofs::StoredLemmas::heads_split, crate::proofs::StoredLemmas::heads_enough))]
pub(crate) fn stored_heads(alloc: Global, spec: &Spec) -> Result<Heads, NoMemory>
    ensures { IfOk result (λ stored. stored ≡ stored_heads spec.now) }
{
    let mut all = heads(alloc, spec)?.into_vec();
    let stored = all.split_off(spec.relations.len())?;
    Ok(Heads::from_vec(stored))
}

// Whether there is one table for each head, of its kinds.
fn fit_heads(stored: &[Head], tables: &[Rows]) -> bool
    ensures { result ≡ fit_heads stored.now tables.now }
{
    if tables.len() != stored.len() {
        return false;
    }
    for k in 0..stored.len() {
        if !fit_attrs(attrs_at(stored, k), tables[k].as_slice()) {
            return false;
        }
    }
    true
}

// Whether a table has all of some rows.
fn has_all(table: &Table, sought: &[Row]) -> bool
    ensures { result ≡ list_all (has table.now.rows) sought.now }
{
    sought.iter().all(|row| table.contains(row))
}

// Whether a table has one of some rows.
fn has_any(table: &Table, sought: &[Row]) -> bool
    ensures { result ≡ list_any (has table.now.rows) sought.now }
{
    sought.iter().any(|row| table.contains(row))
}

// Whether the deleted rows are in a table and the inserted ones are not.
fn applies(table: &Table, delta: &Delta) -> bool
    ensures { result ≡ applies table.now.rows delta.now }
{
    has_all(table, delta.deleted.as_slice()) && !has_any(table, delta.inserted.as_slice())
}

// Whether a table takes a delta. It costs the delta's rows alone.
fn takes(attrs: &[Attr], table: &Table, delta: &Delta) -> bool
    ensures { result ≡ takes attrs.now table.now.rows delta.now }
{
    applies(table, delta) && fit_attrs(attrs, delta.inserted.as_slice())
}

// Whether there is one delta for each table, which the table takes.
fn all_take(stored: &[Head], tables: &[Table], deltas: &[Delta]) -> bool
    ensures { result ≡ all_take stored.now (ordered_rows tables.now) deltas.now }
{
    if deltas.len() != tables.len() {
        return false;
    }
    for k in 0..tables.len() {
        if !takes(attrs_at(stored, k), &tables[k], &deltas[k]) {
            return false;
        }
    }
    true
}

// The first table that has too many rows.
fn first_full(tables: &[Table]) -> Option<usize>
    ensures { result ≡ position (λ t. nat_lt row_limit (length t.rows)) tables.now }
{
    tables.iter().position(|table| table.len() > ROW_LIMIT)
}

/// Whether there is one table for each that is stored, of its kinds and with few enough rows.
#[tactic(auto, using(crate::proofs::StoredLemmas::fit_heads_is))]
pub(crate) fn are_stored_tables(spec: &Spec, stored: &[Head], tables: &[Rows]) -> bool
    requires { stored.now ≡ stored_heads spec.now }
    ensures { result ≡ are_stored_tables spec.now tables.now }
{
    fit_heads(stored, tables) && first_over(tables).is_none()
}

/// The tables after a change, or None where it breaks a rule. A table that has no row in the change is not touched.
pub(crate) fn next_tables(
    alloc: Global,
    plan: &Plan,
    stored: &[Head],
    tables: Tables,
    deltas: StoredDeltas,
) -> Result<Option<Tables>, NoMemory>
    requires stored { stored.now ≡ stored_heads plan.now.spec }
    requires sound { AreSoundTables plan.now stored.now tables }
    requires spelled { AllByRecursion IsSpelledDelta deltas }
    ensures tables { IfOk result (λ next. option_map ordered_rows next ≡ (if are_stored_deltas plan.now.spec (ordered_rows tables) deltas then Some (changed_tables (ordered_rows tables) deltas) else None)) }
    ensures sound { IfOk result (λ next. IfSome next (AreSoundTables plan.now stored.now)) }
{
    if !all_take(stored, tables.as_slice(), deltas.as_slice()) {
        return Ok(None);
    }
    let tables = change_all(alloc, tables, deltas)?;
    if first_full(tables.as_slice()).is_some() {
        return Ok(None);
    }
    Ok(Some(tables))
}
