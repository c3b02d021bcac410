//! Look-ups through pieces and covers, by the place of the relation in the order of reconstruction.
ghost use Rattle.std.specs.Prelude.{◌≡◌, ◌<◌, ◌≤◌, length, get_or, ◌+◌, [], IsTrue, IfOk, Contains};
ghost use Rattle.wh_base.specs.Columns.{all_in};
ghost use Rattle.wh_base.specs.RowSet.{IsSetOf};
ghost use Rattle.wh_base.specs.Tables.{join, matching};
ghost use Rattle.wh_eval.specs.Evaluates.{Evaluates};
ghost use Rattle.wh_eval.specs.Relation.{table_of};
ghost use Rattle.wh_expr.specs.Narrowed.{narrowed};
ghost use Rattle.wh_expr.specs.SameTable.{SameTable};
ghost use Rattle.wh_inverse.specs.Asked.{AreAsked, key_columns, cover_table};
ghost use Rattle.wh_inverse.specs.Inverse.{back, stored_below};
ghost use Rattle.wh_plan.specs.Plan.{relation_covers};
ghost use Rattle.wh_schema.specs.Reconstruction.{reconstructed};
ghost use Rattle.wh_schema.specs.Warehouse.{columns_of, view_at as view_in, pieces, piece_table, pieces_at};

use crate::inverse::Inverse;
use crate::parts::{add_joined, cut, first_place, left_columns, narrow, piece_at, under_right};
use crate::planned::{complement_number, covers_of, pieces_of, view_number};
use std::alloc::Global;
use wh_base::{
    Duplicate, Names, NoMemory, Row, Rows, append_names, distinct_rows, names_of, others, shared,
};
use wh_covers::{Piece, PieceSource, inclusion_at, relation_at, view_at};
use wh_eval::{Base, Relation, append};
use wh_steps::{Ledger, Steps};

/// The rows of a view with these values at the columns.
fn found_in_view<B: Base, L: Ledger>(
    alloc: Global,
    inverse: &Inverse<'_, B>,
    view: u32,
    cols: &Names,
    vals: &Row,
    steps: &mut Steps<L>,
) -> Result<Relation, NoMemory>
    requires view { view < length inverse.now.plan.now.spec.views }
    requires asked { AreAsked (view_in inverse.now.plan.now.spec view).head cols.now vals.now }
    ensures rows { IfOk result (λ r. SameTable (table_of r) (narrowed cols.now vals.now ((back inverse.now.plan.now.spec (B.rows_at inverse.now.below.now)).view view))) }
    ensures probes { steps.old.probes ≤ steps.new.probes }
    ensures scans { steps.new.scans ≡ steps.old.scans }
{
    let spec = &inverse.plan.spec;
    let number = view_number(spec, view);
    let rows = inverse.below.rows_where(alloc, number, cols, vals, steps)?;
    Ok(Relation {
        columns: view_at(spec, view).head.copy(alloc)?,
        rows,
    })
}

/// The rows of the complement of a relation with these values at the columns.
fn found_in_complement<B: Base, L: Ledger>(
    alloc: Global,
    inverse: &Inverse<'_, B>,
    rel: u32,
    cols: &Names,
    vals: &Row,
    steps: &mut Steps<L>,
) -> Result<Rows, NoMemory>
    requires relation { rel < length inverse.now.plan.now.spec.relations }
    requires asked { AreAsked (columns_of inverse.now.plan.now.spec rel) cols.now vals.now }
    ensures rows { IfOk result (λ rows. IsSetOf rows (matching (columns_of inverse.now.plan.now.spec rel) cols.now vals.now (get_or (stored_below inverse.now.plan.now.spec (B.rows_at inverse.now.below.now)) (length inverse.now.plan.now.spec.views + rel) []))) }
    ensures probes { steps.old.probes ≤ steps.new.probes }
    ensures scans { steps.new.scans ≡ steps.old.scans }
{
    let number = complement_number(&inverse.plan.spec, rel);
    inverse.below.rows_where(alloc, number, cols, vals, steps)
}

/// The rows of a relation with these values at the columns.
#[cycle(walk)]
pub(crate) fn found_at<B: Base, L: Ledger>(
    alloc: Global,
    inverse: &Inverse<'_, B>,
    rel: u32,
    cols: &Names,
    vals: &Row,
    steps: &mut Steps<L>,
) -> Result<Relation, NoMemory>
    requires relation { rel < length inverse.now.plan.now.spec.relations }
    requires asked { AreAsked (columns_of inverse.now.plan.now.spec rel) cols.now vals.now }
    ensures rows { IfOk result (λ r. Evaluates r (narrowed cols.now vals.now ((back inverse.now.plan.now.spec (B.rows_at inverse.now.below.now)).relation rel))) }
    ensures probes { steps.old.probes ≤ steps.new.probes }
    ensures scans { steps.new.scans ≡ steps.old.scans }
{
    let relation = relation_at(&inverse.plan.spec, rel);
    let columns = names_of(alloc, &relation.attrs)?;
    let key = shared(alloc, relation.key.as_slice(), columns.as_slice())?;
    let mut rows = found_in_complement(alloc, inverse, rel, cols, vals, steps)?;
    for cover in covers_of(inverse, rel) {
        let numbers = cover.as_slice();
        let found = found_in_cover(
            alloc, inverse, rel, &columns, &key, numbers, cols, vals, steps,
        )?;
        rows = append(rows, found.rows)?;
    }
    Ok(Relation {
        columns,
        rows: distinct_rows(alloc, rows)?,
    })
}

/// The rows of the join of a cover's pieces with these values at the columns. The first piece that has one of the columns is asked
/// at those that it has, and each other piece at the key.
#[cycle(walk)]
fn found_in_cover<B: Base, L: Ledger>(
    alloc: Global,
    inverse: &Inverse<'_, B>,
    rel: u32,
    head: &Names,
    key: &Names,
    cover: &[u32],
    cols: &Names,
    vals: &Row,
    steps: &mut Steps<L>,
) -> Result<Relation, NoMemory>
    requires relation { rel < length inverse.now.plan.now.spec.relations }
    requires head { head.now ≡ columns_of inverse.now.plan.now.spec rel }
    requires key { key.now ≡ key_columns inverse.now.plan.now.spec rel }
    requires cover { Contains (relation_covers inverse.now.plan.now.spec rel) cover.now }
    requires asked { AreAsked (columns_of inverse.now.plan.now.spec rel) cols.now vals.now }
    ensures rows { IfOk result (λ r. SameTable (table_of r) (narrowed cols.now vals.now (cover_table inverse.now.plan.now.spec (back inverse.now.plan.now.spec (B.rows_at inverse.now.below.now)) rel (pieces_at (pieces inverse.now.plan.now.spec rel) cover.now)))) }
    ensures probes { steps.old.probes ≤ steps.new.probes }
    ensures scans { steps.new.scans ≡ steps.old.scans }
{
    let pieces = pieces_of(inverse, rel);
    let at = first_place(pieces, cover, cols.as_slice());
    let first = piece_at(pieces, cover[at]);
    let own = shared(alloc, first.attrs.as_slice(), cols.as_slice())?;
    let known = cut(alloc, cols.as_slice(), own.as_slice(), vals)?;
    let mut joined = found_in_piece(alloc, inverse, rel, first, &own, &known, steps)?;
    for (place, number) in cover.iter().enumerate() {
        if place != at {
            let piece = piece_at(pieces, *number);
            joined = joined_by_key(alloc, inverse, rel, key, &joined, piece, steps)?;
        }
    }
    narrow(alloc, joined.project(alloc, head)?, cols, vals)
}

/// The join of some rows with a piece, which is looked up at the key of each of them.
#[cycle(walk)]
fn joined_by_key<B: Base, L: Ledger>(
    alloc: Global,
    inverse: &Inverse<'_, B>,
    rel: u32,
    key: &Names,
    left: &Relation,
    piece: &Piece,
    steps: &mut Steps<L>,
) -> Result<Relation, NoMemory>
    requires relation { rel < length inverse.now.plan.now.spec.relations }
    requires key { key.now ≡ key_columns inverse.now.plan.now.spec rel }
    requires left { IsTrue (all_in left.now.columns key.now) }
    requires piece { Contains (pieces inverse.now.plan.now.spec rel) piece.now }
    ensures rows { IfOk result (λ r. SameTable (table_of r) (join (table_of left.now) (piece_table inverse.now.plan.now.spec (back inverse.now.plan.now.spec (B.rows_at inverse.now.below.now)) piece.now))) }
    ensures probes { steps.old.probes ≤ steps.new.probes }
    ensures scans { steps.new.scans ≡ steps.old.scans }
{
    let mut rows = Rows::new(alloc);
    for row in left.rows.as_slice() {
        let values = cut(alloc, left.columns.as_slice(), key.as_slice(), row)?;
        let found = found_in_piece(alloc, inverse, rel, piece, key, &values, steps)?;
        rows = add_joined(alloc, rows, &left.columns, row, &found)?;
    }
    let more = others(alloc, left.columns.as_slice(), piece.attrs.as_slice())?;
    Ok(Relation {
        columns: append_names(alloc, left.columns.as_slice(), more.as_slice())?,
        rows: distinct_rows(alloc, rows)?,
    })
}

/// The rows of a piece with these values at the columns.
#[cycle(walk)]
fn found_in_piece<B: Base, L: Ledger>(
    alloc: Global,
    inverse: &Inverse<'_, B>,
    rel: u32,
    piece: &Piece,
    cols: &Names,
    vals: &Row,
    steps: &mut Steps<L>,
) -> Result<Relation, NoMemory>
    requires relation { rel < length inverse.now.plan.now.spec.relations }
    requires piece { Contains (pieces inverse.now.plan.now.spec rel) piece.now }
    requires asked { AreAsked piece.now.attrs cols.now vals.now }
    ensures rows { IfOk result (λ r. SameTable (table_of r) (narrowed cols.now vals.now (piece_table inverse.now.plan.now.spec (back inverse.now.plan.now.spec (B.rows_at inverse.now.below.now)) piece.now))) }
    ensures probes { steps.old.probes ≤ steps.new.probes }
    ensures scans { steps.new.scans ≡ steps.old.scans }
{
    match piece.source {
        PieceSource::View(view) => {
            let found = found_in_view(alloc, inverse, view, cols, vals, steps)?;
            found.project(alloc, &piece.attrs)
        }
        PieceSource::Inclusion(number) => {
            let inclusion = inclusion_at(&inverse.plan.spec, number);
            let left = left_columns(alloc, inclusion, cols.as_slice())?;
            let found = found_at(alloc, inverse, inclusion.from, &left, vals, steps)?;
            under_right(alloc, found, inclusion)?.project(alloc, &piece.attrs)
        }
    }
}

/// Each row of a relation with these values at the columns once.
pub(crate) fn relation_where<B: Base, L: Ledger>(
    alloc: Global,
    inverse: &Inverse<'_, B>,
    rel: u32,
    cols: &Names,
    vals: &Row,
    steps: &mut Steps<L>,
) -> Result<Rows, NoMemory>
    requires relation { rel < length inverse.now.plan.now.spec.relations }
    requires asked { AreAsked (columns_of inverse.now.plan.now.spec rel) cols.now vals.now }
    ensures rows { IfOk result (λ rows. IsSetOf rows (matching (columns_of inverse.now.plan.now.spec rel) cols.now vals.now (get_or (reconstructed inverse.now.plan.now.spec (stored_below inverse.now.plan.now.spec (B.rows_at inverse.now.below.now))) rel []))) }
    ensures probes { steps.old.probes ≤ steps.new.probes }
    ensures scans { steps.new.scans ≡ steps.old.scans }
{
    Ok(found_at(alloc, inverse, rel, cols, vals, steps)?.rows)
}
