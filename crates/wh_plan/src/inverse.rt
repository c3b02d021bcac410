//! The expressions of views, covers and inverses.
ghost use Rattle.std.specs.Prelude.{◌≡◌, ◌<◌, ◌≤◌, ◌-◌, ◌^◌, map, length, get_or, IfOk};
ghost use Rattle.std.specs.List.{list_all};
ghost use Rattle.wh_covers.specs.Covers.{IsNumbered};
ghost use Rattle.wh_expr.specs.declared.expr.Expr.TheVariants as expr;
ghost use Rattle.wh_plan.specs.Expressions.{view_expr, piece_expr, joined_names, join_exprs, arranged_expr, cover_expr, complement_number, inverse_expr, comes_from_view, key_probes};
ghost use Rattle.wh_plan.specs.Held.{AreHeld, AreNumbers};
ghost use Rattle.wh_plan.specs.Plan.{relation_covers};
ghost use Rattle.wh_schema.specs.Warehouse.{pieces as pieces_of, pieces_at, no_piece, numbers};

use crate::pieces::piece_expr;
use crate::plan::Exprs;
use crate::trees::{join_exprs, projected, selected, united};
use std::alloc::Global;
use wh_base::{Cond, Duplicate, Names, NoMemory, append_names, names_of, others};
use wh_covers::{CoverList, Piece, PieceSource, Pieces, relation_at, view_at};
use wh_expr::Expr;
use wh_schema::Spec;

fn bases(alloc: Global, relations: &[u32]) -> Result<Vec<Expr>, NoMemory>
    ensures { IfOk result (λ exprs. exprs.items ≡ map (λ i. expr.Base i) relations.now) }
{
    let mut exprs = Vec::new(alloc);
    for relation in relations {
        exprs.push(Expr::Base(*relation))?;
    }
    Ok(exprs)
}

fn joined_bases(alloc: Global, relations: &[u32]) -> Result<Expr, NoMemory>
    ensures { IfOk result (λ e. e ≡ join_exprs (map (λ i. expr.Base i) relations.now)) }
{
    let exprs = bases(alloc, relations)?;
    join_exprs(alloc, exprs)
}

fn chosen(alloc: Global, cond: &Cond, relations: &[u32]) -> Result<Expr, NoMemory>
    ensures { IfOk result (λ e. e ≡ expr.Select cond.now (join_exprs (map (λ i. expr.Base i) relations.now))) }
{
    let cond = cond.copy(alloc)?;
    let all = joined_bases(alloc, relations)?;
    selected(alloc, cond, all)
}

fn view_expr(alloc: Global, spec: &Spec, number: u32) -> Result<Expr, NoMemory>
    requires { number < length spec.now.views }
    ensures { IfOk result (λ e. e ≡ view_expr spec.now number) }
{
    let view = view_at(spec, number);
    let head = view.head.copy(alloc)?;
    let chosen = chosen(alloc, &view.cond, view.relations.as_slice())?;
    projected(alloc, head, chosen)
}

/// The expression of each view.
pub(crate) fn view_exprs(alloc: Global, spec: &Spec) -> Result<Exprs, NoMemory>
    requires { IsNumbered spec.now }
    ensures { IfOk result (λ exprs. exprs ≡ map (view_expr spec.now) (numbers (length spec.now.views))) }
{
    let mut exprs = Exprs::new(alloc);
    for number in 0..spec.views.len() as u32 {
        exprs.push(view_expr(alloc, spec, number)?)?;
    }
    Ok(exprs)
}

fn piece_at(pieces: &[Piece], number: u32) -> &Piece
    requires low { 0 < number }
    requires high { number ≤ length pieces.now }
    ensures { result.now ≡ get_or pieces.now (number - 1) no_piece }
{
    &pieces[number as usize - 1]
}

fn piece_exprs(
    alloc: Global,
    spec: &Spec,
    pieces: &[Piece],
    cover: &[u32],
) -> Result<Vec<Expr>, NoMemory>
    requires numbered { IsNumbered spec.now }
    requires held { AreHeld spec.now pieces.now }
    requires numbers { AreNumbers (length pieces.now) cover.now }
    ensures { IfOk result (λ exprs. exprs.items ≡ map (piece_expr spec.now) (pieces_at pieces.now cover.now)) }
{
    let mut exprs = Vec::new(alloc);
    for number in cover {
        exprs.push(piece_expr(alloc, spec, piece_at(pieces, *number))?)?;
    }
    Ok(exprs)
}

/// The attributes of the join of some pieces.
fn joined_names(alloc: Global, pieces: &[Piece], cover: &[u32]) -> Result<Names, NoMemory>
    requires { AreNumbers (length pieces.now) cover.now }
    ensures { IfOk result (λ names. names ≡ joined_names (pieces_at pieces.now cover.now)) }
{
    let mut names = Names::new(alloc);
    for number in cover {
        let attrs = piece_at(pieces, *number).attrs.as_slice();
        let more = others(alloc, names.as_slice(), attrs)?;
        names = append_names(alloc, names.as_slice(), more.as_slice())?;
    }
    Ok(names)
}

fn arranged(alloc: Global, columns: &Names, names: &Names, e: Expr) -> Result<Expr, NoMemory>
    ensures { IfOk result (λ arranged. arranged ≡ arranged_expr columns.now names.now e) }
{
    if *names == *columns {
        Ok(e)
    } else {
        projected(alloc, columns.copy(alloc)?, e)
    }
}

fn cover_expr(
    alloc: Global,
    spec: &Spec,
    columns: &Names,
    pieces: &[Piece],
    cover: &[u32],
) -> Result<Expr, NoMemory>
    requires numbered { IsNumbered spec.now }
    requires held { AreHeld spec.now pieces.now }
    requires numbers { AreNumbers (length pieces.now) cover.now }
    ensures { IfOk result (λ e. e ≡ cover_expr spec.now columns.now (pieces_at pieces.now cover.now)) }
{
    let names = joined_names(alloc, pieces, cover)?;
    let all = join_exprs(alloc, piece_exprs(alloc, spec, pieces, cover)?)?;
    arranged(alloc, columns, &names, all)
}

fn complement_number(spec: &Spec, relation: u32) -> u32
    requires numbered { IsNumbered spec.now }
    requires relation { relation < length spec.now.relations }
    ensures { result ≡ complement_number spec.now relation }
{
    spec.relations.len() as u32 + spec.views.len() as u32 + relation
}

/// The complement of a relation, and its covers.
pub(crate) fn inverse_expr(
    alloc: Global,
    spec: &Spec,
    relation: u32,
    pieces: &Pieces,
    covers: &CoverList,
) -> Result<Expr, NoMemory>
    requires numbered { IsNumbered spec.now }
    requires relation { relation < length spec.now.relations }
    requires pieces { pieces.now ≡ pieces_of spec.now relation }
    requires covers { covers.now ≡ relation_covers spec.now relation }
    ensures { IfOk result (λ e. e ≡ inverse_expr spec.now relation) }
{
    let columns = names_of(alloc, &relation_at(spec, relation).attrs)?;
    let mut inverse = Expr::Base(complement_number(spec, relation));
    for cover in covers.as_slice() {
        let more = cover_expr(alloc, spec, &columns, pieces.as_slice(), cover.as_slice())?;
        inverse = united(alloc, inverse, more)?;
    }
    Ok(inverse)
}

fn comes_from_view(piece: &Piece) -> bool
    ensures { result ≡ comes_from_view piece.now }
{
    match piece.source {
        PieceSource::View(_) => true,
        PieceSource::Inclusion(_) => false,
    }
}

fn all_come_from_views(pieces: &[Piece]) -> bool
    ensures { result ≡ list_all comes_from_view pieces.now }
{
    pieces.iter().all(|piece| comes_from_view(piece))
}

/// How many look-ups find a row by its key, where no piece comes from an inclusion.
pub(crate) fn key_probes(pieces: &Pieces) -> Option<u64>
    requires { length pieces.now < 2 ^ 32 }
    ensures { result ≡ key_probes pieces.now }
{
    if all_come_from_views(pieces.as_slice()) {
        Some(pieces.len() as u64 + 1)
    } else {
        None
    }
}
