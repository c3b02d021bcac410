//! The expressions of pieces.
ghost use Rattle.std.specs.Prelude.{◌≡◌, map, filter, IfOk};
ghost use Rattle.wh_covers.specs.Covers.{IsNumbered};
ghost use Rattle.wh_plan.specs.Expressions.{left_column, is_change, renamings, inclusion_expr, source_expr, piece_expr};
ghost use Rattle.wh_plan.specs.Held.{IsHeld};
ghost use Rattle.wh_schema.specs.declared.piece.PieceSource.TheVariants as source;

use crate::trees::{projected, renamed};
use std::alloc::Global;
use wh_base::{Duplicate, Name, Names, NoMemory, place_of};
use wh_covers::{Piece, PieceSource, inclusion_at};
use wh_expr::{Expr, Pairs, Renaming};
use wh_schema::{Inclusion, Spec};

/// The left column that an inclusion has for a right one.
fn left_column(alloc: Global, inclusion: &Inclusion, target: &Name) -> Result<Name, NoMemory>
    ensures { IfOk result (λ name. name ≡ left_column inclusion.now target.now) }
{
    match inclusion
        .from_cols
        .get(place_of(inclusion.to_cols.as_slice(), target))
    {
        Some(name) => name.copy(alloc),
        None => Ok(Name::new(alloc)),
    }
}

fn left_columns(alloc: Global, inclusion: &Inclusion, attrs: &[Name]) -> Result<Names, NoMemory>
    ensures { IfOk result (λ names. names ≡ map (left_column inclusion.now) attrs.now) }
{
    let mut names = Names::new(alloc);
    for attr in attrs {
        names.push(left_column(alloc, inclusion, attr)?)?;
    }
    Ok(names)
}

fn is_change(renaming: &Renaming) -> bool
    ensures { result ≡ is_change renaming.now }
{
    renaming.from != renaming.to
}

/// The renamings of left columns to the attributes of a piece, where the names differ.
fn changes(alloc: Global, inclusion: &Inclusion, attrs: &[Name]) -> Result<Pairs, NoMemory>
    ensures { IfOk result (λ pairs. pairs ≡ filter is_change (renamings inclusion.now attrs.now)) }
{
    let mut pairs = Pairs::new(alloc);
    for attr in attrs {
        let renaming = Renaming {
            from: left_column(alloc, inclusion, attr)?,
            to: attr.copy(alloc)?,
        };
        if is_change(&renaming) {
            pairs.push(renaming)?;
        }
    }
    Ok(pairs)
}

fn inclusion_expr(alloc: Global, inclusion: &Inclusion, attrs: &[Name]) -> Result<Expr, NoMemory>
    ensures { IfOk result (λ e. e ≡ inclusion_expr inclusion.now attrs.now) }
{
    let names = left_columns(alloc, inclusion, attrs)?;
    let pairs = changes(alloc, inclusion, attrs)?;
    let cut = projected(alloc, names, Expr::Base(inclusion.from))?;
    renamed(alloc, pairs, cut)
}

fn view_piece_expr(alloc: Global, spec: &Spec, number: u32, attrs: &Names) -> Result<Expr, NoMemory>
    requires numbered { IsNumbered spec.now }
    requires held { IsHeld spec.now (source.View number) }
    ensures { IfOk result (λ e. e ≡ source_expr spec.now attrs.now (source.View number)) }
{
    let first = spec.relations.len() as u32;
    projected(alloc, attrs.copy(alloc)?, Expr::Base(first + number))
}

/// The expression of a piece: its view projected, or the left relation of its inclusion projected and renamed.
pub(crate) fn piece_expr(alloc: Global, spec: &Spec, piece: &Piece) -> Result<Expr, NoMemory>
    requires numbered { IsNumbered spec.now }
    requires held { IsHeld spec.now piece.now.source }
    ensures { IfOk result (λ e. e ≡ piece_expr spec.now piece.now) }
{
    match piece.source {
        PieceSource::View(number) => view_piece_expr(alloc, spec, number, &piece.attrs),
        PieceSource::Inclusion(number) => {
            inclusion_expr(alloc, inclusion_at(spec, number), piece.attrs.as_slice())
        }
    }
}
