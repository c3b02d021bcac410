ghost use Rattle.std.specs.Prelude.{◌≡◌, ◌<◌, ◌++◌, nat_eq, length, map, filter, IfOk};
ghost use Rattle.std.specs.List.{list_any};
ghost use Rattle.wh_covers.specs.Covers.{IsNumbered};
ghost use Rattle.wh_schema.specs.Warehouse.{pieces as pieces_of, columns_of, is_usable_view, is_usable_inclusion, view_piece, inclusion_piece, numbers};

use crate::parts::{inclusion_at, relation_at, view_at};
use std::alloc::Global;
use wh_base::{Names, NoMemory, Sequence, all_in, names_of, shared};
use wh_schema::{Piece, PieceSource, Spec};

pub type Pieces = Sequence<Piece>;

/// The pieces of each relation.
pub type PieceLists = Sequence<Pieces>;

fn has_member(members: &[u32], rel: u32) -> bool
    ensures { result ≡ list_any (nat_eq rel) members.now }
{
    members.iter().any(|member| rel == *member)
}

/// Whether the view has the relation and keeps its key.
fn is_usable_view(spec: &Spec, rel: u32, number: u32) -> bool
    requires relation { rel < length spec.now.relations }
    requires view { number < length spec.now.views }
    ensures { result ≡ is_usable_view spec.now rel number }
{
    let view = view_at(spec, number);
    let key = relation_at(spec, rel).key.as_slice();
    has_member(view.relations.as_slice(), rel) && all_in(view.head.as_slice(), key)
}

/// Whether the inclusion leads into the relation and its right columns have the key.
fn is_usable_inclusion(spec: &Spec, rel: u32, number: u32) -> bool
    requires relation { rel < length spec.now.relations }
    requires inclusion { number < length spec.now.inclusions }
    ensures { result ≡ is_usable_inclusion spec.now rel number }
{
    let inclusion = inclusion_at(spec, number);
    let key = relation_at(spec, rel).key.as_slice();
    inclusion.to == rel && all_in(inclusion.to_cols.as_slice(), key)
}

fn view_piece(
    alloc: Global,
    spec: &Spec,
    rel: u32,
    number: u32,
    columns: &Names,
) -> Result<Piece, NoMemory>
    requires view { number < length spec.now.views }
    requires columns { columns.now ≡ columns_of spec.now rel }
    ensures { IfOk result (λ piece. piece ≡ view_piece spec.now rel number) }
{
    let head = view_at(spec, number).head.as_slice();
    Ok(Piece {
        source: PieceSource::View(number),
        attrs: shared(alloc, head, columns.as_slice())?,
    })
}

fn inclusion_piece(
    alloc: Global,
    spec: &Spec,
    rel: u32,
    number: u32,
    columns: &Names,
) -> Result<Piece, NoMemory>
    requires inclusion { number < length spec.now.inclusions }
    requires columns { columns.now ≡ columns_of spec.now rel }
    ensures { IfOk result (λ piece. piece ≡ inclusion_piece spec.now rel number) }
{
    let to_cols = inclusion_at(spec, number).to_cols.as_slice();
    Ok(Piece {
        source: PieceSource::Inclusion(number),
        attrs: shared(alloc, to_cols, columns.as_slice())?,
    })
}

/// The pieces from usable views.
fn view_pieces(alloc: Global, spec: &Spec, rel: u32, columns: &Names) -> Result<Pieces, NoMemory>
    requires numbered { IsNumbered spec.now }
    requires relation { rel < length spec.now.relations }
    requires columns { columns.now ≡ columns_of spec.now rel }
    ensures { IfOk result (λ pieces. pieces ≡ map (view_piece spec.now rel) (filter (is_usable_view spec.now rel) (numbers (length spec.now.views)))) }
{
    let mut pieces = Pieces::new(alloc);
    for number in 0..spec.views.len() as u32 {
        if is_usable_view(spec, rel, number) {
            pieces.push(view_piece(alloc, spec, rel, number, columns)?)?;
        }
    }
    Ok(pieces)
}

/// Appends the pieces from usable inclusions.
fn add_inclusion_pieces(
    alloc: Global,
    spec: &Spec,
    rel: u32,
    columns: &Names,
    others: Pieces,
) -> Result<Pieces, NoMemory>
    requires numbered { IsNumbered spec.now }
    requires relation { rel < length spec.now.relations }
    requires columns { columns.now ≡ columns_of spec.now rel }
    ensures { IfOk result (λ pieces. pieces ≡ others ++ map (inclusion_piece spec.now rel) (filter (is_usable_inclusion spec.now rel) (numbers (length spec.now.inclusions)))) }
{
    let mut pieces = others;
    for number in 0..spec.inclusions.len() as u32 {
        if is_usable_inclusion(spec, rel, number) {
            pieces.push(inclusion_piece(alloc, spec, rel, number, columns)?)?;
        }
    }
    Ok(pieces)
}

/// The pieces of a relation: the usable views, then the usable inclusions, each in declared order.
pub fn pieces(alloc: Global, spec: &Spec, rel: u32) -> Result<Pieces, NoMemory>
    requires numbered { IsNumbered spec.now }
    requires relation { rel < length spec.now.relations }
    ensures { IfOk result (λ pieces. pieces ≡ pieces_of spec.now rel) }
{
    let columns = names_of(alloc, &relation_at(spec, rel).attrs)?;
    let from_views = view_pieces(alloc, spec, rel, &columns)?;
    add_inclusion_pieces(alloc, spec, rel, &columns, from_views)
}
