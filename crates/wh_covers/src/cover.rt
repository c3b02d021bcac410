ghost use Rattle.std.specs.Prelude.{◌≡◌, ◌≤◌, ◌<◌, ◌-◌, ◌^◌, ◌++◌, false, length, map, filter, get_or, IfOk, OnOk, IfErr};
ghost use Rattle.wh_covers.specs.Covers.{IsCoverFault, holders_of, has_flag, has_all, needs_each, is_least};
ghost use Rattle.wh_schema.specs.Warehouse.{cover_numbers};

use crate::piece::Pieces;
use crate::subset::subsets;
use std::alloc::Global;
use wh_base::{Name, Names, NoMemory, Places, Sequence, is_in};
use wh_schema::Piece;

/// The covers of one relation, each as the numbers of its pieces, from 1.
pub type CoverList = Sequence<Places>;

/// The covers of each relation.
pub type CoverLists = Sequence<CoverList>;

/// The most pieces that a relation may have.
pub const MAX_PIECES: usize = 12;

#[derive(Clone, Copy, Debug, PartialEq, Eq)]
pub enum CoverFault {
    TooManyPieces { count: u32 },
    NoMemory,
}

impl From<NoMemory> for CoverFault {
    ghost use Rattle.wh_covers.specs.declared.cover.CoverFault.TheVariants as fault;
    ghost use Rattle.std.specs.Prelude.{◌≡◌};

    ghost from_gives = { λ _ e. e ≡ fault.NoMemory };

    fn from(_error: NoMemory) -> CoverFault {
        CoverFault::NoMemory
    }
}

/// Of one name, for each piece whether it has the name.
type Flags = Sequence<bool>;

fn holders_of(alloc: Global, pieces: &[Piece], name: &Name) -> Result<Flags, NoMemory>
    ensures { IfOk result (λ flags. flags ≡ holders_of pieces.now name.now) }
{
    let mut flags = Flags::new(alloc);
    for piece in pieces {
        flags.push(is_in(piece.attrs.as_slice(), name))?;
    }
    Ok(flags)
}

fn all_holders(alloc: Global, pieces: &[Piece], names: &[Name]) -> Result<Sequence<Flags>, NoMemory>
    ensures { IfOk result (λ lists. lists ≡ map (holders_of pieces.now) names.now) }
{
    let mut lists = Sequence::new(alloc);
    for name in names {
        lists.push(holders_of(alloc, pieces, name)?)?;
    }
    Ok(lists)
}

fn is_set(flags: &[bool], number: u32) -> bool
    ensures { result ≡ get_or flags.now (number - 1) false }
{
    let place = (number as usize).saturating_sub(1);
    flags.get(place).copied().unwrap_or(false)
}

fn has_flag(flags: &[bool], numbers: &[u32]) -> bool
    ensures { result ≡ has_flag flags.now numbers.now }
{
    numbers.iter().any(|number| is_set(flags, *number))
}

fn either_has(flags: &Flags, left: &[u32], right: &[u32]) -> bool
    ensures { result ≡ has_flag flags.now (left.now ++ right.now) }
{
    has_flag(flags.as_slice(), left) || has_flag(flags.as_slice(), right)
}

/// Whether the left and the right pieces together have all the names.
fn has_all(lists: &[Flags], left: &[u32], right: &[u32]) -> bool
    ensures { result ≡ has_all lists.now (left.now ++ right.now) }
{
    lists.iter().all(|flags| either_has(flags, left, right))
}

/// Whether a name is lost with each piece that is left out.
fn needs_each(lists: &[Flags], cover: &[u32]) -> bool
    ensures { result ≡ needs_each (has_all lists.now) cover.now }
{
    for i in 0..cover.len() {
        if has_all(lists, &cover[..i], &cover[i + 1..]) {
            return false;
        }
    }
    true
}

fn is_least(lists: &[Flags], cover: &[u32]) -> bool
    ensures { result ≡ is_least lists.now cover.now }
{
    has_all(lists, cover, &[]) && needs_each(lists, cover)
}

fn least_ones(sets: Vec<Places>, lists: &[Flags]) -> CoverList
    ensures { result ≡ filter (is_least lists.now) sets.items }
{
    let mut covers = sets;
    covers.retain(|cover| is_least(lists, cover.as_slice()));
    Sequence::from_vec(covers)
}

/// The sets of pieces that together have all the names, and of which no proper subset has, in the order of their weights.
/// `TooManyPieces` comes exactly above 12 pieces.
pub fn covers(alloc: Global, p: &Pieces, all: &Names) -> Result<CoverList, CoverFault>
    requires { length p.now < 2 ^ 32 }
    ensures ok { IfOk result (λ list. list ≡ cover_numbers all.now p.now) }
    ensures few { OnOk result (length p.now ≤ 12) }
    ensures fault { IfErr result (IsCoverFault (length p.now)) }
{
    let count = p.len() as u32;
    if p.len() > MAX_PIECES {
        return Err(CoverFault::TooManyPieces { count });
    }
    let lists = all_holders(alloc, p.as_slice(), all.as_slice())?;
    let sets = subsets(alloc, count)?;
    Ok(least_ones(sets, lists.as_slice()))
}
