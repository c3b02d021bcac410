// From what a text spells to an expression over numbered tables, and back to the places of its nodes.
ghost use Rattle.std.specs.Prelude.{◌≡◌, ◌<◌, ◌^◌, length, map, IfOk};
ghost use Rattle.wh_query_text.specs.QueryTexts.{applied, combined, expr_of, known_names, number_among, place_below, place_of_fault};

use crate::raw::{Infix, Prefix, RawQuery};
use sqlite_items::Boxed;
use std::alloc::Global;
use wh_base::{Duplicate, Name, Names, NoMemory, append_names, place_of};
use wh_expr::{Expr, TypeCause};
use wh_schema::{Relation, Spec, View};

fn relation_names(alloc: Global, relations: &[Relation]) -> Result<Names, NoMemory>
    ensures { IfOk result (λ names. names ≡ map (λ r. r.name) relations.now) }
{
    let mut names = Names::new(alloc);
    for relation in relations {
        names.push(relation.name.copy(alloc)?)?;
    }
    Ok(names)
}

fn view_names(alloc: Global, views: &[View]) -> Result<Names, NoMemory>
    ensures { IfOk result (λ names. names ≡ map (λ v. v.name) views.now) }
{
    let mut names = Names::new(alloc);
    for view in views {
        names.push(view.name.copy(alloc)?)?;
    }
    Ok(names)
}

/// The names that a query may use, in the order of their numbers.
pub(crate) fn known_names(alloc: Global, spec: &Spec) -> Result<Names, NoMemory>
    ensures { IfOk result (λ names. names ≡ known_names spec.now) }
{
    let relations = relation_names(alloc, spec.relations.as_slice())?;
    let views = view_names(alloc, spec.views.as_slice())?;
    append_names(alloc, relations.as_slice(), views.as_slice())
}

/// The number of a known name, or another one.
fn number_among(known: &[Name], unknown: u32, name: &Name) -> u32
    requires { length known.now < 2 ^ 32 }
    ensures { result ≡ number_among known.now unknown name.now }
{
    let place = place_of(known, name);
    if place < known.len() {
        place as u32
    } else {
        unknown
    }
}

fn applied(alloc: Global, prefix: &Prefix, part: Expr) -> Result<Expr, NoMemory>
    ensures { IfOk result (λ e. e ≡ applied prefix.now part) }
{
    let part = Boxed::new(alloc, part)?;
    Ok(match prefix {
        Prefix::Project(names) => Expr::Project(names.copy(alloc)?, part),
        Prefix::Select(cond) => Expr::Select(cond.copy(alloc)?, part),
        Prefix::Rename(pairs) => Expr::Rename(pairs.copy(alloc)?, part),
    })
}

fn combined(alloc: Global, word: Infix, left: Expr, right: Expr) -> Result<Expr, NoMemory>
    ensures { IfOk result (λ e. e ≡ combined word left right) }
{
    let left = Boxed::new(alloc, left)?;
    let right = Boxed::new(alloc, right)?;
    Ok(match word {
        Infix::Union => Expr::Union(left, right),
        Infix::Minus => Expr::Minus(left, right),
        Infix::Join => Expr::Join(left, right),
    })
}

/// The expression over the places of known names. All other names have the number `unknown`.
pub(crate) fn expr_of(
    alloc: Global,
    raw: &RawQuery,
    known: &[Name],
    unknown: u32,
) -> Result<Expr, NoMemory>
    requires { length known.now < 2 ^ 32 }
    ensures { IfOk result (λ e. e ≡ expr_of (number_among known.now unknown) raw.now) }
{
    match raw {
        RawQuery::Named(_, name) => Ok(Expr::Base(number_among(known, unknown, name))),
        RawQuery::Behind(_, prefix, part) => {
            let part = expr_of(alloc, part.get(), known, unknown)?;
            applied(alloc, prefix, part)
        }
        RawQuery::Between(_, word, left, right) => {
            let left = expr_of(alloc, left.get(), known, unknown)?;
            let right = expr_of(alloc, right.get(), known, unknown)?;
            combined(alloc, *word, left, right)
        }
    }
}

/// The byte of the node to which the steps lead.
fn place_below(raw: &RawQuery, path: &[u32]) -> u64
    ensures { result ≡ place_below raw.now path.now }
{
    match (raw, path) {
        (RawQuery::Named(at, _), _)
        | (RawQuery::Behind(at, _, _), [])
        | (RawQuery::Between(at, _, _, _), []) => *at,
        (RawQuery::Behind(_, _, part), [_, rest @ ..])
        | (RawQuery::Between(_, _, part, _), [0, rest @ ..])
        | (RawQuery::Between(_, _, _, part), [_, rest @ ..]) => place_below(part.get(), rest),
    }
}

/// The byte at which a broken rule stands.
pub(crate) fn place_of_fault(raw: &RawQuery, cause: TypeCause, path: &[u32]) -> u64
    ensures { result ≡ place_of_fault cause (place_below raw.now path.now) }
{
    match cause {
        TypeCause::TooDeep | TypeCause::TooBig => 0,
        TypeCause::UnknownName
        | TypeCause::UnknownAttr
        | TypeCause::KindMismatch
        | TypeCause::HeadMismatch
        | TypeCause::EmptyHead
        | TypeCause::Repeated => place_below(raw, path),
    }
}
