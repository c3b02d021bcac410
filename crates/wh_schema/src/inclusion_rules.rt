//! The rules of inclusions: each answers its cause where it is broken.
ghost use Rattle.std.specs.Prelude.{◌≡◌, ◌<◌, ◌^◌, ◌++◌, length};
ghost use Rattle.std.specs.Option.{option_copied};
ghost use Rattle.wh_schema.specs.Rules.{first_cause, has_long_name, inclusion_words, first_unknown_side, attrs_of, bad_side, same_kinds, bad_pairs, bad_inclusion, inclusion_name_faults};

use crate::adding::{attrs_at, number_of};
use crate::fault::{LimitWord, SpecCause};
use crate::names::{
    first_repeat, first_unknown, has_long_name, has_name, is_long, kind_in, same_kind,
};
use crate::raw::RawInclusion;
use crate::rules::{limit, refuse_found, refuse_if};
use crate::spec::Spec;
use wh_base::{Attr, Name, Names};

fn has_long_inclusion_word(raw: &RawInclusion) -> bool
    ensures { result ≡ has_long_name (inclusion_words raw.now) }
{
    is_long(&raw.from)
        || has_long_name(raw.from_cols.as_slice())
        || is_long(&raw.to)
        || has_long_name(raw.to_cols.as_slice())
}

/// The first side that is no relation, the left one before the right one.
pub(crate) fn first_unknown_side<'a>(spec: &Spec, raw: &'a RawInclusion) -> Option<&'a Name>
    ensures { option_copied result ≡ first_unknown_side spec.now raw.now }
{
    let relations = spec.relations.as_slice();
    if !has_name(relations, &raw.from) {
        Some(&raw.from)
    } else if !has_name(relations, &raw.to) {
        Some(&raw.to)
    } else {
        None
    }
}

fn check_inclusion_names(spec: &Spec, raw: &RawInclusion) -> Result<(), SpecCause>
    ensures { result ≡ first_cause (inclusion_name_faults spec.now raw.now) }
{
    limit(spec.inclusions.len() >= 128, LimitWord::Inclusions)?;
    limit(has_long_inclusion_word(raw), LimitWord::NameBytes)?;
    refuse_found(first_unknown_side(spec, raw), SpecCause::UnknownRelation)
}

fn attrs_of<'a>(spec: &'a Spec, name: &Name) -> &'a [Attr]
    requires { length spec.now.relations < 2 ^ 32 }
    ensures { result.now ≡ attrs_of spec.now name.now }
{
    attrs_at(spec, number_of(spec, name))
}

fn check_side(attrs: &[Attr], columns: &Names) -> Result<(), SpecCause>
    ensures { result ≡ first_cause (bad_side attrs.now columns.now) }
{
    let unknown = first_unknown(attrs, columns.as_slice());
    refuse_found(unknown, SpecCause::BadInclusion)?;
    refuse_found(first_repeat(columns.as_slice()), SpecCause::BadInclusion)
}

fn same_kinds(left: &[Attr], from_cols: &[Name], right: &[Attr], to_cols: &[Name]) -> bool
    ensures { result ≡ same_kinds left.now from_cols.now right.now to_cols.now }
{
    if from_cols.len() != to_cols.len() {
        return false;
    }
    for (place, name) in from_cols.iter().enumerate() {
        if !same_kind(kind_in(left, name), kind_in(right, &to_cols[place])) {
            return false;
        }
    }
    true
}

fn check_pairs(left: &[Attr], right: &[Attr], raw: &RawInclusion) -> Result<(), SpecCause>
    ensures { result ≡ first_cause (bad_pairs left.now right.now raw.now) }
{
    let fits = same_kinds(
        left,
        raw.from_cols.as_slice(),
        right,
        raw.to_cols.as_slice(),
    );
    refuse_if(!fits, SpecCause::BadInclusion)
}

fn check_columns(left: &[Attr], right: &[Attr], raw: &RawInclusion) -> Result<(), SpecCause>
    ensures { result ≡ first_cause (bad_inclusion left.now right.now raw.now) }
{
    check_side(left, &raw.from_cols)?;
    check_side(right, &raw.to_cols)?;
    check_pairs(left, right, raw)
}

/// The rules of an inclusion but the one on cycles.
pub(crate) fn check_inclusion_sides(spec: &Spec, raw: &RawInclusion) -> Result<(), SpecCause>
    requires { length spec.now.relations < 2 ^ 32 }
    ensures { result ≡ first_cause (inclusion_name_faults spec.now raw.now ++ bad_inclusion (attrs_of spec.now raw.now.from) (attrs_of spec.now raw.now.to) raw.now) }
{
    check_inclusion_names(spec, raw)?;
    check_columns(attrs_of(spec, &raw.from), attrs_of(spec, &raw.to), raw)
}
