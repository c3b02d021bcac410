//! What the plan of an inverse has for a relation.
ghost use Rattle.std.specs.Prelude.{◌≡◌, ◌≤◌, ◌<◌, ◌+◌, nat_lt, length};
ghost use Rattle.wh_covers.specs.Covers.{IsNumbered};
ghost use Rattle.wh_inverse.specs.Inverse.{have_keys};
ghost use Rattle.wh_plan.specs.Expressions.{complement_number, inverse_expr};
ghost use Rattle.wh_plan.specs.Plan.{relation_covers};
ghost use Rattle.wh_schema.specs.Warehouse.{pieces as pieces_of};

use crate::inverse::Inverse;
use wh_base::Places;
use wh_covers::Piece;
use wh_eval::Base;
use wh_expr::Expr;
use wh_schema::{Relation, Spec};

/// The pieces of a relation.
pub(crate) fn pieces_of<'b, B: Base>(inverse: &'b Inverse<'_, B>, rel: u32) -> &'b [Piece]
    requires { rel < length inverse.now.plan.now.spec.relations }
    ensures { result.now ≡ pieces_of inverse.entry.now.plan.now.spec rel }
{
    inverse.plan.pieces.as_slice()[rel as usize].as_slice()
}

/// The covers of a relation, as numbers of its pieces from 1.
pub(crate) fn covers_of<'b, B: Base>(inverse: &'b Inverse<'_, B>, rel: u32) -> &'b [Places]
    requires { rel < length inverse.now.plan.now.spec.relations }
    ensures { result.now ≡ relation_covers inverse.entry.now.plan.now.spec rel }
{
    inverse.plan.covers.as_slice()[rel as usize].as_slice()
}

/// The expression of a relation over its complement, the views and the relations before it in the order.
pub(crate) fn inverse_of<'b, B: Base>(inverse: &'b Inverse<'_, B>, rel: u32) -> &'b Expr
    requires { rel < length inverse.now.plan.now.spec.relations }
    ensures { ∥ result.now ≡ inverse_expr inverse.entry.now.plan.now.spec rel ∥₁ }
{
    &inverse.plan.inverse_exprs.as_slice()[rel as usize]
}

/// The number of a view.
pub(crate) fn view_number(spec: &Spec, view: u32) -> u32
    requires numbered { IsNumbered spec.now }
    requires view { view < length spec.now.views }
    ensures { result ≡ length spec.now.relations + view }
{
    spec.relations.len() as u32 + view
}

/// The number of the complement of a relation.
pub(crate) fn complement_number(spec: &Spec, rel: u32) -> u32
    requires numbered { IsNumbered spec.now }
    requires relation { rel < length spec.now.relations }
    ensures { result ≡ complement_number spec.now rel }
{
    spec.relations.len() as u32 + spec.views.len() as u32 + rel
}

/// Whether a number is that of a relation.
pub(crate) fn is_relation(spec: &Spec, number: u32) -> bool
    ensures { result ≡ nat_lt number (length spec.now.relations) }
{
    (number as usize) < spec.relations.len()
}

fn has_key(relation: &Relation) -> bool
    ensures { result ≡ nat_lt 0 (length relation.now.key) }
{
    0 < relation.key.len()
}

/// Whether each relation has a column in its key, as an inverse asks. Without one nothing could be looked up by key.
pub fn have_keys(spec: &Spec) -> bool
    ensures { result ≡ have_keys spec.now }
{
    spec.relations
        .as_slice()
        .iter()
        .all(|relation| has_key(relation))
}
