ghost use Rattle.std.specs.Prelude.{◌≡◌, ◌<◌, length};
ghost use Rattle.wh_plan.specs.Expressions.{view_expr, inverse_expr, key_probes};
ghost use Rattle.wh_plan.specs.Plan.{IsPlan, relation_covers};
ghost use Rattle.wh_schema.specs.EmptyMark.{always_empty};
ghost use Rattle.wh_schema.specs.Warehouse.{pieces as pieces_of};

use crate::plan::Plan;
use wh_covers::{CoverList, Pieces};
use wh_expr::Expr;

impl Plan {
    /// The pieces of a relation.
    pub fn pieces_of(&self, relation: u32) -> &Pieces
        requires plan { IsPlan self.now }
        requires relation { relation < length self.now.spec.relations }
        ensures { result.now ≡ pieces_of self.now.spec relation }
    {
        &self.pieces.as_slice()[relation as usize]
    }

    /// The covers of a relation, as numbers of its pieces from 1.
    pub fn covers_of(&self, relation: u32) -> &CoverList
        requires plan { IsPlan self.now }
        requires relation { relation < length self.now.spec.relations }
        ensures { result.now ≡ relation_covers self.now.spec relation }
    {
        &self.covers.as_slice()[relation as usize]
    }

    /// Whether the complement of a relation is empty in every legal state by the mark of `wh_lossless`.
    pub fn is_always_empty(&self, relation: u32) -> bool
        requires plan { IsPlan self.now }
        requires relation { relation < length self.now.spec.relations }
        ensures { result ≡ always_empty self.now.spec relation }
    {
        self.empties.as_slice()[relation as usize]
    }

    /// The expression of a view over its relations.
    pub fn view_of(&self, view: u32) -> &Expr
        requires plan { IsPlan self.now }
        requires view { view < length self.now.spec.views }
        ensures { result.now ≡ view_expr self.now.spec view }
    {
        &self.view_exprs.as_slice()[view as usize]
    }

    /// The expression of a relation over its complement, the views and the relations before it in the order.
    pub fn inverse_of(&self, relation: u32) -> &Expr
        requires plan { IsPlan self.now }
        requires relation { relation < length self.now.spec.relations }
        ensures { result.now ≡ inverse_expr self.now.spec relation }
    {
        &self.inverse_exprs.as_slice()[relation as usize]
    }

    /// The most look-ups that find a row of a relation by its key, where that is known.
    pub fn key_probes_of(&self, relation: u32) -> Option<u64>
        requires plan { IsPlan self.now }
        requires relation { relation < length self.now.spec.relations }
        ensures { result ≡ key_probes (pieces_of self.now.spec relation) }
    {
        self.key_probes.as_slice()[relation as usize]
    }
}
