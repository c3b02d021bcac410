ghost use Rattle.std.specs.Prelude.{◌≡◌, ◌≤◌, ◌<◌, ◌++◌, ◌∷◌, [], None, map, length, IfOk, OnOk, IfErr};
ghost use Rattle.wh_covers.specs.Covers.{IsNumbered};
ghost use Rattle.wh_plan.specs.Expressions.{inverse_expr, view_expr, key_probes as key_probes_of};
ghost use Rattle.wh_plan.specs.Indexes.{indexes as indexes_of};
ghost use Rattle.wh_plan.specs.Plan.{plan_of, all_pieces, relation_covers, too_many, IsPlanFault, IsFaultAt};
ghost use Rattle.wh_schema.specs.EmptyMark.{always_empty as is_marked};
ghost use Rattle.wh_schema.specs.Reconstruction.{order as order_of};
ghost use Rattle.wh_schema.specs.Warehouse.{pieces as pieces_of, numbers};

use crate::indexes::indexes;
use crate::inverse::{inverse_expr, key_probes, view_exprs};
use crate::order::order;
use crate::plan::{Exprs, IndexLists, Plan, PlanFault, ProbeBounds};
use std::alloc::Global;
use wh_base::{Flags, NoMemory, Places, names_of};
use wh_covers::{
    CoverFault, CoverList, CoverLists, PieceLists, Pieces, covers, pieces, relation_at,
};
use wh_lossless::always_empty;
use wh_schema::Spec;

/// The covers of a relation.
fn planned_covers(
    alloc: Global,
    spec: &Spec,
    relation: u32,
    own: &Pieces,
) -> Result<CoverList, PlanFault>
    requires numbered { IsNumbered spec.now }
    requires relation { relation < length spec.now.relations }
    requires pieces { own.now ≡ pieces_of spec.now relation }
    ensures ok { IfOk result (λ list. list ≡ relation_covers spec.now relation) }
    ensures few { OnOk result (length (pieces_of spec.now relation) ≤ 12) }
    ensures fault { IfErr result (IsFaultAt relation (length (pieces_of spec.now relation))) }
{
    let columns = names_of(alloc, &relation_at(spec, relation).attrs)?;
    match covers(alloc, own, &columns) {
        Ok(list) => Ok(list),
        Err(CoverFault::TooManyPieces { count }) => {
            Err(PlanFault::TooManyPieces { relation, count })
        }
        Err(CoverFault::NoMemory) => Err(PlanFault::NoMemory),
    }
}

fn all_empties(alloc: Global, spec: &Spec) -> Result<Flags, NoMemory>
    requires { IsNumbered spec.now }
    ensures { IfOk result (λ empties. empties ≡ map (is_marked spec.now) (numbers (length spec.now.relations))) }
{
    let mut empties = Flags::new(alloc);
    for relation in 0..spec.relations.len() as u32 {
        empties.push(always_empty(alloc, spec, relation)?)?;
    }
    Ok(empties)
}

fn inverse_exprs(
    alloc: Global,
    spec: &Spec,
    pieces: &PieceLists,
    covers: &CoverLists,
) -> Result<Exprs, NoMemory>
    requires numbered { IsNumbered spec.now }
    requires pieces { pieces.now ≡ all_pieces spec.now }
    requires covers { covers.now ≡ map (relation_covers spec.now) (numbers (length spec.now.relations)) }
    ensures { IfOk result (λ exprs. exprs ≡ map (inverse_expr spec.now) (numbers (length spec.now.relations))) }
{
    let mut exprs = Exprs::new(alloc);
    for relation in 0..spec.relations.len() as u32 {
        let own = &pieces.as_slice()[relation as usize];
        let list = &covers.as_slice()[relation as usize];
        exprs.push(inverse_expr(alloc, spec, relation, own, list)?)?;
    }
    Ok(exprs)
}

fn all_key_probes(alloc: Global, spec: &Spec, pieces: &PieceLists) -> Result<ProbeBounds, NoMemory>
    requires numbered { IsNumbered spec.now }
    requires pieces { pieces.now ≡ all_pieces spec.now }
    ensures { IfOk result (λ bounds. bounds ≡ map (λ i. key_probes_of (pieces_of spec.now i)) (numbers (length spec.now.relations))) }
{
    let mut bounds = ProbeBounds::new(alloc);
    for relation in 0..spec.relations.len() as u32 {
        bounds.push(key_probes(&pieces.as_slice()[relation as usize]))?;
    }
    Ok(bounds)
}

/// The pieces and the covers of relations.
#[derive(Drop)]
struct Covered {
    pieces: PieceLists,
    covers: CoverLists,
}

/// Adds the pieces and the covers of a relation.
fn cover_relation(
    alloc: Global,
    spec: &Spec,
    relation: u32,
    covered: &mut Covered,
) -> Result<(), PlanFault>
    requires numbered { IsNumbered spec.now }
    requires relation { relation < length spec.now.relations }
    ensures pieces { OnOk result (covered.new.pieces ≡ covered.old.pieces ++ pieces_of spec.now relation ∷ []) }
    ensures covers { OnOk result (covered.new.covers ≡ covered.old.covers ++ relation_covers spec.now relation ∷ []) }
    ensures few { OnOk result (length (pieces_of spec.now relation) ≤ 12) }
    ensures fault { IfErr result (IsFaultAt relation (length (pieces_of spec.now relation))) }
{
    let own = pieces(alloc, spec, relation)?;
    covered
        .covers
        .push(planned_covers(alloc, spec, relation, &own)?)?;
    covered.pieces.push(own)?;
    Ok(())
}

fn cover_all(alloc: Global, spec: &Spec) -> Result<Covered, PlanFault>
    requires { IsNumbered spec.now }
    ensures pieces { IfOk result (λ covered. covered.pieces ≡ all_pieces spec.now) }
    ensures covers { IfOk result (λ covered. covered.covers ≡ map (relation_covers spec.now) (numbers (length spec.now.relations))) }
    ensures few { OnOk result (too_many spec.now ≡ None) }
    ensures fault { IfErr result (IsPlanFault spec.now) }
{
    let mut covered = Covered {
        pieces: PieceLists::new(alloc),
        covers: CoverLists::new(alloc),
    };
    for relation in 0..spec.relations.len() as u32 {
        cover_relation(alloc, spec, relation, &mut covered)?;
    }
    Ok(covered)
}

/// The expressions of the views, and the inverses of the relations.
#[derive(Drop)]
struct Expressions {
    views: Exprs,
    inverses: Exprs,
}

fn plan_expressions(alloc: Global, spec: &Spec, covered: &Covered) -> Result<Expressions, NoMemory>
    requires numbered { IsNumbered spec.now }
    requires pieces { covered.now.pieces ≡ all_pieces spec.now }
    requires covers { covered.now.covers ≡ map (relation_covers spec.now) (numbers (length spec.now.relations)) }
    ensures views { IfOk result (λ exprs. exprs.views ≡ map (view_expr spec.now) (numbers (length spec.now.views))) }
    ensures inverses { IfOk result (λ exprs. exprs.inverses ≡ map (inverse_expr spec.now) (numbers (length spec.now.relations))) }
{
    let views = view_exprs(alloc, spec)?;
    let inverses = inverse_exprs(alloc, spec, &covered.pieces, &covered.covers)?;
    Ok(Expressions { views, inverses })
}

/// What look-ups go by.
#[derive(Drop)]
struct LookUps {
    indexes: IndexLists,
    key_probes: ProbeBounds,
}

fn plan_look_ups(alloc: Global, spec: &Spec, pieces: &PieceLists) -> Result<LookUps, NoMemory>
    requires numbered { IsNumbered spec.now }
    requires pieces { pieces.now ≡ all_pieces spec.now }
    ensures indexes { IfOk result (λ look_ups. look_ups.indexes ≡ indexes_of spec.now) }
    ensures probes { IfOk result (λ look_ups. look_ups.key_probes ≡ map (λ i. key_probes_of (pieces_of spec.now i)) (numbers (length spec.now.relations))) }
{
    let indexes = indexes(alloc, spec)?;
    let key_probes = all_key_probes(alloc, spec, pieces)?;
    Ok(LookUps {
        indexes,
        key_probes,
    })
}

/// What a plan has beside its specification, the pieces and the covers.
#[derive(Drop)]
struct Parts {
    order: Places,
    empties: Flags,
    exprs: Expressions,
    look_ups: LookUps,
}

fn plan_parts(alloc: Global, spec: &Spec, covered: &Covered) -> Result<Parts, NoMemory>
    requires numbered { IsNumbered spec.now }
    requires pieces { covered.now.pieces ≡ all_pieces spec.now }
    requires covers { covered.now.covers ≡ map (relation_covers spec.now) (numbers (length spec.now.relations)) }
    ensures order { IfOk result (λ parts. parts.order ≡ order_of spec.now) }
    ensures empties { IfOk result (λ parts. parts.empties ≡ map (is_marked spec.now) (numbers (length spec.now.relations))) }
    ensures views { IfOk result (λ parts. parts.exprs.views ≡ map (view_expr spec.now) (numbers (length spec.now.views))) }
    ensures inverses { IfOk result (λ parts. parts.exprs.inverses ≡ map (inverse_expr spec.now) (numbers (length spec.now.relations))) }
    ensures indexes { IfOk result (λ parts. parts.look_ups.indexes ≡ indexes_of spec.now) }
    ensures probes { IfOk result (λ parts. parts.look_ups.key_probes ≡ map (λ i. key_probes_of (pieces_of spec.now i)) (numbers (length spec.now.relations))) }
{
    let order = order(alloc, spec)?;
    let empties = all_empties(alloc, spec)?;
    let exprs = plan_expressions(alloc, spec, covered)?;
    let look_ups = plan_look_ups(alloc, spec, &covered.pieces)?;
    Ok(Parts {
        order,
        empties,
        exprs,
        look_ups,
    })
}

/// The plan of a specification. `TooManyPieces` comes exactly where a relation has more than 12 pieces, for the first such one.
pub fn make_plan(alloc: Global, spec: Spec) -> Result<Plan, PlanFault>
    requires { IsNumbered spec }
    ensures ok { IfOk result (λ plan. plan ≡ plan_of spec) }
    ensures few { OnOk result (too_many spec ≡ None) }
    ensures fault { IfErr result (IsPlanFault spec) }
{
    let covered = cover_all(alloc, &spec)?;
    let parts = plan_parts(alloc, &spec, &covered)?;
    Ok(Plan {
        spec,
        order: parts.order,
        pieces: covered.pieces,
        covers: covered.covers,
        empties: parts.empties,
        view_exprs: parts.exprs.views,
        inverse_exprs: parts.exprs.inverses,
        indexes: parts.look_ups.indexes,
        key_probes: parts.look_ups.key_probes,
    })
}
