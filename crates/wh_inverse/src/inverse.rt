ghost use Rattle.std.specs.Prelude.{◌≡◌, ℕ, ◌≤◌, ◌<◌, ◌+◌, length, IsTrue, IfOk};
ghost use Rattle.wh_covers.specs.Covers.{IsNumbered};
ghost use Rattle.wh_eval.specs.Lists.{HasDistinctRows};
ghost use Rattle.wh_inverse.specs.Inverse.{IsBelow, have_keys, is_source, inverse_rows, stored_below};
ghost use Rattle.wh_plan.specs.Plan.{IsPlan};
ghost use Rattle.wh_schema.specs.Heads.{heads_of as heads_of_spec};
ghost use Rattle.wh_schema.specs.Legality.{WellFormed};
ghost use Rattle.wh_schema.specs.Reconstruction.{reconstructed};
ghost use Rattle.wh_schema.specs.Warehouse.{SameState};

use crate::planned::is_relation;
use crate::relations::{all_relations, relation_rows};
use crate::walk::relation_where;
use std::alloc::Global;
use wh_base::{Heads, Names, NoMemory, Row, Rows, State};
use wh_eval::Base;
use wh_plan::Plan;
use wh_steps::{Ledger, Steps};

/// The relations and views of a specification, computed from the stored tables of a base below.
pub struct Inverse<'a, B: Base> {
    pub(crate) plan: &'a Plan,
    pub(crate) below: &'a B,
    ghost planned: { ∥ IsPlan plan.now ∥₁ },
    ghost over: { ∥ IsBelow plan.now.spec (B.heads_of below.now) (B.has_number below.now) ∥₁ },
}

impl<'a, B: Base> Drop for Inverse<'a, B> {
    fn drop(self) {
        let Inverse { plan: _, below: _ } = self;
    }
}

impl<'a, B: Base> Inverse<'a, B> {
    /// Borrows both.
    pub fn new(plan: &'a Plan, below: &'a B) -> Inverse<'a, B>
        requires planned { IsPlan plan.now }
        requires rules { WellFormed plan.now.spec }
        requires keys { IsTrue (have_keys plan.now.spec) }
        requires numbered { IsNumbered plan.now.spec }
        requires heads { B.heads_of below.now ≡ heads_of_spec plan.now.spec }
        requires held { (n : ℕ) → length plan.now.spec.relations ≤ n → n < length plan.now.spec.relations + length plan.now.spec.views + length plan.now.spec.relations → IsTrue (B.has_number below.now n) }
        ensures plan { result.plan.now ≡ plan.entry.now }
        ensures below { result.below.now ≡ below.entry.now }
    {
        Inverse { plan, below }
    }

    /// The rows of each relation, each row once. Each relation is computed once.
    pub fn relations<L: Ledger>(
        &self,
        alloc: Global,
        steps: &mut Steps<L>,
    ) -> Result<State, NoMemory>
        ensures count { IfOk result (λ s. length s ≡ length self.now.plan.now.spec.relations) }
        ensures distinct { IfOk result HasDistinctRows }
        ensures rows { IfOk result (λ s. SameState self.now.plan.now.spec s (reconstructed self.now.plan.now.spec (stored_below self.now.plan.now.spec (B.rows_at self.now.below.now)))) }
        ensures probes { steps.old.probes ≤ steps.new.probes }
        ensures scans { steps.old.scans ≤ steps.new.scans }
    {
        all_relations(alloc, self, steps)
    }
}

impl<'a, B: Base> Base for Inverse<'a, B> {
    ghost heads_of = { λ s. B.heads_of s.below.now };

    ghost has_number = { λ s n. is_source s.plan.now.spec n };

    ghost rows_at = { λ s n. inverse_rows s.plan.now.spec (B.rows_at s.below.now) n };

    fn heads(&self) -> &Heads {
        self.below.heads()
    }

    fn rows<L: Ledger>(
        &self,
        alloc: Global,
        n: u32,
        steps: &mut Steps<L>,
    ) -> Result<Rows, NoMemory> {
        if is_relation(&self.plan.spec, n) {
            relation_rows(alloc, self, n, steps)
        } else {
            self.below.rows(alloc, n, steps)
        }
    }

    fn rows_where<L: Ledger>(
        &self,
        alloc: Global,
        n: u32,
        cols: &Names,
        vals: &Row,
        steps: &mut Steps<L>,
    ) -> Result<Rows, NoMemory> {
        if is_relation(&self.plan.spec, n) {
            relation_where(alloc, self, n, cols, vals, steps)
        } else {
            self.below.rows_where(alloc, n, cols, vals, steps)
        }
    }
}
