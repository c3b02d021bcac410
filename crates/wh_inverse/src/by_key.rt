//! The row of a relation with a key.
ghost use Rattle.std.specs.Prelude.{◌≡◌, ◌≤◌, ◌<◌, ◌+◌, nat_eq, ◌&&◌, [], length, get_or, slice_get, IfOk, IfSome, IsTrue, None};
ghost use Rattle.wh_base.specs.RowSet.{SameRows, has};
ghost use Rattle.wh_base.specs.Tables.{matching};
ghost use Rattle.wh_eval.specs.Stored.{stored_rows};
ghost use Rattle.wh_expr.specs.Typing.{are_distinct};
ghost use Rattle.wh_inverse.specs.ByKey.{is_plain_key, complement_with_key};
ghost use Rattle.wh_inverse.specs.Inverse.{HaveIndexes, stored_below};
ghost use Rattle.wh_inverse.specs.Laws.{IsOneOf, IsRowWithKey};
ghost use Rattle.wh_laws.specs.Laws.{LegalState};
ghost use Rattle.wh_plan.specs.Plan.{relation_covers};
ghost use Rattle.wh_schema.specs.Reconstruction.{reconstructed, SameTables};
ghost use Rattle.wh_schema.specs.Warehouse.{Row as TableRow, State, columns_of, key_of, stored};

use crate::inverse::Inverse;
use crate::parts::{cut, narrow};
use crate::planned::{complement_number, covers_of};
use crate::walk::found_at;
use std::alloc::Global;
use wh_base::{NoMemory, Row, Rows, names_of, shared};
use wh_covers::relation_at;
use wh_eval::{Base, Stored};
use wh_expr::are_distinct;
use wh_schema::Relation;
use wh_steps::{Ledger, Steps};

fn first_of(rows: Rows) -> Option<Row>
    ensures { result ≡ slice_get rows 0 }
{
    rows.into_vec().into_iter().next()
}

/// Whether there is a value for each column of a key that names no column twice. Another key has no index.
fn is_plain(relation: &Relation, key: &Row) -> bool
    ensures { result ≡ (nat_eq (length key.now) (length relation.now.key) && are_distinct relation.now.key) }
{
    key.len() == relation.key.len() && are_distinct(relation.key.as_slice())
}

/// The rows of a relation with these values at the key. A name that stands twice in the key is asked once, and its two values are
/// compared afterwards.
fn rows_with_key<B: Base, L: Ledger>(
    alloc: Global,
    inverse: &Inverse<'_, B>,
    rel: u32,
    key: &Row,
    steps: &mut Steps<L>,
) -> Result<Rows, NoMemory>
    requires { rel < length inverse.now.plan.now.spec.relations }
    ensures rows { IfOk result (λ rows. SameRows rows (matching (columns_of inverse.now.plan.now.spec rel) (key_of inverse.now.plan.now.spec rel) key.now (get_or (reconstructed inverse.now.plan.now.spec (stored_below inverse.now.plan.now.spec (B.rows_at inverse.now.below.now))) rel []))) }
    ensures probes { steps.old.probes ≤ steps.new.probes }
    ensures scans { steps.new.scans ≡ steps.old.scans }
{
    let relation = relation_at(&inverse.plan.spec, rel);
    let columns = names_of(alloc, &relation.attrs)?;
    let asked = shared(alloc, relation.key.as_slice(), columns.as_slice())?;
    let vals = cut(alloc, relation.key.as_slice(), asked.as_slice(), key)?;
    let found = found_at(alloc, inverse, rel, &asked, &vals, steps)?;
    Ok(narrow(alloc, found, &relation.key, key)?.rows)
}

/// A row of the complement of a relation with these values at the key, if one probe finds it.
fn first_in_complement<L: Ledger>(
    alloc: Global,
    inverse: &Inverse<'_, Stored<'_>>,
    rel: u32,
    key: &Row,
    steps: &mut Steps<L>,
) -> Result<Option<Row>, NoMemory>
    requires relation { rel < length inverse.now.plan.now.spec.relations }
    requires indexed { HaveIndexes inverse.now.plan.now.spec inverse.now.below.now.heads.now inverse.now.below.now.tables.now }
    ensures row { IfOk result (λ found. IfSome found (λ row. IsTrue (has (matching (columns_of inverse.now.plan.now.spec rel) (key_of inverse.now.plan.now.spec rel) key.now (get_or (reconstructed inverse.now.plan.now.spec (stored_below inverse.now.plan.now.spec (stored_rows inverse.now.below.now.heads.now inverse.now.below.now.tables.now))) rel [])) row))) }
    ensures missed { IfOk result (λ found. IsTrue (is_plain_key inverse.now.plan.now.spec rel key.now) → found ≡ None
        → complement_with_key inverse.now.plan.now.spec (stored_rows inverse.now.below.now.heads.now inverse.now.below.now.tables.now) rel key.now ≡ []) }
    ensures probes { steps.old.probes ≤ steps.new.probes }
    ensures bound { steps.new.probes ≤ steps.old.probes + 1 }
    ensures scans { steps.new.scans ≡ steps.old.scans }
{
    let relation = relation_at(&inverse.plan.spec, rel);
    if !is_plain(relation, key) {
        return Ok(None);
    }
    let number = complement_number(&inverse.plan.spec, rel);
    inverse
        .below
        .first_where(alloc, number, &relation.key, key, steps)
}

impl<'a, 's> Inverse<'a, Stored<'s>> {
    /// The row of a relation with these values at its key, or None exactly where it has no such row. No table is read as a whole.
    /// A row of the complement costs one probe, and so does each key of a relation without a cover.
    pub fn by_key<L: Ledger>(
        &self,
        alloc: Global,
        rel: u32,
        key: &Row,
        steps: &mut Steps<L>,
    ) -> Result<Option<Row>, NoMemory>
        requires relation { rel < length self.now.plan.now.spec.relations }
        requires indexed { HaveIndexes self.now.plan.now.spec self.now.below.now.heads.now self.now.below.now.tables.now }
        ensures row { IfOk result (λ row. IsOneOf row (matching (columns_of self.now.plan.now.spec rel) (key_of self.now.plan.now.spec rel) key.now (get_or (reconstructed self.now.plan.now.spec (stored_below self.now.plan.now.spec (stored_rows self.now.below.now.heads.now self.now.below.now.tables.now))) rel []))) }
        ensures legal { (s : State) → LegalState self.now.plan.now.spec s → SameTables (stored_below self.now.plan.now.spec (stored_rows self.now.below.now.heads.now self.now.below.now.tables.now)) (stored self.now.plan.now.spec s)
            → IfOk result (IsRowWithKey self.now.plan.now.spec s rel key.now) }
        ensures probes { steps.old.probes ≤ steps.new.probes }
        ensures complement { IsTrue (is_plain_key self.now.plan.now.spec rel key.now)
            → (x : TableRow) → IsTrue (has (complement_with_key self.now.plan.now.spec (stored_rows self.now.below.now.heads.now self.now.below.now.tables.now) rel key.now) x)
            → steps.new.probes ≤ steps.old.probes + 1 }
        ensures uncovered { IsTrue (is_plain_key self.now.plan.now.spec rel key.now) → relation_covers self.now.plan.now.spec rel ≡ []
            → steps.new.probes ≤ steps.old.probes + 1 }
        ensures scans { steps.new.scans ≡ steps.old.scans }
    {
        let first = first_in_complement(alloc, self, rel, key, steps)?;
        if let Some(row) = first {
            return Ok(Some(row));
        }
        // The complement alone has the rows of a relation without a cover.
        let relation = relation_at(&self.plan.spec, rel);
        if is_plain(relation, key) && covers_of(self, rel).is_empty() {
            return Ok(None);
        }
        let rows = rows_with_key(alloc, self, rel, key, steps)?;
        Ok(first_of(rows))
    }
}
