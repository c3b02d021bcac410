ghost use Rattle.std.specs.Prelude.{◌≡◌, ◌<◌, ◌≤◌, ℕ, Bool, List, length, IsTrue, IfOk};
ghost use Rattle.wh_base.specs.declared.head.Head.{Head};
ghost use Rattle.wh_base.specs.declared.value.Value.{Value};
ghost use Rattle.wh_base.specs.Columns.{all_in};
ghost use Rattle.wh_base.specs.Heads.{columns_at};
ghost use Rattle.wh_base.specs.RowSet.{IsSetOf};
ghost use Rattle.wh_base.specs.Tables.{matching};
ghost use Rattle.wh_expr.specs.Typing.{are_distinct};

use std::alloc::Global;
use wh_base::{Heads, Names, NoMemory, Row, Rows};
use wh_steps::{Ledger, Steps};

/// Rows under numbers, for some numbers.
pub trait Base {
    /// The names and the attributes of the numbers.
    ghost heads_of: { Self → List Head };

    /// Which numbers it has.
    ghost has_number: { Self → ℕ → Bool };

    /// The rows of a number. They mean nothing where it does not have the number.
    ghost rows_at: { Self → ℕ → List (List Value) };

    fn heads(&self) -> &Heads
        ensures { result.now ≡ heads_of self.now };

    /// Each row of a number once.
    fn rows<L: Ledger>(&self, alloc: Global, n: u32, steps: &mut Steps<L>) -> Result<Rows, NoMemory>
        requires { IsTrue (has_number self.now n) }
        ensures rows { IfOk result (λ rows. IsSetOf rows (rows_at self.now n)) }
        ensures probes { steps.old.probes ≤ steps.new.probes }
        ensures scans { steps.old.scans ≤ steps.new.scans };

    /// Each row of a number with these values at the columns once, without a whole scan.
    fn rows_where<L: Ledger>(
        &self,
        alloc: Global,
        n: u32,
        cols: &Names,
        vals: &Row,
        steps: &mut Steps<L>,
    ) -> Result<Rows, NoMemory>
        requires held { IsTrue (has_number self.now n) }
        requires columns { IsTrue (all_in (columns_at (heads_of self.now) n) cols.now) }
        requires some { 0 < length cols.now }
        requires distinct { IsTrue (are_distinct cols.now) }
        requires one_each { length vals.now ≡ length cols.now }
        ensures rows { IfOk result (λ rows. IsSetOf rows
            (matching (columns_at (heads_of self.now) n) cols.now vals.now (rows_at self.now n))) }
        ensures probes { steps.old.probes ≤ steps.new.probes }
        ensures scans { steps.new.scans ≡ steps.old.scans };
}
