ghost use Rattle.std.specs.Prelude.{◌≡◌, [], length, nat_lt, get_or};
ghost use Rattle.wh_eval.specs.Lists.{HasDistinctRows, HasDistinctRows-prop};

use crate::base::Base;
use crate::look_up;
use std::alloc::Global;
use wh_base::{Duplicate, Heads, Names, NoMemory, Row, Rows, State};
use wh_steps::{Ledger, Steps};

/// Rows in memory, those of each number below the length.
#[derive(Drop)]
pub struct Lists<'a> {
    heads: &'a Heads,
    rows: &'a State,
    ghost distinct: { HasDistinctRows rows.now } by { HasDistinctRows-prop rows.now },
}

impl<'a> Lists<'a> {
    /// Borrows both.
    pub fn new(heads: &'a Heads, rows: &'a State) -> Lists<'a>
        requires { HasDistinctRows rows.now }
        ensures heads { result.heads.now ≡ heads.entry.now }
        ensures rows { result.rows.now ≡ rows.entry.now }
    {
        Lists { heads, rows }
    }
}

impl<'a> Base for Lists<'a> {
    ghost heads_of = { λ s. s.heads.now };

    ghost has_number = { λ s n. nat_lt n (length s.rows.now) };

    ghost rows_at = { λ s n. get_or s.rows.now n [] };

    fn heads(&self) -> &Heads {
        self.heads
    }

    fn rows<L: Ledger>(
        &self,
        alloc: Global,
        n: u32,
        steps: &mut Steps<L>,
    ) -> Result<Rows, NoMemory> {
        steps.scan();
        match self.rows.get(n as usize) {
            Some(rows) => rows.copy(alloc),
            None => Ok(Rows::new(alloc)),
        }
    }

    fn rows_where<L: Ledger>(
        &self,
        alloc: Global,
        n: u32,
        cols: &Names,
        vals: &Row,
        steps: &mut Steps<L>,
    ) -> Result<Rows, NoMemory> {
        steps.probe(1);
        let columns = look_up::columns_of(alloc, self.heads, n)?;
        look_up::copies_where(
            alloc,
            list_at(self.rows, n),
            columns.as_slice(),
            cols.as_slice(),
            vals,
        )
    }
}

fn list_at<'a>(state: &'a State, n: u32) -> &'a [Row]
    ensures { result.now ≡ get_or state.now n [] }
{
    match state.get(n as usize) {
        Some(rows) => rows.as_slice(),
        None => &[],
    }
}
