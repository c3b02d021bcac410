ghost use Rattle.std.specs.Prelude.{◌≡◌, ◌<◌, ◌^◌, None, length, IfOk, OnOk, IfErr, IfSome};
ghost use Rattle.wh_load.specs.Load.{first_over, IsOver};

use crate::fault::LoadFault;
use wh_base::{Rows, StoredRows};

/// The most rows that a stored table may have.
const MOST_ROWS: usize = 4_000_000;

/// The first table with too many rows.
#[tactic(auto, using(crate::proofs::LimitLemmas::over_within))]
fn first_over(tables: &[Rows]) -> Option<usize>
    ensures first { result ≡ first_over tables.now }
    ensures within { IfSome result (λ table. table < length tables.now) }
{
    tables.iter().position(|rows| rows.len() > MOST_ROWS)
}

/// The tables, where none has too many rows; else the first one that has.
pub fn limited(tables: StoredRows) -> Result<StoredRows, LoadFault>
    requires { length tables < 2 ^ 32 }
    ensures ok { IfOk result (λ same. same ≡ tables) }
    ensures small { OnOk result (first_over tables ≡ None) }
    ensures fault { IfErr result (IsOver tables) }
{
    match first_over(tables.as_slice()) {
        Some(table) => Err(LoadFault::RowLimit {
            table: table as u32,
        }),
        None => Ok(tables),
    }
}
