//! How many rows tables have.
ghost use Rattle.std.specs.Prelude.{◌≡◌, ◌<◌, length};
ghost use Rattle.wh_answer.specs.Answer.{rows_of};
ghost use Rattle.wh_eval.specs.Lists.{HasDistinctRows};
ghost use Rattle.wh_report.specs.Report.{row_count, rows_at, total};

use wh_base::State;
use wh_table::Tables;

/// The number of rows of a stored table, by its number.
pub(crate) fn stored_count(tables: &Tables, number: usize) -> usize
    requires { number < length tables.now }
    ensures { result ≡ row_count (rows_at (rows_of tables.now) number) }
{
    tables.as_slice()[number].len()
}

/// The number of rows of a relation, by its number.
pub(crate) fn relation_count(relations: &State, number: usize) -> usize
    requires number { number < length relations.now }
    requires distinct { HasDistinctRows relations.now }
    ensures { result ≡ row_count (rows_at relations.now number) }
{
    relations.as_slice()[number].len()
}

/// The number of rows of all stored tables together.
pub(crate) fn stored_total(tables: &Tables) -> u128
    ensures { result ≡ total (rows_at (rows_of tables.now)) (length tables.now) }
{
    let mut count: u128 = 0;
    for number in 0..tables.len() {
        count += stored_count(tables, number) as u128;
    }
    count
}

/// The number of rows of all relations together.
pub(crate) fn sources_total(relations: &State) -> u128
    requires { HasDistinctRows relations.now }
    ensures { result ≡ total (rows_at relations.now) (length relations.now) }
{
    let mut count: u128 = 0;
    for number in 0..relations.len() {
        count += relation_count(relations, number) as u128;
    }
    count
}
