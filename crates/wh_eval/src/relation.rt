ghost use Rattle.std.specs.Prelude.{◌≡◌, map, fold, IfOk};
ghost use Rattle.wh_base.specs.Tables.{unit, select, project, join, join_all, without};
ghost use Rattle.wh_eval.specs.Relation.{table_of};

use crate::{join, rows};
use std::alloc::Global;
use wh_base::{
    Cond, Duplicate, Name, Names, NoMemory, Row, Rows, append_names, others, places_of, shared,
};

/// Rows with the names of their columns.
#[derive(Debug, Drop)]
pub struct Relation {
    pub columns: Names,
    pub rows: Rows,
}

impl Relation {
    /// The relation with no column and one row.
    pub fn unit(alloc: Global) -> Result<Relation, NoMemory>
        ensures { IfOk result (λ one. table_of one ≡ unit) }
    {
        let mut rows = Rows::new(alloc);
        rows.push(Row::new(alloc))?;
        Ok(Relation {
            columns: Names::new(alloc),
            rows,
        })
    }

    /// The rows on which the condition is true.
    pub fn select(self, cond: &Cond) -> Relation
        ensures { table_of result ≡ select cond.now (table_of self) }
    {
        let rows = rows::select(self.rows, cond, self.columns.as_slice());
        Relation {
            columns: self.columns,
            rows,
        }
    }

    /// The rows cut to names.
    pub fn project(self, alloc: Global, names: &Names) -> Result<Relation, NoMemory>
        ensures { IfOk result (λ cuts. table_of cuts ≡ project names.now (table_of self)) }
    {
        let places = places_of(alloc, self.columns.as_slice(), names.as_slice())?;
        Ok(Relation {
            columns: names.copy(alloc)?,
            rows: rows::cut_all(alloc, self.rows, places.as_slice())?,
        })
    }

    /// Copies of the rows cut to names.
    pub fn cut(&self, alloc: Global, names: &Names) -> Result<Relation, NoMemory>
        ensures { IfOk result (λ cuts. table_of cuts ≡ project names.now (table_of self.now)) }
    {
        let places = places_of(alloc, self.columns.as_slice(), names.as_slice())?;
        Ok(Relation {
            columns: names.copy(alloc)?,
            rows: rows::pick_all(alloc, self.rows.as_slice(), places.as_slice())?,
        })
    }

    /// The combined row of each pair that agrees on all shared columns.
    pub fn join(self, alloc: Global, right: &Relation) -> Result<Relation, NoMemory>
        ensures { IfOk result (λ both. table_of both ≡ join (table_of self) (table_of right.now)) }
    {
        self.join_rows(alloc, right.columns.as_slice(), right.rows.as_slice())
    }

    /// The join with rows under their names.
    pub fn join_rows(
        self,
        alloc: Global,
        columns: &[Name],
        rows: &[Row],
    ) -> Result<Relation, NoMemory>
        ensures { IfOk result (λ both. table_of both ≡ join (table_of self) (record { columns = columns.now; rows = rows.now })) }
    {
        let own = self.columns.as_slice();
        let shared = shared(alloc, own, columns)?;
        let others = others(alloc, own, columns)?;
        let own_key = places_of(alloc, own, shared.as_slice())?;
        let key = places_of(alloc, columns, shared.as_slice())?;
        let rest = places_of(alloc, columns, others.as_slice())?;
        let names = append_names(alloc, own, others.as_slice())?;
        let joined = join::join_rows(
            alloc,
            self.rows,
            own_key.as_slice(),
            rows,
            key.as_slice(),
            rest.as_slice(),
        )?;
        Ok(Relation {
            columns: names,
            rows: joined,
        })
    }

    /// The rows that are not among others.
    pub fn without(self, alloc: Global, gone: Rows) -> Result<Relation, NoMemory>
        ensures { IfOk result (λ kept. table_of kept ≡ record (table_of self) { rows = without self.rows gone }) }
    {
        Ok(Relation {
            columns: self.columns,
            rows: rows::without(alloc, self.rows, gone)?,
        })
    }
}

fn join_onto(alloc: Global, first: Relation, others: &[Relation]) -> Result<Relation, NoMemory>
    ensures { IfOk result (λ all. table_of all ≡ fold join (table_of first) (map table_of others.now)) }
{
    let mut joined = first;
    for other in others {
        joined = joined.join(alloc, other)?;
    }
    Ok(joined)
}

/// The join of relations, grouped to the left. The first one is not copied.
pub fn join_all(alloc: Global, relations: Vec<Relation>) -> Result<Relation, NoMemory>
    ensures { IfOk result (λ all. table_of all ≡ join_all (map table_of relations.items)) }
{
    if relations.is_empty() {
        return Relation::unit(alloc);
    }
    let mut others = relations;
    let first = others.remove(0);
    join_onto(alloc, first, others.as_slice())
}
