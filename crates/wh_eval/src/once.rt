// The operations of the algebra with each row of the result once.
ghost use Rattle.std.specs.Prelude.{◌≡◌, map, IfOk};
ghost use Rattle.wh_base.specs.Tables.{project, join, union, minus};
ghost use Rattle.wh_expr.specs.Rename.{new_name, rename};
ghost use Rattle.wh_expr.specs.Narrowed.{narrowed};
ghost use Rattle.wh_eval.specs.Evaluates.{Evaluates};
ghost use Rattle.wh_eval.specs.Relation.{table_of};

use crate::relation::Relation;
use crate::{look_up, rows};
use std::alloc::Global;
use wh_base::{Name, Names, NoMemory, Row, distinct_rows};
use wh_expr::{Pairs, new_name};

/// The relation with each row once.
fn each_once(alloc: Global, relation: Relation) -> Result<Relation, NoMemory>
    ensures { IfOk result (λ once. Evaluates once (table_of relation)) }
{
    Ok(Relation {
        columns: relation.columns,
        rows: distinct_rows(alloc, relation.rows)?,
    })
}

/// The rows cut to names.
pub(crate) fn project(
    alloc: Global,
    relation: Relation,
    names: &Names,
) -> Result<Relation, NoMemory>
    ensures { IfOk result (λ cuts. Evaluates cuts (project names.now (table_of relation))) }
{
    each_once(alloc, relation.project(alloc, names)?)
}

/// The combined row of each pair that agrees on all shared columns.
pub(crate) fn join(alloc: Global, left: Relation, right: &Relation) -> Result<Relation, NoMemory>
    ensures { IfOk result (λ both. Evaluates both (join (table_of left) (table_of right.now))) }
{
    each_once(alloc, left.join(alloc, right)?)
}

/// The rows of both, in the left order of columns.
fn appended(alloc: Global, left: Relation, right: Relation) -> Result<Relation, NoMemory>
    ensures { IfOk result (λ both. table_of both ≡ union (table_of left) (table_of right)) }
{
    let arranged = right.project(alloc, &left.columns)?;
    Ok(Relation {
        columns: left.columns,
        rows: rows::append(left.rows, arranged.rows)?,
    })
}

/// The rows of both, in the left order of columns.
pub(crate) fn union(alloc: Global, left: Relation, right: Relation) -> Result<Relation, NoMemory>
    ensures { IfOk result (λ both. Evaluates both (union (table_of left) (table_of right))) }
{
    each_once(alloc, appended(alloc, left, right)?)
}

/// The left rows that are no right rows.
pub(crate) fn minus(alloc: Global, left: Relation, right: Relation) -> Result<Relation, NoMemory>
    ensures { IfOk result (λ kept. table_of kept ≡ minus (table_of left) (table_of right)) }
{
    let arranged = right.project(alloc, &left.columns)?;
    left.without(alloc, arranged.rows)
}

fn new_names(alloc: Global, pairs: &Pairs, names: &[Name]) -> Result<Names, NoMemory>
    ensures { IfOk result (λ renamed. renamed ≡ map (new_name pairs.now) names.now) }
{
    let mut renamed = Names::new(alloc);
    for name in names {
        renamed.push(new_name(alloc, pairs.as_slice(), name)?)?;
    }
    Ok(renamed)
}

/// The same rows under new names.
pub(crate) fn rename(alloc: Global, relation: Relation, pairs: &Pairs) -> Result<Relation, NoMemory>
    ensures { IfOk result (λ renamed. table_of renamed ≡ rename pairs.now (table_of relation)) }
{
    Ok(Relation {
        columns: new_names(alloc, pairs, relation.columns.as_slice())?,
        rows: relation.rows,
    })
}

/// The rows with these values at the columns.
pub(crate) fn narrow(
    alloc: Global,
    relation: Relation,
    cols: &Names,
    vals: &Row,
) -> Result<Relation, NoMemory>
    ensures { IfOk result (λ found. table_of found ≡ narrowed cols.now vals.now (table_of relation)) }
{
    let rows = look_up::rows_where(
        alloc,
        relation.rows,
        relation.columns.as_slice(),
        cols.as_slice(),
        vals,
    )?;
    Ok(Relation {
        columns: relation.columns,
        rows,
    })
}
