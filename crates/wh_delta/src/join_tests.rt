// Two clerks, joined with the sales of a base.
ghost use Rattle.std.specs.Prelude.{◌≡◌, ◌∷◌, [], length, IfOk};
ghost use Rattle.wh_base.specs.RowSet.{AreDistinct};
ghost use Rattle.wh_eval.specs.Lists.{HasDistinctRows};

use super::*;
use std::alloc::Global;
use std::test::Fail;
use wh_base::{
    Attr, Attrs, Head, Heads, Kind, Name, Names, NoMemory, Row, Rows, State, Value, distinct_rows,
};
use wh_eval::{Lists, Relation, columns_of};
use wh_expr::are_distinct;
use wh_steps::{CountLedger, Ledger, Steps};

fn name(alloc: Global, text: &[u8]) -> Result<Name, NoMemory> {
    Ok(Name::from_vec(Vec::from_slice(alloc, text)?))
}

/// Sale(item, clerk).
fn heads(alloc: Global) -> Result<Heads, NoMemory> {
    let mut attrs = Attrs::new(alloc);
    for column in [b"item", b"clrk"] {
        attrs.push(Attr {
            name: name(alloc, column)?,
            kind: Kind::Int,
        })?;
    }
    let mut heads = Heads::new(alloc);
    heads.push(Head {
        name: Name::new(alloc),
        attrs,
    })?;
    Ok(heads)
}

fn pair(alloc: Global, left: i64, right: i64) -> Result<Row, NoMemory> {
    let mut row = Row::new(alloc);
    row.push(Value::Int(left))?;
    row.push(Value::Int(right))?;
    Ok(row)
}

fn pairs(alloc: Global, listed: &[(i64, i64)]) -> Result<Rows, NoMemory>
    ensures { IfOk result AreDistinct }
{
    let mut rows = Rows::new(alloc);
    for (left, right) in listed {
        rows.push(pair(alloc, *left, *right)?)?;
    }
    distinct_rows(alloc, rows)
}

fn state(alloc: Global, sales: Rows) -> Result<State, NoMemory>
    requires { AreDistinct sales }
    ensures state { IfOk result (λ state. state ≡ sales ∷ []) }
    ensures distinct { IfOk result HasDistinctRows }
{
    let mut state = State::new(alloc);
    state.push(sales)?;
    Ok(state)
}

/// Emp(clerk, age), of the clerks 1 and 2.
fn clerks(alloc: Global) -> Result<Relation, NoMemory> {
    let mut columns = Names::new(alloc);
    columns.push(name(alloc, b"clrk")?)?;
    columns.push(name(alloc, b"age")?)?;
    Ok(Relation {
        columns,
        rows: pairs(alloc, &[(1, 20), (2, 30)])?,
    })
}

fn joined<L: Ledger>(
    alloc: Global,
    heads: &Heads,
    state: &State,
    steps: &mut Steps<L>,
) -> Result<Rows, NoMemory>
    requires state { length state.now ≡ 1 }
    requires distinct { HasDistinctRows state.now }
{
    let columns = columns_of(alloc, heads, 0)?;
    if !are_distinct(columns.as_slice()) {
        return Err(NoMemory);
    }
    let lists = Lists::new(heads, state);
    Ok(outward_join(alloc, &lists, clerks(alloc)?, &[0], steps)?.rows)
}

fn has_items<L: Ledger>(alloc: Global, steps: &mut Steps<L>) -> Result<bool, NoMemory> {
    let state = state(alloc, pairs(alloc, &[(10, 1), (11, 2), (12, 3), (13, 1)])?)?;
    let rows = joined(alloc, &heads(alloc)?, &state, steps)?;
    Ok(rows.len() == 3)
}

#[test]
fn sales_are_looked_up(rt: HostRuntime) -> Result<(), Fail> {
    let mut steps = Steps::new(&rt, CountLedger::new());
    assert_eq!(rt;
        has_items(rt.alloc(), &mut steps)? && steps.ledger().scans == 0,
        true
    );
    Ok(())
}
