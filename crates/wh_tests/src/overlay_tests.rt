// Two changes of two relations in memory, one over the other.
ghost use Rattle.std.specs.Prelude.{◌≡◌, ◌∷◌, [], codes, length, nat_lt, IfOk, IsTrue};
ghost use Rattle.wh_base.specs.RowSet.{AreDistinct};
ghost use Rattle.wh_eval.specs.Lists.{HasDistinctRows};
ghost use Rattle.wh_expr.specs.Meaning.{uses_only};

use sqlite_items::Boxed;
use std::alloc::Global;
use std::test::Fail;
use wh_base::{
    Attr, Attrs, Delta, Head, Heads, Kind, Name, Names, NoMemory, Row, Rows, SourceDeltas, State,
    Value, all_in, distinct_rows, sort_rows,
};
use wh_eval::{Base, Lists, columns_of, eval};
use wh_expr::{Expr, typed};
use wh_overlay::Overlay;
use wh_steps::{CountLedger, Ledger, Steps};

// The numbers of Emp(clerk, age) and Sale(item, clerk).
const EMP: u32 = 0;

const SALE: u32 = 1;

// Rows of integers.
type Listed<'a> = &'a [&'a [i64]];

const EMP_ROWS: Listed<'_> = &[&[1, 20], &[2, 30], &[3, 40]];

const SALE_ROWS: Listed<'_> = &[&[10, 1], &[11, 2], &[12, 3]];

// The deleted and the inserted rows of each relation.
type Change<'a> = ((Listed<'a>, Listed<'a>), (Listed<'a>, Listed<'a>));

// The first change: clerk 1 and his sale leave, clerk 4 comes with two.
const FIRST: Change<'_> = (
    (&[&[1, 20]], &[&[4, 50]]),
    (&[&[10, 1]], &[&[13, 4], &[14, 2]]),
);

// The second one: clerk 4 leaves, clerk 1 comes back older and sells again. A row that is not there is deleted, and one that is
// there is inserted.
const SECOND: Change<'_> = (
    (&[&[4, 50], &[9, 9]], &[&[1, 21], &[2, 30]]),
    (&[&[14, 2]], &[&[15, 1]]),
);

// All sales then, those of clerk 2, and the sales with the ages of their clerks.
const SALES: Listed<'_> = &[&[11, 2], &[12, 3], &[13, 4], &[15, 1]];

const SALES_OF_CLERK: Listed<'_> = &[&[11, 2]];

const SALES_WITH_AGES: Listed<'_> = &[&[11, 2, 30], &[12, 3, 40], &[15, 1, 21]];

fn name(alloc: Global, text: &[u8]) -> Result<Name, NoMemory>
    ensures { IfOk result (λ name. name ≡ text.now) }
{
    Ok(Name::from_vec(Vec::from_slice(alloc, text)?))
}

fn attr(alloc: Global, text: &[u8]) -> Result<Attr, NoMemory> {
    Ok(Attr {
        name: name(alloc, text)?,
        kind: Kind::Int,
    })
}

fn head(alloc: Global, left: &[u8], right: &[u8]) -> Result<Head, NoMemory> {
    let mut attrs = Attrs::new(alloc);
    attrs.push(attr(alloc, left)?)?;
    attrs.push(attr(alloc, right)?)?;
    Ok(Head {
        name: Name::new(alloc),
        attrs,
    })
}

fn heads(alloc: Global) -> Result<Heads, NoMemory>
    ensures { IfOk result (λ heads. length heads ≡ 2) }
{
    let mut heads = Heads::new(alloc);
    heads.push(head(alloc, b"clerk", b"age")?)?;
    heads.push(head(alloc, b"item", b"clerk")?)?;
    Ok(heads)
}

fn row(alloc: Global, values: &[i64]) -> Result<Row, NoMemory> {
    let mut row = Row::new(alloc);
    for value in values {
        row.push(Value::Int(*value))?;
    }
    Ok(row)
}

fn rows(alloc: Global, listed: Listed<'_>) -> Result<Rows, NoMemory>
    ensures { IfOk result AreDistinct }
{
    let mut rows = Rows::new(alloc);
    for values in listed {
        rows.push(row(alloc, values)?)?;
    }
    distinct_rows(alloc, rows)
}

fn state_of(alloc: Global, emp: Rows, sale: Rows) -> Result<State, NoMemory>
    requires emp { AreDistinct emp }
    requires sale { AreDistinct sale }
    ensures count { IfOk result (λ state. length state ≡ 2) }
    ensures distinct { IfOk result HasDistinctRows }
{
    let mut state = State::new(alloc);
    state.push(emp)?;
    state.push(sale)?;
    Ok(state)
}

fn state(alloc: Global) -> Result<State, NoMemory>
    ensures count { IfOk result (λ state. length state ≡ 2) }
    ensures distinct { IfOk result HasDistinctRows }
{
    let emp = rows(alloc, EMP_ROWS)?;
    let sale = rows(alloc, SALE_ROWS)?;
    state_of(alloc, emp, sale)
}

fn delta(alloc: Global, listed: &(Listed<'_>, Listed<'_>)) -> Result<Delta, NoMemory> {
    Ok(Delta {
        deleted: rows(alloc, listed.0)?,
        inserted: rows(alloc, listed.1)?,
    })
}

fn deltas(alloc: Global, change: &Change<'_>) -> Result<SourceDeltas, NoMemory>
    ensures { IfOk result (λ deltas. length deltas ≡ 2) }
{
    let mut deltas = SourceDeltas::new(alloc);
    deltas.push(delta(alloc, &change.0)?)?;
    deltas.push(delta(alloc, &change.1)?)?;
    Ok(deltas)
}

fn clerk_names(alloc: Global) -> Result<Names, NoMemory>
    ensures { IfOk result (λ names. names ≡ codes "clerk" ∷ []) }
{
    let mut names = Names::new(alloc);
    names.push(name(alloc, b"clerk")?)?;
    Ok(names)
}

fn one_value(alloc: Global, value: i64) -> Result<Row, NoMemory>
    ensures { IfOk result (λ row. length row ≡ 1) }
{
    let mut row = Row::new(alloc);
    row.push(Value::Int(value))?;
    Ok(row)
}

// Whether a base's sales are these.
fn sales_are_told<B: Base, L: Ledger>(
    alloc: Global,
    base: &B,
    steps: &mut Steps<L>,
) -> Result<bool, NoMemory>
    requires { IsTrue (B.has_number base.now 1) }
{
    let found = sort_rows(base.rows(alloc, SALE, steps)?)?;
    Ok(found == rows(alloc, SALES)?)
}

fn sales_of_clerk<B: Base, L: Ledger>(
    alloc: Global,
    base: &B,
    steps: &mut Steps<L>,
) -> Result<Rows, NoMemory>
    requires { IsTrue (B.has_number base.now 1) }
{
    let cols = clerk_names(alloc)?;
    let vals = one_value(alloc, 2)?;
    let columns = columns_of(alloc, base.heads(), SALE)?;
    if !all_in(columns.as_slice(), cols.as_slice()) {
        return Err(NoMemory);
    }
    base.rows_where(alloc, SALE, &cols, &vals, steps)
}

// Whether a look-up of a base's sales finds these, row for row.
fn sales_of_clerk_are_told<B: Base, L: Ledger>(
    alloc: Global,
    base: &B,
    steps: &mut Steps<L>,
) -> Result<bool, NoMemory>
    requires { IsTrue (B.has_number base.now 1) }
{
    let found = sales_of_clerk(alloc, base, steps)?;
    Ok(found == rows(alloc, SALES_OF_CLERK)?)
}

// The join of the sales and the clerks.
fn joined(alloc: Global, heads: &Heads) -> Result<Expr, NoMemory>
    ensures { IfOk result (λ e. IsTrue (uses_only (λ n. nat_lt n (length heads.now)) e)) }
{
    let left = Boxed::new(alloc, Expr::Base(SALE))?;
    let right = Boxed::new(alloc, Expr::Base(EMP))?;
    let both = Expr::Join(left, right);
    match typed(alloc, &both, heads) {
        Ok(_attrs) => Ok(both),
        Err(_fault) => Err(NoMemory),
    }
}

// Whether a join over a base has the sales with the ages of their clerks.
fn sales_with_ages_are_told<B: Base, L: Ledger>(
    alloc: Global,
    base: &B,
    joined: &Expr,
    steps: &mut Steps<L>,
) -> Result<bool, NoMemory>
    requires { IsTrue (uses_only (B.has_number base.now) joined.now) }
{
    let found = sort_rows(eval(alloc, joined, base, steps)?)?;
    Ok(found == rows(alloc, SALES_WITH_AGES)?)
}

fn is_told<B: Base, L: Ledger>(
    alloc: Global,
    base: &B,
    joined: &Expr,
    steps: &mut Steps<L>,
) -> Result<bool, NoMemory>
    requires sale { IsTrue (B.has_number base.now 1) }
    requires joined { IsTrue (uses_only (B.has_number base.now) joined.now) }
{
    Ok(
        sales_are_told(alloc, base, steps)?
            && sales_of_clerk_are_told(alloc, base, steps)?
            && sales_with_ages_are_told(alloc, base, joined, steps)?,
    )
}

// Whether two changes, one over the other over lists, are told.
fn changes_are_told<L: Ledger>(
    alloc: Global,
    lists: &Lists<'_>,
    first: &SourceDeltas,
    second: &SourceDeltas,
    joined: &Expr,
    steps: &mut Steps<L>,
) -> Result<bool, NoMemory>
    requires lists { length lists.now.rows.now ≡ 2 }
    requires first { length first.now ≡ 2 }
    requires second { length second.now ≡ 2 }
    requires joined { IsTrue (uses_only (λ n. nat_lt n 2) joined.now) }
{
    let once = Overlay::new(alloc, lists, first)?;
    let twice = Overlay::new(alloc, &once, second)?;
    is_told(alloc, &twice, joined, steps)
}

fn are_told_over<L: Ledger>(
    alloc: Global,
    heads: &Heads,
    state: &State,
    steps: &mut Steps<L>,
) -> Result<bool, NoMemory>
    requires heads { length heads.now ≡ 2 }
    requires count { length state.now ≡ 2 }
    requires distinct { HasDistinctRows state.now }
{
    let first = deltas(alloc, &FIRST)?;
    let second = deltas(alloc, &SECOND)?;
    let joined = joined(alloc, heads)?;
    let lists = Lists::new(heads, state);
    changes_are_told(alloc, &lists, &first, &second, &joined, steps)
}

fn all_are_told<L: Ledger>(alloc: Global, steps: &mut Steps<L>) -> Result<bool, NoMemory> {
    let heads = heads(alloc)?;
    let state = state(alloc)?;
    are_told_over(alloc, &heads, &state, steps)
}

#[test]
fn changes_are_laid_over_each_other(rt: HostRuntime) -> Result<(), Fail> {
    let mut steps = Steps::new(&rt, CountLedger::new());
    assert!(rt; all_are_told(rt.alloc(), &mut steps)?);
    // Each list below is read as a whole once for each time that it is asked for.
    assert_eq!(rt; steps.ledger().scans, 3);
    Ok(())
}
