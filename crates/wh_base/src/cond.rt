ghost use Rattle.std.specs.Prelude.{◌≡◌, ◌<◌, ◌+◌, ◌^◌, min, map, IfOk};
ghost use Rattle.wh_base.specs.Columns.{names_of, value_at};
ghost use Rattle.wh_base.specs.Cond.{kind_of, operand_kind, operand_value, found_value, comparison_faults, faults, first_fault, satisfies, holds, nodes};
ghost use Rattle.wh_base.specs.Value.{value_cmp};

use crate::columns::{Named, place_of};
use crate::memory::NoMemory;
use crate::sequence::Duplicate;
use crate::value::{Attr, Attrs, Bytes, Kind, Name, Row, Value};
use sqlite_items::Boxed;
use std::alloc::Global;
use std::cmp::Ordering;

/// One side of a comparison.
#[derive(Debug, Drop)]
pub enum Operand {
    Attr(Name),
    Int(i64),
    Text(Bytes),
}

#[derive(Clone, Copy, Debug, PartialEq, Eq)]
pub enum Op {
    Eq,
    Ne,
    Lt,
    Le,
    Gt,
    Ge,
}

/// A condition on the values of a row.
#[derive(Debug, Drop)]
pub enum Cond {
    Always,
    Cmp(Operand, Op, Operand),
    And(Boxed<Cond>, Boxed<Cond>),
    Or(Boxed<Cond>, Boxed<Cond>),
    Not(Boxed<Cond>),
}

impl Duplicate for Operand {
    fn copy(&self, alloc: Global) -> Result<Operand, NoMemory> {
        match self {
            Operand::Attr(name) => Ok(Operand::Attr(name.copy(alloc)?)),
            Operand::Int(number) => Ok(Operand::Int(*number)),
            Operand::Text(bytes) => Ok(Operand::Text(bytes.copy(alloc)?)),
        }
    }
}

fn boxed(alloc: Global, cond: Cond) -> Result<Boxed<Cond>, NoMemory>
    ensures { IfOk result (λ b. b ≡ cond) }
{
    Ok(Boxed::new(alloc, cond)?)
}

impl Duplicate for Cond {
    fn copy(&self, alloc: Global) -> Result<Cond, NoMemory> {
        match self {
            Cond::Always => Ok(Cond::Always),
            Cond::Cmp(left, op, right) => {
                Ok(Cond::Cmp(left.copy(alloc)?, *op, right.copy(alloc)?))
            }
            Cond::And(left, right) => Ok(Cond::And(
                boxed(alloc, left.get().copy(alloc)?)?,
                boxed(alloc, right.get().copy(alloc)?)?,
            )),
            Cond::Or(left, right) => Ok(Cond::Or(
                boxed(alloc, left.get().copy(alloc)?)?,
                boxed(alloc, right.get().copy(alloc)?)?,
            )),
            Cond::Not(inner) => Ok(Cond::Not(boxed(alloc, inner.get().copy(alloc)?)?)),
        }
    }
}

/// What is wrong with a condition over some attributes.
#[derive(Clone, Copy, Debug, PartialEq, Eq)]
pub enum CondFault {
    UnknownAttr,
    KindMismatch,
}

/// The value of an operand on a row.
#[derive(Drop)]
enum Found<'a> {
    Int(i64),
    Text(&'a Bytes),
}

/// The kind of the attribute with the name, or None where no attribute has it.
pub fn kind_of(name: &Name, attrs: &[Attr]) -> Option<Kind>
    ensures { result ≡ kind_of name.now attrs.now }
{
    for attr in attrs {
        if *name == attr.name {
            return Some(attr.kind);
        }
    }
    None
}

fn operand_kind(operand: &Operand, attrs: &Attrs) -> Option<Kind>
    ensures { result ≡ operand_kind operand.now attrs.now }
{
    match operand {
        Operand::Attr(name) => kind_of(name, attrs.as_slice()),
        Operand::Int(_) => Some(Kind::Int),
        Operand::Text(_) => Some(Kind::Text),
    }
}

fn comparison_typed(left: &Operand, right: &Operand, attrs: &Attrs) -> Result<(), CondFault>
    ensures { result ≡ first_fault (comparison_faults (operand_kind left.now attrs.now) (operand_kind right.now attrs.now)) }
{
    match (operand_kind(left, attrs), operand_kind(right, attrs)) {
        (Some(Kind::Int), Some(Kind::Int)) | (Some(Kind::Text), Some(Kind::Text)) => Ok(()),
        (Some(_), Some(_)) => Err(CondFault::KindMismatch),
        (_, _) => Err(CondFault::UnknownAttr),
    }
}

/// Tests that a condition's names are attributes and that it compares values of one kind.
pub fn cond_typed(c: &Cond, attrs: &Attrs) -> Result<(), CondFault>
    ensures { result ≡ first_fault (faults c.now attrs.now) }
{
    match c {
        Cond::Always => Ok(()),
        Cond::Cmp(left, _, right) => comparison_typed(left, right, attrs),
        Cond::And(left, right) | Cond::Or(left, right) => {
            cond_typed(left.get(), attrs)?;
            cond_typed(right.get(), attrs)
        }
        Cond::Not(inner) => cond_typed(inner.get(), attrs),
    }
}

fn found_from(value: &Value) -> Found<'_>
    ensures { found_value result ≡ value.now }
{
    match value {
        Value::Int(number) => Found::Int(*number),
        Value::Text(bytes) => Found::Text(bytes),
    }
}

fn found_at(row: &Row, place: usize) -> Found<'_>
    ensures { found_value result ≡ value_at row.now place }
{
    match row.get(place) {
        Some(value) => found_from(value),
        None => Found::Int(0),
    }
}

fn find_value<'a, N: Named>(operand: &'a Operand, columns: &[N], row: &'a Row) -> Found<'a>
    ensures { found_value result ≡ operand_value operand.now (map N.name_of columns.now) row.now }
{
    match operand {
        Operand::Attr(name) => found_at(row, place_of(columns, name)),
        Operand::Int(number) => Found::Int(*number),
        Operand::Text(bytes) => Found::Text(bytes),
    }
}

fn found_cmp(a: Found<'_>, b: Found<'_>) -> Ordering
    ensures { result ≡ value_cmp (found_value a.entry) (found_value b.entry) }
{
    match (a, b) {
        (Found::Int(x), Found::Int(y)) => x.cmp(&y),
        (Found::Int(_), Found::Text(_)) => Ordering::Less,
        (Found::Text(_), Found::Int(_)) => Ordering::Greater,
        (Found::Text(x), Found::Text(y)) => x.cmp(y),
    }
}

impl Op {
    fn is_satisfied(self, order: Ordering) -> bool
        ensures { result ≡ satisfies self order }
    {
        match self {
            Op::Eq => order.is_eq(),
            Op::Ne => order.is_ne(),
            Op::Lt => order.is_lt(),
            Op::Le => order.is_le(),
            Op::Gt => order.is_gt(),
            Op::Ge => order.is_ge(),
        }
    }
}

fn comparison_holds<N: Named>(
    left: &Operand,
    op: Op,
    right: &Operand,
    columns: &[N],
    row: &Row,
) -> bool
    ensures { result ≡ satisfies op (value_cmp (operand_value left.now (map N.name_of columns.now) row.now) (operand_value right.now (map N.name_of columns.now) row.now)) }
{
    let left = find_value(left, columns, row);
    let right = find_value(right, columns, row);
    op.is_satisfied(found_cmp(left, right))
}

/// Whether a condition is true of a row with some columns. A name that is no column reads as 0.
pub fn is_true_of<N: Named>(c: &Cond, columns: &[N], row: &Row) -> bool
    ensures { result ≡ holds c.now (map N.name_of columns.now) row.now }
{
    match c {
        Cond::Always => true,
        Cond::Cmp(left, op, right) => comparison_holds(left, *op, right, columns, row),
        Cond::And(left, right) => {
            is_true_of(left.get(), columns, row) && is_true_of(right.get(), columns, row)
        }
        Cond::Or(left, right) => {
            is_true_of(left.get(), columns, row) || is_true_of(right.get(), columns, row)
        }
        Cond::Not(inner) => !is_true_of(inner.get(), columns, row),
    }
}

/// The truth of a condition on a row.
pub fn cond_holds(c: &Cond, attrs: &Attrs, r: &Row) -> bool
    ensures { result ≡ holds c.now (names_of attrs.now) r.now }
{
    is_true_of(c, attrs.as_slice(), r)
}

/// How many comparisons, `and`, `or` and `not` a condition has, or `most + 1` where it has more.
pub fn nodes_up_to(c: &Cond, most: usize) -> usize
    requires { most < 2 ^ 32 }
    ensures { result ≡ min (nodes c.now) (most + 1) }
{
    match c {
        Cond::Always => 0,
        Cond::Cmp(_, _, _) => 1,
        Cond::And(left, right) | Cond::Or(left, right) => {
            let both = nodes_up_to(left.get(), most) + nodes_up_to(right.get(), most) + 1;
            both.min(most + 1)
        }
        Cond::Not(inner) => (nodes_up_to(inner.get(), most) + 1).min(most + 1),
    }
}
