ghost use Rattle.std.specs.Prelude.{◌≡◌, Some, refl};
ghost use Rattle.std.specs.Cmp.{partial_equiv_from_equiv, partial_order_from_agreeing_total};
ghost use Rattle.wh_base.specs.Value.{value_cmp, value_eq, value_hash_input, row_cmp};
ghost use Rattle.wh_base.specs.ValueLaws.{value_cmp_total, value_eq_equiv, value_alike};

use crate::byte_text::ByteText;
use crate::memory::NoMemory;
use crate::sequence::{Duplicate, Sequence};
use std::alloc::Global;
use std::cmp::Ordering;
use std::hash::{Hash, Hasher};

/// A name, as its bytes.
pub type Name = Sequence<u8>;

/// Bytes, as those of a text value.
pub type Bytes = Sequence<u8>;

pub type Names = Sequence<Name>;

/// The values of one row.
pub type Row = Sequence<Value>;

pub type Rows = Sequence<Row>;

/// Places of columns, or numbers of relations.
pub type Places = Sequence<u32>;

/// The rows of each relation, by its number.
pub type State = Sequence<Rows>;

/// The rows of each stored table: the views, then the complements.
pub type StoredRows = Sequence<Rows>;

/// Sets of columns, each as the places of its columns.
pub type ColumnSets = Sequence<Places>;

pub type Texts = Sequence<ByteText>;

pub type Numbers = Sequence<u64>;

pub type Flags = Sequence<bool>;

pub type Attrs = Sequence<Attr>;

#[derive(Clone, Copy, Debug, PartialEq, Eq)]
pub enum Kind {
    Int,
    Text,
}

#[derive(Debug, Drop)]
pub enum Value {
    Int(i64),
    Text(Bytes),
}

/// A column: its name and the kind of its values.
#[derive(Debug, Drop, PartialEq, Eq)]
pub struct Attr {
    pub name: Name,
    pub kind: Kind,
}

/// What a table loses and gains.
#[derive(Debug, Drop)]
pub struct Delta {
    pub deleted: Rows,
    pub inserted: Rows,
}

/// What each relation loses and gains.
pub type SourceDeltas = Sequence<Delta>;

/// What each stored table loses and gains.
pub type StoredDeltas = Sequence<Delta>;

impl Duplicate for Value {
    fn copy(&self, alloc: Global) -> Result<Value, NoMemory> {
        match self {
            Value::Int(number) => Ok(Value::Int(*number)),
            Value::Text(bytes) => Ok(Value::Text(bytes.copy(alloc)?)),
        }
    }
}

impl Duplicate for Attr {
    fn copy(&self, alloc: Global) -> Result<Attr, NoMemory> {
        Ok(Attr {
            name: self.name.copy(alloc)?,
            kind: self.kind,
        })
    }
}

impl Duplicate for Delta {
    fn copy(&self, alloc: Global) -> Result<Delta, NoMemory> {
        Ok(Delta {
            deleted: self.deleted.copy(alloc)?,
            inserted: self.inserted.copy(alloc)?,
        })
    }
}

impl PartialEq for Value {
    ghost eq = { value_eq };

    ghost laws = { partial_equiv_from_equiv value_eq_equiv };

    fn eq(&self, other: &Value) -> bool {
        self.cmp(other).is_eq()
    }
}

impl Eq for Value {
    ghost laws = { value_eq_equiv };
}

impl PartialOrd for Value {
    ghost partial_cmp = { λ x y. Some (value_cmp x y) };

    ghost laws = { partial_order_from_agreeing_total value_cmp value_cmp_total (λ x y. refl) (λ x y. refl) };

    fn partial_cmp(&self, other: &Value) -> Option<Ordering> {
        Some(self.cmp(other))
    }
}

impl Ord for Value {
    ghost cmp = { value_cmp };

    ghost total = { value_cmp_total };

    ghost matches_partial_cmp = { λ x y. refl };

    ghost matches_eq = { λ x y. refl };

    fn cmp(&self, other: &Value) -> Ordering {
        match (self, other) {
            (Value::Int(x), Value::Int(y)) => x.cmp(y),
            (Value::Int(_), Value::Text(_)) => Ordering::Less,
            (Value::Text(_), Value::Int(_)) => Ordering::Greater,
            (Value::Text(x), Value::Text(y)) => x.cmp(y),
        }
    }
}

impl Hash for Value {
    ghost hash_input = { value_hash_input };

    ghost respects_eq = { value_alike };

    fn hash<H: Hasher>(&self, state: &mut H) {
        match self {
            Value::Int(number) => {
                state.write_u8(0);
                number.hash(state);
            }
            Value::Text(bytes) => {
                state.write_u8(1);
                bytes.hash(state);
            }
        }
    }
}

/// The row order: the first difference decides.
pub fn row_cmp(a: &Row, b: &Row) -> Ordering
    ensures { result ≡ row_cmp a.now b.now }
{
    a.cmp(b)
}
