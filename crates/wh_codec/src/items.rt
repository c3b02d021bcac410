// The parts of a body, from values up to the deltas of tables.
ghost use Rattle.std.specs.Prelude.{◌≡◌};
ghost use Rattle.wh_codec.specs.Body.{IsSpelledValue, IsSpelledRow, IsSpelledTable, IsSpelledDelta, value_bytes, row_bytes, table_bytes, delta_bytes};
ghost use Rattle.wh_codec.specs.Reading.{Gives, counted_at, value_at, row_at, table_at, delta_at};

use crate::fault::FrameFault;
use crate::ordered::is_in_form;
use crate::part::{Part, put_counted, put_many, read_counted, read_many};
use crate::value::{put_value, read_value};
use std::alloc::Global;
use wh_base::{ByteText, Delta, NoMemory, Row, Rows, Value};

impl Part for Value {
    ghost part_at = { value_at };

    ghost spelling = { value_bytes };

    ghost fits = { IsSpelledValue };

    fn read(alloc: Global, bytes: &[u8]) -> Result<(Value, &[u8]), FrameFault> {
        read_value(alloc, bytes)
    }

    fn put(&self, out: &mut ByteText) -> Result<(), NoMemory> {
        put_value(out, self)
    }
}

impl Part for Row {
    ghost part_at = { row_at };

    ghost spelling = { row_bytes };

    ghost fits = { IsSpelledRow };

    #[tactic(auto, unfolding(crate::specs::Reading::row_at))]
    fn read(alloc: Global, bytes: &[u8]) -> Result<(Row, &[u8]), FrameFault> {
        match bytes {
            [width, rest @ ..] => read_many(alloc, *width as u32, rest),
            [] => Err(FrameFault::Bad),
        }
    }

    fn put(&self, out: &mut ByteText) -> Result<(), NoMemory> {
        out.push(self.len() as u8)?;
        put_many(out, self.as_slice())
    }
}

impl Part for Rows {
    ghost part_at = { table_at };

    ghost spelling = { table_bytes };

    ghost fits = { IsSpelledTable };

    #[tactic(auto, unfolding(crate::specs::Reading::table_at))]
    fn read(alloc: Global, bytes: &[u8]) -> Result<(Rows, &[u8]), FrameFault> {
        let (rows, rest): (Rows, &[u8]) = read_counted(alloc, bytes)?;
        if !is_in_form(rows.as_slice()) {
            return Err(FrameFault::Bad);
        }
        Ok((rows, rest))
    }

    fn put(&self, out: &mut ByteText) -> Result<(), NoMemory> {
        put_counted(out, self)
    }
}

impl Part for Delta {
    ghost part_at = { delta_at };

    ghost spelling = { delta_bytes };

    ghost fits = { IsSpelledDelta };

    #[tactic(auto, unfolding(crate::specs::Reading::delta_at))]
    fn read(alloc: Global, bytes: &[u8]) -> Result<(Delta, &[u8]), FrameFault> {
        let (deleted, rest) = Rows::read(alloc, bytes)?;
        let (inserted, rest) = Rows::read(alloc, rest)?;
        Ok((Delta { deleted, inserted }, rest))
    }

    fn put(&self, out: &mut ByteText) -> Result<(), NoMemory> {
        self.deleted.put(out)?;
        self.inserted.put(out)
    }
}
