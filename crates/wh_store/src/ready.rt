ghost use Rattle.std.specs.Prelude.{◌≡◌, ◌<◌, ◌^◌, length, IfOk};
ghost use Rattle.std.specs.List.{AllByRecursion};
ghost use Rattle.wh_codec.specs.Body.{IsSpelledChange, IsSpelledDelta};
ghost use Rattle.wh_store.specs.Commit.{CanApplyAll, AreKept, HasRoom, IsMadeReady, change_body};
ghost use Rattle.wh_store.specs.Image.{Image};
ghost use Rattle.wh_store.specs.Warehouse.{IsInForm, IsWarehouseOf};

use crate::changes::{first_over, prepare_all};
use crate::fault::StoreFault;
use crate::warehouse::{Place, Warehouse};
use std::alloc::Global;
use std::marker::Model;
use wh_base::{ByteText, NoMemory, StoredDeltas};
use wh_codec::{Frame, write_frame};
use wh_journal::{Framed, frame};
use wh_table::Prepared;

/// A change for which all memory was taken: the prepared deltas, and the frame that tells them.
#[derive(Debug, Drop)]
pub struct Ready {
    pub(crate) prepared: Vec<Prepared>,
    pub(crate) framed: Framed,
}

impl Model for Ready {
    ghost use Rattle.wh_store.specs.Commit.{ReadyChange};

    ghost Value = { ReadyChange };

    ghost view = { λ r. record { deltas = r.prepared.items; body = r.framed } };
}

// The frame of a change with a number, and the deltas again.
fn framed_change(
    alloc: Global,
    seq: u64,
    deltas: StoredDeltas,
) -> Result<(Framed, StoredDeltas), NoMemory>
    requires { IsSpelledChange seq deltas }
    ensures framed { IfOk result (λ made. made.0 ≡ change_body seq deltas) }
    ensures deltas { IfOk result (λ made. made.1 ≡ deltas) }
{
    let change = Frame::Change { seq, deltas };
    let mut body = ByteText::new(alloc);
    write_frame(alloc, &change, &mut body)?;
    let framed = frame(alloc, &body)?;
    match change {
        Frame::Change { seq: _seq, deltas } => Ok((framed, deltas)),
        Frame::Snapshot {
            generation: _generation,
            seq: _seq,
            spec: _spec,
            tables: _tables,
        } => unreachable!(),
    }
}

impl Warehouse {
    /// Takes all memory that a commit of these deltas needs, one for each table. The rows stay. It is `RowLimit` for the
    /// first table that would have more than 4,000,000 rows, then `SequenceLimit` where the number of changes is the
    /// greatest, then `FileLimit` where the file would pass 2^40 bytes.
    pub fn ready(
        &mut self,
        alloc: Global,
        place: &Place,
        deltas: StoredDeltas,
    ) -> Result<Ready, StoreFault>
        requires applies { CanApplyAll self.old.tables deltas }
        requires spelled { AllByRecursion IsSpelledDelta deltas }
        requires count { length deltas < 2 ^ 32 }
        ensures answer { IsMadeReady self.old place.now deltas result }
        ensures kept { AreKept self.old.tables self.new.tables }
        ensures plan { self.new.plan ≡ self.old.plan }
        ensures seq { self.new.seq ≡ self.old.seq }
        ensures room { IfOk result (λ r. HasRoom self.new.tables r.deltas) }
        ensures applies { IfOk result (λ r. CanApplyAll self.new.tables r.deltas) }
        ensures form { IsInForm self.old → IsInForm self.new }
        ensures image { (i : Image) → IsWarehouseOf i self.old → IsWarehouseOf i self.new }
    {
        if let Some(table) = first_over(&self.tables, &deltas) {
            let table = table as u32;
            return Err(StoreFault::RowLimit { table });
        }
        if self.seq == u64::MAX {
            return Err(StoreFault::SequenceLimit);
        }
        let (framed, deltas) = framed_change(alloc, self.seq + 1, deltas)?;
        if !place.journal.fits(&framed) {
            return Err(StoreFault::FileLimit);
        }
        let prepared = prepare_all(alloc, &mut self.tables, deltas)?;
        Ok(Ready { prepared, framed })
    }
}
