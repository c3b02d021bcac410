ghost use Rattle.std.specs.Prelude.{◌≡◌, ◌+◌, ◌≤◌, IfOk, IfSome, OnOk, is_err};
ghost use Rattle.wh_io.specs.Causes.{IsCounted, IsCountedPair};
ghost use Rattle.wh_io.specs.Crash.{IsSettled, LeavesOnly};
ghost use Rattle.wh_journal.specs.File.{is_empty};
ghost use Rattle.wh_store.specs.Store.{are_empty};

use wh_base::Failed;
use wh_io::Disk;

/// The mark that a frame follows.
const OPEN: u8 = 1;

// Whether a file is empty, once what is pending is settled.
#[tactic(auto, using(crate::proofs::FirstByte::short_is_empty, crate::proofs::FirstByte::first_decides))]
fn is_empty<D: Disk>(disk: &mut D) -> Result<bool, Failed>
    ensures empty { IfOk result (λ empty. IfSome (D.content disk.old) (λ file. empty ≡ is_empty file)) }
    ensures same { D.content disk.new ≡ D.content disk.old }
    ensures durable { OnOk result (IsSettled (D.content disk.new) (D.images disk.new)) }
    ensures any_moment { LeavesOnly D.moment D.images_since disk.old disk.new (D.images disk.old) }
    ensures reads { D.reads disk.new ≤ D.reads disk.old + 1 }
    ensures cause { IsCounted (is_err result) (D.faults disk.old) (D.faults disk.new) }
{
    disk.sync()?;
    let length = disk.length()?;
    if length <= 1 {
        return Ok(true);
    }
    let mut first = [0];
    disk.read_at(0, &mut first)?;
    Ok(first[0] != OPEN)
}

/// Whether both files of a store are empty. It settles what is pending, and changes no byte.
pub fn both_empty<D: Disk>(first: &mut D, second: &mut D) -> Result<bool, Failed>
    ensures empty { IfOk result (λ empty. IfSome (D.content first.old) (λ a. IfSome (D.content second.old) (λ b. empty ≡ are_empty a b))) }
    ensures first_same { D.content first.new ≡ D.content first.old }
    ensures second_same { D.content second.new ≡ D.content second.old }
    ensures first_durable { OnOk result (IsSettled (D.content first.new) (D.images first.new)) }
    ensures second_durable { OnOk result (IsSettled (D.content second.new) (D.images second.new)) }
    ensures first_moments { LeavesOnly D.moment D.images_since first.old first.new (D.images first.old) }
    ensures second_moments { LeavesOnly D.moment D.images_since second.old second.new (D.images second.old) }
    ensures first_reads { D.reads first.new ≤ D.reads first.old + 1 }
    ensures second_reads { D.reads second.new ≤ D.reads second.old + 1 }
    ensures cause { IsCountedPair (is_err result) (D.faults first.old) (D.faults first.new) (D.faults second.old) (D.faults second.new) }
{
    let first_is_empty = is_empty(first)?;
    let second_is_empty = is_empty(second)?;
    Ok(first_is_empty && second_is_empty)
}
