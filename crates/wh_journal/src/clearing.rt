ghost use Rattle.std.specs.Prelude.{◌≡◌, ◌+◌, ◌≤◌, length, IfOk, IfSome, OnOk, is_err, max};
ghost use Rattle.std.specs.Option.{ForSome, option_map};
ghost use Rattle.wh_io.specs.Causes.{IsCounted};
ghost use Rattle.wh_io.specs.Crash.{IsSettled, SameImages, LeavesOnly};
ghost use Rattle.wh_journal.specs.Journal.{IsJournalOf, IsKeptOrEmpty, is_unshut, shut, cleared};

use crate::file::{CLOSED, OPEN};
use crate::journal::{Journal, cut_behind};
use wh_base::Failed;
use wh_io::{Disk, write_settled};

/// The file's length, and whether its first byte is an open mark or missing.
pub(crate) fn look<D: Disk>(disk: &mut D) -> Result<(u64, bool), Failed>
    ensures length { IfOk result (λ seen. ForSome (D.content disk.new) (λ file. seen.0 ≡ length file)) }
    ensures first { IfOk result (λ seen. ForSome (D.content disk.new) (λ file. seen.1 ≡ is_unshut file)) }
    ensures same { D.content disk.new ≡ D.content disk.old }
    ensures images { SameImages (D.images disk.old) (D.images disk.new) }
    ensures any_moment { LeavesOnly D.moment D.images_since disk.old disk.new (D.images disk.old) }
    ensures reads { D.reads disk.new ≤ D.reads disk.old + 1 }
    ensures within { IfSome (D.content disk.old) (λ file. D.reads disk.new ≤ D.reads disk.old + length file) }
    ensures cause { IsCounted (is_err result) (D.faults disk.old) (D.faults disk.new) }
{
    let length = disk.length()?;
    if length == 0 {
        return Ok((length, true));
    }
    let mut first = [0];
    disk.read_at(0, &mut first)?;
    Ok((length, first[0] == OPEN))
}

// Writes a closed mark as the first byte, where none stands there.
fn shut_first<D: Disk>(disk: &mut D, unshut: bool) -> Result<(), Failed>
    requires { ForSome (D.content disk.old) (λ file. unshut ≡ is_unshut file) }
    ensures file { OnOk result (D.content disk.new ≡ option_map shut (D.content disk.old)) }
    ensures durable { IsSettled (D.content disk.old) (D.images disk.old) → OnOk result (IsSettled (D.content disk.new) (D.images disk.new)) }
    ensures any_moment { IsSettled (D.content disk.old) (D.images disk.old) → IfSome (D.content disk.old) (λ file. LeavesOnly D.moment D.images_since disk.old disk.new (IsKeptOrEmpty file)) }
    ensures reads { D.reads disk.new ≡ D.reads disk.old }
    ensures cause { IsCounted (is_err result) (D.faults disk.old) (D.faults disk.new) }
{
    if unshut {
        write_settled(disk, 0, &[CLOSED])
    } else {
        Ok(())
    }
}

// A cut part may come back until the sync, so the first byte is shut before.
fn shut_and_cut<D: Disk>(disk: &mut D, len: u64, unshut: bool) -> Result<(), Failed>
    requires length { ForSome (D.content disk.old) (λ file. len ≡ length file) }
    requires first { ForSome (D.content disk.old) (λ file. unshut ≡ is_unshut file) }
    ensures file { OnOk result (D.content disk.new ≡ option_map cleared (D.content disk.old)) }
    ensures durable { IsSettled (D.content disk.old) (D.images disk.old) → OnOk result (IsSettled (D.content disk.new) (D.images disk.new)) }
    ensures any_moment { IsSettled (D.content disk.old) (D.images disk.old) → IfSome (D.content disk.old) (λ file. LeavesOnly D.moment D.images_since disk.old disk.new (IsKeptOrEmpty file)) }
    ensures reads { D.reads disk.new ≡ D.reads disk.old }
    ensures cause { IsCounted (is_err result) (D.faults disk.old) (D.faults disk.new) }
{
    shut_first(disk, unshut)?;
    cut_behind(disk, 0, len.max(1))
}

/// Makes the file one closed mark. Where nothing was pending, a crash at any moment of the call leaves the file as it
/// was or an empty one. At `Failed`, recover the file again.
pub fn clear<D: Disk>(disk: &mut D) -> Result<Journal, Failed>
    ensures file { OnOk result (D.content disk.new ≡ option_map cleared (D.content disk.old)) }
    ensures journal { IfOk result (λ journal. journal ≡ record { end = 0; length = 1 }) }
    ensures place { IfOk result (λ journal. ForSome (D.content disk.new) (λ file. IsJournalOf file journal)) }
    ensures durable { IsSettled (D.content disk.old) (D.images disk.old) → OnOk result (IsSettled (D.content disk.new) (D.images disk.new)) }
    ensures any_moment { IsSettled (D.content disk.old) (D.images disk.old) → IfSome (D.content disk.old) (λ file. LeavesOnly D.moment D.images_since disk.old disk.new (IsKeptOrEmpty file)) }
    ensures reads { D.reads disk.new ≤ D.reads disk.old + 1 }
    ensures cause { IsCounted (is_err result) (D.faults disk.old) (D.faults disk.new) }
{
    let (length, unshut) = look(disk)?;
    shut_and_cut(disk, length, unshut)?;
    Ok(Journal { end: 0, length: 1 })
}
