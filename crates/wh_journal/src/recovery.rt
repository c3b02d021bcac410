ghost use Rattle.std.specs.Prelude.{◌≡◌, ◌+◌, ◌≤◌, ◌<◌, length, take, true, IfOk, IfErr, IfSome, OnOk, is_err};
ghost use Rattle.std.specs.Option.{ForSome};
ghost use Rattle.wh_io.specs.Causes.{IsCounted};
ghost use Rattle.wh_io.specs.Crash.{IsSettled, SameImages, LeavesOnly};
ghost use Rattle.wh_journal.specs.Journal.{IsFound, EndsBehind, IsNoDamage, UnlessDiskFault, is_disk_fault, is_unshut};

use crate::clearing::look;
use crate::fault::JournalFault;
use crate::file::{OPEN, found_in};
use crate::found::Found;
use std::alloc::Global;
use wh_base::Failed;
use wh_io::Disk;

// Reads all but the first byte of the file, which is there already.
fn read_behind<D: Disk>(disk: &mut D, into: &mut [u8]) -> Result<(), Failed>
    requires some { 0 < length into.old }
    requires size { ForSome (D.content disk.old) (λ file. length into.old ≡ length file) }
    requires first { ForSome (D.content disk.old) (λ file. take 1 into.old ≡ take 1 file) }
    ensures bytes { OnOk result (IfSome (D.content disk.old) (λ file. into.new ≡ file)) }
    ensures same { D.content disk.new ≡ D.content disk.old }
    ensures images { SameImages (D.images disk.old) (D.images disk.new) }
    ensures any_moment { LeavesOnly D.moment D.images_since disk.old disk.new (D.images disk.old) }
    ensures reads { D.reads disk.new + 1 ≤ D.reads disk.old + length into.old }
    ensures cause { IsCounted (is_err result) (D.faults disk.old) (D.faults disk.new) }
{
    match into {
        [_, behind @ ..] => disk.read_at(1, behind),
        [] => Ok(()),
    }
}

// All bytes of a file of this length that begins with an open mark, which is not read again.
#[tactic(auto, using(crate::proofs::Looks::first_byte))]
fn read_file<D: Disk>(alloc: Global, disk: &mut D, size: u64) -> Result<Vec<u8>, JournalFault>
    requires some { 0 < size }
    requires size { ForSome (D.content disk.old) (λ file. size ≡ length file) }
    requires first { ForSome (D.content disk.old) (λ file. is_unshut file ≡ true) }
    ensures bytes { IfOk result (λ bytes. IfSome (D.content disk.old) (λ file. bytes.items ≡ file)) }
    ensures fault { IfErr result IsNoDamage }
    ensures same { D.content disk.new ≡ D.content disk.old }
    ensures images { SameImages (D.images disk.old) (D.images disk.new) }
    ensures any_moment { LeavesOnly D.moment D.images_since disk.old disk.new (D.images disk.old) }
    ensures reads { D.reads disk.new + 1 ≤ D.reads disk.old + size }
    ensures cause { IsCounted (is_disk_fault result) (D.faults disk.old) (D.faults disk.new) }
{
    let mut file = vec![in alloc; OPEN; size as usize]?;
    read_behind(disk, &mut file)?;
    Ok(file)
}

// What stands in the file: no more than its first byte is read where that is no open mark, however long the file is.
#[tactic(auto, using(crate::proofs::Looks::short_is_empty, crate::proofs::Looks::shut_is_empty))]
fn read_frames<D: Disk>(alloc: Global, disk: &mut D) -> Result<Found, JournalFault>
    ensures found { IfSome (D.content disk.old) (λ file. IsFound file result) }
    ensures end { IfOk result EndsBehind }
    ensures same { D.content disk.new ≡ D.content disk.old }
    ensures images { SameImages (D.images disk.old) (D.images disk.new) }
    ensures any_moment { LeavesOnly D.moment D.images_since disk.old disk.new (D.images disk.old) }
    ensures reads { IfSome (D.content disk.old) (λ file. D.reads disk.new ≤ D.reads disk.old + length file) }
    ensures cause { IsCounted (is_disk_fault result) (D.faults disk.old) (D.faults disk.new) }
{
    let (size, unshut) = look(disk)?;
    if size <= 1 {
        return Ok(Found::Empty);
    }
    if !unshut {
        return Ok(Found::Empty);
    }
    let file = read_file(alloc, disk, size)?;
    found_in(alloc, &file)
}

/// Settles what is pending, and reads the frames. No byte changes, and a crash at any moment of the call leaves what it
/// might have left before.
pub fn recover<D: Disk>(alloc: Global, disk: &mut D) -> Result<Found, JournalFault>
    ensures found { IfSome (D.content disk.old) (λ file. IsFound file result) }
    ensures end { IfOk result EndsBehind }
    ensures same { D.content disk.new ≡ D.content disk.old }
    ensures durable { UnlessDiskFault result (IsSettled (D.content disk.new) (D.images disk.new)) }
    ensures any_moment { LeavesOnly D.moment D.images_since disk.old disk.new (D.images disk.old) }
    ensures reads { IfSome (D.content disk.old) (λ file. D.reads disk.new ≤ D.reads disk.old + length file) }
    ensures cause { IsCounted (is_disk_fault result) (D.faults disk.old) (D.faults disk.new) }
{
    disk.sync()?;
    read_frames(alloc, disk)
}
