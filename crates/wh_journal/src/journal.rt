ghost use Rattle.std.specs.Prelude.{◌≡◌, ◌+◌, ◌-◌, ◌<◌, ◌≤◌, ◌^◌, length, take, OnOk, OnErr, IfSome, is_err, nat_le};
ghost use Rattle.std.specs.Option.{ForSome, option_map};
ghost use Rattle.wh_io.specs.Causes.{IsCounted};
ghost use Rattle.wh_io.specs.Crash.{IsSettled, LeavesOnly};
ghost use Rattle.wh_io.specs.Disk.{PartlyCut};
ghost use Rattle.wh_journal.specs.File.{frames_of};
ghost use Rattle.wh_journal.specs.Journal.{IsJournalOf, IsBeforeOrAfter, appended, with_frame};

use crate::file::OPEN;
use crate::framed::Framed;
use wh_base::Failed;
use wh_io::{Disk, cut_settled, write_settled};

/// The greatest length of a file.
const MOST: u64 = 1 << 40;

/// Where a file of frames can be appended to.
#[derive(Clone, Copy, Debug, PartialEq, Eq)]
pub struct Journal {
    /// The place of the closed mark behind the last frame.
    pub end: u64,
    /// The length of the file.
    pub length: u64,
}

// Writes the frame behind the closed mark, and then opens the mark.
fn append_at<D: Disk>(disk: &mut D, end: u64, f: &Framed) -> Result<(), Failed>
    requires place { ForSome (D.content disk.old) (λ file. IsJournalOf file (record { end = end; length = end + 1 })) }
    requires small { end + 10 + length f.now ≤ 2 ^ 40 }
    ensures file { OnOk result (D.content disk.new ≡ option_map (λ file. appended file end f.now) (D.content disk.old)) }
    ensures frames { OnOk result (option_map frames_of (D.content disk.new) ≡ option_map (λ file. with_frame (frames_of file) f.now) (D.content disk.old)) }
    ensures end { OnOk result (ForSome (D.content disk.new) (λ file. IsJournalOf file (record { end = end + (9 + length f.now); length = end + (9 + length f.now) + 1 }))) }
    ensures durable { OnOk result (IsSettled (D.content disk.new) (D.images disk.new)) }
    ensures any_moment { IsSettled (D.content disk.old) (D.images disk.old) → IfSome (D.content disk.old) (λ file. LeavesOnly D.moment D.images_since disk.old disk.new (IsBeforeOrAfter file f.now)) }
    ensures reads { D.reads disk.new ≡ D.reads disk.old }
    ensures cause { IsCounted (is_err result) (D.faults disk.old) (D.faults disk.new) }
{
    write_settled(disk, end + 1, f.as_bytes())?;
    write_settled(disk, end, &[OPEN])
}

// Cuts off what stands behind the closed mark of a file of this length.
pub(crate) fn cut_behind<D: Disk>(disk: &mut D, end: u64, length: u64) -> Result<(), Failed>
    requires place { ForSome (D.content disk.old) (λ file. IsJournalOf file (record { end = end; length = length })) }
    requires small { end < 2 ^ 64 - 1 }
    ensures file { OnOk result (D.content disk.new ≡ option_map (take (end + 1)) (D.content disk.old)) }
    ensures durable { IsSettled (D.content disk.old) (D.images disk.old) → OnOk result (IsSettled (D.content disk.new) (D.images disk.new)) }
    ensures any_moment { IsSettled (D.content disk.old) (D.images disk.old) → IfSome (D.content disk.old) (λ file. LeavesOnly D.moment D.images_since disk.old disk.new (PartlyCut (end + 1) file)) }
    ensures reads { D.reads disk.new ≡ D.reads disk.old }
    ensures cause { IsCounted (is_err result) (D.faults disk.old) (D.faults disk.new) }
{
    if length > end + 1 {
        cut_settled(disk, end + 1)
    } else {
        Ok(())
    }
}

impl Journal {
    /// Whether the file has at most 2^40 bytes after the append.
    pub fn fits(&self, f: &Framed) -> bool
        ensures { result ≡ nat_le (self.now.end + 10 + length f.now) (2 ^ 40) }
    {
        let more = f.size() + 1;
        more <= MOST && self.end <= MOST - more
    }

    /// Appends a frame to a file that ends at its closed mark. Where nothing was pending, a crash at any moment of the
    /// call leaves the frames from before it, with the new one or without. At `Failed`, recover the file again.
    pub fn append<D: Disk>(&mut self, disk: &mut D, f: &Framed) -> Result<(), Failed>
        requires file { ForSome (D.content disk.old) (λ file. IsJournalOf file self.old) }
        requires tidy { self.old.length ≡ self.old.end + 1 }
        requires fits { self.old.end + 10 + length f.now ≤ 2 ^ 40 }
        ensures file { OnOk result (D.content disk.new ≡ option_map (λ file. appended file self.old.end f.now) (D.content disk.old)) }
        ensures frames { OnOk result (option_map frames_of (D.content disk.new) ≡ option_map (λ file. with_frame (frames_of file) f.now) (D.content disk.old)) }
        ensures journal { OnOk result (ForSome (D.content disk.new) (λ file. IsJournalOf file self.new)) }
        ensures end { OnOk result (self.new.end ≡ self.old.end + 9 + length f.now) }
        ensures tidy { self.new.length ≡ self.new.end + 1 }
        ensures err { OnErr result (self.new ≡ self.old) }
        ensures durable { OnOk result (IsSettled (D.content disk.new) (D.images disk.new)) }
        ensures any_moment { IsSettled (D.content disk.old) (D.images disk.old) → IfSome (D.content disk.old) (λ file. LeavesOnly D.moment D.images_since disk.old disk.new (IsBeforeOrAfter file f.now)) }
        ensures reads { D.reads disk.new ≡ D.reads disk.old }
        ensures cause { IsCounted (is_err result) (D.faults disk.old) (D.faults disk.new) }
    {
        append_at(disk, self.end, f)?;
        self.end += f.size();
        self.length = self.end + 1;
        Ok(())
    }

    /// Cuts off what stands behind the closed mark, where anything does. Where nothing was pending, a crash at any
    /// moment of the call leaves the same frames.
    pub fn tidy<D: Disk>(&mut self, disk: &mut D) -> Result<(), Failed>
        requires file { ForSome (D.content disk.old) (λ file. IsJournalOf file self.old) }
        requires small { self.old.end < 2 ^ 64 - 1 }
        ensures file { OnOk result (D.content disk.new ≡ option_map (take (self.old.end + 1)) (D.content disk.old)) }
        ensures frames { OnOk result (option_map frames_of (D.content disk.new) ≡ option_map frames_of (D.content disk.old)) }
        ensures journal { OnOk result (ForSome (D.content disk.new) (λ file. IsJournalOf file self.new)) }
        ensures tidy { OnOk result (self.new.length ≡ self.new.end + 1) }
        ensures end { self.new.end ≡ self.old.end }
        ensures err { OnErr result (self.new ≡ self.old) }
        ensures durable { IsSettled (D.content disk.old) (D.images disk.old) → OnOk result (IsSettled (D.content disk.new) (D.images disk.new)) }
        ensures any_moment { IsSettled (D.content disk.old) (D.images disk.old) → IfSome (D.content disk.old) (λ file. LeavesOnly D.moment D.images_since disk.old disk.new (λ image. frames_of image ≡ frames_of file)) }
        ensures reads { D.reads disk.new ≡ D.reads disk.old }
        ensures cause { IsCounted (is_err result) (D.faults disk.old) (D.faults disk.new) }
    {
        cut_behind(disk, self.end, self.length)?;
        self.length = self.end + 1;
        Ok(())
    }
}
