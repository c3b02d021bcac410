// A disk in memory.
ghost use Rattle.std.specs.Prelude.{◌≡◌, ℕ, ◌+◌, ◌-◌, ◌<◌, ◌≤◌, ◌++◌, [], true, not, ◌&&◌, List, length, take, slice_range, Some, IfOk, IfSome, OnOk, OnErr, is_ok, is_err, nat_lt, nat_le, vec_len, vec_capacity, if◌then◌else◌};
ghost use Rattle.std.specs.Option.{ForSome, option_map};
ghost use Rattle.wh_io.specs.Causes.{IsCounted};
ghost use Rattle.wh_io.specs.Crash.{IsSettled, Within, SameImages, Follows, Elapses};
ghost use Rattle.wh_io.specs.Disk.{written, Torn, PartlyCut, Changes, counted_on};
ghost use Rattle.wh_io.specs.Images.{played_is_left, left_counts_now, left_only_now};
ghost use Rattle.wh_io.specs.Recorded.{cut_off, synced};
ghost use Rattle.wh_io.specs.Memory.{goes_well, has_room, after_call, after_write, after_note, fresh_disk, content_now, crashed_content, left_now, left_since};

use crate::Disk;
use crate::plan::FaultPlan;
use crate::record::CallRecord;
use std::alloc::Global;
use std::marker::Model;
use wh_base::{ByteText, Failed, NoMemory, Numbers};

/// A disk in memory, with the record of its writes, cuts and syncs.
#[derive(Drop)]
pub struct MemDisk {
    start: Vec<u8>,
    content: Vec<u8>,
    history: CallRecord,
    plan: FaultPlan,
    reads: u64,
    room: u64,
    calls: u64,
}

impl Model for MemDisk {
    ghost use Rattle.wh_io.specs.Memory.{DiskInMemory};

    ghost Value = { DiskInMemory };

    ghost use Rattle.wh_io.specs.Kept.{disk_of, IsKept};

    ghost view = { disk_of };

    ghost invariant = { IsKept };
}

// The bytes of a list that has room for as many more.
fn with_room(alloc: Global, bytes: &[u8], more: u64) -> Result<Vec<u8>, NoMemory>
    ensures items { IfOk result (λ v. v.items ≡ bytes.now) }
    ensures room { IfOk result (λ v. vec_len v + more ≤ vec_capacity v) }
{
    let mut copy = Vec::with_capacity(alloc, bytes.len().saturating_add(more as usize))?;
    copy.extend_from_slice(bytes)?;
    Ok(copy)
}

// Writes over what is there, and on past the end, for which there is room.
fn overwrite(content: &mut Vec<u8>, at: usize, bytes: &[u8])
    requires place { at ≤ vec_len content.old }
    requires room { vec_len content.old + length bytes.now ≤ vec_capacity content.old }
    ensures items { content.new.items ≡ written content.old.items at bytes.now }
    ensures capacity { vec_capacity content.old ≤ vec_capacity content.new }
    ensures len { vec_len content.new ≤ vec_len content.old + length bytes.now }
{
    let inside = bytes.len().min(content.len() - at);
    content[at..at + inside].copy_from_slice(&bytes[..inside]);
    let Ok(()) = content.extend_from_slice(&bytes[inside..]) else {
        unreachable!()
    };
}

impl MemDisk {
    /// A disk with this content, room for so many written bytes and so many recorded calls. The calls of the listed
    /// numbers fail, the first being 1. All its memory is taken here.
    pub fn new(
        alloc: Global,
        content: ByteText,
        room: u64,
        calls: u64,
        fails: Numbers,
    ) -> Result<Self, NoMemory>
        ensures { IfOk result (λ disk. disk ≡ fresh_disk content.bytes room calls fails) }
    {
        let start = content.as_bytes().to_vec(alloc)?;
        MemDisk::fresh(alloc, start, room, calls, fails)
    }

    fn fresh(
        alloc: Global,
        start: Vec<u8>,
        room: u64,
        calls: u64,
        fails: Numbers,
    ) -> Result<Self, NoMemory>
        ensures { IfOk result (λ disk. disk ≡ fresh_disk start.items room calls fails) }
    {
        Ok(MemDisk {
            content: with_room(alloc, &start, room)?,
            history: CallRecord::new(alloc, room, calls)?,
            plan: FaultPlan::new(fails),
            reads: 0,
            start,
            room,
            calls,
        })
    }

    /// The content now.
    pub fn content(&self) -> &[u8]
        ensures { result.now ≡ content_now self.now }
    {
        &self.content
    }

    /// A disk that a crash of this one may leave, of which nothing is pending, with the room that this one was made
    /// with. Where the crash was a torn one, each place that was pending holds the fill, and else the content is as
    /// it was.
    pub fn after_crash(&self, alloc: Global, fill: u8, torn: bool) -> Result<Self, NoMemory>
        ensures left { IfOk result (λ disk. left_now self.now (content_now disk)) }
        ensures fresh { IfOk result (λ disk. disk ≡ fresh_disk (crashed_content fill torn self.now) self.now.room self.now.calls []) }
    {
        let content = self.crashed_content(alloc, fill, torn)?;
        MemDisk::fresh(alloc, content, self.room, self.calls, Numbers::new(alloc))
    }

    fn crashed_content(&self, alloc: Global, fill: u8, torn: bool) -> Result<Vec<u8>, NoMemory>
        ensures { IfOk result (λ content. content.items ≡ crashed_content fill torn self.now) }
    {
        if torn {
            Ok(self.history.torn_content(alloc, &self.start, fill)?)
        } else {
            Ok(self.content.to_vec(alloc)?)
        }
    }

    /// How many bytes were read, a count that stops at its greatest value.
    pub fn bytes_read(&self) -> u64
        ensures { result ≡ self.now.reads }
    {
        self.reads
    }
}

impl Disk for MemDisk {
    ghost content = { λ d. Some (content_now d) };

    ghost faults = { λ d. d.plan.faults };

    ghost reads = { λ d. d.reads };

    ghost images = { left_now };

    ghost moment = { λ d. length d.recording.calls };

    ghost images_since = { left_since };

    ghost content_is_left = { λ d. played_is_left d.start d.recording.calls };

    ghost counts_now = { λ d t c le now. left_counts_now d.start d.recording.calls t c now };

    ghost only_now = { λ d c left. left_only_now d.start d.recording.calls c left };

    /// Fails exactly at the listed calls.
    fn length(&mut self) -> Result<u64, Failed>
        ensures length { IfOk result (λ n. IfSome (⟦<MemDisk as Disk>⟧.content self.old) (λ bytes. n ≡ length bytes)) }
        ensures same { ⟦<MemDisk as Disk>⟧.content self.new ≡ ⟦<MemDisk as Disk>⟧.content self.old }
        ensures reads { ⟦<MemDisk as Disk>⟧.reads self.new ≡ ⟦<MemDisk as Disk>⟧.reads self.old }
        ensures crash { SameImages (⟦<MemDisk as Disk>⟧.images self.old) (⟦<MemDisk as Disk>⟧.images self.new) }
        ensures time { Elapses (⟦<MemDisk as Disk>⟧.moment self.old) (⟦<MemDisk as Disk>⟧.moment self.new) (⟦<MemDisk as Disk>⟧.images_since self.old) (⟦<MemDisk as Disk>⟧.images_since self.new) (⟦<MemDisk as Disk>⟧.images self.new) }
        ensures cause { IsCounted (is_err result) (⟦<MemDisk as Disk>⟧.faults self.old) (⟦<MemDisk as Disk>⟧.faults self.new) }
        ensures fails { is_ok result ≡ goes_well self.old.plan true }
        ensures after { self.new ≡ record self.old { plan = after_call self.old.plan true } }
    {
        self.plan.admit(true)?;
        Ok(self.content.len() as u64)
    }

    /// Fails exactly at the listed calls.
    fn read_at(&mut self, at: u64, into: &mut [u8]) -> Result<(), Failed>
        requires { ForSome (⟦<MemDisk as Disk>⟧.content self.old) (λ bytes. at + length into.old ≤ length bytes) }
        ensures bytes { OnOk result (IfSome (⟦<MemDisk as Disk>⟧.content self.old) (λ bytes. into.new ≡ slice_range bytes at (at + length into.old))) }
        ensures same { ⟦<MemDisk as Disk>⟧.content self.new ≡ ⟦<MemDisk as Disk>⟧.content self.old }
        ensures reads { ⟦<MemDisk as Disk>⟧.reads self.new ≡ (if is_ok result then counted_on (⟦<MemDisk as Disk>⟧.reads self.old) (length into.old) else ⟦<MemDisk as Disk>⟧.reads self.old) }
        ensures crash { SameImages (⟦<MemDisk as Disk>⟧.images self.old) (⟦<MemDisk as Disk>⟧.images self.new) }
        ensures time { Elapses (⟦<MemDisk as Disk>⟧.moment self.old) (⟦<MemDisk as Disk>⟧.moment self.new) (⟦<MemDisk as Disk>⟧.images_since self.old) (⟦<MemDisk as Disk>⟧.images_since self.new) (⟦<MemDisk as Disk>⟧.images self.new) }
        ensures cause { IsCounted (is_err result) (⟦<MemDisk as Disk>⟧.faults self.old) (⟦<MemDisk as Disk>⟧.faults self.new) }
        ensures fails { is_ok result ≡ goes_well self.old.plan true }
        ensures after { self.new ≡ record self.old { plan = after_call self.old.plan true; reads = if is_ok result then counted_on self.old.reads (length into.old) else self.old.reads } }
    {
        self.plan.admit(true)?;
        let at = at as usize;
        into.copy_from_slice(&self.content[at..at + into.len()]);
        self.reads = self.reads.saturating_add(into.len() as u64);
        Ok(())
    }

    /// Fails exactly at the listed calls and past the room.
    fn write_at(&mut self, at: u64, bytes: &[u8]) -> Result<(), Failed>
        requires { ForSome (⟦<MemDisk as Disk>⟧.content self.old) (λ old. at ≤ length old) }
        ensures written { OnOk result (⟦<MemDisk as Disk>⟧.content self.new ≡ option_map (λ old. written old at bytes.now) (⟦<MemDisk as Disk>⟧.content self.old)) }
        ensures partly { OnErr result (Changes (Torn at (length bytes.now)) (⟦<MemDisk as Disk>⟧.content self.old) (⟦<MemDisk as Disk>⟧.content self.new)) }
        ensures reads { ⟦<MemDisk as Disk>⟧.reads self.new ≡ ⟦<MemDisk as Disk>⟧.reads self.old }
        ensures crash { Follows (Torn at (length bytes.now)) (⟦<MemDisk as Disk>⟧.images self.old) (⟦<MemDisk as Disk>⟧.images self.new) }
        ensures time { Elapses (⟦<MemDisk as Disk>⟧.moment self.old) (⟦<MemDisk as Disk>⟧.moment self.new) (⟦<MemDisk as Disk>⟧.images_since self.old) (⟦<MemDisk as Disk>⟧.images_since self.new) (⟦<MemDisk as Disk>⟧.images self.new) }
        ensures cause { IsCounted (is_err result) (⟦<MemDisk as Disk>⟧.faults self.old) (⟦<MemDisk as Disk>⟧.faults self.new) }
        ensures fails { is_ok result ≡ goes_well self.old.plan (has_room self.old (length bytes.now)) }
        ensures after { self.new ≡ record self.old { plan = after_call self.old.plan (has_room self.old (length bytes.now)); recording = after_write self.old at bytes.now (is_ok result) } }
    {
        let fits = self.history.fits(bytes.len() as u64);
        let admitted = self.plan.admit(fits);
        if !fits {
            return Err(Failed);
        }
        self.history.write(at, bytes, admitted.is_ok());
        admitted?;
        overwrite(&mut self.content, at as usize, bytes);
        Ok(())
    }

    /// Fails exactly at the listed calls and past the room.
    fn cut(&mut self, to: u64) -> Result<(), Failed>
        requires { ForSome (⟦<MemDisk as Disk>⟧.content self.old) (λ old. to ≤ length old) }
        ensures cut { OnOk result (⟦<MemDisk as Disk>⟧.content self.new ≡ option_map (λ old. take to old) (⟦<MemDisk as Disk>⟧.content self.old)) }
        ensures partly { OnErr result (Changes (PartlyCut to) (⟦<MemDisk as Disk>⟧.content self.old) (⟦<MemDisk as Disk>⟧.content self.new)) }
        ensures reads { ⟦<MemDisk as Disk>⟧.reads self.new ≡ ⟦<MemDisk as Disk>⟧.reads self.old }
        ensures crash { Follows (PartlyCut to) (⟦<MemDisk as Disk>⟧.images self.old) (⟦<MemDisk as Disk>⟧.images self.new) }
        ensures time { Elapses (⟦<MemDisk as Disk>⟧.moment self.old) (⟦<MemDisk as Disk>⟧.moment self.new) (⟦<MemDisk as Disk>⟧.images_since self.old) (⟦<MemDisk as Disk>⟧.images_since self.new) (⟦<MemDisk as Disk>⟧.images self.new) }
        ensures cause { IsCounted (is_err result) (⟦<MemDisk as Disk>⟧.faults self.old) (⟦<MemDisk as Disk>⟧.faults self.new) }
        ensures fails { is_ok result ≡ goes_well self.old.plan (has_room self.old 0) }
        ensures after { self.new ≡ record self.old { plan = after_call self.old.plan (has_room self.old 0); recording = after_note self.old (cut_off to (is_ok result)) } }
    {
        let fits = self.history.fits(0);
        let admitted = self.plan.admit(fits);
        if !fits {
            return Err(Failed);
        }
        self.history.cut(to, admitted.is_ok());
        admitted?;
        self.content.truncate(to as usize);
        Ok(())
    }

    /// Fails exactly at the listed calls and past the room.
    fn sync(&mut self) -> Result<(), Failed>
        ensures same { ⟦<MemDisk as Disk>⟧.content self.new ≡ ⟦<MemDisk as Disk>⟧.content self.old }
        ensures reads { ⟦<MemDisk as Disk>⟧.reads self.new ≡ ⟦<MemDisk as Disk>⟧.reads self.old }
        ensures crash { Within (⟦<MemDisk as Disk>⟧.images self.old) (⟦<MemDisk as Disk>⟧.images self.new) }
        ensures durable { OnOk result (IsSettled (⟦<MemDisk as Disk>⟧.content self.new) (⟦<MemDisk as Disk>⟧.images self.new)) }
        ensures time { Elapses (⟦<MemDisk as Disk>⟧.moment self.old) (⟦<MemDisk as Disk>⟧.moment self.new) (⟦<MemDisk as Disk>⟧.images_since self.old) (⟦<MemDisk as Disk>⟧.images_since self.new) (⟦<MemDisk as Disk>⟧.images self.new) }
        ensures cause { IsCounted (is_err result) (⟦<MemDisk as Disk>⟧.faults self.old) (⟦<MemDisk as Disk>⟧.faults self.new) }
        ensures fails { is_ok result ≡ goes_well self.old.plan (has_room self.old 0) }
        ensures after { self.new ≡ record self.old { plan = after_call self.old.plan (has_room self.old 0); recording = after_note self.old (synced (is_ok result)) } }
    {
        let fits = self.history.fits(0);
        let admitted = self.plan.admit(fits);
        if !fits {
            return Err(Failed);
        }
        self.history.sync(admitted.is_ok());
        admitted
    }
}
