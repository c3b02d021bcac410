// The frames in the bytes of a file.
ghost use Rattle.std.specs.Prelude.{◌≡◌, ◌≤◌, ◌∷◌, length, false, IfOk};
ghost use Rattle.std.specs.Option.{option_map};
ghost use Rattle.wh_journal.specs.File.{body_at, is_empty, length_in};
ghost use Rattle.wh_journal.specs.Journal.{IsMark, IsWalked, IsFound, EndsBehind, is_disk_fault};

use crate::fault::JournalFault;
use crate::found::Found;
use crate::journal::Journal;
use std::alloc::Global;
use wh_base::{ByteText, Texts};

/// The mark that a frame follows.
pub(crate) const OPEN: u8 = 1;

/// A mark that ends the frames.
pub(crate) const CLOSED: u8 = 0;

// The length that stands in the first eight bytes.
fn length_in(bytes: &[u8]) -> u64
    requires { 8 ≤ length bytes.now }
    ensures { result ≡ length_in bytes.now }
{
    u64::from_be_bytes([
        bytes[0], bytes[1], bytes[2], bytes[3], bytes[4], bytes[5], bytes[6], bytes[7],
    ])
}

// The body behind an open mark, and the bytes after it.
fn body_at(bytes: &[u8]) -> Option<(&[u8], &[u8])>
    ensures { option_map (λ found. (found.0.now, found.1.now)) result ≡ body_at bytes.now }
{
    if bytes.len() < 8 {
        return None;
    }
    let len = length_in(bytes);
    let rest = &bytes[8..];
    if (rest.len() as u64) < len {
        return None;
    }
    Some(rest.split_at(len as usize))
}

/// What stands at the front of some bytes.
enum Mark<'a> {
    /// A frame with this body, and the bytes after it.
    Open { body: &'a [u8], after: &'a [u8] },
    Closed,
    /// No mark, or one whose frame passes the end.
    Wrong,
}

// What stands at an open mark with these bytes behind it.
fn open_at(behind: &[u8]) -> Mark<'_>
    ensures { IsMark (1 ∷ behind.now) result }
{
    match body_at(behind) {
        Some((body, after)) => Mark::Open { body, after },
        None => Mark::Wrong,
    }
}

fn mark_at(bytes: &[u8]) -> Mark<'_>
    ensures { IsMark bytes.now result }
{
    let [mark, behind @ ..] = bytes else {
        return Mark::Wrong;
    };
    if *mark == OPEN {
        open_at(behind)
    } else {
        Mark::Closed
    }
}

// The bodies of the frames, and the place of the closed mark behind them.
fn walk(alloc: Global, file: &[u8]) -> Result<(Texts, usize), JournalFault>
    ensures { IsWalked file.now result }
{
    let mut bodies = Texts::new(alloc);
    let mut rest = file;
    loop {
        let place = file.len() - rest.len();
        match mark_at(rest) {
            Mark::Open { body, after } => {
                bodies.push(ByteText::from_slice(alloc, body)?)?;
                rest = after;
            }
            Mark::Closed => return Ok((bodies, place)),
            Mark::Wrong => return Err(JournalFault::Damaged { at: place as u64 }),
        }
    }
}

fn is_empty(file: &[u8]) -> bool
    ensures { result ≡ is_empty file.now }
{
    match file {
        [] | [_] => true,
        [mark, ..] => *mark != OPEN,
    }
}

/// What stands in the bytes of a file.
pub(crate) fn found_in(alloc: Global, file: &[u8]) -> Result<Found, JournalFault>
    ensures found { IsFound file.now result }
    ensures end { IfOk result EndsBehind }
    ensures no_disk { is_disk_fault result ≡ false }
{
    if is_empty(file) {
        return Ok(Found::Empty);
    }
    let (bodies, end) = walk(alloc, file)?;
    let journal = Journal {
        end: end as u64,
        length: file.len() as u64,
    };
    Ok(Found::Frames { bodies, journal })
}
