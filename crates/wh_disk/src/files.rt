// Files of the file system.
ghost use Rattle.std.specs.Prelude.{◌≡◌, ◌≤◌, ◌<◌, length, IfOk, Ok};
ghost use Rattle.wh_io.specs.Causes.{IsCounted, Rose};
ghost use Rattle.wh_io.specs.Files.{is_read_fault};
ghost use Rattle.wh_disk.specs.Reading.{ReadsAll};

use crate::regular::open_regular;
use crate::retry::read_again;
use std::alloc::Global;
use std::fs::OpenOptions;
use std::io::{ErrorKind, Input, Read};
use wh_base::ByteText;
use wh_io::{FileFault, Files};

// The name under which standard input is read, whatever it is. Under any other name stands a regular file.
const STANDARD_INPUT: &str = "/dev/stdin";

/// Regular files under the names that the file system has for them, and standard input under the name `/dev/stdin`.
/// Only a name under which nothing stands is `Missing`; whatever else fails is `Failed`.
#[derive(Drop)]
pub struct RealFiles<R: std::rt::Files + Input + Drop> {
    rt: R,
    faults: u64,
}

impl<R: std::rt::Files + Input + Drop> RealFiles<R> {
    pub fn new(rt: R) -> Self
        ensures { ⟦<RealFiles<R> as Files>⟧.faults result ≡ 0 }
    {
        RealFiles { rt, faults: 0 }
    }

    // What was read, or a failure, which is counted.
    fn told(&mut self, read: Result<ByteText, Unread>) -> Result<ByteText, FileFault>
        ensures text { IfOk result (λ text. read ≡ Ok text) }
        ensures cause { IsCounted (is_read_fault result) self.old.faults self.new.faults }
    {
        match read {
            Ok(text) => Ok(text),
            Err(Unread::TooLong) => Err(FileFault::TooLong),
            Err(Unread::NoMemory) => Err(FileFault::NoMemory),
            Err(Unread::Failed) => Err(self.fault()),
        }
    }

    // Counts a failure.
    fn fault(&mut self) -> FileFault
        ensures answer { result ≡ FileFault.Failed }
        ensures cause { Rose self.old.faults self.new.faults }
    {
        self.faults = self.faults.saturating_add(1);
        FileFault::Failed
    }
}

/// Why a file was not read.
enum Unread {
    TooLong,
    Failed,
    NoMemory,
}

// How many bytes are read at once.
const PIECE: usize = 1 << 20;

// All that is left of a reader, at most so many bytes. Of a longer one no more than a byte past these is read.
fn read_within<T: Read>(alloc: Global, from: &mut T, limit: u64) -> Result<ByteText, Unread>
    ensures within { IfOk result (λ text. length text.bytes ≤ limit) }
    ensures whole { ReadsAll (T.remaining from.old) limit result }
{
    match vec![in alloc; 0u8; PIECE] {
        Ok(mut piece) => read_pieces(alloc, from, &mut piece, limit),
        Err(_) => Err(Unread::NoMemory),
    }
}

// The same, by pieces of a given length.
fn read_pieces<T: Read>(
    alloc: Global,
    from: &mut T,
    piece: &mut [u8],
    limit: u64,
) -> Result<ByteText, Unread>
    requires { 0 < length piece.old }
    ensures within { IfOk result (λ text. length text.bytes ≤ limit) }
    ensures whole { ReadsAll (T.remaining from.old) limit result }
{
    let mut text = ByteText::new(alloc);
    let mut left = limit;
    loop {
        let most = left.saturating_add(1).min(piece.len() as u64) as usize;
        let Ok(count) = read_again(from, &mut piece[..most]) else {
            return Err(Unread::Failed);
        };
        if count == 0 {
            return Ok(text);
        }
        if count as u64 > left {
            return Err(Unread::TooLong);
        }
        if text.append(&piece[..count]).is_err() {
            return Err(Unread::NoMemory);
        }
        left -= count as u64;
    }
}

impl<R: std::rt::Files + Input + Drop> Files for RealFiles<R> {
    ghost use Rattle.std.specs.Prelude.{None};

    ghost held = { λ _. None };

    ghost faults = { λ f. f.faults };

    fn read(&mut self, alloc: Global, name: &str, limit: u64) -> Result<ByteText, FileFault> {
        if name == STANDARD_INPUT {
            let read = read_within(alloc, &mut self.rt.reader(), limit);
            return self.told(read);
        }
        let mut options = OpenOptions::new();
        options.read(true);
        match open_regular(&self.rt, name, &options) {
            Ok(mut file) => {
                let read = read_within(alloc, &mut file, limit);
                self.told(read)
            }
            Err(error) if error.kind() == ErrorKind::NotFound => Err(FileFault::Missing),
            Err(_) => Err(self.fault()),
        }
    }
}
