// Files that are read by name.
ghost use Rattle.std.specs.Prelude.{◌≡◌, ℕ, ◌≤◌, List, length, Option, IfOk, IfSome};
ghost use Rattle.wh_io.specs.Causes.{IsCounted};
ghost use Rattle.wh_io.specs.Files.{Reads, is_read_fault};

use std::alloc::Global;
use wh_base::{ByteText, NoMemory};

/// Why a file was not read.
#[derive(Clone, Copy, Debug, PartialEq, Eq)]
pub enum FileFault {
    /// Nothing stands under the name.
    Missing,
    /// More bytes stand there than were asked for.
    TooLong,
    /// The device failed.
    Failed,
    NoMemory,
}

impl From<NoMemory> for FileFault {
    ghost use Rattle.wh_io.specs.declared.files.FileFault.{FileFault};

    ghost from_gives = { λ _ fault. fault ≡ FileFault.NoMemory };

    fn from(_: NoMemory) -> FileFault {
        FileFault::NoMemory
    }
}

/// Files that are read by name.
pub trait Files {
    /// What stands under each name, where it is told.
    ghost held: { Self → Option (List ℕ → Option (List ℕ)) };

    /// How often the device has failed.
    ghost faults: { Self → ℕ };

    /// Reads a whole file of at most `limit` bytes.
    fn read(&mut self, alloc: Global, name: &str, limit: u64) -> Result<ByteText, FileFault>
        ensures answer { IfSome (held self.old) (λ files. Reads (files name.now) limit result) }
        ensures within { IfOk result (λ text. length text.bytes ≤ limit) }
        ensures same { held self.new ≡ held self.old }
        ensures cause { IsCounted (is_read_fault result) (faults self.old) (faults self.new) };
}
