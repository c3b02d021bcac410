ghost use Rattle.std.specs.Prelude.{◌≡◌};
ghost use Rattle.wh_journal.specs.declared.fault.JournalFault.TheVariants as fault;

use wh_base::{Failed, NoMemory};

/// Why a journal was not recovered.
#[derive(Clone, Copy, Debug, PartialEq, Eq)]
pub enum JournalFault {
    /// At this place the file ends without a mark, or stands the mark of a frame that passes the file's end.
    Damaged { at: u64 },
    DiskFault,
    NoMemory,
}

impl From<Failed> for JournalFault {
    ghost from_gives = { λ _ e. e ≡ fault.DiskFault };

    fn from(_failed: Failed) -> JournalFault {
        JournalFault::DiskFault
    }
}

impl From<NoMemory> for JournalFault {
    ghost from_gives = { λ _ e. e ≡ fault.NoMemory };

    fn from(_no_memory: NoMemory) -> JournalFault {
        JournalFault::NoMemory
    }
}
