ghost use Rattle.std.specs.Prelude.{◌≡◌};
ghost use Rattle.wh_store.specs.declared.fault.StoreFault.TheVariants as fault;

use crate::warehouse::Which;
use wh_base::{Failed, NoMemory};

/// Why a call on a store did not do its work.
#[derive(Clone, Copy, Debug, PartialEq, Eq)]
pub enum StoreFault {
    /// A file of the store is not empty.
    AlreadyLoaded,
    /// Both files are empty.
    NotLoaded,
    /// A file is no sequence of frames that obey the rules, from this place on. Two files of one generation are told as
    /// damage of the second at the greatest place.
    Damaged { which: Which, at: u64 },
    /// A stored table, counted from 0, would have more than 4,000,000 rows.
    RowLimit { table: u32 },
    /// There is no greater number for a change.
    SequenceLimit,
    /// There is no greater number for a snapshot.
    GenerationLimit,
    /// A file would pass 2^40 bytes, or the printed specification 2^32 - 1.
    FileLimit,
    DiskFault,
    NoMemory,
}

impl From<Failed> for StoreFault {
    ghost from_gives = { λ _ e. e ≡ fault.DiskFault };

    fn from(_failed: Failed) -> StoreFault {
        StoreFault::DiskFault
    }
}

impl From<NoMemory> for StoreFault {
    ghost from_gives = { λ _ e. e ≡ fault.NoMemory };

    fn from(_no_memory: NoMemory) -> StoreFault {
        StoreFault::NoMemory
    }
}
