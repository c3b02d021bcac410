ghost use Rattle.std.specs.Prelude.{◌≡◌};
ghost use Rattle.wh_refresh.specs.Net.{of_load};
ghost use Rattle.wh_refresh.specs.declared.fault.RefreshFault.TheVariants as fault;

use wh_base::{Failed, NoMemory};
use wh_load::LoadFault;
use wh_schema::Broken;

/// Why a change was not made. They are tested in this order.
#[derive(Debug, Drop)]
pub enum RefreshFault {
    /// The changed sources break a constraint: the first one, with its least value.
    Broken(Broken),
    /// The first stored table, numbered from 0, that would have more than 4,000,000 rows.
    RowLimit { table: u32 },
    /// There is no greater number for a change.
    SequenceLimit,
    /// The file would pass 2^40 bytes.
    FileLimit,
    DiskFault,
    NoMemory,
}

impl From<NoMemory> for RefreshFault {
    ghost from_gives = { λ _ e. e ≡ fault.NoMemory };

    fn from(_no_memory: NoMemory) -> RefreshFault {
        RefreshFault::NoMemory
    }
}

impl From<Failed> for RefreshFault {
    ghost from_gives = { λ _ e. e ≡ fault.DiskFault };

    fn from(_failed: Failed) -> RefreshFault {
        RefreshFault::DiskFault
    }
}

impl From<LoadFault> for RefreshFault {
    ghost from_gives = { λ fault e. e ≡ of_load fault };

    fn from(fault: LoadFault) -> RefreshFault {
        match fault {
            LoadFault::Broken(broken) => RefreshFault::Broken(broken),
            LoadFault::RowLimit { table } => RefreshFault::RowLimit { table },
            LoadFault::NoMemory => RefreshFault::NoMemory,
        }
    }
}
