use wh_base::NoMemory;
use wh_schema::Broken;

/// Why a state is not loaded.
#[derive(Debug, Drop)]
pub enum LoadFault {
    Broken(Broken),
    /// The first stored table, numbered from 0, with more than 4,000,000 rows.
    RowLimit { table: u32 },
    NoMemory,
}

impl From<NoMemory> for LoadFault {
    ghost use Rattle.wh_load.specs.declared.fault.LoadFault.TheVariants as fault;
    ghost use Rattle.std.specs.Prelude.{◌≡◌};

    ghost from_gives = { λ _ e. e ≡ fault.NoMemory };

    fn from(_error: NoMemory) -> LoadFault {
        LoadFault::NoMemory
    }
}
