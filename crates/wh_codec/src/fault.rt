ghost use Rattle.std.specs.Prelude.{◌≡◌};
ghost use Rattle.wh_codec.specs.declared.fault.FrameFault.TheVariants as fault;

use wh_base::NoMemory;

/// Why a body gave no frame.
#[derive(Clone, Copy, Debug, PartialEq, Eq)]
pub enum FrameFault {
    /// The bytes are no frame's spelling.
    Bad,
    NoMemory,
}

impl From<NoMemory> for FrameFault {
    ghost from_gives = { λ _ e. e ≡ fault.NoMemory };

    fn from(_no_memory: NoMemory) -> FrameFault {
        FrameFault::NoMemory
    }
}
