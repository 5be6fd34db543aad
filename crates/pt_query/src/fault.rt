// Why members are not given.
ghost use Rattle.std.specs.Prelude.{◌≡◌};
ghost use Rattle.pt_query.specs.declared.fault.WitnessFault.TheVariants as witness_fault;

use pt_tables::NoMemory;
use std::alloc::{AllocError, AllocFailed};

/// Why a call that gives members refuses.
#[derive(Clone, Copy, Debug, PartialEq, Eq)]
pub enum WitnessFault {
    /// The shortest word of a member that would be given has so many letters, more than 128: a component is outside 128
    /// bits.
    Wide { letters: u32 },
    /// There is no memory.
    NoMemory,
}

impl From<NoMemory> for WitnessFault {
    ghost from_gives = { λ _ fault. fault ≡ witness_fault.NoMemory };

    fn from(_error: NoMemory) -> Self {
        WitnessFault::NoMemory
    }
}

impl From<AllocError> for WitnessFault {
    ghost from_gives = { λ _ fault. fault ≡ witness_fault.NoMemory };

    fn from(_error: AllocError) -> Self {
        WitnessFault::NoMemory
    }
}

impl<T: Drop> From<AllocFailed<T>> for WitnessFault {
    ghost from_gives = { λ _ fault. fault ≡ witness_fault.NoMemory };

    fn from(_failed: AllocFailed<T>) -> Self {
        WitnessFault::NoMemory
    }
}
