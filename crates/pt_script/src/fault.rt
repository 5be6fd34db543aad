ghost use Rattle.std.specs.Prelude.{◌≡◌};
ghost use Rattle.pt_script.specs.Faults.{no_memory, of_store};

use pt_digits::NoMemory;
use pt_formula::Position;
use pt_store::StoreFault;
use std::alloc::{AllocError, AllocFailed};

/// Why a command of a session is not answered.
#[derive(Clone, Copy, Debug, PartialEq, Eq)]
pub enum SessionFault {
    /// The cost of a node is over the state bound, or that of a comparison at the command's place.
    States { position: Position },
    /// A model is asked for where none stands.
    NoModel { position: Position },
    /// A value needs so many digits, which are more than 128.
    WideValue { position: Position, letters: u32 },
    /// A pop beyond the first level.
    PopTooFar { position: Position },
    /// A shard of the store is full.
    Full { shard: u32, count: u32 },
    NoMemory,
}

impl From<NoMemory> for SessionFault {
    ghost from_gives = { λ error fault. fault ≡ no_memory };

    fn from(_error: NoMemory) -> Self {
        SessionFault::NoMemory
    }
}

impl From<AllocError> for SessionFault {
    ghost from_gives = { λ error fault. fault ≡ no_memory };

    fn from(_error: AllocError) -> Self {
        SessionFault::NoMemory
    }
}

impl<T: Drop> From<AllocFailed<T>> for SessionFault {
    ghost from_gives = { λ error fault. fault ≡ no_memory };

    fn from(_failed: AllocFailed<T>) -> Self {
        SessionFault::NoMemory
    }
}

impl From<StoreFault> for SessionFault {
    ghost from_gives = { λ error fault. fault ≡ of_store error };

    fn from(error: StoreFault) -> Self {
        match error {
            StoreFault::Full { shard, count } => SessionFault::Full { shard, count },
            StoreFault::NoMemory => SessionFault::NoMemory,
        }
    }
}
