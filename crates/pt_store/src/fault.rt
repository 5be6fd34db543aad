// Refusals of a store.
ghost use Rattle.std.specs.Prelude.{◌≡◌};
ghost use Rattle.pt_store.specs.Interning.{no_memory};

pub use pt_code::NoMemory;
use std::alloc::AllocError;

/// Why a code was not interned.
#[derive(Clone, Copy, Debug, PartialEq, Eq)]
pub enum StoreFault {
    /// The list of the shard has `count` codes, as many as it may hold, and none of them is the code.
    Full { shard: u32, count: u32 },
    NoMemory,
}

impl From<NoMemory> for StoreFault {
    ghost from_gives = { λ error fault. fault ≡ no_memory };

    fn from(_error: NoMemory) -> Self {
        StoreFault::NoMemory
    }
}

impl From<AllocError> for StoreFault {
    ghost from_gives = { λ error fault. fault ≡ no_memory };

    fn from(_error: AllocError) -> Self {
        StoreFault::NoMemory
    }
}

/// A pass that was not joined for want of memory.
#[derive(Drop)]
pub struct JoinRefused<P> {
    pub pass: P,
}
