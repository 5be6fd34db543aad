// Why calls on handles refuse.
ghost use Rattle.std.specs.Prelude.{◌≡◌};
ghost use Rattle.pt_handles.specs.Refusing.{of_table, of_store, no_memory_for_table, no_memory_for_op};

use pt_store::StoreFault;
use pt_tables::NoMemory;
use std::alloc::{AllocError, AllocFailed};

/// Why a call that builds a table refuses.
#[derive(Clone, Copy, Debug, PartialEq, Eq)]
pub enum TableFault {
    /// There are more values than the bound.
    States { bound: u32 },
    /// There is no memory.
    NoMemory,
}

impl From<NoMemory> for TableFault {
    ghost from_gives = { λ error fault. fault ≡ no_memory_for_table };

    fn from(_error: NoMemory) -> Self {
        TableFault::NoMemory
    }
}

impl From<AllocError> for TableFault {
    ghost from_gives = { λ error fault. fault ≡ no_memory_for_table };

    fn from(_error: AllocError) -> Self {
        TableFault::NoMemory
    }
}

impl<T: Drop> From<AllocFailed<T>> for TableFault {
    ghost from_gives = { λ error fault. fault ≡ no_memory_for_table };

    fn from(_failed: AllocFailed<T>) -> Self {
        TableFault::NoMemory
    }
}

/// Why a call that makes a set known refuses.
#[derive(Clone, Copy, Debug, PartialEq, Eq)]
pub enum OpFault {
    /// There are more values than the bound.
    States { bound: u32 },
    /// The shard has as many codes as it may hold.
    Full { shard: u32, count: u32 },
    /// There is no memory.
    NoMemory,
}

impl From<NoMemory> for OpFault {
    ghost from_gives = { λ error fault. fault ≡ no_memory_for_op };

    fn from(_error: NoMemory) -> Self {
        OpFault::NoMemory
    }
}

impl From<TableFault> for OpFault {
    ghost from_gives = { λ error fault. fault ≡ of_table error };

    fn from(error: TableFault) -> Self {
        match error {
            TableFault::States { bound } => OpFault::States { bound },
            TableFault::NoMemory => OpFault::NoMemory,
        }
    }
}

impl From<StoreFault> for OpFault {
    ghost from_gives = { λ error fault. fault ≡ of_store error };

    fn from(error: StoreFault) -> Self {
        match error {
            StoreFault::Full { shard, count } => OpFault::Full { shard, count },
            StoreFault::NoMemory => OpFault::NoMemory,
        }
    }
}
