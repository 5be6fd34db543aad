// Why an evaluation refuses.
ghost use Rattle.std.specs.Prelude.{◌≡◌};
ghost use Rattle.pt_eval.specs.Faults.{of_store, no_memory};

use pt_formula::NodeId;
use pt_store::StoreFault;
use pt_tables::NoMemory;
use std::alloc::AllocError;

/// Why formulas were not evaluated.
#[derive(Clone, Copy, Debug, PartialEq, Eq)]
pub enum EvalFault {
    /// The cost of this node is over the bound, and that of no descendant is.
    States { node: NodeId },
    /// The shard has as many codes as it may hold.
    Full { shard: u32, count: u32 },
    /// There is no memory.
    NoMemory,
}

impl From<StoreFault> for EvalFault {
    ghost from_gives = { λ error fault. fault ≡ of_store error };

    fn from(error: StoreFault) -> Self {
        match error {
            StoreFault::Full { shard, count } => EvalFault::Full { shard, count },
            StoreFault::NoMemory => EvalFault::NoMemory,
        }
    }
}

impl From<NoMemory> for EvalFault {
    ghost from_gives = { λ _ fault. fault ≡ no_memory };

    fn from(_error: NoMemory) -> Self {
        EvalFault::NoMemory
    }
}

impl From<AllocError> for EvalFault {
    ghost from_gives = { λ _ fault. fault ≡ no_memory };

    fn from(_error: AllocError) -> Self {
        EvalFault::NoMemory
    }
}
