// Why no table was built.
ghost use Rattle.std.specs.Prelude.{◌≡◌};
ghost use Rattle.pt_tables.specs.declared.fault.BuildFault.TheVariants as build_fault;

use std::alloc::AllocFailed;

/// Why no table was built.
#[derive(Clone, Copy, Debug, PartialEq, Eq)]
pub enum BuildFault {
    /// The least pair of a state and a letter without an edge, by state and then letter.
    Hole { state: u32, letter: u16 },
    /// Where there is no hole, the least pair that breaks the sign rule.
    SignRule { state: u32, letter: u16 },
    NoMemory,
}

impl<T: Drop> From<AllocFailed<T>> for BuildFault {
    ghost from_gives = { λ _ fault. fault ≡ build_fault.NoMemory };

    fn from(_failed: AllocFailed<T>) -> Self {
        BuildFault::NoMemory
    }
}
