ghost use Rattle.std.specs.Prelude.{◌≡◌};
ghost use Rattle.pt_atoms.specs.declared.fault.AtomFault.TheVariants as atom_fault;

use pt_digits::NoMemory;
use std::alloc::AllocFailed;

/// Why no table was made.
#[derive(Clone, Copy, Debug, PartialEq, Eq)]
pub enum AtomFault {
    /// The set has more residuals than the bound.
    States { bound: u32 },
    NoMemory,
}

impl From<NoMemory> for AtomFault {
    ghost from_gives = { λ _ fault. fault ≡ atom_fault.NoMemory };

    fn from(_error: NoMemory) -> Self {
        AtomFault::NoMemory
    }
}

impl<T: Drop> From<AllocFailed<T>> for AtomFault {
    ghost from_gives = { λ _ fault. fault ≡ atom_fault.NoMemory };

    fn from(_failed: AllocFailed<T>) -> Self {
        AtomFault::NoMemory
    }
}
