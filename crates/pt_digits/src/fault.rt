ghost use Rattle.std.specs.Prelude.{◌≡◌};
ghost use Rattle.pt_digits.specs.declared.fault.DigitFault.TheVariants as digit_fault;

use std::alloc::{AllocError, AllocFailed};

/// There was no memory. What the call was given is as it was.
#[derive(Clone, Copy, Debug, PartialEq, Eq)]
pub struct NoMemory;

impl From<AllocError> for NoMemory {
    fn from(_error: AllocError) -> Self {
        NoMemory
    }
}

impl<T: Drop> From<AllocFailed<T>> for NoMemory {
    fn from(_failed: AllocFailed<T>) -> Self {
        NoMemory
    }
}

/// Why a word was not decoded.
#[derive(Clone, Copy, Debug, PartialEq, Eq)]
pub enum DigitFault {
    /// A component is outside 128 bits.
    Wide,
    NoMemory,
}

impl From<NoMemory> for DigitFault {
    ghost from_gives = { λ _ fault. fault ≡ digit_fault.NoMemory };

    fn from(_error: NoMemory) -> Self {
        DigitFault::NoMemory
    }
}
