ghost use Rattle.std.specs.Prelude.{◌≡◌};
ghost use Rattle.pt_io.specs.declared.fault.ReadFault.TheVariants as read_fault;

use std::alloc::{AllocError, AllocFailed};

/// A fault of a device. Its count of faults rose; nothing was taken or appended.
#[derive(Clone, Copy, Debug, PartialEq, Eq)]
pub struct Failed;

/// There was no memory.
#[derive(Clone, Copy, Debug, PartialEq, Eq)]
pub struct NoMemory;

impl From<AllocError> for NoMemory {
    fn from(_error: AllocError) -> Self {
        NoMemory
    }
}

impl<T: Drop> From<AllocFailed<T>> for NoMemory {
    fn from(_failed: AllocFailed<T>) -> Self {
        NoMemory
    }
}

/// Why not all bytes of a source were read.
#[derive(Clone, Copy, Debug, PartialEq, Eq)]
pub enum ReadFault {
    /// The source failed.
    Failed,
    /// More than `limit` bytes stand.
    TooLong { limit: usize },
    NoMemory,
}

impl From<Failed> for ReadFault {
    ghost from_gives = { λ _ e. e ≡ read_fault.Failed };

    fn from(_failed: Failed) -> Self {
        ReadFault::Failed
    }
}

impl From<AllocError> for ReadFault {
    ghost from_gives = { λ _ e. e ≡ read_fault.NoMemory };

    fn from(_error: AllocError) -> Self {
        ReadFault::NoMemory
    }
}

/// Why not all bytes were written.
#[derive(Clone, Copy, Debug, PartialEq, Eq)]
pub enum WriteFault {
    /// The sink failed.
    Failed,
}

impl From<Failed> for WriteFault {
    fn from(_failed: Failed) -> Self {
        WriteFault::Failed
    }
}
