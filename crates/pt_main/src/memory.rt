// A sink in memory that grows.
ghost use Rattle.std.specs.Prelude.{◌≡◌, Some, []};

use pt_io::{Failed, Sink};
use std::alloc::Global;

/// All bytes that were written. A write fails where there is no memory for its bytes.
#[derive(Drop)]
pub(crate) struct GrowingSink {
    pub(crate) bytes: Vec<u8>,
    pub(crate) faults: u64,
}

impl GrowingSink {
    /// An empty sink that has not failed. Takes no memory.
    pub(crate) fn new(alloc: Global) -> Self
        ensures { result.bytes.items ≡ [] }
    {
        GrowingSink {
            bytes: Vec::new(alloc),
            faults: 0,
        }
    }
}

impl Sink for GrowingSink {
    ghost written = { λ s. Some s.bytes.items };

    ghost faults = { λ s. s.faults };

    fn write(&mut self, bytes: &[u8]) -> Result<usize, Failed> {
        match self.bytes.extend_from_slice(bytes) {
            Ok(()) => Ok(bytes.len()),
            Err(_) => {
                self.faults = self.faults.saturating_add(1);
                Err(Failed)
            }
        }
    }
}
