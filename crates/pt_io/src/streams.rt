ghost use Rattle.std.specs.Prelude.{◌≡◌, ◌<◌, ◌≤◌, ℕ, Option, List, [], length, take, IfOk, OnErr};
ghost use Rattle.pt_io.specs.Streams.{Rose, Took, IsAtEnd, Wrote};

use crate::fault::Failed;

/// Bytes in order, from a device that may fail.
pub trait Source {
    /// The bytes that are left, where the source tells them.
    ghost left: { Self → Option (List ℕ) };

    /// The count of faults.
    ghost faults: { Self → ℕ };

    /// Takes the next bytes into the front of the buffer, and says how many. Takes no memory.
    fn read(&mut self, buf: &mut [u8]) -> Result<usize, Failed>
        ensures count { IfOk result (λ n. n ≤ length buf.old) }
        ensures took { IfOk result (λ n. Took (left self.old) (left self.new) (take n buf.new)) }
        ensures end { IfOk result (λ n. n ≡ 0 → 0 < length buf.old → IsAtEnd (left self.old)) }
        ensures failed { OnErr result (Rose (faults self.old) (faults self.new)) }
        ensures kept { OnErr result (Took (left self.old) (left self.new) []) }
        ensures counted { faults self.old ≤ faults self.new };
}

/// Takes bytes in order, into a device that may fail.
pub trait Sink {
    /// The bytes that were written, where the sink tells them.
    ghost written: { Self → Option (List ℕ) };

    /// The count of faults.
    ghost faults: { Self → ℕ };

    /// Appends the first bytes of a piece, and says how many. Takes no memory.
    fn write(&mut self, bytes: &[u8]) -> Result<usize, Failed>
        ensures count { IfOk result (λ n. n ≤ length bytes.now) }
        ensures some { IfOk result (λ n. 0 < length bytes.now → 0 < n) }
        ensures appended { IfOk result (λ n. Wrote (written self.old) (written self.new) (take n bytes.now)) }
        ensures failed { OnErr result (Rose (faults self.old) (faults self.new)) }
        ensures kept { OnErr result (Wrote (written self.old) (written self.new) []) }
        ensures counted { faults self.old ≤ faults self.new };
}
