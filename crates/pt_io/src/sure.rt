ghost use Rattle.std.specs.Prelude.{◌≡◌, ◌<◌, ◌≤◌, ◌-◌, ℕ, Some, [], length, min, take, drop, ◌++◌, IfOk, IsOk, OnErr, if◌then◌else◌, false};
ghost use Rattle.pt_io.specs.Streams.{Rose, Took, IsAtEnd, Wrote};
ghost use Rattle.pt_io.specs.Memory.{Kept, kept_after, told};

use crate::fault::{Failed, NoMemory};
use crate::memory::give;
use crate::streams::{Sink, Source};
use std::alloc::Global;
use std::marker::Model;

/// A source over memory that never fails: its count of faults is 0. It is seen as the bytes that
/// are left.
#[derive(Drop)]
pub struct SureSource {
    bytes: Vec<u8>,
    at: usize,
}

impl Model for SureSource {
    ghost use Rattle.std.specs.Prelude.{◌≤◌, ℕ, List, length, drop};

    ghost Value = { List ℕ };

    ghost view = { λ s. drop s.at s.bytes.items };

    ghost invariant = { λ s. s.at ≤ length s.bytes.items };
}

impl SureSource {
    /// A source of these bytes. Takes no memory.
    pub fn new(bytes: Vec<u8>) -> Self
        ensures { result ≡ bytes.items }
    {
        SureSource { bytes, at: 0 }
    }
}

impl Source for SureSource {
    ghost left = { λ bytes. Some bytes };

    ghost faults = { λ _. 0 };

    fn read(&mut self, buf: &mut [u8]) -> Result<usize, Failed>
        ensures sure { IsOk result }
        ensures given { IfOk result (λ n. n ≡ min (length buf.old) (length self.old)) }
        ensures after { IfOk result (λ n. self.new ≡ drop n self.old) }
        ensures count { IfOk result (λ n. n ≤ length buf.old) }
        ensures took { IfOk result (λ n. Took (Some self.old) (Some self.new) (take n buf.new)) }
        ensures end { IfOk result (λ n. n ≡ 0 → 0 < length buf.old → IsAtEnd (Some self.old)) }
    {
        let given = give(&self.bytes[self.at..], usize::MAX, buf);
        self.at += given;
        Ok(given)
    }
}

/// A sink over memory that never fails: its count of faults is 0. It keeps the bytes that its
/// room holds, and counts all others as written.
#[derive(Drop)]
pub struct SureSink {
    kept: Vec<u8>,
    room: usize,
    is_over: bool,
}

impl Model for SureSink {
    ghost use Rattle.std.specs.Prelude.{◌≤◌, length, vec_capacity};
    ghost use Rattle.pt_io.specs.Memory.{Kept};

    ghost Value = { Kept };

    ghost view = { λ s. record { bytes = s.kept.items; room = s.room; is_over = s.is_over } };

    ghost invariant = { λ s. (length s.kept.items ≤ s.room) × (s.room ≤ vec_capacity s.kept) };
}

impl SureSink {
    /// An empty sink with room for so many bytes.
    pub fn new(alloc: Global, room: usize) -> Result<Self, NoMemory>
        ensures { IfOk result (λ s. s ≡ record { bytes = []; room = room; is_over = false }) }
    {
        Ok(SureSink {
            kept: Vec::with_capacity(alloc, room)?,
            room,
            is_over: false,
        })
    }

    /// The bytes that were kept.
    pub fn bytes(&self) -> &[u8]
        ensures { result.now ≡ self.now.bytes }
    {
        self.kept.as_slice()
    }
}

impl Sink for SureSink {
    ghost written = { told };

    ghost faults = { λ _. 0 };

    fn write(&mut self, bytes: &[u8]) -> Result<usize, Failed>
        ensures sure { result ≡ Ok (length bytes.now) }
        ensures after { self.new ≡ kept_after self.old bytes.now }
        ensures count { IfOk result (λ n. n ≤ length bytes.now) }
        ensures some { IfOk result (λ n. 0 < length bytes.now → 0 < n) }
        ensures appended { IfOk result (λ n. Wrote (told self.old) (told self.new) (take n bytes.now)) }
    {
        let n = bytes.len().min(self.room - self.kept.len());
        self.kept.extend_from_slice(&bytes[..n]).unwrap();
        if n < bytes.len() {
            self.is_over = true;
        }
        Ok(bytes.len())
    }
}
