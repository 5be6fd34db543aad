ghost use Rattle.std.specs.Prelude.{◌≡◌, ◌<◌, ◌≤◌, Some, [], length, min, take, drop, ◌++◌, IfOk, IsErr, IsTrue, OnErr, ◌↔◌};
ghost use Rattle.pt_io.specs.Streams.{Rose, Took, IsAtEnd, Wrote};
ghost use Rattle.pt_io.specs.Memory.{Device, counted, is_failing, fails_to_take, after_fault, moved};

use crate::calls::Calls;
use crate::fault::{Failed, NoMemory};
use crate::streams::{Sink, Source};
use std::alloc::Global;
use std::marker::Model;

/// The bytes that a sink over memory has room for.
const ROOM: usize = 8_388_608;

/// A source over memory whose calls give at most so many bytes, and of which some fail.
#[derive(Drop)]
pub struct MemSource {
    bytes: Vec<u8>,
    at: usize,
    calls: Calls,
}

impl Model for MemSource {
    ghost use Rattle.std.specs.Prelude.{◌≤◌, ◌<◌, length, drop};
    ghost use Rattle.pt_io.specs.Memory.{Device};

    ghost Value = { Device };

    ghost view = { λ s. record { bytes = drop s.at s.bytes.items; per_call = s.calls.per_call; failing = s.calls.failing.items; calls = s.calls.made; faults = s.calls.faults } };

    ghost invariant = { λ s. (s.at ≤ length s.bytes.items) × (0 < s.calls.per_call) };
}

impl MemSource {
    /// A source of these bytes. The calls whose number, from 0, stands in `failing` fail; every
    /// other gives at most `per_call` bytes. Takes no memory.
    pub fn new(bytes: Vec<u8>, per_call: usize, failing: Vec<u64>) -> Self
        requires { 0 < per_call }
        ensures { result ≡ record { bytes = bytes.items; per_call = per_call; failing = failing.items; calls = 0; faults = 0 } }
    {
        MemSource {
            bytes,
            at: 0,
            calls: Calls::new(per_call, failing),
        }
    }
}

impl Source for MemSource {
    ghost left = { λ s. Some s.bytes };

    ghost faults = { λ s. s.faults };

    fn read(&mut self, buf: &mut [u8]) -> Result<usize, Failed>
        ensures fails { IsErr result ↔ IsTrue (is_failing self.old) }
        ensures given { IfOk result (λ n. n ≡ moved self.old (min (length buf.old) (length self.old.bytes))) }
        ensures after { IfOk result (λ n. self.new ≡ record self.old { bytes = drop n self.old.bytes; calls = counted self.old.calls }) }
        ensures fault { OnErr result (self.new ≡ after_fault self.old) }
        ensures count { IfOk result (λ n. n ≤ length buf.old) }
        ensures took { IfOk result (λ n. Took (Some self.old.bytes) (Some self.new.bytes) (take n buf.new)) }
        ensures end { IfOk result (λ n. n ≡ 0 → 0 < length buf.old → IsAtEnd (Some self.old.bytes)) }
        ensures failed { OnErr result (Rose self.old.faults self.new.faults) }
        ensures kept { OnErr result (Took (Some self.old.bytes) (Some self.new.bytes) []) }
        ensures counted { self.old.faults ≤ self.new.faults }
    {
        if self.calls.fails(false) {
            return Err(Failed);
        }
        let given = give(&self.bytes[self.at..], self.calls.per_call, buf);
        self.at += given;
        Ok(given)
    }
}

/// Copies the next bytes, at most `most`, into the front of the buffer.
pub(crate) fn give(bytes: &[u8], most: usize, buf: &mut [u8]) -> usize
    ensures count { result ≡ min most (min (length buf.old) (length bytes.now)) }
    ensures bytes { take result buf.new ≡ take result bytes.now }
{
    let n = most.min(buf.len().min(bytes.len()));
    buf[..n].copy_from_slice(&bytes[..n]);
    n
}

/// A sink over memory whose calls take at most so many bytes, and of which some fail. It has room
/// for 8,388,608 bytes; a write past that room fails.
#[derive(Drop)]
pub struct MemSink {
    bytes: Vec<u8>,
    calls: Calls,
}

impl Model for MemSink {
    ghost use Rattle.std.specs.Prelude.{◌≤◌, ◌<◌, length, vec_capacity};
    ghost use Rattle.pt_io.specs.Memory.{Device};

    ghost Value = { Device };

    ghost view = { λ s. record { bytes = s.bytes.items; per_call = s.calls.per_call; failing = s.calls.failing.items; calls = s.calls.made; faults = s.calls.faults } };

    ghost invariant = { λ s. (length s.bytes.items ≤ 8388608) × (8388608 ≤ vec_capacity s.bytes) × (0 < s.calls.per_call) };
}

impl MemSink {
    /// An empty sink. The calls whose number, from 0, stands in `failing` fail; every other takes
    /// at most `per_call` bytes.
    pub fn new(alloc: Global, per_call: usize, failing: Vec<u64>) -> Result<Self, NoMemory>
        requires { 0 < per_call }
        ensures { IfOk result (λ s. s ≡ record { bytes = []; per_call = per_call; failing = failing.items; calls = 0; faults = 0 }) }
    {
        Ok(MemSink {
            bytes: Vec::with_capacity(alloc, ROOM)?,
            calls: Calls::new(per_call, failing),
        })
    }

    /// The bytes that were written.
    pub fn bytes(&self) -> &[u8]
        ensures { result.now ≡ self.now.bytes }
    {
        self.bytes.as_slice()
    }
}

impl Sink for MemSink {
    ghost written = { λ s. Some s.bytes };

    ghost faults = { λ s. s.faults };

    fn write(&mut self, bytes: &[u8]) -> Result<usize, Failed>
        ensures fails { IsErr result ↔ IsTrue (fails_to_take self.old (length bytes.now)) }
        ensures taken { IfOk result (λ n. n ≡ moved self.old (length bytes.now)) }
        ensures after { IfOk result (λ n. self.new ≡ record self.old { bytes = self.old.bytes ++ take n bytes.now; calls = counted self.old.calls }) }
        ensures fault { OnErr result (self.new ≡ after_fault self.old) }
        ensures count { IfOk result (λ n. n ≤ length bytes.now) }
        ensures some { IfOk result (λ n. 0 < length bytes.now → 0 < n) }
        ensures appended { IfOk result (λ n. Wrote (Some self.old.bytes) (Some self.new.bytes) (take n bytes.now)) }
        ensures failed { OnErr result (Rose self.old.faults self.new.faults) }
        ensures kept { OnErr result (Wrote (Some self.old.bytes) (Some self.new.bytes) []) }
        ensures counted { self.old.faults ≤ self.new.faults }
    {
        let n = self.calls.per_call.min(bytes.len());
        if self.calls.fails(n > ROOM - self.bytes.len()) {
            return Err(Failed);
        }
        self.bytes.extend_from_slice(&bytes[..n]).unwrap();
        Ok(n)
    }
}
