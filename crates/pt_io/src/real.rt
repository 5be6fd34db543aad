ghost use Rattle.std.specs.Prelude.{◌≡◌, None};

use crate::fault::Failed;
use crate::streams::{Sink, Source};
use std::io::{ErrorKind, Read, Write};

/// A source over a reader of the standard library. It tells no bytes: what the reader gives is
/// taken on trust. A read that was interrupted is tried again.
#[derive(Drop)]
pub struct RealSource<R> {
    reader: R,
    pub(crate) faults: u64,
}

impl<R: Read> RealSource<R> {
    /// A source that has not failed. Takes no memory.
    pub fn new(reader: R) -> Self
        ensures { ⟦<RealSource<R> as Source>⟧.faults result ≡ 0 }
    {
        RealSource { reader, faults: 0 }
    }
}

impl<R: Read> Source for RealSource<R> {
    ghost left = { λ _. None };

    ghost faults = { λ s. s.faults };

    fn read(&mut self, buf: &mut [u8]) -> Result<usize, Failed> {
        for _ in 0..u64::MAX {
            match self.reader.read(buf) {
                Ok(n) => return Ok(n),
                Err(error) if error.kind() == ErrorKind::Interrupted => {}
                Err(_) => break,
            }
        }
        self.faults = self.faults.saturating_add(1);
        Err(Failed)
    }
}

/// A sink over a writer of the standard library. It tells no bytes: what the writer takes is
/// taken on trust. A write that was interrupted is tried again, and a writer that takes nothing
/// of a nonempty piece has failed.
#[derive(Drop)]
pub struct RealSink<W> {
    writer: W,
    pub(crate) faults: u64,
}

impl<W: Write> RealSink<W> {
    /// A sink that has not failed. Takes no memory.
    pub fn new(writer: W) -> Self
        ensures { ⟦<RealSink<W> as Sink>⟧.faults result ≡ 0 }
    {
        RealSink { writer, faults: 0 }
    }
}

impl<W: Write> Sink for RealSink<W> {
    ghost written = { λ _. None };

    ghost faults = { λ s. s.faults };

    fn write(&mut self, bytes: &[u8]) -> Result<usize, Failed> {
        if bytes.is_empty() {
            return Ok(0);
        }
        for _ in 0..u64::MAX {
            match self.writer.write(bytes) {
                Ok(0) => break,
                Ok(n) => return Ok(n),
                Err(error) if error.kind() == ErrorKind::Interrupted => {}
                Err(_) => break,
            }
        }
        self.faults = self.faults.saturating_add(1);
        Err(Failed)
    }
}
