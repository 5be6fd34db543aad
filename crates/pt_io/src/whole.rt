ghost use Rattle.std.specs.Prelude.{◌≡◌, ◌<◌, ◌≤◌, ◌+◌, ◌^◌, ◌++◌, ℕ, List, Some, [], length, min, vec_len, IfOk, IfSome, IfErr, OnOk, OnErr, IsErrOf};
ghost use Rattle.pt_io.specs.Streams.{Rose, Took, TookCount, TookAtMost, IsAtEnd, IfTooLong, Wrote, WroteFront};

use crate::fault::{ReadFault, WriteFault};
use crate::streams::{Sink, Source};
use std::alloc::Global;

/// How many bytes one read asks for at most.
const CHUNK: usize = 8192;

/// Takes at most `room` bytes by one read, through the chunk, and appends them.
fn take_some<S: Source>(
    source: &mut S,
    chunk: &mut [u8],
    room: usize,
    out: &mut Vec<u8>,
) -> Result<usize, ReadFault>
    requires { room ≤ length chunk.old }
    ensures some { IfOk result (λ n. (bytes : List ℕ) × (length bytes ≡ n) × (out.new.items ≡ out.old.items ++ bytes) × Took (S.left source.old) (S.left source.new) bytes) }
    ensures count { IfOk result (λ n. n ≤ room) }
    ensures end { IfOk result (λ n. n ≡ 0 → 0 < room → IsAtEnd (S.left source.old)) }
    ensures failed { IsErrOf result ReadFault.Failed → Rose (S.faults source.old) (S.faults source.new) }
    ensures too_long { IfErr result (λ e. IfTooLong e (λ _. ⊥)) }
    ensures taken { OnErr result (TookAtMost (S.left source.old) (S.left source.new) room) }
    ensures counted { S.faults source.old ≤ S.faults source.new }
{
    let n = source.read(&mut chunk[..room])?;
    out.extend_from_slice(&chunk[..n])?;
    Ok(n)
}

/// All bytes of a source, to its end, where they are at most `limit`.
///
/// Where more stand, `limit + 1` bytes are taken. The time is linear in the bytes.
pub fn read_all<S: Source>(
    alloc: Global,
    source: &mut S,
    limit: usize,
) -> Result<Vec<u8>, ReadFault>
    requires { limit < 2 ^ 63 }
    ensures ok { IfOk result (λ all. IfSome (S.left source.old) (λ bytes. (all.items ≡ bytes) × (S.left source.new ≡ Some []))) }
    ensures size { IfOk result (λ all. vec_len all ≤ limit) }
    ensures failed { IsErrOf result ReadFault.Failed → Rose (S.faults source.old) (S.faults source.new) }
    ensures too_long { IfErr result (λ e. IfTooLong e (λ l. (l ≡ limit) × TookCount (S.left source.old) (S.left source.new) (limit + 1))) }
    ensures taken { OnErr result (TookAtMost (S.left source.old) (S.left source.new) (limit + 1)) }
    ensures counted { S.faults source.old ≤ S.faults source.new }
{
    let mut all = Vec::new(alloc);
    let mut chunk = [0u8; CHUNK];
    while all.len() <= limit {
        let room = CHUNK.min(limit + 1 - all.len());
        if take_some(source, &mut chunk, room, &mut all)? == 0 {
            return Ok(all);
        }
    }
    Err(ReadFault::TooLong { limit })
}

/// Writes all bytes, in order. Takes no memory.
///
/// After a refusal a front of the bytes was appended.
pub fn write_all<K: Sink>(sink: &mut K, bytes: &[u8]) -> Result<(), WriteFault>
    ensures ok { OnOk result (Wrote (K.written sink.old) (K.written sink.new) bytes.now) }
    ensures failed { OnErr result (Rose (K.faults sink.old) (K.faults sink.new)) }
    ensures front { OnErr result (WroteFront (K.written sink.old) (K.written sink.new) bytes.now) }
    ensures counted { K.faults sink.old ≤ K.faults sink.new }
{
    let mut at = 0;
    while at < bytes.len() {
        at += sink.write(&bytes[at..])?;
    }
    Ok(())
}
