//! All of a source, and all of a piece.

ghost use Rattle.std.specs.Prelude.{◌≡◌, ◌+◌, ◌<◌, ◌≤◌, Err, IfOk};
ghost use Rattle.sim_io.specs.Causes.{Rose};
ghost use Rattle.sim_io.specs.Parts.{ReadsAll, ReadsPast, ReadsSome, Writes};

use crate::streams::{Failed, Sink, Source};
use std::alloc::Global;

/// Why a source was not read to its end.
#[derive(Clone, Copy, Debug, PartialEq, Eq)]
pub enum ReadEnd {
    /// The source failed.
    Failed,
    /// It has more bytes than the limit.
    Long,
    /// Out of memory.
    Memory,
}

// The most bytes that are asked for at once.
const CHUNK: usize = 4096;

/// All bytes that are left, of which there may be at most `limit`. What was taken is gone after
/// each answer, also after an error; a source with more bytes is left after `limit + 1` of them.
pub fn read_all<S: Source>(alloc: Global, source: &mut S, limit: usize) -> Result<Vec<u8>, ReadEnd>
    ensures all { IfOk result (λ v. ReadsAll (S.state source.old) (S.state source.new) limit v.items) }
    ensures long { result ≡ Err ReadEnd.Long → ReadsPast (S.state source.old) (S.state source.new) limit }
    ensures failed { result ≡ Err ReadEnd.Failed → ReadsSome (S.state source.old) (S.state source.new) limit }
    ensures memory { result ≡ Err ReadEnd.Memory → ReadsSome (S.state source.old) (S.state source.new) limit }
    ensures cause { result ≡ Err ReadEnd.Failed → Rose (S.state source.old).faults (S.state source.new).faults }
    ensures later { (S.state source.old).faults ≤ (S.state source.new).faults }
{
    let mut bytes = Vec::new(alloc);
    let mut chunk = [0u8; CHUNK];
    'chunks: loop {
        let free = limit - bytes.len();
        let wanted = chunk_len(free);
        let Ok(count) = source.read(&mut chunk[..wanted]) else {
            return Err(ReadEnd::Failed);
        };
        if count == 0 {
            return Ok(bytes);
        }
        if free < count {
            return Err(ReadEnd::Long);
        }
        if bytes.extend_from_slice(&chunk[..count]).is_err() {
            return Err(ReadEnd::Memory);
        }
    }
}

// How many bytes to ask for where so many are still allowed: one more, so that a longer input shows, or a chunk.
fn chunk_len(free: usize) -> usize
    ensures some { 0 < result }
    ensures fits { result ≤ 4096 }
    ensures most { result ≤ free + 1 }
{
    if free < CHUNK { free + 1 } else { CHUNK }
}

/// Writes the piece whole. After `Failed` its first bytes were taken.
pub fn write_all<K: Sink>(sink: &mut K, piece: &[u8]) -> Result<(), Failed>
    ensures { Writes (K.state sink.old) (K.state sink.new) result piece.now }
{
    let mut at = 0;
    while at < piece.len() {
        let (_, rest) = piece.split_at(at);
        at += sink.write(rest)?;
    }
    Ok(())
}
