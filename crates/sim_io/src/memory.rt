//! Sources and a sink in memory.

ghost use Rattle.std.specs.Prelude.{◌≡◌, ◌+◌, ◌-◌, ◌^◌, ◌<◌, ◌≤◌, ℕ, List, [], ◌++◌, Some, IfOk, drop, is_err};
ghost use Rattle.std.specs.Prelude.{if◌then◌else◌, is_ok, length, min, take, ◌==◌};
ghost use Rattle.std.specs.List.{list_any};
ghost use Rattle.std.specs.Io.{ReadsAtMost, WritesAtMost};
ghost use Rattle.std.specs.Io.KnownBytes.{ReadConsumes, WriteAppends};
ghost use Rattle.sim_io.specs.Causes.{HasCause};
ghost use Rattle.sim_io.specs.Memory.{is_listed, is_refused, new_sink, new_source, one_more};

use crate::streams::{Failed, Sink, Source};
use std::alloc::{AllocError, Global};
use std::marker::Model;

/// A source over bytes in memory, which gives a piece at a time and fails at given calls.
#[derive(Drop)]
pub struct MemSource {
    bytes: Vec<u8>,
    given: usize,
    piece: usize,
    fail_at: Vec<u32>,
    calls: u64,
    faults: u64,
}

impl Model for MemSource {
    ghost use Rattle.std.specs.Prelude.{◌≤◌, drop, vec_len};
    ghost use Rattle.sim_io.specs.Memory.{MemSourceValue};

    ghost Value = { MemSourceValue };

    ghost view = { λ s. record {
      left = drop s.given s.bytes.items;
      piece = s.piece;
      fail_at = s.fail_at.items;
      calls = s.calls;
      faults = s.faults;
    } };

    ghost invariant = { λ s. (s.given ≤ vec_len s.bytes) × (1 ≤ s.piece) };
}

impl MemSource {
    /// A source of these bytes, at most `piece` of them a call. The calls whose numbers are in
    /// `fail_at`, counted from 1, fail.
    pub fn new(bytes: Vec<u8>, piece: usize, fail_at: Vec<u32>) -> MemSource
        requires { 1 ≤ piece }
        ensures { result ≡ new_source bytes.items piece fail_at.items }
    {
        MemSource {
            bytes,
            given: 0,
            piece,
            fail_at,
            calls: 0,
            faults: 0,
        }
    }
}

impl Source for MemSource {
    ghost state = { λ s. record { left = Some s.left; faults = s.faults } };

    fn read(&mut self, buf: &mut [u8]) -> Result<usize, Failed>
        ensures bound { ReadsAtMost result buf.new }
        ensures bytes { ReadConsumes (Some self.old.left) (Some self.new.left) result buf.new }
        ensures cause { HasCause self.old.faults self.new.faults result }
        ensures counted { self.new.faults ≡ (if is_ok result then self.old.faults else one_more self.old.faults) }
        ensures fails { is_err result ≡ is_listed self.old.calls self.old.fail_at }
        ensures most { IfOk result (λ n. n ≡ min (min (length self.old.left) self.old.piece) (length buf.new)) }
        ensures calls { self.new.calls ≡ one_more self.old.calls }
        ensures settings { (self.new.piece ≡ self.old.piece) × (self.new.fail_at ≡ self.old.fail_at) }
    {
        self.calls = self.calls.saturating_add(1);
        if is_call_listed(&self.fail_at, self.calls) {
            self.faults = self.faults.saturating_add(1);
            return Err(Failed);
        }
        let count = copy_from(&self.bytes, self.given, self.piece, buf);
        self.given += count;
        Ok(count)
    }
}

/// A source over bytes in memory that gives all of them and never fails.
#[derive(Drop)]
pub struct CleanSource {
    bytes: Vec<u8>,
    given: usize,
}

impl Model for CleanSource {
    ghost use Rattle.std.specs.Prelude.{◌≤◌, ℕ, List, drop, vec_len};

    ghost Value = { List ℕ };

    ghost view = { λ s. drop s.given s.bytes.items };

    ghost invariant = { λ s. s.given ≤ vec_len s.bytes };
}

impl CleanSource {
    /// A source of these bytes.
    pub fn new(bytes: Vec<u8>) -> CleanSource
        ensures { result ≡ bytes.items }
    {
        CleanSource { bytes, given: 0 }
    }
}

impl Source for CleanSource {
    ghost state = { λ s. record { left = Some s; faults = 0 } };

    fn read(&mut self, buf: &mut [u8]) -> Result<usize, Failed> {
        let count = copy_from(&self.bytes, self.given, usize::MAX, buf);
        self.given += count;
        Ok(count)
    }
}

/// A sink into memory, which takes a piece at a time and fails at given calls and where it is full, also at a write of
/// no bytes.
#[derive(Drop)]
pub struct MemSink {
    bytes: Vec<u8>,
    most: usize,
    piece: usize,
    fail_at: Vec<u32>,
    calls: u64,
    faults: u64,
}

impl Model for MemSink {
    ghost use Rattle.std.specs.Prelude.{◌≤◌, vec_capacity, vec_len};
    ghost use Rattle.sim_io.specs.Memory.{MemSinkValue};

    ghost Value = { MemSinkValue };

    ghost view = { λ s. record {
      bytes = s.bytes.items;
      most = s.most;
      piece = s.piece;
      fail_at = s.fail_at.items;
      calls = s.calls;
      faults = s.faults;
    } };

    ghost invariant = { λ s. (vec_len s.bytes ≤ s.most) × (s.most ≤ vec_capacity s.bytes) × (1 ≤ s.piece) };
}

impl MemSink {
    /// A sink that takes at most `room` bytes, and at most `piece` of them a call. The calls
    /// whose numbers are in `fail_at`, counted from 1, fail. All its memory is taken here.
    pub fn new(
        alloc: Global,
        room: usize,
        piece: usize,
        fail_at: Vec<u32>,
    ) -> Result<MemSink, AllocError>
        requires { 1 ≤ piece }
        ensures { IfOk result (λ s. s ≡ new_sink room piece fail_at.items) }
    {
        Ok(MemSink {
            bytes: Vec::with_capacity(alloc, room)?,
            most: room,
            piece,
            fail_at,
            calls: 0,
            faults: 0,
        })
    }

    /// What was taken.
    pub fn bytes(&self) -> &[u8]
        ensures { result.now ≡ self.now.bytes }
    {
        &self.bytes
    }
}

impl Sink for MemSink {
    ghost state = { λ s. record { taken = Some s.bytes; faults = s.faults } };

    fn write(&mut self, piece: &[u8]) -> Result<usize, Failed>
        ensures bound { WritesAtMost result piece.now }
        ensures some { IfOk result (λ n. 0 < length piece.now → 0 < n) }
        ensures bytes { WriteAppends (Some self.old.bytes) (Some self.new.bytes) result piece.now }
        ensures cause { HasCause self.old.faults self.new.faults result }
        ensures counted { self.new.faults ≡ (if is_ok result then self.old.faults else one_more self.old.faults) }
        ensures fails { is_err result ≡ is_refused self.old }
        ensures most { let free = self.old.most - length self.old.bytes in
            IfOk result (λ n. n ≡ min (min (length piece.now) self.old.piece) free) }
        ensures calls { self.new.calls ≡ one_more self.old.calls }
        ensures settings { (self.new.most ≡ self.old.most) × (self.new.piece ≡ self.old.piece)
            × (self.new.fail_at ≡ self.old.fail_at) }
    {
        self.calls = self.calls.saturating_add(1);
        let free = self.most - self.bytes.len();
        if is_call_listed(&self.fail_at, self.calls) || free == 0 {
            self.faults = self.faults.saturating_add(1);
            return Err(Failed);
        }
        let count = piece.len().min(self.piece).min(free);
        let (front, _) = piece.split_at(count);
        match self.bytes.extend_from_slice(front) {
            Ok(()) => Ok(count),
            // `new` took the memory for `most` bytes.
            Err(_) => unreachable!(),
        }
    }
}

// Whether the call of this number is to fail.
fn is_call_listed(fail_at: &[u32], call: u64) -> bool
    ensures { result ≡ list_any (λ k. k == call) fail_at.now }
{
    fail_at.iter().any(|k| u64::from(*k) == call)
}

// Copies the bytes from a place on into the buffer, as many as fit, and at most so many.
fn copy_from(bytes: &[u8], at: usize, most: usize, buf: &mut [u8]) -> usize
    requires { at ≤ length bytes.now }
    ensures count { result ≡ min (min (length (drop at bytes.now)) most) (length buf.new) }
    ensures within { at + result ≤ length bytes.now }
    ensures copied { drop at bytes.now ≡ take result buf.new ++ drop (at + result) bytes.now }
{
    let (_, rest) = bytes.split_at(at);
    let count = rest.len().min(most).min(buf.len());
    buf[..count].copy_from_slice(&rest[..count]);
    count
}
