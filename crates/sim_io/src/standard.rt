//! A source over standard input and a sink over standard output. Contracts don't see their bytes.

ghost use Rattle.std.specs.Prelude.{◌≡◌, ◌<◌, IfOk, None, length, if◌then◌else◌, is_ok};
ghost use Rattle.std.specs.Io.{ReadsAtMost, WritesAtMost};
ghost use Rattle.std.specs.Io.KnownBytes.{ReadConsumes, WriteAppends};
ghost use Rattle.sim_io.specs.Causes.{HasCause};
ghost use Rattle.sim_io.specs.Memory.{one_more};

use crate::streams::{Failed, Sink, Source};
use std::io::Read;
use std::marker::Model;

/// Standard input, seen as the number of its faults, which stops at 2^64 - 1.
#[derive(Drop)]
pub struct StdSource<I: Read + Drop> {
    reader: I,
    faults: u64,
}

impl<I: Read + Drop> Model for StdSource<I> {
    ghost use Rattle.std.specs.Prelude.{ℕ};

    ghost Value = { ℕ };

    ghost view = { λ s. s.faults };
}

impl<I: Read + Drop> StdSource<I> {
    /// The standard input of this runtime.
    pub fn new<R: Input<Reader = I>>(rt: &R) -> StdSource<I>
        ensures { result ≡ 0 }
    {
        StdSource {
            reader: rt.reader(),
            faults: 0,
        }
    }
}

impl<I: Read + Drop> Source for StdSource<I> {
    ghost state = { λ s. record { left = None; faults = s } };

    fn read(&mut self, buf: &mut [u8]) -> Result<usize, Failed>
        ensures bound { ReadsAtMost result buf.new }
        ensures bytes { ReadConsumes None None result buf.new }
        ensures cause { HasCause self.old self.new result }
        ensures counted { self.new ≡ (if is_ok result then self.old else one_more self.old) }
    {
        match self.reader.read(buf) {
            Ok(count) => Ok(count),
            Err(_) => {
                self.faults = self.faults.saturating_add(1);
                Err(Failed)
            }
        }
    }
}

/// Standard output, seen as the number of its faults, which stops at 2^64 - 1.
#[derive(Drop)]
pub struct StdSink<'a, R: Print> {
    rt: &'a R,
    faults: u64,
}

impl<'a, R: Print> Model for StdSink<'a, R> {
    ghost use Rattle.std.specs.Prelude.{ℕ};

    ghost Value = { ℕ };

    ghost view = { λ s. s.faults };
}

impl<'a, R: Print> StdSink<'a, R> {
    /// The standard output of this runtime.
    pub fn new(rt: &'a R) -> StdSink<'a, R>
        ensures { result ≡ 0 }
    {
        StdSink { rt, faults: 0 }
    }
}

impl<'a, R: Print> Sink for StdSink<'a, R> {
    ghost state = { λ s. record { taken = None; faults = s } };

    fn write(&mut self, piece: &[u8]) -> Result<usize, Failed>
        ensures bound { WritesAtMost result piece.now }
        ensures some { IfOk result (λ n. 0 < length piece.now → 0 < n) }
        ensures bytes { WriteAppends None None result piece.now }
        ensures cause { HasCause self.old self.new result }
        ensures counted { self.new ≡ (if is_ok result then self.old else one_more self.old) }
    {
        match self.rt.write_some(piece) {
            Ok(count) if count > 0 || piece.is_empty() => Ok(count),
            // A stream that takes nothing of a piece with bytes would never end.
            Ok(_) | Err(_) => {
                self.faults = self.faults.saturating_add(1);
                Err(Failed)
            }
        }
    }
}
