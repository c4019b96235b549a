//! What a source and a sink promise.

ghost use Rattle.std.specs.Prelude.{◌≡◌, ◌<◌, length, IfOk};
ghost use Rattle.std.specs.Io.{ReadsAtMost, WritesAtMost};
ghost use Rattle.std.specs.Io.KnownBytes.{ReadConsumes, WriteAppends};
ghost use Rattle.sim_io.specs.Causes.{HasCause};
ghost use Rattle.sim_io.specs.Streams.{SinkState, SourceState};

/// A source or a sink failed at a call. It took and gave nothing then.
#[derive(Clone, Copy, Debug, PartialEq, Eq)]
pub struct Failed;

/// Where bytes come from.
pub trait Source {
    /// The bytes that are left, where they are known, and how often it failed, which never falls.
    ghost state: { Self → SourceState };

    /// Gives the first bytes that are left. `Ok(0)` on a buffer that isn't empty is the end of the input.
    fn read(&mut self, buf: &mut [u8]) -> Result<usize, Failed>
        ensures bound { ReadsAtMost result buf.new }
        ensures bytes { ReadConsumes (state self.old).left (state self.new).left result buf.new }
        ensures cause { HasCause (state self.old).faults (state self.new).faults result };
}

/// Where bytes go.
pub trait Sink {
    /// The bytes that were taken, where they are known, and how often it failed, which never falls.
    ghost state: { Self → SinkState };

    /// Takes the first bytes of the piece, and at least one where it has any.
    fn write(&mut self, piece: &[u8]) -> Result<usize, Failed>
        ensures bound { WritesAtMost result piece.now }
        ensures some { IfOk result (λ n. 0 < length piece.now → 0 < n) }
        ensures bytes { WriteAppends (state self.old).taken (state self.new).taken result piece.now }
        ensures cause { HasCause (state self.old).faults (state self.new).faults result };
}
