//! The bytes that a task emitted.

ghost use Rattle.std.specs.Prelude.{◌≡◌, ◌<◌, ◌≤◌, [], ◌∷◌, ◌++◌, length};

use arrayvec::ArrayVec;
use std::marker::Model;

/// How many bytes a task may emit.
pub const MAX_EMITTED: usize = 256;

/// The bytes that a task has emitted, in their order: at most `MAX_EMITTED`. The memory for all of them is in it from
/// the start.
#[derive(Debug, Drop)]
pub struct Emitted {
    bytes: ArrayVec<u8, MAX_EMITTED>,
}

impl Model for Emitted {
    ghost use Rattle.std.specs.Prelude.{List, ℕ};

    ghost Value = { List ℕ };

    ghost view = { λ e. e.bytes.items };
}

impl Emitted {
    /// No byte.
    pub fn new() -> Self
        ensures { result ≡ [] }
    {
        Emitted {
            bytes: ArrayVec::new(),
        }
    }

    /// Adds a byte at the end, where fewer than `MAX_EMITTED` are there.
    pub fn push(&mut self, byte: u8)
        requires { length self.old < MAX_EMITTED }
        ensures { self.new ≡ self.old ++ byte ∷ [] }
    {
        self.bytes.push(byte);
    }

    /// The bytes.
    pub fn as_slice(&self) -> &[u8]
        ensures { result.now ≡ self.now }
    {
        self.bytes.as_slice()
    }

    /// How many bytes there are: at most `MAX_EMITTED`.
    pub fn count(&self) -> u32
        ensures count { result ≡ length self.now }
        ensures few { result ≤ MAX_EMITTED }
    {
        self.bytes.len() as u32
    }

    /// Forgets all bytes.
    pub fn clear(&mut self)
        ensures { self.new ≡ [] }
    {
        self.bytes.clear();
    }
}
