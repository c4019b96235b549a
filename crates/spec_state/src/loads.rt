//! How many tasks each tile's task queue holds, for placers.

ghost use Rattle.std.specs.Prelude.{◌≡◌, ◌<◌, [], ◌∷◌, ◌++◌, length};

use arrayvec::ArrayVec;
use std::marker::Model;

/// How many tiles a machine has at most.
pub const MAX_TILES: usize = 16;

/// How many tasks each tile's task queue holds, the lowest tile first: at most `MAX_TILES` numbers, which take no
/// memory of their own.
#[derive(Debug, Drop)]
pub struct Loads {
    loads: ArrayVec<u32, MAX_TILES>,
}

impl Model for Loads {
    ghost use Rattle.std.specs.Prelude.{List, ℕ};

    ghost Value = { List ℕ };

    ghost view = { λ l. l.loads.items };
}

impl Loads {
    /// No tile.
    pub(crate) fn new() -> Self
        ensures { result ≡ [] }
    {
        Loads {
            loads: ArrayVec::new(),
        }
    }

    /// Adds the load of one tile more, where fewer than `MAX_TILES` are there.
    pub(crate) fn push(&mut self, load: u32)
        requires { length self.old < MAX_TILES }
        ensures { self.new ≡ self.old ++ load ∷ [] }
    {
        self.loads.push(load);
    }

    /// The loads, the lowest tile first.
    pub fn as_slice(&self) -> &[u32]
        ensures { result.now ≡ self.now }
    {
        self.loads.as_slice()
    }
}
