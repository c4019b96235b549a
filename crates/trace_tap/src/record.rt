//! What is noted of an event.

ghost use Rattle.std.specs.Prelude.{◌≡◌};

/// The kind of an event.
#[derive(Clone, Copy, Debug, PartialEq, Eq)]
pub enum Deed {
    /// An idle task went to a core.
    Dispatch,
    /// A load or a store of a task.
    Access,
    /// A call of a task that was allowed.
    Call,
    /// A task went on without an access or a call, or it trapped.
    Keep,
    /// A task was aborted because an event asked for it.
    Abort,
    /// The least task was committed.
    Commit,
    /// Tasks went from a task queue to a block.
    Coalesce,
    /// A task came back from a block to its task queue.
    Split,
}

/// What is noted of one event of the machine.
#[derive(Clone, Copy, Debug, PartialEq, Eq)]
pub struct Record {
    /// Its kind.
    pub deed: Deed,
    /// The tile of its task; for `Abort`, `Coalesce` and `Split` the tile that was named.
    pub tile: u32,
    /// The memory line of a load or a store: its offset in the data by the line size.
    pub line: Option<u32>,
    /// How many tasks it aborted.
    pub aborted: u32,
    /// How many tasks had committed once it was made.
    pub commits: u32,
}

impl Deed {
    ghost use Rattle.trace_tap.specs.Numbers.{code};

    /// Its number, 1 to 8 in the order of the variants.
    pub fn code(self) -> u8
        ensures { result ≡ code self }
    {
        match self {
            Deed::Dispatch => 1,
            Deed::Access => 2,
            Deed::Call => 3,
            Deed::Keep => 4,
            Deed::Abort => 5,
            Deed::Commit => 6,
            Deed::Coalesce => 7,
            Deed::Split => 8,
        }
    }
}
