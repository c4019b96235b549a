//! Events, and what they are answered.

use crate::serial_machine::End;
use rv_core::{Leg, Naming};
use trace_tap::Record;

/// One atomic change of the machine. Tiles and cores are counted from 0.
#[derive(Drop)]
pub enum Event<N: Naming> {
    /// The least idle task of a tile goes to its lowest free core.
    Dispatch {
        /// The tile.
        tile: u32,
    },
    /// A leg of the task on a core, and what it stopped at.
    Step {
        /// The tile.
        tile: u32,
        /// The core, among those of the tile.
        core: u32,
        /// The leg, from the core that the task has.
        leg: Leg<N>,
    },
    /// The latest dispatched task of a tile is aborted.
    Abort {
        /// The tile.
        tile: u32,
    },
    /// The least task, where it is finished, commits.
    Commit,
    /// The latest idle firm tasks of a tile are spilled.
    Coalesce {
        /// The tile.
        tile: u32,
    },
    /// The least spilled task of a tile comes back.
    Split {
        /// The tile.
        tile: u32,
    },
}

/// What an event is answered. Of several causes the first decides: `Ended`, then `Empty`, `Busy`, `Stale`, `Firm`,
/// `Stall`.
#[derive(Clone, Copy, Debug, PartialEq, Eq)]
pub enum Reply {
    /// The event was made.
    Ok,
    /// There is nothing to make it of: no idle task (dispatch), no dispatched task (abort), no finished least task
    /// (commit), no idle firm task (coalesce), no spilled task (split).
    Empty,
    /// All cores of the tile hold tasks, and its least idle task isn't the least task.
    Busy,
    /// A queue is full for a task that isn't the least one: the task queue for a child, where no idle firm task moves;
    /// the task queue to which a spilled task was to return; or the commit queue, where no task in it is later.
    Stall,
    /// No task runs on that core, or the leg doesn't begin at the core that it has.
    Stale,
    /// The latest dispatched task of the tile is the least task.
    Firm,
    /// The run is over.
    Ended,
    /// Out of memory, or the book was stopped.
    Memory,
}

/// The reply to an event, and how many tasks it aborted.
#[derive(Clone, Copy, Debug, PartialEq, Eq)]
pub struct Applied {
    /// The reply.
    pub reply: Reply,
    /// How many tasks were aborted.
    pub aborted: u32,
}

/// The outcome of one event.
#[derive(Clone, Copy, Debug, PartialEq, Eq)]
pub enum Came {
    /// It was made, and the taps note it; the record has how many tasks it aborted.
    Made(Record),
    /// It was refused with this reply, which is never `Ok`, and aborted no task.
    Refused(Reply),
}

/// The outcome of one event for the least task.
#[derive(Clone, Copy, Debug, PartialEq, Eq)]
pub enum Advance {
    /// An event other than a commit was made.
    Moved {
        /// How many tasks it aborted.
        aborted: u32,
    },
    /// The least task committed.
    Committed,
    /// The run is over.
    Ended(End),
    /// Out of memory, or the book was stopped.
    Memory,
}

/// Why a run stopped.
#[derive(Clone, Copy, Debug, PartialEq, Eq)]
pub enum Halt {
    /// It is over.
    Ended(End),
    /// Out of memory, or the book was stopped.
    Memory,
}
