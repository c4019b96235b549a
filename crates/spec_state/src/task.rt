//! Tasks: ids, creators, status and all that a task has.

use crate::emitted::Emitted;
use crate::serial_machine::Items;
use fractal_vt::Key;
use guest_image::Kind;
use line_table::Lines;
use rv_core::NotedCore;
use task_desc::Spawn;
use undo_log::Log;

/// An uncommitted task that isn't spilled, by its slot in the state's slab. It says nothing of the task: an id is
/// given again once its task has left.
#[derive(Clone, Copy, Debug, PartialEq, Eq)]
pub struct TaskId(pub usize);

/// Who made a task.
#[derive(Clone, Copy, Debug, PartialEq, Eq)]
pub enum Creator {
    /// A task that has committed, or the image.
    Committed {
        /// The creator's commit number, counted from 1; 0 for the image.
        turn: u32,
        /// The place among the creator's children, or among the image's tasks, counted from 0.
        index: u32,
    },
    /// A task that has not committed.
    Live {
        /// The creator.
        task: TaskId,
        /// The place among the creator's children, counted from 0.
        index: u32,
    },
}

/// How far a task in a task queue has come (Jeffrey et al. 2015: idle, running or finished; a trapped one waits to
/// become the least).
#[derive(Clone, Copy, Debug, PartialEq, Eq)]
pub enum Status {
    /// It waits for a core.
    Idle,
    /// It runs on a core.
    Running {
        /// The core, among those of its tile.
        core: u32,
    },
    /// It trapped, and keeps its core.
    Trapped {
        /// The core, among those of its tile.
        core: u32,
        /// The cause of the trap: 1 to 17.
        cause: u8,
    },
    /// It made its end call, and waits in the commit queue.
    Finished,
}

/// The least uncommitted task, and how it stands.
#[derive(Clone, Copy, Debug, PartialEq, Eq)]
pub enum Where {
    /// In a task queue, and waits for a core.
    Idle(TaskId),
    /// On a core.
    Running(TaskId),
    /// On a core, at a trap.
    Trapped(TaskId),
    /// In a commit queue.
    Finished(TaskId),
    /// In the block of this tile.
    Spilled(u32),
}

/// The children that a task has made, in the order of its calls, each with the timestamp that its domain takes.
pub type Spawns = Items<Spawn>;

/// An uncommitted task that isn't spilled.
#[derive(Drop)]
pub struct Task {
    /// The address of its first instruction; it may lie outside the text.
    pub entry: u32,
    /// Its arguments, in the registers x10 to x12 at its start.
    pub args: [u32; 3],
    /// A number from which a tile may be picked for it.
    pub hint: u32,
    /// A bit for each domain that it is in, the root domain in bit 0: 1 where that domain is ordered.
    pub kinds: u16,
    /// Its virtual time: the levels of its domain, its timestamp and, once it is dispatched, its dispatch number.
    pub key: Key,
    /// Who made it.
    pub creator: Creator,
    /// The tile in whose task queue it stands.
    pub tile: u32,
    /// How far it has come.
    pub status: Status,
    /// Its core: that of its start while it is idle, and the kept one afterwards.
    pub core: NotedCore,
    /// Its loads and stores since its dispatch, with the values that stood there before.
    pub log: Log,
    /// The lines of its log, as its filter keeps them.
    pub lines: Lines,
    /// The children that it has made since its dispatch.
    pub spawns: Spawns,
    /// The bytes that it has emitted since its dispatch.
    pub bytes: Emitted,
    /// The kind of its subdomain, if it has made one since its dispatch.
    pub sub: Option<Kind>,
}
