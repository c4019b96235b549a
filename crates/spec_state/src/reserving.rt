//! Memory for what an event other than a commit adds, taken before its first change.

ghost use Rattle.std.specs.Prelude.{◌≡◌, ◌+◌, ◌<◌, ◌≤◌, None, IsOk, IsSome, IfOk, IfSome, OnErr, OnOk};
ghost use Rattle.std.specs.Prelude.{length, slice_index_or, unwrap_or};
ghost use Rattle.slab.specs.Slab.{get};
ghost use Rattle.spec_state.specs.declared.task.Task.{Task};
ghost use Rattle.spec_state.specs.View.{task_at};
ghost use Rattle.spec_state.specs.StateValue.{Covers, HasNoLessSpare};

use crate::state::State;
use crate::task::{Task, TaskId};
use kept_slab::KeptSlab;
use rv_core::Naming;
use spare_buffer::Buffer;
use std::alloc::{AllocError, Global};
use task_desc::Spawn;
use undo_log::Access;

/// How many tasks move into a block at once, at most.
pub const MAX_MOVED: usize = 8;

/// Spare memory that a full list moves into. It is kept from event to event.
#[derive(Drop)]
pub struct Buffers {
    /// For the accesses of a task.
    pub log: Buffer<Access>,
    /// For the children of a task.
    pub spawns: Buffer<Spawn>,
    /// For the bytes of the committed tasks.
    pub output: Buffer<u8>,
}

impl Buffers {
    /// Nothing spare; what is reserved comes from `alloc`.
    pub fn new(alloc: Global) -> Self {
        Buffers {
            log: Buffer::new(alloc),
            spawns: Buffer::new(alloc),
            output: Buffer::new(alloc),
        }
    }
}

/// How many accesses this task has with one more, if one is given.
fn next_access(tasks: &KeptSlab<Task>, task: Option<TaskId>) -> usize
    requires live { IfSome task (λ id. IsSome (get tasks.now id.0)) }
    ensures some { IfSome task (λ id. IfSome (get tasks.now id.0) (λ t. result ≡ length t.log + 1)) }
    ensures none { task ≡ None → result ≡ 0 }
{
    match task {
        None => 0,
        Some(id) => tasks[id.0].log.accesses().len() + 1,
    }
}

/// How many children this task has with one more, if one is given.
fn next_child(tasks: &KeptSlab<Task>, task: Option<TaskId>) -> usize
    requires live { IfSome task (λ id. IsSome (get tasks.now id.0)) }
    ensures some { IfSome task (λ id. IfSome (get tasks.now id.0) (λ t. result ≡ length t.spawns + 1)) }
    ensures none { task ≡ None → result ≡ 0 }
{
    match task {
        None => 0,
        Some(id) => tasks[id.0].spawns.as_slice().len() + 1,
    }
}

/// A buffer for so many items, where this one has less. It is larger by half of that at least, so that a
/// list that grows one by one takes memory seldom.
fn larger_buffer<T: Drop>(
    buffer: &Buffer<T>,
    alloc: Global,
    items: usize,
) -> Result<Option<Buffer<T>>, AllocError>
    ensures none { IfOk result (λ made. made ≡ None → items ≤ buffer.now) }
    ensures some { IfOk result (λ made. IfSome made (λ larger. (items ≤ larger) × (buffer.now ≤ larger))) }
    ensures enough { items ≤ buffer.now → IsOk result }
{
    let spare = buffer.spare_capacity();
    if items <= spare {
        return Ok(None);
    }
    let mut made = Buffer::new(alloc);
    made.reserve(items.saturating_add(spare / 2))?;
    Ok(Some(made))
}

/// Puts a larger buffer, if there is one, in the place of this one.
fn replace<T: Drop>(buffer: &mut Buffer<T>, larger: Option<Buffer<T>>)
    ensures { buffer.new ≡ unwrap_or larger buffer.old }
{
    if let Some(larger) = larger {
        *buffer = larger;
    }
}

impl Buffers {
    /// Puts the larger buffers, if there are any, in the places of those for accesses and for children.
    fn cover(&mut self, log: Option<Buffer<Access>>, spawns: Option<Buffer<Spawn>>)
        ensures log { self.new.log ≡ unwrap_or log self.old.log }
        ensures spawns { self.new.spawns ≡ unwrap_or spawns self.old.spawns }
        ensures output { self.new.output ≡ self.old.output }
    {
        replace(&mut self.log, log);
        replace(&mut self.spawns, spawns);
    }
}

impl<N: Naming> State<N> {
    /// Makes what an event other than a commit adds spare: an access and a child of this task, if one is given, and so
    /// many tasks in the tile's block as move at once. A new task needs none: the slab has a slot for each place of the
    /// task queues, with memory for the task's bytes. `AllocError` where memory runs out, and nothing has changed then.
    /// The view stays in any case.
    pub fn reserve(&mut self, task: Option<TaskId>, tile: u32) -> Result<(), AllocError>
        requires live { IfSome task (λ id. IsSome (task_at self.old.view id.0)) }
        requires tile { tile < self.old.view.settings.tiles }
        ensures view { self.new.view ≡ self.old.view }
        ensures effect { self.new.effect ≡ self.old.effect }
        ensures covers { OnOk result (Covers self.new task tile) }
        ensures stays { HasNoLessSpare self.old.spare self.new.spare }
        ensures enough { Covers self.old task tile → IsOk result }
        ensures err { OnErr result (self.new ≡ self.old) }
    {
        // All memory is taken before the first change.
        let accesses = next_access(&self.tasks, task);
        let children = next_child(&self.tasks, task);
        let log = larger_buffer(&self.buffers.log, self.alloc, accesses)?;
        let spawns = larger_buffer(&self.buffers.spawns, self.alloc, children)?;
        self.blocks.reserve(tile, MAX_MOVED)?;
        self.buffers.cover(log, spawns);
        Ok(())
    }
}
