//! The lists of a tile, a task by its id, the next dispatch number, and how many tiles there are. No call takes memory.

ghost use Rattle.std.specs.Prelude.{◌≡◌, ◌<◌, Some, length, option_copied, option_map, slice_get};
ghost use Rattle.tile_queues.specs.Queue.{AreDistinct};
ghost use Rattle.spec_state.specs.View.{task_at, queue_at, finished_at, cores_at, core_ids, block_at};

use crate::state::State;
use crate::task::{Task, TaskId};
use rv_core::Naming;
use task_desc::Desc;

impl<N: Naming> State<N> {
    /// The ids in the task queue of a tile, in order of arrival.
    pub fn queued_in(&self, tile: u32) -> &[usize]
        requires { tile < self.now.view.settings.tiles }
        ensures ids { result.now ≡ queue_at self.now.view tile }
        ensures distinct { AreDistinct result.now }
    {
        self.queues[tile as usize].ids()
    }

    /// The ids in the commit queue of a tile, in order of arrival.
    pub fn finished_in(&self, tile: u32) -> &[usize]
        requires { tile < self.now.view.settings.tiles }
        ensures { result.now ≡ finished_at self.now.view tile }
    {
        self.finished[tile as usize].ids()
    }

    /// What the cores of a tile hold.
    pub(crate) fn held_in(&self, tile: u32) -> &[Option<TaskId>]
        requires { tile < self.now.view.settings.tiles }
        ensures { core_ids result.now ≡ cores_at self.now.view tile }
    {
        self.cores[tile as usize].as_slice()
    }

    /// The task of this id; None exactly where no task has it.
    pub fn find(&self, id: TaskId) -> Option<&Task>
        ensures { option_copied result ≡ task_at self.now.view id.0 }
    {
        self.tasks.get(id.0)
    }

    /// The descriptor of the spilled task at a place of a tile's block.
    pub fn spilled_at(&self, tile: u32, place: usize) -> Desc
        requires tile { tile < self.now.view.settings.tiles }
        requires place { place < length (block_at self.now.view tile) }
        ensures { option_map (λ s. s.desc) (slice_get (block_at self.now.view tile) place) ≡ Some result }
    {
        self.blocks.block(tile).desc_at(place)
    }

    /// The next dispatch number.
    pub fn next_number(&self) -> u64
        ensures { result ≡ self.now.view.next }
    {
        self.next
    }

    /// How many tiles there are: each has a task queue.
    pub(crate) fn tile_count(&self) -> u32
        ensures count { result ≡ self.now.view.settings.tiles }
        ensures queues { result ≡ length self.now.view.queues }
    {
        self.settings.tiles
    }
}
