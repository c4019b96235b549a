//! Queries of a state. No call allocates memory.

ghost use Rattle.std.specs.Prelude.{◌≡◌, ◌+◌, ◌<◌, ◌≤◌, length, map, All, Some, IsSome, IfSome, option_map};
ghost use Rattle.std.specs.Prelude.{option_copied, slice_get};
ghost use Rattle.spec_state.specs.declared.loads.TheConstants.{MAX_TILES};
ghost use Rattle.spec_state.specs.View.{task_at, finished_at, cores_at, block_at, loads};
ghost use Rattle.spec_state.specs.Tasks.{kept_core, trap_cause};

use crate::loads::Loads;
use crate::serial_machine::Entry;
use crate::settings::Settings;
use crate::state::State;
use crate::task::{Status, Task, TaskId};
use fractal_vt::{Key, Vt};
use rv_core::{Core, Decoded, Naming};
use std::alloc::Global;
use tile_queues::TaskQueue;

impl<N: Naming> State<N> {
    /// The settings with which it was made.
    pub fn settings(&self) -> &Settings
        ensures { result.now ≡ self.now.view.settings }
    {
        &self.settings
    }

    /// The committed tasks, in the order of their commits.
    pub fn history(&self) -> &[Entry]
        ensures { result.now ≡ self.now.view.history }
    {
        self.history.as_slice()
    }

    /// The bytes of the committed tasks.
    pub fn output(&self) -> &[u8]
        ensures { result.now ≡ self.now.view.output }
    {
        self.output.as_slice()
    }

    /// How many tasks have committed.
    pub fn commit_count(&self) -> u32
        ensures { result ≡ length self.now.view.history }
    {
        self.history.count()
    }

    /// The text of the image, decoded.
    pub fn decoded_text(&self) -> &Decoded<N> {
        &self.decoded
    }

    /// What larger buffers, the list of what pends and a book's lists take their memory from.
    pub fn alloc(&self) -> Global {
        self.alloc
    }

    /// The levels of the key of the task that committed last; none before the first commit.
    pub fn path(&self) -> &Vt
        ensures { result.now ≡ self.now.view.path }
    {
        &self.path
    }

    /// How many spilled tasks a tile has.
    pub fn block_len(&self, tile: u32) -> usize
        requires { tile < self.now.view.settings.tiles }
        ensures { result ≡ length (block_at self.now.view tile) }
    {
        self.blocks.block(tile).len()
    }

    /// The task that a core of a tile holds; None exactly where it holds none.
    pub fn on_core(&self, tile: u32, core: u32) -> Option<TaskId>
        requires tile { tile < self.now.view.settings.tiles }
        requires core { core < self.now.view.settings.cores }
        ensures { slice_get (cores_at self.now.view tile) core ≡ Some (option_map (λ id. id.0) result) }
    {
        self.cores[tile as usize][core as usize]
    }

    /// How many places of a tile's commit queue are free.
    pub fn commit_free(&self, tile: u32) -> u32
        requires { tile < self.now.view.settings.tiles }
        ensures { result + length (finished_at self.now.view tile) ≡ self.now.view.settings.commit_queue }
    {
        self.finished[tile as usize].free()
    }

    /// How many tasks each tile's task queue holds, the lowest tile first.
    pub fn loads(&self) -> Loads
        ensures { result ≡ loads self.now.view }
    {
        loads_of(self.queues.as_slice(), self.settings.task_queue)
    }

    /// The task of this id, which has to be there.
    pub fn task(&self, task: TaskId) -> &Task
        requires live { IsSome (task_at self.now.view task.0) }
        ensures { task_at self.now.view task.0 ≡ Some result.now }
    {
        &self.tasks[task.0]
    }

    /// The tile in whose task queue the task stands.
    pub fn tile_of(&self, task: TaskId) -> u32
        requires live { IsSome (task_at self.now.view task.0) }
        ensures { IfSome (task_at self.now.view task.0) (λ t. result ≡ t.tile) }
    {
        self.task(task).tile
    }

    /// The task's virtual time. Its tiebreaker is open while it is idle.
    pub fn key_of(&self, task: TaskId) -> &Key
        requires live { IsSome (task_at self.now.view task.0) }
        ensures { IfSome (task_at self.now.view task.0) (λ t. result.now ≡ t.key) }
    {
        &self.task(task).key
    }

    /// The core's registers as the task has left them since its dispatch; None exactly where it is idle.
    pub fn core_of(&self, task: TaskId) -> Option<&Core>
        requires live { IsSome (task_at self.now.view task.0) }
        ensures { IfSome (task_at self.now.view task.0) (λ t. option_copied result ≡ kept_core t.status t.core) }
    {
        let found = self.task(task);
        match found.status {
            Status::Idle => None,
            Status::Running { .. } | Status::Trapped { .. } | Status::Finished => {
                Some(found.core.core())
            }
        }
    }

    /// The cause of the trap at which the task stands, 1 to 17; None exactly where it isn't trapped.
    pub fn trap_of(&self, task: TaskId) -> Option<u8>
        requires live { IsSome (task_at self.now.view task.0) }
        ensures { IfSome (task_at self.now.view task.0) (λ t. result ≡ trap_cause t.status) }
    {
        match self.task(task).status {
            Status::Trapped { cause, .. } => Some(cause),
            Status::Idle | Status::Running { .. } | Status::Finished => None,
        }
    }
}

/// How many ids each of at most `MAX_TILES` queues of this capacity holds.
fn loads_of(queues: &[TaskQueue], capacity: u32) -> Loads
    requires few { length queues.now ≤ MAX_TILES }
    requires capacity { All (λ queue. queue.capacity ≡ capacity) queues.now }
    ensures { result ≡ map length (map (λ queue. queue.ids) queues.now) }
{
    let mut loads = Loads::new();
    for queue in queues {
        loads.push(capacity - queue.free());
    }
    loads
}
