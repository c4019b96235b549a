//! A task that leaves its lists, or is idle again.

ghost use Rattle.std.specs.Prelude.{◌≡◌, ◌+◌, ◌<◌, Contains, IsSome, length, map};
ghost use Rattle.tile_queues.specs.Queue.{ids_but};
ghost use Rattle.spec_state.specs.declared.task.Status.TheVariants.{Finished};
ghost use Rattle.spec_state.specs.View.{core_ids, task_at};
ghost use Rattle.spec_state.specs.Leaving.{freed_of, IsHeldAs, TaskLeaves, SetsBack};
ghost use Rattle.spec_state.specs.Tasks.{idle_again};

use crate::state::State;
use crate::task::{Status, Task, TaskId};
use rv_core::Naming;
use tile_queues::{CommitQueue, TaskQueue};

/// Takes an id out of a task queue that contains it.
fn leave_queue(queue: &mut TaskQueue, id: usize)
    requires there { Contains queue.old.ids id }
    ensures taken { queue.new ≡ record queue.old { ids = ids_but id queue.old.ids } }
    ensures one { length queue.new.ids + 1 ≡ length queue.old.ids }
{
    // The queue contains no id twice, so one place is free afterwards.
    let _distinct = queue.ids();
    queue.take(id);
}

/// Takes a task out of the commit queue of its tile, where it waits there.
fn leave_commits(waiting: &mut CommitQueue, status: Status, id: usize)
    requires finished { Contains waiting.old.ids id → status ≡ Finished }
    ensures { waiting.new ≡ record waiting.old { ids = ids_but id waiting.old.ids } }
{
    match status {
        Status::Finished => {
            waiting.take(id);
        }
        _ => {}
    }
}

/// Takes a task off the core that it keeps, where it keeps one.
fn leave_core(cores: &mut [Option<TaskId>], status: Status, id: usize)
    requires held { IsHeldAs id status (core_ids cores.old) }
    ensures { core_ids cores.new ≡ map (freed_of id) (core_ids cores.old) }
{
    match status {
        Status::Running { core } | Status::Trapped { core, .. } => cores[core as usize] = None,
        Status::Idle | Status::Finished => {}
    }
}

/// Makes a task idle again, with nothing done. It keeps the memory of its lists.
fn reset(task: &mut Task, version: u16)
    ensures { task.new ≡ idle_again version task.old }
{
    task.key.tb = None;
    task.status = Status::Idle;
    task.core
        .put_start(version, task.entry, task.key.ts, task.args);
    task.log.clear();
    task.lines.clear();
    task.spawns.clear();
    task.bytes.clear();
    task.sub = None;
}

impl<N: Naming> State<N> {
    /// Takes a task out: of the slab, of its queue, of the index, and of its core or its commit
    /// queue. It takes no memory. It hands nothing back: who needs something of the task reads it before.
    pub fn take_out(&mut self, id: TaskId)
        requires live { IsSome (task_at self.old.view id.0) }
        ensures leaves { TaskLeaves id.0 self.old.view self.new.view }
        ensures spare { self.new.spare ≡ self.old.spare }
        ensures scratch { self.new.scratch ≡ self.old.scratch }
        ensures effect { self.new.effect ≡ self.old.effect }
    {
        let task = &self.tasks[id.0];
        let tile = task.tile as usize;
        let status = task.status;
        self.tasks.remove(id.0);
        leave_queue(&mut self.queues[tile], id.0);
        leave_commits(&mut self.finished[tile], status, id.0);
        leave_core(&mut self.cores[tile], status, id.0);
        self.index.remove(id.0);
    }

    /// Makes a task idle again, in its own place of its queue and with its arrival number: its core
    /// or its place of the commit queue is free, its tiebreaker open, and nothing done. It keeps the
    /// memory of its lists, and takes none. Its stores are not undone here.
    pub fn set_back(&mut self, id: TaskId)
        requires live { IsSome (task_at self.old.view id.0) }
        ensures back { SetsBack id.0 self.old.view self.new.view }
        ensures spare { self.new.spare ≡ self.old.spare }
        ensures scratch { self.new.scratch ≡ self.old.scratch }
        ensures effect { self.new.effect ≡ self.old.effect }
    {
        let task = &mut self.tasks[id.0];
        let tile = task.tile as usize;
        let status = task.status;
        reset(task, self.version);
        leave_commits(&mut self.finished[tile], status, id.0);
        leave_core(&mut self.cores[tile], status, id.0);
        self.index.open(id.0);
    }
}
