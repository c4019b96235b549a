//! A task put on a core, where a number is free.

ghost use Rattle.std.specs.Prelude.{◌≡◌, ◌<◌, ◌≤◌, ℕ, Some, IsSome, length, slice_set};
ghost use Rattle.spec_state.specs.declared.numbers.TheConstants.{DISPATCH_NUMBERS};
ghost use Rattle.spec_state.specs.declared.task.Task.{Task};
ghost use Rattle.spec_state.specs.Changes.{Dispatches};
ghost use Rattle.spec_state.specs.Queries.{IsLeastIdle, IsLowestFree};
ghost use Rattle.spec_dispatch.specs.Started.{started_task};

use rv_core::Naming;
use spec_state::{State, Status, Task, TaskId};

/// Starts a task on a core with a dispatch number.
fn start(task: &mut Task, version: u16, core: u32, number: u64)
    ensures { task.new ≡ started_task version core number task.old }
{
    task.key.tb = Some(number);
    task.status = Status::Running { core };
    task.core
        .put_start(version, task.entry, task.key.ts, task.args);
}

/// Puts the least idle task of a tile on the tile's lowest free core with the next dispatch number, which is one
/// that may be given.
pub(crate) fn place<N: Naming>(state: &mut State<N>, tile: u32, id: TaskId, core: u32)
    requires tile { tile < state.old.view.settings.tiles }
    requires least { (task : Task) × IsLeastIdle state.old.view tile id.0 task }
    requires free { IsLowestFree state.old.view tile core }
    requires number { state.old.view.next < DISPATCH_NUMBERS }
    ensures dispatches { Dispatches tile state.old.view state.new.view }
    ensures effect { state.new.effect ≡ state.old.effect }
    ensures spare { state.new.spare ≡ state.old.spare }
{
    start(&mut state.tasks[id.0], state.version, core, state.next);
    state.index.close(id.0, state.next);
    state.cores[tile as usize][core as usize] = Some(id);
    state.next += 1;
}
