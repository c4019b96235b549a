//! An enqueue. It takes its memory first, so that nothing has changed where memory runs out.

ghost use Rattle.std.specs.Prelude.{◌≡◌, ◌<◌, ◌∷◌, ◌++◌, [], IsOk, IsSome, OnOk, OnErr};
ghost use Rattle.task_request.specs.declared.request.Request.TheVariants.{Enqueue};
ghost use Rattle.spec_dispatch.specs.spec_state.declared.task.Task.{Task};
ghost use Rattle.spec_dispatch.specs.spec_state.View.{task_at};
ghost use Rattle.spec_dispatch.specs.spec_state.StateValue.{CoversChild};
ghost use Rattle.spec_dispatch.specs.spec_state.Room.{QueueHasRoom};
ghost use Rattle.spec_dispatch.specs.spec_state.Changes.{Keeps, task_past_leg};
ghost use Rattle.spec_access.specs.Asking.{Asks, OfTaker};
ghost use Rattle.spec_access.specs.Telling.{EnqueuesTold};

use crate::calling::put_behind;
use crate::child::child_of;
use rv_core::{Leg, Naming};
use spec_state::{State, TaskId};
use std::alloc::AllocError;
use task_desc::Spawn;

/// Sees to it that one child more of the task is spare.
#[inline]
fn reserve_child<N: Naming>(state: &mut State<N>, id: TaskId) -> Result<(), AllocError>
    requires live { IsSome (task_at state.old.view id.0) }
    ensures view { state.new.view ≡ state.old.view }
    ensures effect { state.new.effect ≡ state.old.effect }
    ensures spare { state.new.spare ≡ record state.old.spare { spawns = state.new.spare.spawns } }
    ensures covers { OnOk result (CoversChild state.new id.0) }
    ensures enough { CoversChild state.old id.0 → IsOk result }
    ensures err { OnErr result (state.new ≡ state.old) }
{
    let made = state.tasks[id.0].spawns.as_slice().len();
    state.buffers.spawns.reserve(made + 1)
}

/// The task goes on behind its call, with one child more.
fn add_spawn<N: Naming>(state: &mut State<N>, id: TaskId, leg: &Leg<N>, spawn: Spawn)
    requires asks { Asks state.old.view leg.now id.0 (Enqueue spawn) }
    requires covers { CoversChild state.old id.0 }
    ensures keeps { (task : Task) → task_at state.old.view id.0 ≡ Some task
        → Keeps id.0 (record (task_past_leg task leg.now) { spawns = task.spawns ++ spawn ∷ [] })
        state.old.view state.new.view }
    ensures effect { state.new.effect ≡ state.old.effect }
    ensures spare { state.new.spare ≡ record state.old.spare { spawns = state.new.spare.spawns } }
{
    let budget = state.settings.budget;
    let task = &mut state.tasks[id.0];
    task.spawns.push_with(&mut state.buffers.spawns, spawn);
    put_behind(&mut task.core, budget, leg);
}

/// Enqueues where the child is spare.
fn spawn_reserved<N: Naming>(
    state: &mut State<N>,
    id: TaskId,
    leg: &Leg<N>,
    spawn: Spawn,
    tile: u32,
)
    requires asks { Asks state.old.view leg.now id.0 (Enqueue spawn) }
    requires tile { tile < state.old.view.settings.tiles }
    requires free { QueueHasRoom state.old.view tile }
    requires covers { CoversChild state.old id.0 }
    ensures enqueues { OfTaker state.old.view leg.now id.0 (λ from core task.
        EnqueuesTold id.0 task leg.now spawn tile state.old.view state.new.view state.new.effect.arrived) }
    ensures effect { state.new.effect ≡ record state.old.effect { arrived = state.new.effect.arrived } }
    ensures spare { state.new.spare ≡ record state.old.spare { spawns = state.new.spare.spawns } }
{
    let child = child_of(state.version, &state.tasks[id.0], id, &spawn, tile);
    add_spawn(state, id, leg, spawn);
    let _ = state.put(&child);
}

/// A task enqueues a child: an idle task, which stands last in the task queue of this tile, where
/// a place is free. `AllocError` where memory runs out; nothing has changed then.
pub fn enqueue_child<N: Naming>(
    state: &mut State<N>,
    id: TaskId,
    leg: &Leg<N>,
    spawn: Spawn,
    tile: u32,
) -> Result<(), AllocError>
    requires asks { Asks state.old.view leg.now id.0 (Enqueue spawn) }
    requires tile { tile < state.old.view.settings.tiles }
    requires free { QueueHasRoom state.old.view tile }
    ensures enqueues { OnOk result (OfTaker state.old.view leg.now id.0 (λ from core task.
        EnqueuesTold id.0 task leg.now spawn tile state.old.view state.new.view state.new.effect.arrived)) }
    ensures err { OnErr result (state.new ≡ state.old) }
    ensures covered { CoversChild state.old id.0 → IsOk result }
    ensures effect { state.new.effect ≡ record state.old.effect { arrived = state.new.effect.arrived } }
    ensures spare { state.new.spare ≡ record state.old.spare { spawns = state.new.spare.spawns } }
{
    reserve_child(state, id)?;
    spawn_reserved(state, id, leg, spawn, tile);
    Ok(())
}
