//! A leg that a running task takes.

ghost use Rattle.std.specs.Prelude.{◌≡◌, ◌<◌, ◌↔◌, IsTrue, IsNone, IfSome, map};
ghost use Rattle.event_prelude.specs.spec_state.declared.task.Status.TheVariants.{Running};
ghost use Rattle.event_prelude.specs.spec_state.declared.task.Task.{Task};
ghost use Rattle.event_prelude.specs.spec_state.Changes.{TakesLeg};
ghost use Rattle.event_prelude.specs.spec_state.Effects.{nothing};
ghost use Rattle.spec_access.specs.Asking.{HasTakerIn};
ghost use Rattle.event_prelude.specs.spec_law.Sound.{Sound};
ghost use Rattle.event_prelude.specs.event_def.Causes.{IsStale};
ghost use Rattle.event_prelude.specs.event_def.End.{IsOver};
ghost use Rattle.event_step.specs.Coming.{StepComes, TaskComes};

use crate::accesses::{load, store};
use crate::calls::{emit_byte, go_on, keep_trap, make_subdomain};
use crate::ends::end;
use crate::enqueues::enqueue;
use crate::event_def::{Came, Reply};
use crate::spec_state::{State, Status, Task, TaskId};
use event_prelude::end_of;
use place_policy::Placer;
use rv_core::{Leg, Naming, Stop};
use spec_access::request_of_task;
use task_request::Request;

/// Whether a task runs on this core of its tile and the leg begins at its kept core.
fn takes<N: Naming>(task: &Task, core: u32, leg: &Leg<N>) -> bool
    ensures { IsTrue result ↔ ((task.now.status ≡ Running core) × (task.now.core ≡ leg.now.from)) }
{
    task.status == Status::Running { core } && leg.begins_at(&task.core)
}

/// The task that takes a leg on a core of a tile; None exactly where none does.
pub fn taker<N: Naming>(state: &State<N>, tile: u32, core: u32, leg: &Leg<N>) -> Option<TaskId>
    requires tile { tile < state.now.view.settings.tiles }
    requires core { core < state.now.view.settings.cores }
    ensures some { let view = state.now.view in
        IfSome result (λ id. (task : Task) × TakesLeg view tile core leg.now id.0 task) }
    ensures none { IsNone result → IsStale state.now.view tile core leg.now }
{
    state.is_stored();
    let id = state.on_core(tile, core)?;
    if takes(state.task(id), core, leg) {
        Some(id)
    } else {
        None
    }
}

/// Makes the step of a task that takes the leg, in a tile, where the run goes on: it does what the task asks for at the
/// end of the leg, or is refused with `Stall` or `Memory`, and then nothing changes. The state's effect, which was
/// cleared before, lists what the step did beside its change.
pub fn make_step<N: Naming, P: Placer>(
    state: &mut State<N>,
    placers: &mut [P],
    tile: u32,
    id: TaskId,
    leg: &Leg<N>,
) -> Came
    requires sound { Sound N.image state.old.view }
    requires goes_on { IsOver state.old.view → ⊥ }
    requires fresh { state.old.effect ≡ nothing }
    requires tile { tile < state.old.view.settings.tiles }
    requires takes { HasTakerIn state.old.view tile leg.now id.0 }
    ensures { let old = state.old.view in
        let before = map P.policy placers.old in
        TaskComes N tile leg.now id.0 old before result state.new.view (map P.policy placers.new)
        state.new.effect }
{
    // Most legs end here, and need no request made for them.
    if let Stop::Quantum = leg.stop() {
        return go_on(state, tile, id, leg);
    }
    match request_of_task(state, id, leg) {
        Request::Continue => go_on(state, tile, id, leg),
        Request::Load { width, rd, offset } => load(state, tile, id, leg, width, rd, offset),
        Request::Store {
            offset,
            width,
            value,
        } => store(state, tile, id, leg, offset, width, value),
        Request::Enqueue(child) => enqueue(state, placers, tile, id, leg, child),
        Request::MakeSub(kind) => make_subdomain(state, tile, id, leg, kind),
        Request::Emit(byte) => emit_byte(state, tile, id, leg, byte),
        Request::End => end(state, tile, id, leg),
        Request::Trap { cause } => keep_trap(state, tile, id, leg, cause),
    }
}

/// The event of a step, from a state of a book that wasn't stopped: the task that runs on that core of that tile takes
/// the leg, and what it asks for at the end of the leg is done. `Ended` where the run is over, `Stale` where no task
/// there takes the leg, `Stall` where a queue is full for it, and `Memory` where memory runs out; nothing changes then.
/// The state's effect, which was cleared before, lists what the step did beside its change.
pub fn step<N: Naming, P: Placer>(
    state: &mut State<N>,
    placers: &mut [P],
    tile: u32,
    core: u32,
    leg: &Leg<N>,
) -> Came
    requires sound { Sound N.image state.old.view }
    requires fresh { state.old.effect ≡ nothing }
    requires tile { tile < state.old.view.settings.tiles }
    requires core { core < state.old.view.settings.cores }
    ensures { let old = state.old.view in
        let before = map P.policy placers.old in
        StepComes N tile core leg.now old before result state.new.view (map P.policy placers.new)
        state.new.effect }
{
    if end_of(state).is_some() {
        return Came::Refused(Reply::Ended);
    }
    match taker(state, tile, core, leg) {
        None => Came::Refused(Reply::Stale),
        Some(id) => make_step(state, placers, tile, id, leg),
    }
}
