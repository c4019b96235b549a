//! The dispatch of the least idle task of a tile.

ghost use Rattle.std.specs.Prelude.{◌≡◌, ◌<◌, ◌↔◌, ℕ, Contains, IsTrue, IsFalse, IsSome, IsNone, IfSome, None, length};
ghost use Rattle.event_prelude.specs.spec_law.Sound.{Sound};
ghost use Rattle.event_prelude.specs.spec_state.declared.task.Task.{Task};
ghost use Rattle.event_prelude.specs.spec_state.Effects.{nothing};
ghost use Rattle.event_prelude.specs.spec_state.Least.{IsLeast, IsTheLeast};
ghost use Rattle.event_prelude.specs.spec_state.Picks.{IsIdleAt, IsIdlePick};
ghost use Rattle.event_prelude.specs.spec_state.Queries.{IsIdle, IsLeastIdle};
ghost use Rattle.event_prelude.specs.spec_state.View.{task_at};
ghost use Rattle.event_prelude.specs.event_def.declared.event.Came.TheVariants.{Made};
ghost use Rattle.event_prelude.specs.event_def.declared.event.Event.TheVariants as event;
ghost use Rattle.event_prelude.specs.event_def.Causes.{AllCoresHeld};
ghost use Rattle.event_prelude.specs.event_def.End.{IsOver};
ghost use Rattle.event_prelude.specs.event_def.Events.{FreesCore};
ghost use Rattle.event_prelude.specs.event_def.Telling.{TellsCore};
ghost use Rattle.event_move.specs.Idling.{NoIdleIsLeast};
ghost use Rattle.event_move.specs.Moving.{ComesSo};

use crate::event_def::{Came, Reply};
use crate::recording::record_of;
use crate::spec_rollback::abort;
use crate::spec_state::{State, Status, Task, TaskId, Where};
use event_prelude::least_going;
use rv_core::Naming;
use spec_dispatch::{dispatch_task, free_core};
use trace_tap::{Deed, Record};

/// Whether the task waits for a core.
fn is_idle(task: &Task) -> bool
    ensures { IsTrue result ↔ (task.now.status ≡ Status.Idle) }
{
    match task.status {
        Status::Idle => true,
        Status::Running { .. } | Status::Trapped { .. } | Status::Finished => false,
    }
}

/// Whether one of the tasks of these ids is idle. It looks at them up to the first one.
fn is_one_idle<N: Naming>(state: &State<N>, ids: &[usize]) -> bool
    requires live { (id : ℕ) → Contains ids.now id → IsSome (task_at state.now.view id) }
    ensures found { IsTrue result → (place id : ℕ) × (task : Task) × IsIdleAt state.now.view ids.now place id task }
    ensures none { IsFalse result → IsIdlePick state.now.view ids.now (length ids.now) None }
{
    for id in ids {
        if is_idle(state.task(TaskId(*id))) {
            return true;
        }
    }
    false
}

/// Whether a tile has an idle task. It looks at the tasks of its queue up to the first idle one.
pub fn has_idle<N: Naming>(state: &State<N>, tile: u32) -> bool
    requires tile { tile < state.now.view.settings.tiles }
    ensures some { IsTrue result → (id : ℕ) × (task : Task) × IsLeastIdle state.now.view tile id task }
    ensures none { IsFalse result → (id : ℕ) (task : Task) → IsIdle state.now.view tile id task → ⊥ }
{
    // A law, called for its clauses.
    state.is_stored();
    is_one_idle(state, state.queued_in(tile))
}

/// The least task, where that is an idle one of a tile.
pub fn least_in<N: Naming>(state: &State<N>, tile: u32, least: Where) -> Option<TaskId>
    requires sound { Sound N.image state.now.view }
    requires least { IsLeast state.now.view least }
    ensures some { let view = state.now.view in
        IfSome result (λ id. ((task : Task) × IsLeastIdle view tile id.0 task) × IsTheLeast view id.0) }
    ensures none { IsNone result → NoIdleIsLeast state.now.view tile }
{
    // A law, called for its clauses.
    state.is_stored();
    match least {
        Where::Idle(id) => {
            if state.tile_of(id) == tile {
                Some(id)
            } else {
                None
            }
        }
        Where::Running(_) | Where::Trapped(_) | Where::Finished(_) | Where::Spilled(_) => None,
    }
}

/// Takes the latest task on a core of a tile back, where none is free.
fn abort_on_core<N: Naming>(state: &mut State<N>, tile: u32) -> u32
    requires sound { Sound N.image state.old.view }
    requires tile { tile < state.old.view.settings.tiles }
    requires held { AllCoresHeld state.old.view tile }
    ensures frees { let old = state.old.view in
        (frees : FreesCore tile old result state.new.view)
        × TellsCore tile old result state.new.view frees state.new.effect }
    ensures arrived { state.new.effect.arrived ≡ None }
{
    match state.latest_on_core(tile) {
        Some(latest) => abort(state, latest),
        None => unreachable!(),
    }
}

/// Aborts the latest task on a core of a tile where none is free, and returns how many tasks it aborted.
fn clear_core<N: Naming>(state: &mut State<N>, tile: u32) -> u32
    requires sound { Sound N.image state.old.view }
    requires tile { tile < state.old.view.settings.tiles }
    requires fresh { state.old.effect ≡ nothing }
    ensures frees { let old = state.old.view in
        (frees : FreesCore tile old result state.new.view)
        × TellsCore tile old result state.new.view frees state.new.effect }
    ensures arrived { state.new.effect.arrived ≡ None }
{
    match free_core(state, tile) {
        Some(_) => 0,
        None => abort_on_core(state, tile),
    }
}

/// Dispatches the least idle task of a tile, which is the least task where the tile has no free core, and the run
/// isn't over. It takes no memory.
pub fn make_dispatch<N: Naming>(state: &mut State<N>, tile: u32, id: TaskId) -> Record
    requires sound { Sound N.image state.old.view }
    requires tile { tile < state.old.view.settings.tiles }
    requires goes_on { IsOver state.old.view → ⊥ }
    requires idle { (task : Task) × IsLeastIdle state.old.view tile id.0 task }
    requires may { AllCoresHeld state.old.view tile → IsTheLeast state.old.view id.0 }
    requires fresh { state.old.effect ≡ nothing }
    ensures { ComesSo N state.old.view (event.Dispatch tile) (Made result) state.new.view state.new.effect }
{
    let aborted = clear_core(state, tile);
    dispatch_task(state, tile, id);
    record_of(state, Deed::Dispatch, tile, aborted)
}

/// The event `Dispatch`: the least idle task of a tile goes to its lowest free core. Where none is free and it is the
/// least task, the latest task on one is aborted first. Refused with `Ended`, `Empty` or `Busy`. Where a core is free
/// it looks at each task of the queue, and else at those up to the first idle one.
pub fn dispatch<N: Naming>(state: &mut State<N>, tile: u32) -> Came
    requires sound { Sound N.image state.old.view }
    requires tile { tile < state.old.view.settings.tiles }
    requires fresh { state.old.effect ≡ nothing }
    ensures { ComesSo N state.old.view (event.Dispatch tile) result state.new.view state.new.effect }
{
    let Some(least) = least_going(state) else {
        return Came::Refused(Reply::Ended);
    };
    match free_core(state, tile) {
        Some(_) => match state.idle(tile) {
            None => Came::Refused(Reply::Empty),
            Some(id) => Came::Made(make_dispatch(state, tile, id)),
        },
        None => match least_in(state, tile, least) {
            Some(id) => Came::Made(make_dispatch(state, tile, id)),
            None => {
                if has_idle(state, tile) {
                    Came::Refused(Reply::Busy)
                } else {
                    Came::Refused(Reply::Empty)
                }
            }
        },
    }
}
