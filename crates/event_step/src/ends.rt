//! End calls: the commit queue gets a free place first.

ghost use Rattle.std.specs.Prelude.{◌≡◌, ◌<◌, IsSome, IsNone, IfSome};
ghost use Rattle.task_request.specs.declared.request.Request.TheVariants.{End};
ghost use Rattle.event_prelude.specs.spec_state.Effects.{nothing};
ghost use Rattle.event_prelude.specs.spec_state.View.{task_at};
ghost use Rattle.spec_access.specs.Asking.{Asks, HasTakerIn, OfTakerIn};
ghost use Rattle.event_prelude.specs.spec_law.Sound.{Sound};
ghost use Rattle.event_prelude.specs.event_def.Causes.{IsCommitFull};
ghost use Rattle.event_prelude.specs.event_def.End.{IsOver};
ghost use Rattle.event_step.specs.Coming.{QuietlyComes};
ghost use Rattle.event_step.specs.Ending.{EndsTelling, HasLater, HasNoLater, SaysLater};

use crate::event_def::{Came, Reply};
use crate::recording::record_of;
use crate::spec_rollback::abort;
use crate::spec_state::{State, TaskId};
use fractal_vt::cmp;
use rv_core::{Leg, Naming};
use spec_access::finish;
use trace_tap::Deed;

/// Whether the other task's key is the greater one.
fn is_later<N: Naming>(state: &State<N>, id: TaskId, other: TaskId) -> bool
    requires live { IsSome (task_at state.now.view id.0) }
    requires other { IsSome (task_at state.now.view other.0) }
    ensures { let view = state.now.view in
        IfSome (task_at view id.0) (λ task. SaysLater view other.0 task result) }
{
    cmp(state.key_of(id), state.key_of(other)).is_lt()
}

/// The latest task in the commit queue of a tile, where it is later than this one; None exactly
/// where no task there is.
fn later_finished<N: Naming>(state: &State<N>, tile: u32, id: TaskId) -> Option<TaskId>
    requires sound { Sound N.image state.now.view }
    requires tile { tile < state.now.view.settings.tiles }
    requires live { IsSome (task_at state.now.view id.0) }
    ensures some { let view = state.now.view in
        IfSome result (λ last. IfSome (task_at view id.0) (HasLater view tile last.0)) }
    ensures none { let view = state.now.view in
        IsNone result → IfSome (task_at view id.0) (HasNoLater view tile) }
{
    let last = state.last_finished(tile)?;
    if is_later(state, id, last) {
        Some(last)
    } else {
        None
    }
}

/// Aborts the latest task of the full commit queue, which is later than this one, and then ends this one. It returns
/// how many tasks were aborted; the state reports which.
fn finish_after<N: Naming>(
    state: &mut State<N>,
    tile: u32,
    id: TaskId,
    leg: &Leg<N>,
    last: TaskId,
) -> u32
    requires sound { Sound N.image state.old.view }
    requires full { IsCommitFull state.old.view tile }
    requires asks { Asks state.old.view leg.now id.0 End }
    requires later { let view = state.old.view in
        IfSome (task_at view id.0) (HasLater view tile last.0) }
    requires takes { HasTakerIn state.old.view tile leg.now id.0 }
    ensures { let old = state.old.view in OfTakerIn old tile leg.now id.0 (λ core task.
        EndsTelling tile core leg.now id.0 task old result state.new.view state.new.effect) }
{
    let aborted = abort(state, last);
    finish(state, id, leg);
    aborted
}

/// The end call of a task. `Stall` where the commit queue is full and contains no later task.
pub(crate) fn end<N: Naming>(state: &mut State<N>, tile: u32, id: TaskId, leg: &Leg<N>) -> Came
    requires sound { Sound N.image state.old.view }
    requires goes_on { IsOver state.old.view → ⊥ }
    requires fresh { state.old.effect ≡ nothing }
    requires tile { tile < state.old.view.settings.tiles }
    requires takes { HasTakerIn state.old.view tile leg.now id.0 }
    requires asks { Asks state.old.view leg.now id.0 End }
    ensures { QuietlyComes N tile leg.now id.0 state.old.view result state.new.view state.new.effect }
{
    if state.commit_free(tile) > 0 {
        finish(state, id, leg);
        return Came::Made(record_of(state, Deed::Call, tile, None, 0));
    }
    match later_finished(state, tile, id) {
        None => Came::Refused(Reply::Stall),
        Some(last) => {
            let aborted = finish_after(state, tile, id, leg, last);
            Came::Made(record_of(state, Deed::Call, tile, None, aborted))
        }
    }
}
