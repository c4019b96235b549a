//! The reports of the tasks that are spilled.

ghost use Rattle.std.specs.Prelude.{◌≡◌, ◌<◌, ◌≤◌, ◌++◌, ◌∷◌, ℕ, [], Contains, IsSome, length, map};
ghost use Rattle.spec_state.specs.declared.reserving.TheConstants.{MAX_MOVED};
ghost use Rattle.spec_state.specs.View.{task_at};
ghost use Rattle.spec_state.specs.Told.{told_spilled};

use rv_core::Naming;
use spec_state::{SpilledTask, State, TaskId, name_given};

/// The report of the task of this id, which exists.
fn told_spilled<N: Naming>(state: &State<N>, id: usize) -> SpilledTask
    requires { IsSome (task_at state.now.view id) }
    ensures { result ≡ told_spilled state.now.view id }
{
    let count = state.history.count();
    SpilledTask {
        id: TaskId(id),
        name: name_given(state.task(TaskId(id)).creator, count),
    }
}

/// Forgets which tasks were spilled before.
fn forget<N: Naming>(state: &mut State<N>)
    ensures view { state.new.view ≡ state.old.view }
    ensures effect { state.new.effect ≡ record state.old.effect { spilled = [] } }
    ensures spare { state.new.spare ≡ state.old.spare }
{
    state.effect.clear_spilled();
}

/// Reports one task more.
fn tell<N: Naming>(state: &mut State<N>, task: SpilledTask)
    requires { length state.old.effect.spilled < MAX_MOVED }
    ensures view { state.new.view ≡ state.old.view }
    ensures effect { let old = state.old.effect in
        state.new.effect ≡ record old { spilled = old.spilled ++ task ∷ [] } }
    ensures spare { state.new.spare ≡ state.old.spare }
{
    state.effect.note_spilled(task);
}

/// Reports these tasks, which are to be spilled, in their order.
pub(crate) fn tell_spilled<N: Naming>(state: &mut State<N>, ids: &[usize])
    requires few { length ids.now ≤ MAX_MOVED }
    requires live { (id : ℕ) → Contains ids.now id → IsSome (task_at state.old.view id) }
    ensures told { state.new.effect ≡ record state.old.effect { spilled = map (told_spilled state.old.view) ids.now } }
    ensures view { state.new.view ≡ state.old.view }
    ensures spare { state.new.spare ≡ state.old.spare }
{
    forget(state);
    for id in ids {
        let task = told_spilled(state, *id);
        tell(state, task);
    }
}
