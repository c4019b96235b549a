//! The commit of the least task by a caller that doesn't know which one that is.

ghost use Rattle.std.specs.Prelude.{◌≡◌, ◌<◌, ◌∷◌, ◌++◌, [], ◌↔◌, ℕ, IsTrue, IsOk, IfOk, OnErr, length};
ghost use Rattle.spec_state.specs.declared.task.Status.TheVariants as status;
ghost use Rattle.spec_state.specs.declared.task.Task.{Task};
ghost use Rattle.spec_state.specs.declared.task.Where.TheVariants.{Finished};
ghost use Rattle.spec_state.specs.Changes.{Commits};
ghost use Rattle.spec_state.specs.Least.{IsLeast, IsLeastTask};
ghost use Rattle.spec_state.specs.StateValue.{CoversOutput};
ghost use Rattle.spec_commit.specs.Committing.{HasCommittedCreator};

use crate::committing::commit_task;
use crate::serial_machine::Entry;
use rv_core::Naming;
use spec_state::{Creator, State, Task, TaskId};
use std::alloc::AllocError;

/// The least task, which is finished.
fn finished_least<N: Naming>(state: &State<N>) -> TaskId
    requires { (id : ℕ) × IsLeast state.now.view (Finished (record { 0 = id })) }
    ensures { IsLeast state.now.view (Finished result) }
{
    state.is_stored();
    match state.heir() {
        Some(id) => id,
        None => unreachable!(),
    }
}

/// Whether the image or a task that has committed made it.
fn has_committed_creator(task: &Task) -> bool
    ensures { IsTrue result ↔ HasCommittedCreator task.now }
{
    match task.creator {
        Creator::Committed { .. } => true,
        Creator::Live { .. } => false,
    }
}

/// Commits the least task, which is finished: its entry joins the journal, its bytes the output, and its levels are
/// the path. `AllocError` where memory for the bytes isn't spare in the output and runs out; nothing has changed
/// then.
/// A task whose creator has not committed has no name in the journal; of a sound state the least task is none, and
/// here it isn't committed either, which is answered in the same way.
pub fn commit<N: Naming>(state: &mut State<N>) -> Result<Entry, AllocError>
    requires least { (id : ℕ) × IsLeast state.old.view (Finished (record { 0 = id })) }
    requires more { length state.old.view.history < state.old.view.settings.commits }
    ensures ok { IfOk result (λ entry. Commits state.old.view state.new.view
        × (state.new.view.history ≡ state.old.view.history ++ entry ∷ [])) }
    ensures err { OnErr result (state.new ≡ state.old) }
    ensures enough { (id : ℕ) (task : Task) → IsLeastTask state.old.view id task → task.status ≡ status.Finished
        → HasCommittedCreator task → CoversOutput state.old id → IsOk result }
    ensures effect { state.new.effect ≡ state.old.effect }
    ensures spare { state.new.spare ≡ record state.old.spare { output = state.new.spare.output } }
{
    state.is_stored();
    let id = finished_least(state);
    if has_committed_creator(state.task(id)) {
        commit_task(state, id)
    } else {
        Err(AllocError)
    }
}
