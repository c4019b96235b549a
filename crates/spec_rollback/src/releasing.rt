//! Marked tasks that leave, or are idle again.

ghost use Rattle.std.specs.Prelude.{◌≡◌, ◌≢◌, ◌<◌, ℕ, AllPairs, IsSome, Some, length, slice_get};
ghost use Rattle.std.specs.Prelude.{take};
ghost use Rattle.abort_cascade.specs.Cascade.{Marked};
ghost use Rattle.spec_state.specs.View.{task_at};
ghost use Rattle.spec_state.specs.Groups.{live_creator};
ghost use Rattle.spec_state.specs.Aborts.{is_marked, is_marked_creator};
ghost use Rattle.spec_rollback.specs.Pulled.{ListsMarked};
ghost use Rattle.spec_rollback.specs.TakenBack.{TakesOne, TakesThese};

use rv_core::Naming;
use spec_state::{Creator, State, Task, TaskId};

/// Whether the id is marked.
fn is_marked(marks: &[bool], id: usize) -> bool
    ensures { result ≡ is_marked marks.now id }
{
    marks.get(id).copied().unwrap_or(false)
}

/// Whether the task's creator is marked.
pub(crate) fn has_marked_creator(task: &Task, marks: &[bool]) -> bool
    ensures { result ≡ is_marked_creator marks.now (live_creator task.now.creator) }
{
    match task.creator {
        Creator::Committed { .. } => false,
        Creator::Live { task: creator, .. } => is_marked(marks, creator.0),
    }
}

/// Takes the task out where its creator is marked, and makes it idle again where not.
fn release<N: Naming>(state: &mut State<N>, id: usize)
    requires live { IsSome (task_at state.old.view id) }
    ensures takes { TakesOne state.old.scratch.marks id state.old.view state.new.view }
    ensures scratch { state.new.scratch ≡ state.old.scratch }
    ensures effect { state.new.effect ≡ state.old.effect }
    ensures spare { state.new.spare ≡ state.old.spare }
{
    if has_marked_creator(&state.tasks[id], state.marks.as_slice()) {
        state.take_out(TaskId(id));
    } else {
        state.set_back(TaskId(id));
    }
}

/// The member at a place of the list.
pub(crate) fn member<N: Naming>(state: &State<N>, place: usize) -> usize
    requires { place < length state.now.scratch.members }
    ensures { slice_get state.now.scratch.members place ≡ Some result }
{
    state.members[place]
}

/// Aborts the marked tasks, which are the first `found` members: those whose creators are marked leave, and the others
/// are idle again.
pub(crate) fn release_marked<N: Naming>(state: &mut State<N>, found: usize)
    requires listed { ListsMarked state.old.scratch found }
    requires once { AllPairs (λ a b. a ≢ b) (take found state.old.scratch.members) }
    requires live { let old = state.old in
        (id : ℕ) → Marked old.scratch.marks id → IsSome (task_at old.view id) }
    ensures takes { let marks = state.old.scratch.marks in
        TakesThese marks (is_marked marks) state.old.view state.new.view }
    ensures scratch { state.new.scratch ≡ state.old.scratch }
    ensures effect { state.new.effect ≡ state.old.effect }
    ensures spare { state.new.spare ≡ state.old.spare }
{
    state.is_stored();
    for place in 0..found {
        let id = member(state, place);
        release(state, id);
    }
}
