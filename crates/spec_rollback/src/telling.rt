//! The reports of the tasks that are aborted.

ghost use Rattle.std.specs.Prelude.{◌≡◌, ◌<◌, ◌≤◌, ◌++◌, ◌∷◌, [], ℕ, IsSome, count_by, length, map, take};
ghost use Rattle.abort_cascade.specs.Cascade.{Marked};
ghost use Rattle.spec_state.specs.Effects.{nothing};
ghost use Rattle.spec_state.specs.View.{task_at};
ghost use Rattle.spec_rollback.specs.Pulled.{ListsMarked};
ghost use Rattle.spec_state.specs.Told.{is_store, told_at, told_of};

use crate::releasing::{has_marked_creator, member};
use rv_core::Naming;
use spec_state::{State, TakenTask, Task, TaskId};
use undo_log::Access;

/// How many of these accesses are stores.
fn stores_among(accesses: &[Access]) -> usize
    ensures { result ≡ count_by is_store accesses.now }
{
    let mut stores = 0;
    for place in 0..accesses.len() {
        if accesses[place].new.is_some() {
            stores += 1;
        }
    }
    stores
}

/// The report of a marked task of this id.
fn told_of(task: &Task, id: usize, marks: &[bool]) -> TakenTask
    ensures { result ≡ told_of marks.now id task.now }
{
    TakenTask {
        id: TaskId(id),
        tile: task.tile,
        used: task.core.core().used,
        accesses: task.log.accesses().len(),
        stores: stores_among(task.log.accesses()),
        bytes: task.bytes.as_slice().len(),
        gone: has_marked_creator(task, marks),
    }
}

/// The report of the marked task of this id, which exists.
fn told_at<N: Naming>(state: &State<N>, id: usize) -> TakenTask
    requires { IsSome (task_at state.now.view id) }
    ensures { result ≡ told_at state.now.view state.now.scratch.marks id }
{
    told_of(&state.tasks[id], id, state.marks.as_slice())
}

/// Forgets what was reported of the event before.
pub(crate) fn forget<N: Naming>(state: &mut State<N>)
    ensures view { state.new.view ≡ state.old.view }
    ensures effect { state.new.effect ≡ nothing }
    ensures scratch { state.new.scratch ≡ state.old.scratch }
    ensures spare { state.new.spare ≡ state.old.spare }
{
    state.effect.clear();
}

/// Reports one task more.
fn tell<N: Naming>(state: &mut State<N>, task: TakenTask)
    requires { length state.old.effect.back < 4096 }
    ensures view { state.new.view ≡ state.old.view }
    ensures effect { let old = state.old.effect in
        state.new.effect ≡ record old { back = old.back ++ task ∷ [] } }
    ensures scratch { state.new.scratch ≡ state.old.scratch }
    ensures spare { state.new.spare ≡ state.old.spare }
{
    state.effect.note_taken(task);
}

/// Reports the marked tasks, which are the first `found` members, in their order.
pub(crate) fn tell_marked<N: Naming>(state: &mut State<N>, found: usize)
    requires listed { ListsMarked state.old.scratch found }
    requires few { found ≤ 4096 }
    requires live { let old = state.old in
        (id : ℕ) → Marked old.scratch.marks id → IsSome (task_at old.view id) }
    ensures told { let old = state.old in
        let ids = take found old.scratch.members in
        state.new.effect ≡ record nothing { back = map (told_at old.view old.scratch.marks) ids } }
    ensures view { state.new.view ≡ state.old.view }
    ensures scratch { state.new.scratch ≡ state.old.scratch }
    ensures spare { state.new.spare ≡ state.old.spare }
{
    forget(state);
    for place in 0..found {
        let id = member(state, place);
        let task = told_at(state, id);
        tell(state, task);
    }
}
