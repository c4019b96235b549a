//! An abort of all tasks.

ghost use Rattle.std.specs.Prelude.{◌≡◌, ◌≢◌, ◌≤◌, ◌↔◌, ℕ, List, [], AllPairs, IsSome, is_some};
ghost use Rattle.std.specs.Prelude.{false, length, map, replicate, slice_index_or, take};
ghost use Rattle.slab.specs.Slab.{get};
ghost use Rattle.abort_cascade.specs.Cascade.{Marked};
ghost use Rattle.memory_law.specs.Tasks.{IsByKey};
ghost use Rattle.spec_state.specs.View.{task_at};
ghost use Rattle.spec_state.specs.Groups.{logged_tasks};
ghost use Rattle.spec_state.specs.Aborts.{is_marked, UndoesAll};
ghost use Rattle.spec_rollback.specs.Pulled.{ListsMarked};
ghost use Rattle.spec_rollback.specs.Lists.{HasLists};
ghost use Rattle.spec_rollback.specs.Removed.{RemovesThese};

use crate::releasing::member;
use crate::undoing::undo_marked;
use abort_cascade::list_marked;
use kept_slab::KeptSlab;
use rv_core::Naming;
use spec_state::{State, Task, TaskId};

/// Marks the ids of all tasks.
fn mark_tasks(tasks: &KeptSlab<Task>, marks: &mut [bool])
    requires { length tasks.now.slots ≤ length marks.old }
    ensures marks { (id : ℕ) → slice_index_or marks.new id false ≡ is_some (get tasks.now id) }
    ensures count { length marks.new ≡ length marks.old }
{
    for id in 0..marks.len() {
        marks[id] = tasks.contains(id);
    }
}

/// Marks all tasks, and puts them at the front of the members. It returns their number.
fn list_all<N: Naming>(state: &mut State<N>) -> usize
    ensures marks { let marks = state.new.scratch.marks in
        (id : ℕ) → Marked marks id ↔ IsSome (task_at state.old.view id) }
    ensures listed { ListsMarked state.new.scratch result }
    ensures view { state.new.view ≡ state.old.view }
{
    // Each id is below the number of slots, and there are as many marks.
    let _slots = state.tasks.capacity();
    mark_tasks(&state.tasks, state.marks.as_mut_slice());
    list_marked(state.marks.as_slice(), state.members.as_mut_slice())
}

/// Takes the marked tasks out, which are the first `found` members.
fn remove_marked<N: Naming>(state: &mut State<N>, found: usize)
    requires listed { ListsMarked state.old.scratch found }
    requires once { AllPairs (λ a b. a ≢ b) (take found state.old.scratch.members) }
    requires live { let old = state.old in
        (id : ℕ) → Marked old.scratch.marks id → IsSome (task_at old.view id) }
    ensures removes { let these = is_marked state.old.scratch.marks in
        RemovesThese these state.old.view state.new.view }
{
    for place in 0..found {
        state.take_out(TaskId(member(state, place)));
    }
}

/// Leaves no task spilled.
fn drop_spilled<N: Naming>(state: &mut State<N>)
    ensures { let old = state.old.view in
        state.new.view ≡ record old { blocks = replicate (length old.blocks) [] } }
{
    state.blocks.clear();
}

/// Law: each tile has its lists.
fn has_lists<N: Naming>(state: &State<N>)
    ensures { HasLists state.now.view }
{
    let _ = &state.settings;
}

/// Aborts all uncommitted tasks: every log is undone, the latest task first, and no task is left, queued, finished, on
/// a core or spilled. It allocates no memory.
pub fn undo_all<N: Naming>(state: &mut State<N>)
    // The dispatched tasks of a sound state have an order by key.
    ensures { let old = state.old.view in
        (ids : List ℕ) → IsByKey (logged_tasks old) ids → UndoesAll old state.new.view }
{
    has_lists(state);
    let found = list_all(state);
    undo_marked(state, found);
    remove_marked(state, found);
    state.is_stored();
    drop_spilled(state);
}
