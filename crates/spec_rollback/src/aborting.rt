//! Aborts: the cascade of one task, and of all tasks that conflict with an access.

ghost use Rattle.std.specs.Prelude.{◌≡◌, ℕ, List, IsSome, IfSome};
ghost use Rattle.abort_cascade.specs.Cascade.{Marked};
ghost use Rattle.abort_cascade.specs.Growth.{IsListOf};
ghost use Rattle.memory_law.specs.Tasks.{IsByKey};
ghost use Rattle.spec_state.specs.View.{task_at};
ghost use Rattle.spec_state.specs.Groups.{logged_tasks};
ghost use Rattle.spec_state.specs.Aborts.{Aborts, OnlyNode};
ghost use Rattle.spec_state.specs.Effects.{nothing};
ghost use Rattle.spec_state.specs.Queries.{Conflicts};
ghost use Rattle.spec_state.specs.Told.{TellsBack};

use crate::cascade::close_marks;
use crate::marking::{mark_conflicts, mark_one};
use crate::releasing::release_marked;
use crate::telling::{forget, tell_marked};
use crate::undoing::undo_marked;
use rv_core::Naming;
use spec_state::{State, TaskId};

/// Aborts the cascade of a task, and returns how many tasks it aborted. It allocates no memory.
pub fn abort<N: Naming>(state: &mut State<N>, task: TaskId) -> u32
    requires live { IsSome (task_at state.old.view task.0) }

    // The dispatched tasks of a sound state have an order by key.
    ensures aborts { let old = state.old.view in
        let new = state.new.view in
        (ids : List ℕ) → IsByKey (logged_tasks old) ids
        → (a : Aborts (OnlyNode task.0) old result new) × TellsBack old a.marks state.new.effect.back }
    ensures effect { state.new.effect ≡ record nothing { back = state.new.effect.back } }
    ensures spare { state.new.spare ≡ state.old.spare }
{
    mark_one(state, task);
    abort_marked(state, 1)
}

/// Aborts the cascades of all tasks that conflict with an access of this task as one set, and returns how many tasks it
/// aborted. Where none conflicts, nothing changes. It allocates no memory.
pub fn abort_conflicts<N: Naming>(state: &mut State<N>, task: TaskId, line: u32, write: bool) -> u32
    requires live { IsSome (task_at state.old.view task.0) }
    ensures aborts { let old = state.old.view in
        let new = state.new.view in
        IfSome (task_at old task.0) (λ t. (ids : List ℕ) → IsByKey (logged_tasks old) ids
        → (a : Aborts (Conflicts old t line write) old result new) × TellsBack old a.marks state.new.effect.back) }
    ensures effect { state.new.effect ≡ record nothing { back = state.new.effect.back } }
    ensures spare { state.new.spare ≡ state.old.spare }
{
    state.is_stored();
    let found = mark_conflicts(state, task, line, write);
    if found > 0 {
        abort_marked(state, found)
    } else {
        forget(state);
        0
    }
}

/// Aborts the cascades of the marked tasks, which are the first `listed` members, and returns how many tasks it
/// aborted.
fn abort_marked<N: Naming>(state: &mut State<N>, listed: usize) -> u32
    requires live { let old = state.old in
        (id : ℕ) → Marked old.scratch.marks id → IsSome (task_at old.view id) }
    requires listed { IsListOf state.old.scratch.marks state.old.scratch.members listed }
    ensures aborts { let firsts = Marked state.old.scratch.marks in
        let old = state.old.view in
        (ids : List ℕ) → IsByKey (logged_tasks old) ids
        → (a : Aborts firsts old result state.new.view) × TellsBack old a.marks state.new.effect.back }
    ensures effect { state.new.effect ≡ record nothing { back = state.new.effect.back } }
    ensures spare { state.new.spare ≡ state.old.spare }
{
    let found = close_marks(state, listed);
    undo_marked(state, found);
    tell_marked(state, found);
    release_marked(state, found);
    found as u32
}
