//! The first task with which an access conflicts and whether it conflicts with a given one, for which no event asks,
//! since `spec_rollback` marks all such tasks; and whether a task is dispatched alone, for which it does ask. No call
//! takes memory.

ghost use Rattle.std.specs.Prelude.{◌≡◌, ◌<◌, ◌↔◌, ℕ, Bool, IsTrue, Some, IsSome, IsNone, IfSome};
ghost use Rattle.fractal_vt.specs.Keys.{key_cmp};
ghost use Rattle.spec_state.specs.declared.task.Task.{Task};
ghost use Rattle.spec_state.specs.View.{task_at};
ghost use Rattle.spec_state.specs.Queries.{IsOnCore, IsFinished};
ghost use Rattle.spec_state.specs.Queries.{HasLine, Conflicts, IsFirstConflict};
ghost use Rattle.spec_state.specs.Picks.{IsPick, IsEither, IsOwn, ConflictsWith, IsConflictIn};

use crate::state::State;
use crate::task::{Task, TaskId};
use fractal_vt::cmp;
use rv_core::Naming;

/// Whether the task has the line for an access to it: whether it touched it, for a store, or wrote it, for a load.
fn has_line(task: &Task, line: u32, write: bool) -> bool
    ensures { IsTrue result ↔ HasLine write task.now line }
{
    if write {
        task.has_touched(line)
    } else {
        task.has_written(line)
    }
}

/// Whether an access of the first task to the line, a store if `write`, conflicts with the second one. The line is
/// tested first, since most tasks don't have it.
fn conflict_between(task: &Task, line: u32, write: bool, other: &Task) -> bool
    ensures { IsTrue result ↔ ConflictsWith task.now line write other.now }
{
    has_line(other, line, write) && other.key.tb.is_some() && cmp(&task.key, &other.key).is_lt()
}

impl<N: Naming> State<N> {
    /// The earlier of two tasks, where they are given. Dispatched tasks never tie.
    fn earlier(&self, one: Option<TaskId>, two: Option<TaskId>) -> Option<TaskId>
        requires one { IfSome one (λ id. IsSome (task_at self.now.view id.0)) }
        requires two { IfSome two (λ id. IsSome (task_at self.now.view id.0)) }
        ensures { IsPick key_cmp (IsEither self.now.view one two) result }
    {
        match (one, two) {
            (_, None) => one,
            (None, _) => two,
            (Some(first), Some(second)) => {
                if cmp(&self.task(second).key, &self.task(first).key).is_lt() {
                    Some(second)
                } else {
                    Some(first)
                }
            }
        }
    }

    /// The given id, where the access conflicts with its task.
    fn if_conflict(&self, task: &Task, line: u32, write: bool, id: Option<TaskId>) -> Option<TaskId>
        requires live { IfSome id (λ id. IsSome (task_at self.now.view id.0)) }
        ensures { IsPick key_cmp
            (λ k t. IsOwn self.now.view id k t × ConflictsWith task.now line write t) result }
    {
        match id {
            None => None,
            Some(other) => {
                if conflict_between(task, line, write, self.task(other)) {
                    Some(other)
                } else {
                    None
                }
            }
        }
    }

    /// The earliest task on the cores of a tile with which the access conflicts.
    fn conflict_on_cores(&self, task: &Task, line: u32, write: bool, tile: u32) -> Option<TaskId>
        requires { tile < self.now.view.settings.tiles }
        ensures { IsPick key_cmp (λ k t. ((core : ℕ) × IsOnCore self.now.view tile core k t)
            × ConflictsWith task.now line write t) result }
    {
        self.is_stored();
        let cores = self.held_in(tile);
        let mut best = None;
        for core in cores {
            best = self.earlier(best, self.if_conflict(task, line, write, *core));
        }
        best
    }

    /// The earliest task in the commit queue of a tile with which the access conflicts.
    fn conflict_in_queue(&self, task: &Task, line: u32, write: bool, tile: u32) -> Option<TaskId>
        requires { tile < self.now.view.settings.tiles }
        ensures { IsPick key_cmp
            (λ k t. IsFinished self.now.view tile k t × ConflictsWith task.now line write t) result }
    {
        self.is_stored();
        let ids = self.finished_in(tile);
        let mut best = None;
        for id in ids {
            best = self.earlier(best, self.if_conflict(task, line, write, Some(TaskId(*id))));
        }
        best
    }

    /// The earliest dispatched task of a tile with which the access conflicts.
    fn conflict_in(&self, task: &Task, line: u32, write: bool, tile: u32) -> Option<TaskId>
        requires { tile < self.now.view.settings.tiles }
        ensures { IsPick key_cmp (IsConflictIn self.now.view tile task.now line write) result }
    {
        self.is_stored();
        self.earlier(
            self.conflict_on_cores(task, line, write, tile),
            self.conflict_in_queue(task, line, write, tile),
        )
    }

    /// The earliest task with which an access of the task to the line conflicts, a store if `write`; None exactly
    /// where it conflicts with none. It looks at the cores and the commit queues of all tiles.
    pub fn conflict(&self, task: TaskId, line: u32, write: bool) -> Option<TaskId>
        requires live { IsSome (task_at self.now.view task.0) }
        ensures some { IfSome (task_at self.now.view task.0)
            (λ t. IfSome result (λ k. IsFirstConflict self.now.view t line write k.0)) }
        ensures none { IfSome (task_at self.now.view task.0)
            (λ t. IsNone result ↔ ((k : ℕ) → Conflicts self.now.view t line write k → ⊥)) }
    {
        self.is_stored();
        let found = self.task(task);
        let tiles = self.tile_count();
        let mut best = None;
        for tile in 0..tiles {
            best = self.earlier(best, self.conflict_in(found, line, write, tile));
        }
        best
    }

    /// Whether a task is dispatched and no other one is: no access of it conflicts with any then. It costs one look.
    pub fn is_alone(&self, task: TaskId) -> bool
        requires live { IsSome (task_at self.now.view task.0) }
        ensures { IsTrue result → IfSome (task_at self.now.view task.0)
            (λ t. (line : ℕ) (write : Bool) (k : ℕ) → Conflicts self.now.view t line write k → ⊥) }
    {
        self.index.closed_count() == 1 && self.task(task).key.tb.is_some()
    }

    /// Whether an access of the task to the line, a store if `write`, conflicts with the other task: false where
    /// `other` isn't the id of a task.
    pub fn conflicts_with(&self, task: TaskId, line: u32, write: bool, other: TaskId) -> bool
        requires live { IsSome (task_at self.now.view task.0) }
        ensures { IfSome (task_at self.now.view task.0)
            (λ t. IsTrue result ↔ Conflicts self.now.view t line write other.0) }
    {
        match self.find(other) {
            None => false,
            Some(found) => conflict_between(self.task(task), line, write, found),
        }
    }
}
