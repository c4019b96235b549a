//! The latest tasks of a tile. No call takes memory.

ghost use Rattle.std.specs.Prelude.{◌≡◌, ◌<◌, ◌↔◌, ℕ, Some, IsSome, IsNone, IfSome};
ghost use Rattle.spec_state.specs.declared.task.Task.{Task};
ghost use Rattle.spec_state.specs.View.{task_at};
ghost use Rattle.spec_state.specs.Queries.{IsOnCore, IsFinished, IsDispatched};
ghost use Rattle.spec_state.specs.Queries.{IsLatestOnCore, IsLatestFinished, IsLatestDispatched};
ghost use Rattle.spec_state.specs.Picks.{IsPick, IsEither, latest_first};

use crate::state::State;
use crate::task::TaskId;
use fractal_vt::cmp;
use rv_core::Naming;

impl<N: Naming> State<N> {
    /// The later of two tasks, where they are given. Dispatched tasks never tie.
    fn later(&self, one: Option<TaskId>, two: Option<TaskId>) -> Option<TaskId>
        requires one { IfSome one (λ id. IsSome (task_at self.now.view id.0)) }
        requires two { IfSome two (λ id. IsSome (task_at self.now.view id.0)) }
        ensures { IsPick latest_first (IsEither self.now.view one two) result }
    {
        match (one, two) {
            (None, _) => two,
            (_, None) => one,
            (Some(first), Some(second)) => {
                if cmp(&self.task(first).key, &self.task(second).key).is_lt() {
                    Some(second)
                } else {
                    Some(first)
                }
            }
        }
    }

    /// The latest task on a core of a tile; None exactly where its cores hold no task.
    pub fn latest_on_core(&self, tile: u32) -> Option<TaskId>
        requires { tile < self.now.view.settings.tiles }
        ensures some { IfSome result
            (λ id. (task : Task) × IsLatestOnCore self.now.view tile id.0 task) }
        ensures none { IsNone result
            ↔ ((id : ℕ) (task : Task) → (core : ℕ) × IsOnCore self.now.view tile core id task → ⊥) }
    {
        self.is_stored();
        let cores = self.held_in(tile);
        let mut best = None;
        for core in cores {
            best = self.later(best, *core);
        }
        best
    }

    /// The latest task in the commit queue of a tile; None exactly where that is empty.
    pub fn last_finished(&self, tile: u32) -> Option<TaskId>
        requires { tile < self.now.view.settings.tiles }
        ensures some { IfSome result
            (λ id. (task : Task) × IsLatestFinished self.now.view tile id.0 task) }
        ensures none { IsNone result
            ↔ ((id : ℕ) (task : Task) → IsFinished self.now.view tile id task → ⊥) }
    {
        self.is_stored();
        let ids = self.finished_in(tile);
        let mut best = None;
        for id in ids {
            best = self.later(best, Some(TaskId(*id)));
        }
        best
    }

    /// The latest dispatched task of a tile; None exactly where no task of the tile is dispatched. It looks at the
    /// tile's cores and its commit queue alone.
    pub fn latest(&self, tile: u32) -> Option<TaskId>
        requires { tile < self.now.view.settings.tiles }
        ensures some { IfSome result
            (λ id. (task : Task) × IsLatestDispatched self.now.view tile id.0 task) }
        ensures none { IsNone result
            ↔ ((id : ℕ) (task : Task) → IsDispatched self.now.view tile id task → ⊥) }
    {
        self.is_stored();
        self.later(self.latest_on_core(tile), self.last_finished(tile))
    }
}
