//! The idle tasks of a tile, and room in its task queue. No call takes memory.

ghost use Rattle.std.specs.Prelude.{◌≡◌, ◌<◌, ◌≤◌, ◌+◌, ◌↔◌, ℕ, true, length, slice_index_or};
ghost use Rattle.std.specs.Prelude.{Contains, IsTrue, Some, None, IsSome, IsNone, IfSome};
ghost use Rattle.std.specs.Prelude.{option_map};
ghost use Rattle.std.specs.Ordering.{is_lt};
ghost use Rattle.fractal_vt.specs.Keys.{key_cmp};
ghost use Rattle.spec_state.specs.declared.task.Task.{Task};
ghost use Rattle.spec_state.specs.View.{task_at, queue_at};
ghost use Rattle.spec_state.specs.Queries.{IsIdle, IsLeastIdle, IsIdleFirm};
ghost use Rattle.spec_state.specs.Room.{QueueHasRoom};
ghost use Rattle.spec_state.specs.Picks.{IsFirstIdle, IsIdlePick, IsIdleFirmBy};

use crate::firm::is_firm;
use crate::state::State;
use crate::task::{Status, Task, TaskId};
use fractal_vt::cmp;
use rv_core::Naming;

/// Whether the task waits for a core.
fn is_idle(task: &Task) -> bool
    ensures { IsTrue result ↔ (task.now.status ≡ Status.Idle) }
{
    match task.status {
        Status::Idle => true,
        Status::Running { .. } | Status::Trapped { .. } | Status::Finished => false,
    }
}

/// Whether the task waits for a core, and its key is less than that of the other one.
fn is_idle_before(task: &Task, other: &Task) -> bool
    ensures { IsTrue result
        ↔ (task.now.status ≡ Status.Idle) × (is_lt (key_cmp task.now.key other.now.key) ≡ true) }
{
    is_idle(task) && cmp(&task.key, &other.key).is_lt()
}

/// Whether the task waits for a core, and its creator has committed or is the dispatched least task.
fn is_idle_firm(task: &Task, heir: Option<TaskId>) -> bool
    ensures { IsTrue result ↔ IsIdleFirmBy (option_map (λ id. id.0) heir) task.now }
{
    is_idle(task) && is_firm(task, heir)
}

impl<N: Naming> State<N> {
    /// The place of the first idle task among those of these ids; None exactly where none of them is
    /// idle.
    fn first_idle(&self, ids: &[usize]) -> Option<usize>
        requires live { (id : ℕ) → Contains ids.now id → IsSome (task_at self.now.view id) }
        ensures some { IfSome result (λ place. (place < length ids.now)
            × IsFirstIdle self.now.view ids.now (place + 1) (slice_index_or ids.now place 0)) }
        ensures none { result ≡ None → IsIdlePick self.now.view ids.now (length ids.now) None }
    {
        for place in 0..ids.len() {
            if is_idle(self.task(TaskId(ids[place]))) {
                return Some(place);
            }
        }
        None
    }

    /// The next place at which an idle task is less than the one at this place, which is the least
    /// idle one so far; None exactly where it is the least of all.
    fn next_lesser(&self, ids: &[usize], best: usize) -> Option<usize>
        requires live { (id : ℕ) → Contains ids.now id → IsSome (task_at self.now.view id) }
        requires within { best < length ids.now }
        requires best { IsFirstIdle self.now.view ids.now (best + 1)
            (slice_index_or ids.now best 0) }
        ensures some { IfSome result (λ place. (best < place) × (place < length ids.now)
            × IsFirstIdle self.now.view ids.now (place + 1) (slice_index_or ids.now place 0)) }
        ensures none { result ≡ None
            → IsFirstIdle self.now.view ids.now (length ids.now) (slice_index_or ids.now best 0) }
    {
        let least = self.task(TaskId(ids[best]));
        let rest = &ids[best + 1..];
        for place in 0..rest.len() {
            if is_idle_before(self.task(TaskId(rest[place])), least) {
                return Some(best + 1 + place);
            }
        }
        None
    }

    /// The least idle task among those of these ids, of which the one at this place is the first.
    fn least_idle(&self, ids: &[usize], first: usize) -> TaskId
        requires live { (id : ℕ) → Contains ids.now id → IsSome (task_at self.now.view id) }
        requires within { first < length ids.now }
        requires first { IsFirstIdle self.now.view ids.now (first + 1)
            (slice_index_or ids.now first 0) }
        ensures { IsFirstIdle self.now.view ids.now (length ids.now) result.0 }
    {
        let mut best = first;
        while let Some(place) = self.next_lesser(ids, best) {
            best = place;
        }
        TaskId(ids[best])
    }

    /// The least idle task of a tile, by key and then by its place in the task queue; None exactly where no task of
    /// the tile is idle. It looks at each task of the queue.
    pub fn idle(&self, tile: u32) -> Option<TaskId>
        requires { tile < self.now.view.settings.tiles }
        ensures some { IfSome result
            (λ id. (task : Task) × IsLeastIdle self.now.view tile id.0 task) }
        ensures none { IsNone result
            ↔ ((id : ℕ) (task : Task) → IsIdle self.now.view tile id task → ⊥) }
    {
        self.is_stored();
        let ids = self.queued_in(tile);
        match self.first_idle(ids) {
            None => None,
            Some(place) => Some(self.least_idle(ids, place)),
        }
    }

    /// Whether a task of a tile is idle and firm. It costs as much as finding the least task, and a look at each task
    /// of the queue.
    pub fn has_firm(&self, tile: u32) -> bool
        requires { tile < self.now.view.settings.tiles }
        ensures { IsTrue result
            ↔ ((id : ℕ) × (task : Task) × IsIdleFirm self.now.view tile id task) }
    {
        self.is_stored();
        let heir = self.heir();
        let ids = self.queued_in(tile);
        for id in ids {
            if is_idle_firm(self.task(TaskId(*id)), heir) {
                return true;
            }
        }
        false
    }

    /// Law: the task queue of a tile is no longer than it may be.
    pub fn is_short(&self, tile: u32)
        requires { tile < self.now.view.settings.tiles }
        ensures { length (queue_at self.now.view tile) ≤ self.now.view.settings.task_queue }
    {
        let _ = self.queues[tile as usize].ids();
    }

    /// Whether the task queue of a tile has a free place.
    pub fn queue_has_room(&self, tile: u32) -> bool
        requires { tile < self.now.view.settings.tiles }
        ensures { IsTrue result ↔ QueueHasRoom self.now.view tile }
    {
        self.queues[tile as usize].free() > 0
    }
}
