//! The task that makes way in a full queue. No call takes memory.

ghost use Rattle.std.specs.Prelude.{◌≡◌, ◌<◌, ◌⊎◌, ◌↔◌, ℕ, IsSome, IsTrue, IfSome, Some, option_map};
ghost use Rattle.spec_state.specs.declared.task.Task.{Task};
ghost use Rattle.spec_state.specs.View.{task_at};
ghost use Rattle.spec_state.specs.Groups.{live_creator};
ghost use Rattle.spec_state.specs.Least.{IsFirm};
ghost use Rattle.spec_state.specs.Room.{IsFull, IsVictim, IsTakenFor, Enqueuer, asker_of};
ghost use Rattle.spec_commit.specs.Latest.{HasLessKey};

use crate::queue::{is_less, queue_ids};
use rv_core::Naming;
use spec_state::{Creator, State, TaskId};

/// The later of a task and one at an earlier place, if one is given.
fn later<N: Naming>(state: &State<N>, earlier: Option<usize>, id: usize) -> usize
    requires earlier { IfSome earlier (λ other. IsSome (task_at state.now.view other)) }
    requires own { IsSome (task_at state.now.view id) }
    ensures { ((earlier ≡ Some result) × HasLessKey state.now.view id result)
        ⊎ ((result ≡ id) × IfSome earlier (λ other. ¬ HasLessKey state.now.view id other)) }
{
    match earlier {
        Some(other) if is_less(state, id, other) => other,
        _ => id,
    }
}

/// Whether this task asks.
fn is_asker(asker: Option<TaskId>, id: usize) -> bool
    ensures { IsTrue result ↔ (asker_of (option_map (λ id. id.0) asker) ≡ Enqueuer id) }
{
    asker == Some(TaskId(id))
}

/// The latest task of a full queue other than the one that asks.
fn latest_other<N: Naming>(state: &State<N>, tile: u32, asker: Option<TaskId>) -> usize
    requires tile { tile < state.now.view.settings.tiles }
    requires full { IsFull state.now.view tile }
    ensures { let who = asker_of (option_map (λ id. id.0) asker) in
        (task : Task) × IsVictim state.now.view tile who result task }
{
    state.is_stored();
    let mut latest = None;
    for id in queue_ids(state, tile) {
        if !is_asker(asker, *id) {
            latest = Some(later(state, latest, *id));
        }
    }
    match latest {
        Some(victim) => victim,
        None => unreachable!(),
    }
}

/// The task that makes way in a full queue: the latest one other than the task that asks, by key and then by place.
/// The splitter asks where no task is given. It costs a look at each task of the queue.
pub fn victim_of<N: Naming>(state: &State<N>, tile: u32, asker: Option<TaskId>) -> TaskId
    requires tile { tile < state.now.view.settings.tiles }
    requires full { IsFull state.now.view tile }
    ensures { let who = asker_of (option_map (λ id. id.0) asker) in
        (task : Task) × IsVictim state.now.view tile who result.0 task }
{
    TaskId(latest_other(state, tile, asker))
}

/// The creator of a task that isn't firm.
pub fn creator_of<N: Naming>(state: &State<N>, id: TaskId) -> TaskId
    requires live { IsSome (task_at state.now.view id.0) }
    requires loose { IfSome (task_at state.now.view id.0) (λ t. IsFirm state.now.view t → ⊥) }
    ensures { IfSome (task_at state.now.view id.0) (λ t. live_creator t.creator ≡ Some result.0) }
{
    match state.task(id).creator {
        Creator::Live { task, .. } => task,
        Creator::Committed { .. } => unreachable!(),
    }
}

/// The task that is aborted to make room in a full queue: the victim where it is firm, and else its creator. It costs
/// as much as `victim_of` and finding the least task.
pub fn room_victim<N: Naming>(state: &State<N>, tile: u32, asker: Option<TaskId>) -> TaskId
    requires tile { tile < state.now.view.settings.tiles }
    requires full { IsFull state.now.view tile }
    ensures { let who = asker_of (option_map (λ id. id.0) asker) in
        (v : ℕ) × (task : Task) × IsVictim state.now.view tile who v task
        × IsTakenFor state.now.view v task result.0 }
{
    let victim = victim_of(state, tile, asker);
    if state.firm(victim) {
        victim
    } else {
        creator_of(state, victim)
    }
}
