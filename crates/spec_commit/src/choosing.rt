//! Which tasks of a tile move into its block. No call takes memory.

ghost use Rattle.std.specs.Prelude.{◌≡◌, ◌<◌, ◌≤◌, ◌+◌, ◌↔◌, ℕ, length, Some, IsSome, IsTrue, option_map, slice_get};
ghost use Rattle.spec_state.specs.declared.task.Status.TheVariants.{Idle};
ghost use Rattle.spec_state.specs.declared.reserving.TheConstants.{MAX_MOVED};
ghost use Rattle.spec_state.specs.View.{task_at};
ghost use Rattle.spec_state.specs.Fronts.{IsFirmBy};
ghost use Rattle.spec_state.specs.Least.{Precedes};
ghost use Rattle.spec_state.specs.Room.{AreChosen};
ghost use Rattle.spec_commit.specs.Latest.{HasLessKey, MayMove, AreLatest, with_one};

use crate::queue::{is_less, queue_ids};
use arrayvec::ArrayVec;
use rv_core::Naming;
use spec_state::{Creator, MAX_MOVED, State, Status, Task, TaskId};

/// As many ids as move at once, and one more.
const MAX_LISTED: usize = MAX_MOVED + 1;

/// The ids of the tasks that move, the least first.
pub(crate) type Chosen = ArrayVec<usize, MAX_LISTED>;

/// Whether the task is idle and firm, where `heir` is the dispatched least task.
fn is_movable(task: &Task, heir: Option<TaskId>) -> bool
    ensures { IsTrue result ↔ (task.now.status ≡ Idle) × IsFirmBy (option_map (λ id. id.0) heir) task.now.creator }
{
    match (task.status, task.creator) {
        (Status::Idle, Creator::Committed { .. }) => true,
        (Status::Idle, Creator::Live { task, .. }) => heir == Some(task),
        (Status::Running { .. } | Status::Trapped { .. } | Status::Finished, _) => false,
    }
}

/// How many of the chosen tasks come before one that stands before them in the queue: those whose key is less, as their
/// keys rise.
fn place_for<N: Naming>(state: &State<N>, chosen: &[usize], id: usize) -> usize
    requires live { (k other : ℕ) → slice_get chosen.now k ≡ Some other → IsSome (task_at state.now.view other) }
    requires own { IsSome (task_at state.now.view id) }
    ensures within { result ≤ length chosen.now }
    ensures before { (k other : ℕ) → k < result → slice_get chosen.now k ≡ Some other
        → HasLessKey state.now.view other id }
    ensures first { (other : ℕ) → slice_get chosen.now result ≡ Some other → ¬ HasLessKey state.now.view other id }
{
    let mut place = 0;
    while place < chosen.len() && is_less(state, chosen[place], id) {
        place += 1;
    }
    place
}

/// Puts an id among the chosen ones, of which the first one leaves where they are too many then.
fn put_among(chosen: &mut Chosen, place: usize, id: usize)
    requires place { place ≤ length chosen.old.items }
    requires few { length chosen.old.items ≤ MAX_MOVED }
    ensures { chosen.new.items ≡ with_one chosen.old.items place id }
{
    // One that came first of too many would leave again.
    if place == 0 && chosen.len() == MAX_MOVED {
        return;
    }
    chosen.insert(place, id);
    if chosen.len() > MAX_MOVED {
        chosen.remove(0);
    }
}

/// The latest idle firm tasks of the tile, the least of them first: all, or as many as move at once. It looks from the
/// last task of the queue on: where keys tie the first ones that it sees are the latest, and the rest are passed over.
pub(crate) fn chosen_tasks<N: Naming>(state: &State<N>, tile: u32) -> Chosen
    requires { tile < state.now.view.settings.tiles }
    ensures { AreChosen state.now.view tile result.items }
{
    state.is_stored();
    let heir = state.heir();
    let ids = queue_ids(state, tile);
    let mut chosen = Chosen::new();
    for seen in 0..ids.len() {
        let id = ids[ids.len() - 1 - seen];
        if is_movable(state.task(TaskId(id)), heir) {
            let place = place_for(state, chosen.as_slice(), id);
            put_among(&mut chosen, place, id);
        }
    }
    chosen
}
