//! The tasks of a tile's queue. No call takes memory.

ghost use Rattle.std.specs.Prelude.{◌≡◌, ◌<◌, ◌≤◌, ◌↔◌, length, IsSome, IsTrue};
ghost use Rattle.tile_queues.specs.Queue.{AreDistinct};
ghost use Rattle.spec_state.specs.View.{task_at, queue_at};
ghost use Rattle.spec_state.specs.Room.{IsFull};
ghost use Rattle.spec_commit.specs.Latest.{HasLessKey};

use fractal_vt::cmp;
use rv_core::Naming;
use spec_state::{State, TaskId};

/// The ids in the task queue of a tile, in order of arrival.
pub(crate) fn queue_ids<N: Naming>(state: &State<N>, tile: u32) -> &[usize]
    requires { tile < state.now.view.settings.tiles }
    ensures ids { result.now ≡ queue_at state.now.view tile }
    ensures distinct { AreDistinct (queue_at state.now.view tile) }
    ensures long { IsFull state.now.view tile → 4 ≤ length result.now }
{
    state.queues[tile as usize].ids()
}

/// Whether the first task has the lesser key.
pub(crate) fn is_less<N: Naming>(state: &State<N>, a: usize, b: usize) -> bool
    requires first { IsSome (task_at state.now.view a) }
    requires second { IsSome (task_at state.now.view b) }
    ensures { IsTrue result ↔ HasLessKey state.now.view a b }
{
    cmp(&state.task(TaskId(a)).key, &state.task(TaskId(b)).key).is_lt()
}
