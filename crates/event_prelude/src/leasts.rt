//! Whether the least task is a given one, or is spilled in a given tile. No call takes memory.

ghost use Rattle.std.specs.Prelude.{◌≡◌, ◌↔◌, IsTrue, Some, option_map};
ghost use Rattle.event_basis.specs.spec_state.Least.{IsTheLeast, IsLeastSpilled};
ghost use Rattle.event_basis.specs.Whereabouts.{queued_in, spilled_in};

use crate::spec_state::{State, TaskId, Where};
use rv_core::Naming;

/// The id of the least task, where it is queued.
fn queued_in(least: Where) -> Option<TaskId>
    ensures { option_map (λ id. id.0) result ≡ queued_in least }
{
    match least {
        Where::Idle(id) | Where::Running(id) | Where::Trapped(id) | Where::Finished(id) => Some(id),
        Where::Spilled(_) => None,
    }
}

/// Whether the least task, whose place is `least`, has this id.
pub fn is_at(least: Where, id: TaskId) -> bool
    ensures { IsTrue result ↔ (queued_in least ≡ Some id.0) }
{
    queued_in(least) == Some(id)
}

/// Whether the least task is spilled in this tile.
pub(crate) fn is_spilled_at(least: Where, tile: u32) -> bool
    ensures { IsTrue result ↔ (spilled_in least ≡ Some tile) }
{
    match least {
        Where::Spilled(other) => other == tile,
        Where::Idle(_) | Where::Running(_) | Where::Trapped(_) | Where::Finished(_) => false,
    }
}

/// Whether the task of this id is the least uncommitted one. It costs what `least` does.
pub(crate) fn is_least<N: Naming>(state: &State<N>, id: TaskId) -> bool
    ensures { IsTrue result ↔ IsTheLeast state.now.view id.0 }
{
    match state.least() {
        Some(least) => is_at(least, id),
        None => false,
    }
}

/// Whether the least uncommitted task is spilled in this tile. It costs what `least` does.
pub(crate) fn is_least_spilled<N: Naming>(state: &State<N>, tile: u32) -> bool
    ensures { IsTrue result ↔ IsLeastSpilled state.now.view tile }
{
    match state.least() {
        Some(least) => is_spilled_at(least, tile),
        None => false,
    }
}
