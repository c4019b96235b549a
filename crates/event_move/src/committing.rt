//! The commit of the least task.

ghost use Rattle.std.specs.Prelude.{◌≡◌, IsNone, IfSome};
ghost use Rattle.event_prelude.specs.spec_law.Sound.{Sound};
ghost use Rattle.event_prelude.specs.spec_state.declared.task.Where.TheVariants.{Finished};
ghost use Rattle.event_prelude.specs.spec_state.Effects.{nothing};
ghost use Rattle.event_prelude.specs.spec_state.Least.{IsLeast};
ghost use Rattle.event_prelude.specs.event_basis.Whereabouts.{IsUnfinished};
ghost use Rattle.event_prelude.specs.event_def.End.{IsOver};
ghost use Rattle.event_move.specs.Moving.{CommitComes};

use crate::event_def::{Came, Reply};
use crate::recording::record_of;
use crate::spec_commit::commit_task;
use crate::spec_state::{State, TaskId, Where};
use event_prelude::least_going;
use rv_core::Naming;
use trace_tap::Deed;

/// The id of a finished least task.
fn finished_in(least: Where) -> Option<TaskId>
    ensures some { IfSome result (λ id. least ≡ Finished id) }
    ensures none { IsNone result → IsUnfinished least }
{
    match least {
        Where::Finished(id) => Some(id),
        Where::Idle(_) | Where::Running(_) | Where::Trapped(_) | Where::Spilled(_) => None,
    }
}

/// Commits the least task, which is finished, where the run isn't over. Refused with `Memory` at most.
pub fn make_commit<N: Naming>(state: &mut State<N>, id: TaskId) -> Came
    requires sound { Sound N.image state.old.view }
    requires goes_on { IsOver state.old.view → ⊥ }
    requires finished { IsLeast state.old.view (Finished id) }
    requires fresh { state.old.effect ≡ nothing }
    ensures { CommitComes N state.old.view result state.new.view state.new.effect }
{
    let tile = state.tile_of(id);
    match commit_task(state, id) {
        Ok(_) => Came::Made(record_of(state, Deed::Commit, tile, 0)),
        Err(_) => Came::Refused(Reply::Memory),
    }
}

/// The event `Commit`: the least task, which is finished, commits. Refused with `Ended`, `Empty` or `Memory`.
pub fn commit<N: Naming>(state: &mut State<N>) -> Came
    requires sound { Sound N.image state.old.view }
    requires fresh { state.old.effect ≡ nothing }
    ensures { CommitComes N state.old.view result state.new.view state.new.effect }
{
    let Some(least) = least_going(state) else {
        return Came::Refused(Reply::Ended);
    };
    match finished_in(least) {
        Some(id) => make_commit(state, id),
        None => Came::Refused(Reply::Empty),
    }
}
