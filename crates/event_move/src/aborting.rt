//! The abort of the latest dispatched task of a tile.

ghost use Rattle.std.specs.Prelude.{◌≡◌, ◌<◌};
ghost use Rattle.event_prelude.specs.spec_law.Sound.{Sound};
ghost use Rattle.event_prelude.specs.spec_state.declared.task.Task.{Task};
ghost use Rattle.event_prelude.specs.spec_state.Effects.{nothing};
ghost use Rattle.event_prelude.specs.spec_state.Least.{IsTheLeast};
ghost use Rattle.event_prelude.specs.spec_state.Queries.{IsLatestDispatched};
ghost use Rattle.event_prelude.specs.event_def.declared.event.Came.TheVariants.{Made};
ghost use Rattle.event_prelude.specs.event_def.declared.event.Event.TheVariants as event;
ghost use Rattle.event_prelude.specs.event_def.End.{IsOver};
ghost use Rattle.event_move.specs.Moving.{ComesSo};

use crate::event_def::{Came, Reply};
use crate::recording::record_of;
use crate::spec_rollback::abort as take_back;
use crate::spec_state::{State, TaskId};
use event_prelude::{is_at, least_going};
use rv_core::Naming;
use trace_tap::{Deed, Record};

/// Takes the latest dispatched task of a tile back, which is not the least task, and the run isn't over.
fn make_abort<N: Naming>(state: &mut State<N>, tile: u32, id: TaskId) -> Record
    requires sound { Sound N.image state.old.view }
    requires goes_on { IsOver state.old.view → ⊥ }
    requires latest { (task : Task) × IsLatestDispatched state.old.view tile id.0 task }
    requires other { IsTheLeast state.old.view id.0 → ⊥ }
    ensures { ComesSo N state.old.view (event.Abort tile) (Made result) state.new.view state.new.effect }
{
    let aborted = take_back(state, id);
    record_of(state, Deed::Abort, tile, aborted)
}

/// The event `Abort`: the latest dispatched task of a tile is aborted, with its cascade. Refused with `Ended`, `Empty`
/// or `Firm`. It allocates no memory.
pub fn abort<N: Naming>(state: &mut State<N>, tile: u32) -> Came
    requires sound { Sound N.image state.old.view }
    requires tile { tile < state.old.view.settings.tiles }
    requires fresh { state.old.effect ≡ nothing }
    ensures { ComesSo N state.old.view (event.Abort tile) result state.new.view state.new.effect }
{
    let Some(least) = least_going(state) else {
        return Came::Refused(Reply::Ended);
    };
    match state.latest(tile) {
        None => Came::Refused(Reply::Empty),
        Some(id) => {
            if is_at(least, id) {
                Came::Refused(Reply::Firm)
            } else {
                Came::Made(make_abort(state, tile, id))
            }
        }
    }
}
