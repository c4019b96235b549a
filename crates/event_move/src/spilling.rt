//! Coalescing, by which tasks go into a tile's block, and splits, by which they come back.

ghost use Rattle.std.specs.Prelude.{◌≡◌, ◌≢◌, ◌<◌, ◌⊎◌, [], ℕ};
ghost use Rattle.event_prelude.specs.spec_law.Sound.{Sound};
ghost use Rattle.event_prelude.specs.spec_state.declared.reserving.TheConstants.{MAX_MOVED};
ghost use Rattle.event_prelude.specs.spec_state.Effects.{nothing};
ghost use Rattle.event_prelude.specs.spec_state.View.{block_at};
ghost use Rattle.event_prelude.specs.spec_state.StateValue.{CoversPushes};
ghost use Rattle.event_prelude.specs.spec_state.Least.{IsLeastSpilled};
ghost use Rattle.event_prelude.specs.spec_state.Room.{QueueHasRoom, IsMovable};
ghost use Rattle.event_prelude.specs.event_def.declared.event.Came.TheVariants.{Made};
ghost use Rattle.event_prelude.specs.event_def.declared.event.Event.TheVariants as event;
ghost use Rattle.event_prelude.specs.event_def.End.{IsOver};
ghost use Rattle.event_move.specs.Moving.{ComesSo};

use crate::event_def::{Came, Reply};
use crate::recording::record_of;
use crate::spec_commit::{coalesce as spill, split as return_least};
use crate::spec_state::State;
use event_prelude::{end_of, least_going, make_room, may_return};
use rv_core::Naming;
use trace_tap::{Deed, Record};

/// Moves idle firm tasks of a tile, which has one, into its block, where the run isn't over. Refused with `Memory`
/// at most.
fn make_coalesce<N: Naming>(state: &mut State<N>, tile: u32) -> Came
    requires tile { tile < state.old.view.settings.tiles }
    requires goes_on { IsOver state.old.view → ⊥ }
    requires some { (id : ℕ) × IsMovable state.old.view tile id }
    requires fresh { state.old.effect ≡ nothing }
    ensures { ComesSo N state.old.view (event.Coalesce tile) result state.new.view state.new.effect }
{
    match spill(state, tile) {
        Ok(_) => Came::Made(record_of(state, Deed::Coalesce, tile, 0)),
        Err(_) => Came::Refused(Reply::Memory),
    }
}

/// The event `Coalesce`: the latest idle firm tasks of a tile, at most eight, are spilled. Refused with `Ended`,
/// `Empty` or `Memory`.
pub fn coalesce<N: Naming>(state: &mut State<N>, tile: u32) -> Came
    requires sound { Sound N.image state.old.view }
    requires tile { tile < state.old.view.settings.tiles }
    requires fresh { state.old.effect ≡ nothing }
    ensures { ComesSo N state.old.view (event.Coalesce tile) result state.new.view state.new.effect }
{
    if end_of(state).is_some() {
        return Came::Refused(Reply::Ended);
    }
    if !state.has_firm(tile) {
        return Came::Refused(Reply::Empty);
    }
    make_coalesce(state, tile)
}

/// Brings the least task of a tile's block back, once the task queue has made room for it.
fn return_to_queue<N: Naming>(state: &mut State<N>, tile: u32) -> Record
    requires sound { Sound N.image state.old.view }
    requires tile { tile < state.old.view.settings.tiles }
    requires goes_on { IsOver state.old.view → ⊥ }
    requires some { block_at state.old.view tile ≢ [] }
    requires may { QueueHasRoom state.old.view tile ⊎ IsLeastSpilled state.old.view tile }
    requires covered { CoversPushes state.old tile MAX_MOVED }
    requires fresh { state.old.effect ≡ nothing }
    ensures { ComesSo N state.old.view (event.Split tile) (Made result) state.new.view state.new.effect }
{
    let aborted = make_room(state, tile, None);
    let _ = return_least(state, tile);
    record_of(state, Deed::Split, tile, aborted)
}

/// Brings the least task of a tile's block, which has one, back to its task queue, where that has a free place or
/// the task is the least one, and the run isn't over. Refused with `Memory` at most.
pub fn make_split<N: Naming>(state: &mut State<N>, tile: u32) -> Came
    requires sound { Sound N.image state.old.view }
    requires tile { tile < state.old.view.settings.tiles }
    requires goes_on { IsOver state.old.view → ⊥ }
    requires some { block_at state.old.view tile ≢ [] }
    requires may { QueueHasRoom state.old.view tile ⊎ IsLeastSpilled state.old.view tile }
    requires fresh { state.old.effect ≡ nothing }
    ensures { ComesSo N state.old.view (event.Split tile) result state.new.view state.new.effect }
{
    match state.reserve(None, tile) {
        Ok(()) => Came::Made(return_to_queue(state, tile)),
        Err(_) => Came::Refused(Reply::Memory),
    }
}

/// The event `Split`: the least spilled task of a tile comes back to its task queue. Where that is full and the
/// task is the least one, the queue makes room. Refused with `Ended`, `Empty`, `Stall` or `Memory`.
pub fn split<N: Naming>(state: &mut State<N>, tile: u32) -> Came
    requires sound { Sound N.image state.old.view }
    requires tile { tile < state.old.view.settings.tiles }
    requires fresh { state.old.effect ≡ nothing }
    ensures { ComesSo N state.old.view (event.Split tile) result state.new.view state.new.effect }
{
    let Some(least) = least_going(state) else {
        return Came::Refused(Reply::Ended);
    };
    if state.block_len(tile) == 0 {
        return Came::Refused(Reply::Empty);
    }
    if may_return(state, tile, least) {
        make_split(state, tile)
    } else {
        Came::Refused(Reply::Stall)
    }
}
