//! A free place in a task queue, for a child or for a spilled task that comes back.

ghost use Rattle.std.specs.Prelude.{◌≡◌, ◌<◌, ◌⊎◌, ◌↔◌, ℕ, IsTrue, IsFalse, None, option_map};
ghost use Rattle.event_basis.specs.spec_law.Sound.{Sound};
ghost use Rattle.spec_commit.specs.Spilling.{KeepsOtherSpare};
ghost use Rattle.event_basis.specs.spec_state.declared.reserving.TheConstants.{MAX_MOVED};
ghost use Rattle.event_basis.specs.spec_state.StateValue.{CoversPushes};
ghost use Rattle.event_basis.specs.spec_state.Least.{IsLeast, IsLeastSpilled};
ghost use Rattle.event_basis.specs.spec_state.Room.{IsFull, IsMovable, NoneMoves, IsLeastAsker, Stalls, Coalesces};
ghost use Rattle.event_basis.specs.spec_state.Room.{MakesRoom};
ghost use Rattle.event_basis.specs.spec_state.Room.{QueueHasRoom, asker_of};
ghost use Rattle.event_basis.specs.spec_state.Effects.{nothing};
ghost use Rattle.event_basis.specs.event_def.Telling.{TellsRoom, TellsSpilled};
ghost use Rattle.event_basis.specs.Forcing.{RunsIfTask};
ghost use Rattle.event_prelude.specs.Entering.{MayEnter};

use crate::leasts::{is_least, is_least_spilled, is_spilled_at};
use crate::spec_state::{State, TaskId, Where};
use rv_core::Naming;
use spec_commit::{coalesce, creator_of, victim_of};
use spec_rollback::abort;

/// Whether who asks for room is the least task, or asks for it.
fn asks_as_least<N: Naming>(state: &State<N>, tile: u32, asker: Option<TaskId>) -> bool
    ensures { let who = asker_of (option_map (λ id. id.0) asker) in
        IsTrue result ↔ IsLeastAsker state.now.view tile who }
{
    match asker {
        Some(id) => is_least(state, id),
        None => is_least_spilled(state, tile),
    }
}

/// Whether room in a tile's task queue is refused to who asks, a task for its child or else the splitter: the
/// queue is full, none of its tasks moves, and who asks doesn't ask as the least task. No memory.
pub fn stalls<N: Naming>(state: &State<N>, tile: u32, asker: Option<TaskId>) -> bool
    requires tile { tile < state.now.view.settings.tiles }
    ensures stalls { let who = asker_of (option_map (λ id. id.0) asker) in
        IsTrue result ↔ Stalls state.now.view tile who }
    ensures granted { IsFalse result → MayEnter state.now.view tile (asker_of (option_map (λ id. id.0) asker)) }
{
    if state.queue_has_room(tile) {
        return false;
    }
    if state.has_firm(tile) {
        return false;
    }
    !asks_as_least(state, tile, asker)
}

/// Whether the least task of a tile's block may return to the task queue: the queue has a free place, or it is the
/// least task of all, whose place is `least`.
pub fn may_return<N: Naming>(state: &State<N>, tile: u32, least: Where) -> bool
    requires tile { tile < state.now.view.settings.tiles }
    requires least { IsLeast state.now.view least }
    ensures { IsTrue result ↔ (QueueHasRoom state.now.view tile ⊎ IsLeastSpilled state.now.view tile) }
{
    state.queue_has_room(tile) || is_spilled_at(least, tile)
}

/// Moves idle firm tasks of a tile, which has one, into its block, which has the pushes to spare.
fn spill<N: Naming>(state: &mut State<N>, tile: u32)
    requires tile { tile < state.old.view.settings.tiles }
    requires some { (id : ℕ) × IsMovable state.old.view tile id }
    requires covered { CoversPushes state.old tile MAX_MOVED }
    ensures moves { (moves : Coalesces tile state.old.view state.new.view)
        × TellsSpilled state.old.view moves.ids state.new.effect }
    ensures effect { state.new.effect ≡ record state.old.effect { spilled = state.new.effect.spilled } }
    ensures others { KeepsOtherSpare tile state.old.spare state.new.spare }
{
    match coalesce(state, tile) {
        Ok(_) => {}
        Err(_) => unreachable!(),
    }
}

/// Takes the victim of a full queue back, which is then idle and moves, or its creator where it isn't firm, so
/// that it leaves.
fn take_victim<N: Naming>(state: &mut State<N>, tile: u32, asker: Option<TaskId>) -> u32
    requires sound { Sound N.image state.old.view }
    requires tile { tile < state.old.view.settings.tiles }
    requires full { IsFull state.old.view tile }
    requires none_moves { NoneMoves state.old.view tile }
    requires runs { RunsIfTask state.old.view (asker_of (option_map (λ id. id.0) asker)) }
    requires least { IsLeastAsker state.old.view tile (asker_of (option_map (λ id. id.0) asker)) }
    requires covered { CoversPushes state.old tile MAX_MOVED }
    ensures makes { let who = asker_of (option_map (λ id. id.0) asker) in
        let old = state.old.view in
        (makes : MakesRoom tile who old result state.new.view)
        × TellsRoom tile who old result state.new.view makes state.new.effect }
    ensures arrived { state.new.effect.arrived ≡ None }
    ensures others { KeepsOtherSpare tile state.old.spare state.new.spare }
{
    let last = victim_of(state, tile, asker);
    if state.firm(last) {
        let aborted = abort(state, last);
        spill(state, tile);
        aborted
    } else {
        let creator = creator_of(state, last);
        abort(state, creator)
    }
}

/// Makes a free place in a tile's task queue for the requester, a running task for its child or else the splitter,
/// which doesn't stall. It returns how many tasks were aborted for it; the state reports which, and which were spilled.
/// The tile's block has memory for the pushes, so it allocates none.
pub fn make_room<N: Naming>(state: &mut State<N>, tile: u32, asker: Option<TaskId>) -> u32
    requires sound { Sound N.image state.old.view }
    requires tile { tile < state.old.view.settings.tiles }
    requires runs { RunsIfTask state.old.view (asker_of (option_map (λ id. id.0) asker)) }
    requires granted { MayEnter state.old.view tile (asker_of (option_map (λ id. id.0) asker)) }
    requires covered { CoversPushes state.old tile MAX_MOVED }
    requires fresh { state.old.effect ≡ nothing }
    ensures makes { let who = asker_of (option_map (λ id. id.0) asker) in
        let old = state.old.view in
        (makes : MakesRoom tile who old result state.new.view)
        × TellsRoom tile who old result state.new.view makes state.new.effect }
    ensures arrived { state.new.effect.arrived ≡ None }
    ensures others { KeepsOtherSpare tile state.old.spare state.new.spare }
{
    if state.queue_has_room(tile) {
        return 0;
    }
    if state.has_firm(tile) {
        spill(state, tile);
        return 0;
    }
    take_victim(state, tile, asker)
}
