//! Enqueues: the tile that the serving placer picks makes room for the child.

ghost use Rattle.std.specs.Prelude.{◌≡◌, ◌<◌, Some, map};
ghost use Rattle.place_policy.specs.Serving.{serving_tile};
ghost use Rattle.task_request.specs.declared.request.Request.TheVariants.{Enqueue};
ghost use Rattle.event_prelude.specs.spec_state.View.{loads};
ghost use Rattle.event_prelude.specs.spec_state.Effects.{nothing};
ghost use Rattle.event_prelude.specs.spec_state.StateValue.{Covers};
ghost use Rattle.event_prelude.specs.spec_state.Room.{Enqueuer};
ghost use Rattle.spec_access.specs.Asking.{Asks, OfTaker};
ghost use Rattle.event_prelude.specs.spec_law.Sound.{Sound};
ghost use Rattle.event_prelude.specs.event_def.End.{IsOver};
ghost use Rattle.event_prelude.specs.Entering.{MayEnter};
ghost use Rattle.event_step.specs.Coming.{TaskComes};
ghost use Rattle.event_step.specs.Placing.{PlacesTelling};

use crate::event_def::{Came, Reply};
use crate::recording::record_of;
use crate::spec_state::{State, TaskId};
use event_prelude::{make_room, stalls};
use place_policy::{Placer, serving_pick, serving_placed};
use rv_core::{Leg, Naming};
use spec_access::enqueue_child;
use task_desc::Spawn;
use trace_tap::Deed;

/// The tile that the serving placer picks for a task of this hint.
fn pick<N: Naming, P: Placer>(state: &State<N>, placers: &[P], hint: u32) -> u32
    requires sound { Sound N.image state.now.view }
    ensures chosen { result ≡ serving_tile (map P.policy placers.now) hint (loads state.now.view) }
    ensures inside { result < state.now.view.settings.tiles }
{
    serving_pick(placers, hint, state.loads().as_slice())
}

/// Makes room for a child in a tile that gives it a place, and enqueues it there. It returns how many tasks were
/// aborted for it; the state reports which, which were spilled and which one was created.
fn place<N: Naming>(state: &mut State<N>, id: TaskId, leg: &Leg<N>, child: Spawn, tile: u32) -> u32
    requires sound { Sound N.image state.old.view }
    requires tile { tile < state.old.view.settings.tiles }
    requires asks { Asks state.old.view leg.now id.0 (Enqueue child) }
    requires may_enter { MayEnter state.old.view tile (Enqueuer id.0) }
    requires covered { Covers state.old (Some id) tile }
    requires fresh { state.old.effect ≡ nothing }
    ensures { let old = state.old.view in OfTaker old leg.now id.0 (λ from core task.
        PlacesTelling tile id.0 task leg.now child old result state.new.view state.new.effect) }
{
    let aborted = make_room(state, tile, Some(id));
    let _ = enqueue_child(state, id, leg, child, tile);
    aborted
}

/// Enqueues a child of a task, and reports it to the serving placer. `Stall` where the tile that the placer picks is
/// full and gives the task no place, and `Memory` where memory runs out; then nothing is reported to the placer.
pub(crate) fn enqueue<N: Naming, P: Placer>(
    state: &mut State<N>,
    placers: &mut [P],
    tile: u32,
    id: TaskId,
    leg: &Leg<N>,
    child: Spawn,
) -> Came
    requires sound { Sound N.image state.old.view }
    requires goes_on { IsOver state.old.view → ⊥ }
    requires fresh { state.old.effect ≡ nothing }
    requires asks { Asks state.old.view leg.now id.0 (Enqueue child) }
    ensures { let old = state.old.view in
        let before = map P.policy placers.old in
        TaskComes N tile leg.now id.0 old before result state.new.view (map P.policy placers.new)
        state.new.effect }
{
    let target = pick(state, placers, child.hint);
    if stalls(state, target, Some(id)) {
        return Came::Refused(Reply::Stall);
    }
    if state.reserve(Some(id), target).is_err() {
        return Came::Refused(Reply::Memory);
    }
    let aborted = place(state, id, leg, child, target);
    serving_placed(placers, target);
    Came::Made(record_of(state, Deed::Call, tile, None, aborted))
}
