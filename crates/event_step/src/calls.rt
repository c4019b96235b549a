//! Steps that force nothing and take no memory: a leg that did its quantum, a subdomain, a byte
//! and a trap.

ghost use Rattle.std.specs.Prelude.{◌≡◌};
ghost use Rattle.task_request.specs.declared.request.Request.TheVariants.{Continue, MakeSub};
ghost use Rattle.task_request.specs.declared.request.Request.TheVariants.{Emit, Trap};
ghost use Rattle.event_prelude.specs.spec_state.Effects.{nothing};
ghost use Rattle.spec_access.specs.Asking.{Asks};
ghost use Rattle.event_prelude.specs.event_def.End.{IsOver};
ghost use Rattle.event_step.specs.Coming.{QuietlyComes};

use crate::event_def::Came;
use crate::recording::record_of;
use crate::spec_state::{State, TaskId};
use guest_image::Kind;
use rv_core::{Leg, Naming};
use spec_access::{call_trap, end_quantum, open_sub, put_byte};
use trace_tap::Deed;

/// A task that did its quantum goes on from the end of its leg.
pub(crate) fn go_on<N: Naming>(state: &mut State<N>, tile: u32, id: TaskId, leg: &Leg<N>) -> Came
    requires goes_on { IsOver state.old.view → ⊥ }
    requires fresh { state.old.effect ≡ nothing }
    requires asks { Asks state.old.view leg.now id.0 Continue }
    ensures { QuietlyComes N tile leg.now id.0 state.old.view result state.new.view state.new.effect }
{
    end_quantum(state, id, leg);
    Came::Made(record_of(state, Deed::Keep, tile, None, 0))
}

/// A task makes its subdomain.
pub(crate) fn make_subdomain<N: Naming>(
    state: &mut State<N>,
    tile: u32,
    id: TaskId,
    leg: &Leg<N>,
    kind: Kind,
) -> Came
    requires goes_on { IsOver state.old.view → ⊥ }
    requires fresh { state.old.effect ≡ nothing }
    requires asks { Asks state.old.view leg.now id.0 (MakeSub kind) }
    ensures { QuietlyComes N tile leg.now id.0 state.old.view result state.new.view state.new.effect }
{
    open_sub(state, id, leg, kind);
    Came::Made(record_of(state, Deed::Call, tile, None, 0))
}

/// A task emits a byte.
pub(crate) fn emit_byte<N: Naming>(
    state: &mut State<N>,
    tile: u32,
    id: TaskId,
    leg: &Leg<N>,
    byte: u8,
) -> Came
    requires goes_on { IsOver state.old.view → ⊥ }
    requires fresh { state.old.effect ≡ nothing }
    requires asks { Asks state.old.view leg.now id.0 (Emit byte) }
    ensures { QuietlyComes N tile leg.now id.0 state.old.view result state.new.view state.new.effect }
{
    put_byte(state, id, leg, byte);
    Came::Made(record_of(state, Deed::Call, tile, None, 0))
}

/// A task that trapped keeps its cause, 1 to 17.
pub(crate) fn keep_trap<N: Naming>(
    state: &mut State<N>,
    tile: u32,
    id: TaskId,
    leg: &Leg<N>,
    cause: u8,
) -> Came
    requires goes_on { IsOver state.old.view → ⊥ }
    requires fresh { state.old.effect ≡ nothing }
    requires asks { Asks state.old.view leg.now id.0 (Trap cause) }
    ensures { QuietlyComes N tile leg.now id.0 state.old.view result state.new.view state.new.effect }
{
    call_trap(state, id, leg, cause);
    Came::Made(record_of(state, Deed::Keep, tile, None, 0))
}
