//! What changes one task alone. No call takes memory.

ghost use Rattle.std.specs.Prelude.{◌≡◌, ◌<◌, ◌-◌, ◌^◌, ◌∷◌, ◌++◌, [], ℕ};
ghost use Rattle.rv_core.specs.Legs.{after_other_of};
ghost use Rattle.task_request.specs.declared.request.Request.TheVariants.{Continue, MakeSub};
ghost use Rattle.task_request.specs.declared.request.Request.TheVariants.{Emit, Trap};
ghost use Rattle.spec_dispatch.specs.spec_state.declared.task.Status.TheVariants.{Running};
ghost use Rattle.spec_dispatch.specs.spec_state.Changes.{KeepsQuantum, KeepsTrap, MakesSub, Emits};
ghost use Rattle.spec_access.specs.Asking.{Asks, OfTaker};

use guest_image::Kind;
use rv_core::{Leg, Naming, NotedCore};
use spec_state::{State, Status, TaskId};

/// The core of its tile on which a task with this status runs.
#[inline]
pub(crate) fn held_core(status: Status) -> u32
    requires runs { (core : ℕ) × (status ≡ Running core) }
    ensures { status ≡ Running result }
{
    match status {
        Status::Running { core } => core,
        Status::Idle | Status::Trapped { .. } | Status::Finished => unreachable!(),
    }
}

/// The core at the instruction behind the leg's end.
#[inline]
pub(crate) fn put_behind<N: Naming>(core: &mut NotedCore, budget: u32, leg: &Leg<N>)
    requires budget { budget ≡ N.budget }
    requires short { budget < 2 ^ 32 - 1 }
    ensures { core.new ≡ after_other_of leg.now.to }
{
    let _to = leg.to();
    leg.put_after_other(core);
}

/// A task that did its quantum goes on from the end of its leg.
#[inline]
pub fn end_quantum<N: Naming>(state: &mut State<N>, id: TaskId, leg: &Leg<N>)
    requires asks { Asks state.old.view leg.now id.0 Continue }
    ensures goes_on { OfTaker state.old.view leg.now id.0 (λ tile core task.
        KeepsQuantum id.0 task leg.now state.old.view state.new.view) }
    ensures effect { state.new.effect ≡ state.old.effect }
    ensures spare { state.new.spare ≡ state.old.spare }
{
    leg.put_end(&mut state.tasks[id.0].core);
}

/// A task that trapped keeps the cause, 1 to 17, and its core as it was at the end of the leg.
pub fn call_trap<N: Naming>(state: &mut State<N>, task: TaskId, leg: &Leg<N>, cause: u8)
    requires asks { Asks state.old.view leg.now task.0 (Trap cause) }
    ensures traps { OfTaker state.old.view leg.now task.0 (λ tile core taker.
        KeepsTrap task.0 taker leg.now core cause state.old.view state.new.view) }
    ensures effect { state.new.effect ≡ state.old.effect }
    ensures spare { state.new.spare ≡ state.old.spare }
{
    let taker = &mut state.tasks[task.0];
    let core = held_core(taker.status);
    leg.put_end(&mut taker.core);
    taker.status = Status::Trapped { core, cause };
}

/// A task makes its subdomain, of this kind.
pub fn open_sub<N: Naming>(state: &mut State<N>, id: TaskId, leg: &Leg<N>, kind: Kind)
    requires asks { Asks state.old.view leg.now id.0 (MakeSub kind) }
    ensures makes { OfTaker state.old.view leg.now id.0 (λ tile core task.
        MakesSub id.0 task leg.now kind state.old.view state.new.view) }
    ensures effect { state.new.effect ≡ state.old.effect }
    ensures spare { state.new.spare ≡ state.old.spare }
{
    let budget = state.settings.budget;
    let task = &mut state.tasks[id.0];
    put_behind(&mut task.core, budget, leg);
    task.sub = Some(kind);
}

/// A task emits a byte.
pub fn put_byte<N: Naming>(state: &mut State<N>, id: TaskId, leg: &Leg<N>, byte: u8)
    requires asks { Asks state.old.view leg.now id.0 (Emit byte) }
    ensures emits { OfTaker state.old.view leg.now id.0 (λ tile core task.
        Emits id.0 task leg.now byte state.old.view state.new.view) }
    ensures effect { state.new.effect ≡ state.old.effect }
    ensures spare { state.new.spare ≡ state.old.spare }
{
    let budget = state.settings.budget;
    let task = &mut state.tasks[id.0];
    put_behind(&mut task.core, budget, leg);
    task.bytes.push(byte);
}
