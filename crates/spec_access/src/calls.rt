//! The changes of a running task by its leg alone: each call finds out itself what the task asks for at the leg's end.

ghost use Rattle.std.specs.Prelude.{◌≡◌, ◌<◌, ℕ, IsOk, OnOk, OnErr};
ghost use Rattle.guest_image.specs.declared.image.Kind.{Kind};
ghost use Rattle.rv_table.specs.declared.instr.LoadWidth.{LoadWidth};
ghost use Rattle.task_desc.specs.declared.desc.Spawn.{Spawn};
ghost use Rattle.task_request.specs.declared.request.Request.TheVariants.{Continue, Load, Store};
ghost use Rattle.task_request.specs.declared.request.Request.TheVariants.{Enqueue, MakeSub, Emit, Trap};
ghost use Rattle.spec_dispatch.specs.spec_state.StateValue.{CoversLog, CoversChild};
ghost use Rattle.spec_dispatch.specs.spec_state.Room.{QueueHasRoom};
ghost use Rattle.spec_dispatch.specs.spec_state.Changes.{LoadsFrom, StoresTo};
ghost use Rattle.spec_dispatch.specs.spec_state.Changes.{MakesSub, Emits, KeepsQuantum, KeepsTrap};
ghost use Rattle.spec_access.specs.Asking.{AsksToLoad, AsksToStore, AsksForChild};
ghost use Rattle.spec_access.specs.Asking.{AsksForSubdomain, AsksToEmit, AsksForNothing};
ghost use Rattle.spec_access.specs.Asking.{HasOwnNotes, OfTakerAsking};
ghost use Rattle.spec_access.specs.Telling.{EnqueuesTold};

use crate::accessing::{load_at, store_at};
use crate::calling::{call_trap, end_quantum, open_sub, put_byte};
use crate::requests::{byte_of, cause_of, kind_of, load_of, request_of_task, spawn_of, store_of};
use crate::spawning::enqueue_child;
use rv_core::{Leg, Naming};
use spec_state::{State, TaskId};
use std::alloc::AllocError;

/// Makes the load at which a task's leg stopped: its register has what the memory has there, and the access joins
/// its log and its lines. `AllocError` where memory runs out; nothing has changed then.
pub fn read<N: Naming>(state: &mut State<N>, task: TaskId, leg: &Leg<N>) -> Result<(), AllocError>
    requires asks { AsksToLoad state.old.view leg.now task.0 }
    ensures loads { OnOk result ((width : LoadWidth) (rd offset : ℕ)
        → OfTakerAsking state.old.view leg.now task.0 (Load width rd offset) (λ tile core t.
        HasOwnNotes state.old.view t → LoadsFrom task.0 t leg.now width rd offset state.old.view state.new.view)) }
    ensures err { OnErr result (state.new ≡ state.old) }
    ensures covered { CoversLog state.old task.0 → IsOk result }
    ensures effect { state.new.effect ≡ state.old.effect }
    ensures spare { state.new.spare ≡ record state.old.spare { log = state.new.spare.log } }
{
    let (width, rd, offset) = load_of(request_of_task(state, task, leg));
    load_at(state, task, leg, width, rd, offset)
}

/// Makes the store at which a task's leg stopped: its low bytes are written, and the access joins the task's log and
/// its lines. `AllocError` where memory runs out; nothing has changed then.
pub fn write<N: Naming>(state: &mut State<N>, task: TaskId, leg: &Leg<N>) -> Result<(), AllocError>
    requires asks { AsksToStore state.old.view leg.now task.0 }
    ensures stores { OnOk result ((offset width value : ℕ)
        → OfTakerAsking state.old.view leg.now task.0 (Store offset width value) (λ tile core t.
        HasOwnNotes state.old.view t → StoresTo task.0 t leg.now offset width value state.old.view state.new.view)) }
    ensures err { OnErr result (state.new ≡ state.old) }
    ensures covered { CoversLog state.old task.0 → IsOk result }
    ensures effect { state.new.effect ≡ state.old.effect }
    ensures spare { state.new.spare ≡ record state.old.spare { log = state.new.spare.log } }
{
    let (offset, width, value) = store_of(request_of_task(state, task, leg));
    store_at(state, task, leg, offset, width, value)
}

/// Enqueues the child that a task asks for at its leg's end: an idle task, which stands last in the task queue of
/// this tile, where a place is free. `AllocError` where memory runs out; nothing has changed then.
pub fn spawn<N: Naming>(
    state: &mut State<N>,
    task: TaskId,
    leg: &Leg<N>,
    tile: u32,
) -> Result<(), AllocError>
    requires asks { AsksForChild state.old.view leg.now task.0 }
    requires tile { tile < state.old.view.settings.tiles }
    requires free { QueueHasRoom state.old.view tile }
    ensures enqueues { OnOk result ((child : Spawn)
        → OfTakerAsking state.old.view leg.now task.0 (Enqueue child) (λ from core t.
        EnqueuesTold task.0 t leg.now child tile state.old.view state.new.view state.new.effect.arrived)) }
    ensures err { OnErr result (state.new ≡ state.old) }
    ensures covered { CoversChild state.old task.0 → IsOk result }
    ensures effect { state.new.effect ≡ record state.old.effect { arrived = state.new.effect.arrived } }
    ensures spare { state.new.spare ≡ record state.old.spare { spawns = state.new.spare.spawns } }
{
    let child = spawn_of(request_of_task(state, task, leg));
    enqueue_child(state, task, leg, child, tile)
}

/// Makes the subdomain that a task asks for at its leg's end.
pub fn make_sub<N: Naming>(state: &mut State<N>, task: TaskId, leg: &Leg<N>)
    requires asks { AsksForSubdomain state.old.view leg.now task.0 }
    ensures makes { (kind : Kind) → OfTakerAsking state.old.view leg.now task.0 (MakeSub kind) (λ tile core t.
        MakesSub task.0 t leg.now kind state.old.view state.new.view) }
    ensures effect { state.new.effect ≡ state.old.effect }
    ensures spare { state.new.spare ≡ state.old.spare }
{
    let kind = kind_of(request_of_task(state, task, leg));
    open_sub(state, task, leg, kind);
}

/// Emits the byte that a task asks to emit at its leg's end.
pub fn emit<N: Naming>(state: &mut State<N>, task: TaskId, leg: &Leg<N>)
    requires asks { AsksToEmit state.old.view leg.now task.0 }
    ensures emits { (byte : ℕ) → OfTakerAsking state.old.view leg.now task.0 (Emit byte) (λ tile core t.
        Emits task.0 t leg.now byte state.old.view state.new.view) }
    ensures effect { state.new.effect ≡ state.old.effect }
    ensures spare { state.new.spare ≡ state.old.spare }
{
    let byte = byte_of(request_of_task(state, task, leg));
    put_byte(state, task, leg, byte);
}

/// A task that did its quantum goes on from the end of its leg; one that trapped keeps its cause, and its core as it
/// was at the end of the leg.
pub fn keep<N: Naming>(state: &mut State<N>, task: TaskId, leg: &Leg<N>)
    requires asks { AsksForNothing state.old.view leg.now task.0 }
    ensures goes_on { OfTakerAsking state.old.view leg.now task.0 Continue (λ tile core t.
        KeepsQuantum task.0 t leg.now state.old.view state.new.view) }
    ensures traps { (cause : ℕ) → OfTakerAsking state.old.view leg.now task.0 (Trap cause) (λ tile core t.
        KeepsTrap task.0 t leg.now core cause state.old.view state.new.view) }
    ensures effect { state.new.effect ≡ state.old.effect }
    ensures spare { state.new.spare ≡ state.old.spare }
{
    match cause_of(request_of_task(state, task, leg)) {
        None => end_quantum(state, task, leg),
        Some(cause) => call_trap(state, task, leg, cause),
    }
}
