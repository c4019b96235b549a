//! Loads and stores. Each takes its memory first, so that nothing has changed where memory runs
//! out.

ghost use Rattle.std.specs.Prelude.{◌≡◌, IsOk, IsSome, OnOk, OnErr};
ghost use Rattle.task_request.specs.declared.request.Request.TheVariants.{Load, Store};
ghost use Rattle.spec_dispatch.specs.spec_state.View.{task_at};
ghost use Rattle.spec_dispatch.specs.spec_state.StateValue.{CoversLog};
ghost use Rattle.spec_dispatch.specs.spec_state.Changes.{LoadsFrom, StoresTo};
ghost use Rattle.spec_access.specs.Asking.{Asks, HasOwnNotes, OfTaker};

use crate::calling::put_behind;
use rv_core::{Leg, Naming, width_of_load};
use rv_table::{LoadWidth, Reg};
use spec_state::{State, TaskId};
use std::alloc::AllocError;
use undo_log::{load_with, store_with};

/// Sees to it that one access more of the task is spare. `AllocError` where memory runs out; nothing has changed then.
#[inline]
pub fn reserve_access<N: Naming>(state: &mut State<N>, id: TaskId) -> Result<(), AllocError>
    requires live { IsSome (task_at state.old.view id.0) }
    ensures view { state.new.view ≡ state.old.view }
    ensures effect { state.new.effect ≡ state.old.effect }
    ensures spare { state.new.spare ≡ record state.old.spare { log = state.new.spare.log } }
    ensures covers { OnOk result (CoversLog state.new id.0) }
    ensures enough { CoversLog state.old id.0 → IsOk result }
    ensures err { OnErr result (state.new ≡ state.old) }
{
    let made = state.tasks[id.0].log.accesses().len();
    state.buffers.log.reserve(made + 1)
}

/// A task loads from the data, where the access is spare: the register `rd` has what the memory has from `offset` on,
/// counted from the start of the data, and the access joins its log and its lines. It takes no memory.
#[inline]
pub fn load_reserved<N: Naming>(
    state: &mut State<N>,
    id: TaskId,
    leg: &Leg<N>,
    width: LoadWidth,
    rd: Reg,
    offset: u32,
)
    requires asks { Asks state.old.view leg.now id.0 (Load width rd offset) }
    requires covers { CoversLog state.old id.0 }
    ensures loads { OfTaker state.old.view leg.now id.0 (λ tile core task.
        HasOwnNotes state.old.view task
        → LoadsFrom id.0 task leg.now width rd offset state.old.view state.new.view) }
    ensures effect { state.new.effect ≡ state.old.effect }
    ensures spare { state.new.spare ≡ record state.old.spare { log = state.new.spare.log } }
{
    let _to = leg.to();
    let kind = state.settings.filter;
    let size = state.settings.line;
    let task = &mut state.tasks[id.0];
    let raw = load_with(
        &state.memory,
        &mut task.log,
        &mut state.buffers.log,
        offset,
        width_of_load(width),
    );
    task.lines.mark(kind, size, offset / size, false);
    leg.put_after_load(&mut task.core, width, rd, raw);
}

/// A task loads from the data: the register `rd` has what the memory has from `offset` on, counted
/// from the start of the data, as many bytes as the width says, and the access joins its log and
/// its lines. `AllocError` where memory runs out; nothing has changed then.
pub(crate) fn load_at<N: Naming>(
    state: &mut State<N>,
    id: TaskId,
    leg: &Leg<N>,
    width: LoadWidth,
    rd: Reg,
    offset: u32,
) -> Result<(), AllocError>
    requires asks { Asks state.old.view leg.now id.0 (Load width rd offset) }
    ensures loads { OnOk result (OfTaker state.old.view leg.now id.0 (λ tile core task.
        HasOwnNotes state.old.view task
        → LoadsFrom id.0 task leg.now width rd offset state.old.view state.new.view)) }
    ensures err { OnErr result (state.new ≡ state.old) }
    ensures covered { CoversLog state.old id.0 → IsOk result }
    ensures effect { state.new.effect ≡ state.old.effect }
    ensures spare { state.new.spare ≡ record state.old.spare { log = state.new.spare.log } }
{
    reserve_access(state, id)?;
    load_reserved(state, id, leg, width, rd, offset);
    Ok(())
}

/// A task stores to the data, where the access is spare: the low bytes of the value, 1, 2 or 4 of them, are written
/// from `offset` on, counted from the start of the data, and the access joins its log and its lines. It takes no
/// memory.
#[inline]
pub fn store_reserved<N: Naming>(
    state: &mut State<N>,
    id: TaskId,
    leg: &Leg<N>,
    offset: u32,
    width: u8,
    value: u32,
)
    requires asks { Asks state.old.view leg.now id.0 (Store offset width value) }
    requires covers { CoversLog state.old id.0 }
    ensures stores { OfTaker state.old.view leg.now id.0 (λ tile core task.
        HasOwnNotes state.old.view task
        → StoresTo id.0 task leg.now offset width value state.old.view state.new.view) }
    ensures effect { state.new.effect ≡ state.old.effect }
    ensures spare { state.new.spare ≡ record state.old.spare { log = state.new.spare.log } }
{
    let budget = state.settings.budget;
    let to = leg.to();
    let kind = state.settings.filter;
    let size = state.settings.line;
    let task = &mut state.tasks[id.0];
    store_with(
        &mut state.memory,
        &mut task.log,
        &mut state.buffers.log,
        offset,
        width,
        value,
    );
    task.lines.mark(kind, size, offset / size, true);
    put_behind(&mut task.core, budget, leg);
}

/// A task stores to the data: the low bytes of the value, 1, 2 or 4 of them, are written from
/// `offset` on, counted from the start of the data, and the access joins its log and its lines.
/// `AllocError` where memory runs out; nothing has changed then.
pub(crate) fn store_at<N: Naming>(
    state: &mut State<N>,
    id: TaskId,
    leg: &Leg<N>,
    offset: u32,
    width: u8,
    value: u32,
) -> Result<(), AllocError>
    requires asks { Asks state.old.view leg.now id.0 (Store offset width value) }
    ensures stores { OnOk result (OfTaker state.old.view leg.now id.0 (λ tile core task.
        HasOwnNotes state.old.view task
        → StoresTo id.0 task leg.now offset width value state.old.view state.new.view)) }
    ensures err { OnErr result (state.new ≡ state.old) }
    ensures covered { CoversLog state.old id.0 → IsOk result }
    ensures effect { state.new.effect ≡ state.old.effect }
    ensures spare { state.new.spare ≡ record state.old.spare { log = state.new.spare.log } }
{
    reserve_access(state, id)?;
    store_reserved(state, id, leg, offset, width, value);
    Ok(())
}
