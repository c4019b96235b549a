//! Loads and stores: what conflicts with the access is aborted, and then it is made.

ghost use Rattle.std.specs.Prelude.{◌≡◌, ◌/◌};
ghost use Rattle.task_request.specs.declared.request.Request.TheVariants.{Load, Store};
ghost use Rattle.event_prelude.specs.spec_state.Effects.{nothing};
ghost use Rattle.event_prelude.specs.spec_state.StateValue.{CoversLog};
ghost use Rattle.spec_access.specs.Asking.{Asks, HasTaker, OfTaker};
ghost use Rattle.event_prelude.specs.spec_law.Sound.{Sound};
ghost use Rattle.event_prelude.specs.event_def.End.{IsOver};
ghost use Rattle.event_prelude.specs.event_basis.Forcing.{TakesStill};
ghost use Rattle.event_step.specs.Accessing.{TakesTelling, LoadsTelling, StoresTelling};
ghost use Rattle.event_step.specs.Coming.{QuietlyComes};

use crate::event_def::{Came, Reply};
use crate::recording::record_of;
use crate::spec_rollback::abort_conflicts;
use crate::spec_state::{State, TaskId};
use rv_core::{Leg, Naming};
use rv_table::{LoadWidth, Reg};
use spec_access::{load_reserved, reserve_access, store_reserved};
use trace_tap::Deed;

/// The line of an offset in the data.
fn line_of<N: Naming>(state: &State<N>, offset: u32) -> u32
    requires sound { Sound N.image state.now.view }
    ensures { result ≡ offset / state.now.view.settings.line }
{
    offset / state.settings().line
}

/// Aborts what conflicts with an access to this line of a task that takes a leg. It returns how many tasks it aborted;
/// the state reports which. The task stays as it was.
fn clear<N: Naming>(
    state: &mut State<N>,
    id: TaskId,
    leg: &Leg<N>,
    offset: u32,
    line: u32,
    write: bool,
) -> u32
    requires sound { Sound N.image state.old.view }
    requires line { line ≡ offset / state.old.view.settings.line }
    requires takes { HasTaker state.old.view leg.now id.0 }
    ensures conflicts { OfTaker state.old.view leg.now id.0 (λ tile core task.
        TakesTelling task offset write state.old.view result state.new.view state.new.effect) }
    ensures stays { OfTaker state.old.view leg.now id.0 (λ tile core task.
        TakesStill N.image tile core leg.now id.0 task state.old.view state.new.view) }
    ensures spare { state.new.spare ≡ state.old.spare }
{
    abort_conflicts(state, id, line, write)
}

/// Makes a load from this line, for which the log has memory. It returns how many tasks were aborted for it; the state
/// reports which.
fn load_covered<N: Naming>(
    state: &mut State<N>,
    id: TaskId,
    leg: &Leg<N>,
    width: LoadWidth,
    rd: Reg,
    offset: u32,
    line: u32,
) -> u32
    requires sound { Sound N.image state.old.view }
    requires line { line ≡ offset / state.old.view.settings.line }
    requires asks { Asks state.old.view leg.now id.0 (Load width rd offset) }
    requires covered { CoversLog state.old id.0 }
    ensures { let old = state.old.view in OfTaker old leg.now id.0 (λ tile core task.
        LoadsTelling tile core leg.now id.0 task width rd offset old result state.new.view state.new.effect) }
{
    let aborted = clear(state, id, leg, offset, line, false);
    load_reserved(state, id, leg, width, rd, offset);
    aborted
}

/// A task loads from the data, at an offset from its start. `Memory` where memory runs out.
pub(crate) fn load<N: Naming>(
    state: &mut State<N>,
    tile: u32,
    id: TaskId,
    leg: &Leg<N>,
    width: LoadWidth,
    rd: Reg,
    offset: u32,
) -> Came
    requires sound { Sound N.image state.old.view }
    requires goes_on { IsOver state.old.view → ⊥ }
    requires fresh { state.old.effect ≡ nothing }
    requires asks { Asks state.old.view leg.now id.0 (Load width rd offset) }
    ensures { QuietlyComes N tile leg.now id.0 state.old.view result state.new.view state.new.effect }
{
    if reserve_access(state, id).is_err() {
        return Came::Refused(Reply::Memory);
    }
    let line = line_of(state, offset);
    let aborted = load_covered(state, id, leg, width, rd, offset, line);
    Came::Made(record_of(state, Deed::Access, tile, Some(line), aborted))
}

/// Makes a store to this line, for which the log has memory. It returns how many tasks were aborted for it; the state
/// reports which.
fn store_covered<N: Naming>(
    state: &mut State<N>,
    id: TaskId,
    leg: &Leg<N>,
    offset: u32,
    line: u32,
    width: u8,
    value: u32,
) -> u32
    requires sound { Sound N.image state.old.view }
    requires line { line ≡ offset / state.old.view.settings.line }
    requires asks { Asks state.old.view leg.now id.0 (Store offset width value) }
    requires covered { CoversLog state.old id.0 }
    ensures { let old = state.old.view in OfTaker old leg.now id.0 (λ tile core task.
        StoresTelling tile core leg.now id.0 task offset width value old result state.new.view state.new.effect) }
{
    let aborted = clear(state, id, leg, offset, line, true);
    store_reserved(state, id, leg, offset, width, value);
    aborted
}

/// A task stores the low bytes of a value, 1, 2 or 4 of them, at an offset from the start of the
/// data. `Memory` where memory runs out.
pub(crate) fn store<N: Naming>(
    state: &mut State<N>,
    tile: u32,
    id: TaskId,
    leg: &Leg<N>,
    offset: u32,
    width: u8,
    value: u32,
) -> Came
    requires sound { Sound N.image state.old.view }
    requires goes_on { IsOver state.old.view → ⊥ }
    requires fresh { state.old.effect ≡ nothing }
    requires asks { Asks state.old.view leg.now id.0 (Store offset width value) }
    ensures { QuietlyComes N tile leg.now id.0 state.old.view result state.new.view state.new.effect }
{
    if reserve_access(state, id).is_err() {
        return Came::Refused(Reply::Memory);
    }
    let line = line_of(state, offset);
    let aborted = store_covered(state, id, leg, offset, line, width, value);
    Came::Made(record_of(state, Deed::Access, tile, Some(line), aborted))
}
