//! The dispatch of a given task, or of the one that it finds.

ghost use Rattle.std.specs.Prelude.{◌≡◌, ◌<◌, ◌≤◌, ℕ};
ghost use Rattle.spec_state.specs.declared.numbers.TheConstants.{DISPATCH_NUMBERS};
ghost use Rattle.spec_state.specs.declared.task.Task.{Task};
ghost use Rattle.spec_state.specs.Numbers.{FreesNumber};
ghost use Rattle.spec_state.specs.Queries.{IsIdle, IsLeastIdle, IsFreeCore};
ghost use Rattle.spec_dispatch.specs.Numbered.{AreNumbersHeld, NumbersAndDispatches};

use crate::cores::free_core;
use crate::placing::place;
use crate::renumbering::renumber;
use rv_core::Naming;
use spec_state::{DISPATCH_NUMBERS, State, TaskId};

/// Renumbers the dispatch numbers in use where none is left to be given.
fn free_number<N: Naming>(state: &mut State<N>)
    requires held { DISPATCH_NUMBERS ≤ state.old.view.next → AreNumbersHeld state.old.view }
    ensures frees { FreesNumber state.old.view state.new.view }
    ensures left { state.new.view.next < DISPATCH_NUMBERS }
    ensures effect { state.new.effect ≡ state.old.effect }
    ensures spare { state.new.spare ≡ state.old.spare }
{
    if state.next >= DISPATCH_NUMBERS {
        renumber(state);
    }
}

/// Puts a task, which is the least idle one of its tile, on the tile's lowest free core with the next dispatch
/// number. Where all numbers are given, those in use are renumbered first: each is one of the path or of a
/// dispatched task. No memory.
pub fn dispatch_task<N: Naming>(state: &mut State<N>, tile: u32, id: TaskId)
    requires tile { tile < state.old.view.settings.tiles }
    requires idle { (task : Task) × IsLeastIdle state.old.view tile id.0 task }
    requires free { (core : ℕ) × IsFreeCore state.old.view tile core }
    requires held { DISPATCH_NUMBERS ≤ state.old.view.next → AreNumbersHeld state.old.view }
    ensures dispatch { NumbersAndDispatches tile state.old.view state.new.view }
    ensures effect { state.new.effect ≡ state.old.effect }
    ensures spare { state.new.spare ≡ state.old.spare }
{
    free_number(state);
    match free_core(state, tile) {
        Some(core) => place(state, tile, id, core),
        None => unreachable!(),
    }
}

/// Puts the least idle task of a tile on its lowest free core with the next dispatch number. Where all numbers are
/// given, those in use are renumbered first: each is one of the path or of a dispatched task, as in each sound state.
/// It looks at each task of the queue. No memory.
pub fn dispatch<N: Naming>(state: &mut State<N>, tile: u32)
    requires tile { tile < state.old.view.settings.tiles }
    requires idle { (id : ℕ) × (task : Task) × IsIdle state.old.view tile id task }
    requires free { (core : ℕ) × IsFreeCore state.old.view tile core }
    requires held { DISPATCH_NUMBERS ≤ state.old.view.next → AreNumbersHeld state.old.view }
    ensures dispatch { NumbersAndDispatches tile state.old.view state.new.view }
    ensures effect { state.new.effect ≡ state.old.effect }
    ensures spare { state.new.spare ≡ state.old.spare }
{
    match state.idle(tile) {
        Some(id) => dispatch_task(state, tile, id),
        None => unreachable!(),
    }
}
