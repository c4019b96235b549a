//! Idle tasks that move into the block of their tile.

ghost use Rattle.std.specs.Prelude.{◌≡◌, ◌≢◌, ◌<◌, ◌≤◌, ◌+◌, ◌^◌, [], ℕ, length, map, IsOk, IfOk, OnOk, OnErr};
ghost use Rattle.std.specs.Prelude.{IsSome, IfSome, slice_index_or, slice_set};
ghost use Rattle.task_desc.specs.declared.calls.TheConstants.{MAX_DEPTH};
ghost use Rattle.task_desc.specs.Record.{IsDesc};
ghost use Rattle.spill_store.specs.SpilledTasks.{after_push};
ghost use Rattle.spec_state.specs.declared.reserving.TheConstants.{MAX_MOVED};
ghost use Rattle.spec_state.specs.View.{task_at, block_at};
ghost use Rattle.spec_state.specs.StateValue.{CoversPushes};
ghost use Rattle.spec_state.specs.Tasks.{depth_of, descriptor_of, spilled_as};
ghost use Rattle.spec_state.specs.Fronts.{name_given};
ghost use Rattle.spec_state.specs.Room.{IsMovable, AreChosen, Coalesces};
ghost use Rattle.spec_state.specs.Told.{told_spilled};
ghost use Rattle.spec_commit.specs.Spilling.{IsIdleTask, Spills, KeepsOtherSpare};

use crate::choosing::chosen_tasks;
use crate::telling::tell_spilled;
use rv_core::Naming;
use spec_state::{MAX_MOVED, State, Task, TaskId, name_given};
use std::alloc::AllocError;
use task_desc::Desc;

/// The descriptor that a task is spilled with, where so many tasks have committed: at most 1,000,000.
fn spilled_desc(task: &Task, count: u32) -> Desc
    requires count { count ≤ 1000000 }
    requires depth { depth_of task.now ≤ MAX_DEPTH }
    requires kinds { task.now.kinds < 2 ^ depth_of task.now }
    ensures value { result ≡ (spilled_as (name_given task.now.creator count) (descriptor_of task.now)).desc }
    ensures fits { IsDesc result }
{
    Desc {
        name: name_given(task.creator, count),
        entry: task.entry,
        ts: task.key.ts,
        args: task.args,
        hint: task.hint,
        depth: task.key.domain.levels().len() as u8 + 1,
        kinds: task.kinds,
    }
}

/// Makes as many pushes into the block of a tile spare as move at once. `AllocError` where memory runs out;
/// the view stays in any case.
fn reserve_pushes<N: Naming>(state: &mut State<N>, tile: u32) -> Result<(), AllocError>
    requires tile { tile < state.old.view.settings.tiles }
    ensures view { state.new.view ≡ state.old.view }
    ensures covers { OnOk result (CoversPushes state.new tile MAX_MOVED) }
    ensures enough { CoversPushes state.old tile MAX_MOVED → IsOk result }
    ensures err { OnErr result (state.new ≡ state.old) }
    ensures effect { state.new.effect ≡ state.old.effect }
    ensures others { KeepsOtherSpare tile state.old.spare state.new.spare }
{
    state.blocks.reserve(tile, MAX_MOVED)
}

/// Adds a task to the block of a tile, which has a push to spare. It stays where it is.
fn push_spilled<N: Naming>(state: &mut State<N>, tile: u32, id: TaskId, desc: &Desc)
    requires tile { tile < state.old.view.settings.tiles }
    requires live { IsSome (task_at state.old.view id.0) }
    requires spare { CoversPushes state.old tile 1 }
    requires desc { IsDesc desc.now }
    requires domain { IfSome (task_at state.old.view id.0)
        (λ task. length task.key.domain + 1 ≡ desc.now.depth) }
    ensures view { IfSome (task_at state.old.view id.0)
        (λ task. state.new.view ≡ record state.old.view {
          blocks = slice_set state.old.view.blocks tile
              (after_push (block_at state.old.view tile)
              (record { desc = desc.now; domain = task.key.domain }));
        }) }
    ensures spare { slice_index_or state.old.spare.blocks tile 0
        ≤ slice_index_or state.new.spare.blocks tile 0 + 1 }
    ensures effect { state.new.effect ≡ state.old.effect }
    ensures others { KeepsOtherSpare tile state.old.spare state.new.spare }
{
    let task = &state.tasks[id.0];
    state.blocks.push(tile, desc, &task.key.domain);
}

/// Moves an idle task into the block of a tile, which has a push to spare.
fn spill<N: Naming>(state: &mut State<N>, tile: u32, id: TaskId)
    requires tile { tile < state.old.view.settings.tiles }
    requires idle { IsIdleTask state.old.view id.0 }
    requires spare { CoversPushes state.old tile 1 }
    ensures spills { Spills tile id.0 state.old.view state.new.view }
    ensures spare { slice_index_or state.old.spare.blocks tile 0 ≤ slice_index_or state.new.spare.blocks tile 0 + 1 }
    ensures effect { state.new.effect ≡ state.old.effect }
    ensures others { KeepsOtherSpare tile state.old.spare state.new.spare }
{
    state.is_stored();
    let count = state.history.count();
    let desc = spilled_desc(state.task(id), count);
    push_spilled(state, tile, id, &desc);
    state.is_stored();
    state.take_out(id);
}

/// Moves the chosen tasks into the block of their tile, one after another, the least of them first.
fn spill_all<N: Naming>(state: &mut State<N>, tile: u32, ids: &[usize])
    requires tile { tile < state.old.view.settings.tiles }
    requires chosen { AreChosen state.old.view tile ids.now }
    requires some { ids.now ≢ [] }
    requires spare { CoversPushes state.old tile MAX_MOVED }
    ensures coalesces { (c : Coalesces tile state.old.view state.new.view) × (c.ids ≡ ids.now) }
    ensures effect { state.new.effect ≡ state.old.effect }
    ensures others { KeepsOtherSpare tile state.old.spare state.new.spare }
{
    state.is_stored();
    for id in ids {
        spill(state, tile, TaskId(*id));
    }
}

/// Moves the latest idle firm tasks of a tile, which has one, into its block: at most eight, the least of them
/// first. Their number, or `AllocError` where memory runs out, and then nothing has moved.
pub fn coalesce<N: Naming>(state: &mut State<N>, tile: u32) -> Result<u32, AllocError>
    requires tile { tile < state.old.view.settings.tiles }
    requires some { (id : ℕ) × IsMovable state.old.view tile id }
    ensures ok { IfOk result (λ n. (moved : Coalesces tile state.old.view state.new.view)
        × (n ≡ length moved.ids)
        × (state.new.effect ≡ record state.old.effect { spilled = map (told_spilled state.old.view) moved.ids })) }
    ensures err { OnErr result (state.new ≡ state.old) }
    ensures covered { CoversPushes state.old tile MAX_MOVED → IsOk result }
    ensures others { KeepsOtherSpare tile state.old.spare state.new.spare }
{
    reserve_pushes(state, tile)?;
    let ids = chosen_tasks(state, tile);
    tell_spilled(state, ids.as_slice());
    spill_all(state, tile, ids.as_slice());
    Ok(ids.len() as u32)
}
