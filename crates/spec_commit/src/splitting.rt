//! A spilled task that comes back.

ghost use Rattle.std.specs.Prelude.{◌≡◌, ◌≢◌, ◌<◌, ◌≤◌, ◌+◌, [], ℕ, length, IsOk, IsSome, OnOk, OnErr};
ghost use Rattle.std.specs.Prelude.{Contains, Some, option_map, slice_set};
ghost use Rattle.task_desc.specs.Record.{IsDesc};
ghost use Rattle.spill_store.specs.SpilledTasks.{Spilled, TakesLeast};
ghost use Rattle.spec_state.specs.declared.task.Creator.{Creator};
ghost use Rattle.spec_state.specs.declared.task.Creator.TheVariants.{Committed};
ghost use Rattle.spec_state.specs.View.{block_at};
ghost use Rattle.spec_state.specs.StateValue.{HasNoLessSpare};
ghost use Rattle.spec_state.specs.Tasks.{idle_task, spilled_descriptor};
ghost use Rattle.spec_state.specs.Least.{HasName};
ghost use Rattle.spec_state.specs.Fronts.{IsFirmBy, name_given};
ghost use Rattle.spec_state.specs.Room.{QueueHasRoom, Splits};
ghost use Rattle.spec_commit.specs.Spilling.{KeepsOtherSpare};

use fractal_vt::Vt;
use rv_core::Naming;
use spec_state::{Creator, Fresh, State, TaskId};
use std::alloc::AllocError;
use task_desc::{Desc, Name};

/// The creator that gives this name, where `count` tasks have committed: the image, one of these tasks, or the
/// dispatched least task.
fn creator_named(name: Name, count: u32, heir: Option<TaskId>) -> Creator
    requires heir { count < name.creator → IsSome heir × (name.creator ≡ count + 1) }
    ensures name { name_given result count ≡ name }
    ensures firm { IsFirmBy (option_map (λ id. id.0) heir) result }
    ensures turn { (turn index : ℕ) → result ≡ Committed turn index → turn ≤ count }
{
    match heir {
        Some(task) if count < name.creator => Creator::Live {
            task,
            index: name.index,
        },
        _ => Creator::Committed {
            turn: name.creator,
            index: name.index,
        },
    }
}

/// The idle task that a spilled one becomes, in a tile.
fn idle_spilled(version: u16, desc: &Desc, domain: Vt, creator: Creator, tile: u32) -> Fresh
    ensures { let s : Spilled = record { desc = desc.now; domain = domain } in
        result ≡ idle_task version (spilled_descriptor s) creator tile }
{
    Fresh {
        version,
        entry: desc.entry,
        args: desc.args,
        hint: desc.hint,
        kinds: desc.kinds,
        domain,
        ts: desc.ts,
        creator,
        tile,
    }
}

/// Takes the least task out of the block of a tile, which has one.
fn take_spilled<N: Naming>(state: &mut State<N>, tile: u32) -> (Desc, Vt)
    requires tile { tile < state.old.view.settings.tiles }
    requires some { block_at state.old.view tile ≢ [] }
    ensures taken { TakesLeast (block_at state.old.view tile) (block_at state.new.view tile)
        (record { desc = result.0; domain = result.1 }) }
    ensures fits { IsDesc result.0 × (length result.1 + 1 ≡ result.0.depth) }
    ensures rest { state.new.view ≡ record state.old.view {
      blocks = slice_set state.old.view.blocks tile (block_at state.new.view tile);
    } }
    ensures effect { state.new.effect ≡ state.old.effect }
    ensures others { KeepsOtherSpare tile state.old.spare state.new.spare }
    ensures stays { HasNoLessSpare state.old.spare state.new.spare }
{
    match state.blocks.take_least(tile) {
        Some(taken) => taken,
        None => unreachable!(),
    }
}

/// Brings the least task of a tile's block back, idle, as the last one of its task queue, which has a free place.
/// It takes no memory, and never answers `AllocError`.
pub fn split<N: Naming>(state: &mut State<N>, tile: u32) -> Result<(), AllocError>
    requires tile { tile < state.old.view.settings.tiles }
    requires some { block_at state.old.view tile ≢ [] }
    requires free { QueueHasRoom state.old.view tile }
    requires named { (s : Spilled) → Contains (block_at state.old.view tile) s
        → (creator : Creator) × HasName state.old.view creator s.desc.name }
    ensures ok { OnOk result ((s : Splits tile state.old.view state.new.view)
        × (state.new.effect ≡ record state.old.effect { arrived = Some (record { 0 = s.id }) })) }
    ensures err { OnErr result (state.new ≡ state.old) }
    ensures covered { IsOk result }
    ensures others { KeepsOtherSpare tile state.old.spare state.new.spare }
    ensures stays { HasNoLessSpare state.old.spare state.new.spare }
{
    let heir = state.heir();
    let (desc, domain) = take_spilled(state, tile);
    let creator = creator_named(desc.name, state.history.count(), heir);
    state.put(&idle_spilled(state.version, &desc, domain, creator, tile));
    Ok(())
}
