//! The lines of the tasks of an image, where they were placed.

ghost use Rattle.std.specs.Prelude.{◌≡◌, ◌<◌, ◌++◌, OnOk, None, Some};
ghost use Rattle.std.specs.List.{flat_map};
ghost use Rattle.std.specs.String.{string_bytes};
ghost use Rattle.script_text.specs.spec_state.View.{block_at};
ghost use Rattle.watch_text.specs.Opening.{place_text, placed_desc, placed_front, placed_line, placed_lines};
ghost use Rattle.watch_text.specs.Opening.{placed_rest, placed_task, queued_line, spilled_line, tile_lines};

use crate::change::{name_creator, name_index};
use crate::fields::{put_name, put_some, put_start};
use crate::spec_state::{State, Task, TaskId};
use rv_core::Naming;
use std::alloc::AllocError;
use std::fmt::Write;
use task_desc::Desc;

/// What is printed of a task that was placed, beside its tile and its id.
#[derive(Clone, Copy)]
struct Placed {
    creator: u64,
    index: u32,
    entry: u32,
    ts: u32,
    args: [u32; 3],
    hint: u32,
}

/// That a task was placed in a tile.
#[tactic(auto, unfolding(crate::specs::Opening::place_text))]
fn put_place(line: &mut String, tile: u32) -> Result<(), AllocError>
    ensures { OnOk result (string_bytes line.new ≡ string_bytes line.old ++ place_text tile) }
{
    write!(line, "{{\"at\":0,\"do\":\"place\",\"tile\":{tile}")
}

/// Where a task was placed: its tile, and its id unless it was spilled.
#[tactic(auto, unfolding(crate::specs::Opening::placed_front))]
fn put_where(line: &mut String, tile: u32, id: Option<u64>) -> Result<(), AllocError>
    ensures { OnOk result (string_bytes line.new ≡ string_bytes line.old ++ placed_front tile id) }
{
    put_place(line, tile)?;
    put_some(line, "new", id)
}

/// And what it is.
#[tactic(auto, unfolding(crate::specs::Opening::placed_rest))]
fn put_what(line: &mut String, placed: &Placed) -> Result<(), AllocError>
    ensures { OnOk result (string_bytes line.new ≡ string_bytes line.old ++ placed_rest placed.now) }
{
    put_name(line, placed.creator, placed.index)?;
    put_start(line, placed.entry, placed.ts, &placed.args, placed.hint)?;
    write!(line, "}}\n")
}

/// What is printed of a task in a queue, which the image has made.
fn placed_task(task: &Task) -> Placed
    ensures { result ≡ placed_task task.now }
{
    Placed {
        creator: name_creator(task.creator, 0),
        index: name_index(task.creator),
        entry: task.entry,
        ts: task.key.ts,
        args: task.args,
        hint: task.hint,
    }
}

/// And of one in a block.
fn placed_desc(desc: &Desc) -> Placed
    ensures { result ≡ placed_desc desc.now }
{
    Placed {
        creator: u64::from(desc.name.creator),
        index: desc.name.index,
        entry: desc.entry,
        ts: desc.ts,
        args: desc.args,
        hint: desc.hint,
    }
}

fn put_one(line: &mut String, tile: u32, id: Option<u64>, placed: &Placed) -> Result<(), AllocError>
    ensures { OnOk result (string_bytes line.new ≡ string_bytes line.old ++ placed_line tile id placed.now) }
{
    put_where(line, tile, id)?;
    put_what(line, placed)
}

/// A task in the task queue of a tile.
fn put_queued<N: Naming>(
    line: &mut String,
    state: &State<N>,
    tile: u32,
    id: usize,
) -> Result<(), AllocError>
    ensures { OnOk result (string_bytes line.new ≡ string_bytes line.old ++ queued_line state.now.view tile id) }
{
    match state.find(TaskId(id)) {
        None => Ok(()),
        Some(task) => put_one(line, tile, Some(id as u64), &placed_task(task)),
    }
}

/// The tasks of these ids, in the task queue of a tile.
fn put_queue<N: Naming>(
    line: &mut String,
    state: &State<N>,
    tile: u32,
    ids: &[usize],
) -> Result<(), AllocError>
    ensures { OnOk result (string_bytes line.new ≡ string_bytes line.old
        ++ flat_map (queued_line state.now.view tile) ids.now) }
{
    for id in ids {
        put_queued(line, state, tile, *id)?;
    }
    Ok(())
}

/// The tasks in the block of a tile.
fn put_block<N: Naming>(line: &mut String, state: &State<N>, tile: u32) -> Result<(), AllocError>
    requires { tile < state.now.view.settings.tiles }
    ensures { OnOk result (string_bytes line.new ≡ string_bytes line.old
        ++ flat_map (spilled_line tile) (block_at state.now.view tile)) }
{
    for place in 0..state.block_len(tile) {
        let desc = state.spilled_at(tile, place);
        put_one(line, tile, None, &placed_desc(&desc))?;
    }
    Ok(())
}

/// The tasks of a tile.
fn put_tile<N: Naming>(line: &mut String, state: &State<N>, tile: u32) -> Result<(), AllocError>
    requires { tile < state.now.view.settings.tiles }
    ensures { OnOk result (string_bytes line.new ≡ string_bytes line.old ++ tile_lines state.now.view tile) }
{
    put_queue(line, state, tile, state.queued_in(tile))?;
    put_block(line, state, tile)
}

/// The lines of all tasks, by tile: those in its task queue, and then those in its block.
#[tactic(auto, using(crate::proofs::Ranged::flat_step), unfolding(crate::specs::Opening::placed_lines))]
pub fn put_placed<N: Naming>(line: &mut String, state: &State<N>) -> Result<(), AllocError>
    ensures { OnOk result (string_bytes line.new ≡ string_bytes line.old ++ placed_lines state.now.view) }
{
    for tile in 0..state.settings().tiles {
        put_tile(line, state, tile)?;
    }
    Ok(())
}
