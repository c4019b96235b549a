//! The line of a whole view.

ghost use Rattle.std.specs.Prelude.{◌≡◌, ◌<◌, ◌++◌, OnOk};
ghost use Rattle.std.specs.List.{range_with_len};
ghost use Rattle.std.specs.String.{string_bytes};
ghost use Rattle.watch_text.specs.Fields.{items_text, more_items};
ghost use Rattle.watch_text.specs.Views.{block_text, finished_text, held_text, or_null, queued_text, tile_text};
ghost use Rattle.watch_text.specs.Views.{view_line, waiting_text, working_text};

use crate::fields::put_comma;
use crate::items::put_items;
use crate::spec_state::{State, TaskId};
use crate::words::status_word;
use rv_core::Naming;
use std::alloc::AllocError;
use std::fmt::Write;

/// A number, or that there is none.
fn put_or_null(line: &mut String, number: Option<u64>) -> Result<(), AllocError>
    ensures { OnOk result (string_bytes line.new ≡ string_bytes line.old ++ or_null number) }
{
    match number {
        None => write!(line, "null"),
        Some(number) => write!(line, "{number}"),
    }
}

/// A task in a task queue: its id, how far it has come, its timestamp and its dispatch number.
fn put_queued<N: Naming>(line: &mut String, state: &State<N>, id: usize) -> Result<(), AllocError>
    ensures { OnOk result (string_bytes line.new ≡ string_bytes line.old ++ queued_text state.now.view id) }
{
    match state.find(TaskId(id)) {
        None => write!(line, "[{id}]"),
        Some(task) => {
            let (word, ts) = (status_word(task.status), task.key.ts);
            write!(line, "[{id},\"{word}\",{ts},")?;
            put_or_null(line, task.key.tb)?;
            write!(line, "]")
        }
    }
}

fn put_more_queued<N: Naming>(
    line: &mut String,
    state: &State<N>,
    ids: &[usize],
) -> Result<(), AllocError>
    ensures { OnOk result (string_bytes line.new ≡ string_bytes line.old
        ++ more_items (queued_text state.now.view) ids.now) }
{
    for id in ids {
        write!(line, ",")?;
        put_queued(line, state, *id)?;
    }
    Ok(())
}

/// The tasks of a task queue.
fn put_queue<N: Naming>(
    line: &mut String,
    state: &State<N>,
    ids: &[usize],
) -> Result<(), AllocError>
    ensures { OnOk result (string_bytes line.new ≡ string_bytes line.old
        ++ items_text (queued_text state.now.view) ids.now) }
{
    let Some((first, rest)) = ids.split_first() else {
        return Ok(());
    };
    put_queued(line, state, *first)?;
    put_more_queued(line, state, rest)
}

/// What a core of a tile holds.
fn put_held<N: Naming>(
    line: &mut String,
    state: &State<N>,
    tile: u32,
    core: u32,
) -> Result<(), AllocError>
    requires tile { tile < state.now.view.settings.tiles }
    requires core { core < state.now.view.settings.cores }
    ensures { OnOk result (string_bytes line.new ≡ string_bytes line.old ++ held_text state.now.view tile core) }
{
    match state.on_core(tile, core) {
        None => put_or_null(line, None),
        Some(id) => put_or_null(line, Some(id.0 as u64)),
    }
}

/// What the cores of a tile hold.
#[tactic(auto, using(crate::proofs::Ranged::items_step))]
fn put_cores<N: Naming>(line: &mut String, state: &State<N>, tile: u32) -> Result<(), AllocError>
    requires { tile < state.now.view.settings.tiles }
    ensures { OnOk result (string_bytes line.new ≡ string_bytes line.old
        ++ items_text (held_text state.now.view tile) (range_with_len 0 state.now.view.settings.cores)) }
{
    for core in 0..state.settings().cores {
        put_comma(line, core)?;
        put_held(line, state, tile, core)?;
    }
    Ok(())
}

/// A tile: its task queue, the ids on its cores and in its commit queue, and how many tasks its block has.
fn put_tile<N: Naming>(line: &mut String, state: &State<N>, tile: u32) -> Result<(), AllocError>
    requires { tile < state.now.view.settings.tiles }
    ensures { OnOk result (string_bytes line.new ≡ string_bytes line.old ++ tile_text state.now.view tile) }
{
    put_waiting(line, state, tile)?;
    put_working(line, state, tile)
}

fn put_waiting<N: Naming>(line: &mut String, state: &State<N>, tile: u32) -> Result<(), AllocError>
    requires { tile < state.now.view.settings.tiles }
    ensures { OnOk result (string_bytes line.new ≡ string_bytes line.old ++ waiting_text state.now.view tile) }
{
    write!(line, "{{\"queue\":[")?;
    put_queue(line, state, state.queued_in(tile))?;
    write!(line, "],\"cores\":[")
}

fn put_working<N: Naming>(line: &mut String, state: &State<N>, tile: u32) -> Result<(), AllocError>
    requires { tile < state.now.view.settings.tiles }
    ensures { OnOk result (string_bytes line.new ≡ string_bytes line.old ++ working_text state.now.view tile) }
{
    put_cores(line, state, tile)?;
    put_finished(line, state, tile)?;
    put_block(line, state, tile)
}

/// The ids in the commit queue of a tile.
#[tactic(auto, unfolding(crate::specs::Views::finished_text))]
fn put_finished<N: Naming>(line: &mut String, state: &State<N>, tile: u32) -> Result<(), AllocError>
    requires { tile < state.now.view.settings.tiles }
    ensures { OnOk result (string_bytes line.new ≡ string_bytes line.old ++ finished_text state.now.view tile) }
{
    write!(line, "],\"finished\":[")?;
    put_items(line, state.finished_in(tile))
}

/// How many tasks the block of a tile has.
#[tactic(auto, unfolding(crate::specs::Views::block_text))]
fn put_block<N: Naming>(line: &mut String, state: &State<N>, tile: u32) -> Result<(), AllocError>
    requires { tile < state.now.view.settings.tiles }
    ensures { OnOk result (string_bytes line.new ≡ string_bytes line.old ++ block_text state.now.view tile) }
{
    let spilled = state.block_len(tile);
    write!(line, "],\"block\":{spilled}}}")
}

/// The line of a view: how many events were made, the next dispatch number, and the tiles.
#[tactic(auto, unfolding(crate::specs::Views::view_line))]
pub fn put_view<N: Naming>(
    line: &mut String,
    state: &State<N>,
    events: u64,
) -> Result<(), AllocError>
    ensures { OnOk result (string_bytes line.new ≡ string_bytes line.old ++ view_line state.now.view events) }
{
    let next = state.next_number();
    write!(line, "{{\"view\":{events},\"next\":{next},\"tiles\":[")?;
    put_tiles(line, state)?;
    write!(line, "]}}\n")
}

/// All tiles.
#[tactic(auto, using(crate::proofs::Ranged::items_step))]
fn put_tiles<N: Naming>(line: &mut String, state: &State<N>) -> Result<(), AllocError>
    ensures { OnOk result (string_bytes line.new ≡ string_bytes line.old
        ++ items_text (tile_text state.now.view) (range_with_len 0 state.now.view.settings.tiles)) }
{
    for tile in 0..state.settings().tiles {
        put_comma(line, tile)?;
        put_tile(line, state, tile)?;
    }
    Ok(())
}
