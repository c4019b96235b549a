//! The acts of a round, in their order, and which of them are asked for.

ghost use Rattle.std.specs.Prelude.{◌≡◌, ◌↔◌, ◌<◌, ◌^◌, ◌++◌, IfOk, IsPermutation, IsTrue};
ghost use Rattle.std.specs.Prelude.{OnOk, length, map, replicate};
ghost use Rattle.std.specs.List.{flat_map, range_with_len};
ghost use Rattle.watch_counts.specs.conflict_book.BookViews.{machine_view};
ghost use Rattle.watch_counts.specs.spec_state.Least.{IsLeast};
ghost use Rattle.watch_counts.specs.spec_state.View.{View};
ghost use Rattle.watch_counts.specs.step_script.Ranges.{ActIsInRange};
ghost use Rattle.watch_counts.specs.event_def.End.{IsOver};
ghost use Rattle.watch_play.specs.Courses.{IsAskedInRound, next_draw, next_order, round_acts, shuffled};
ghost use Rattle.watch_play.specs.Courses.{tile_acts};

use crate::conflict_book::Book;
use crate::event_move::{has_idle, least_in};
use crate::event_prelude::{least_going, may_return};
use crate::spec_dispatch::free_core;
use crate::spec_state::{Settings, State, Where};
use crate::step_script::Act;
use place_policy::Placer;
use rv_core::Naming;
use std::alloc::{AllocError, Global};
use trace_tap::Tap;

/// Adds what a tile does at the front of a round: it dispatches, and each of its cores makes a step.
#[tactic(auto, using(crate::proofs::Rounds::tile_step))]
fn push_tile(acts: &mut Vec<Act>, tile: u32, cores: u32) -> Result<(), AllocError>
    ensures { OnOk result (acts.new.items ≡ acts.old.items ++ tile_acts cores tile) }
{
    acts.push(Act::Dispatch(tile))?;
    for core in 0..cores {
        acts.push(Act::Step(tile, core))?;
    }
    Ok(())
}

/// Adds what each tile does at the front of a round: it dispatches, and its cores make steps.
#[tactic(auto, using(crate::proofs::Rounds::tiles_step))]
fn push_tiles(acts: &mut Vec<Act>, settings: &Settings) -> Result<(), AllocError>
    ensures { let tiles = range_with_len 0 settings.now.tiles in
        OnOk result (acts.new.items ≡ acts.old.items ++ flat_map (tile_acts settings.now.cores) tiles) }
{
    for tile in 0..settings.tiles {
        push_tile(acts, tile, settings.cores)?;
    }
    Ok(())
}

/// Adds a commit for each tile.
#[tactic(auto, using(crate::proofs::Rounds::commits_step))]
fn push_commits(acts: &mut Vec<Act>, tiles: u32) -> Result<(), AllocError>
    ensures { OnOk result (acts.new.items ≡ acts.old.items ++ replicate tiles Act.Commit) }
{
    for _tile in 0..tiles {
        acts.push(Act::Commit)?;
    }
    Ok(())
}

/// Adds a split of each tile.
#[tactic(auto, using(crate::proofs::Rounds::splits_step))]
fn push_splits(acts: &mut Vec<Act>, tiles: u32) -> Result<(), AllocError>
    ensures { OnOk result (acts.new.items ≡ acts.old.items ++ map Act.Split (range_with_len 0 tiles)) }
{
    for tile in 0..tiles {
        acts.push(Act::Split(tile))?;
    }
    Ok(())
}

/// The acts of a round: what each tile does, then a commit for each tile, then a split of each.
#[tactic(auto, unfolding(crate::specs::Courses::round_acts))]
pub(crate) fn round_acts(alloc: Global, settings: &Settings) -> Result<Vec<Act>, AllocError>
    ensures { IfOk result (λ acts. acts.items ≡ round_acts settings.now.tiles settings.now.cores) }
{
    let mut acts = Vec::new(alloc);
    push_tiles(&mut acts, settings)?;
    push_commits(&mut acts, settings.tiles)?;
    push_splits(&mut acts, settings.tiles)?;
    Ok(acts)
}

/// The number that is drawn after another.
#[tactic(auto, unfolding(crate::specs::Courses::next_draw))]
fn next_draw(drawn: u32) -> u32
    ensures { result ≡ next_draw drawn }
{
    drawn.wrapping_mul(1_664_525).wrapping_add(1_013_904_223)
}

/// Shuffles acts, from the last of them on: each changes places with one that is drawn among it and those before it. It
/// returns the number that is drawn last.
fn shuffle(acts: &mut [Act], drawn: u32) -> u32
    requires { length acts.old < 2 ^ 32 }
    ensures order { let order = shuffled (length acts.old) (record { drawn = drawn; acts = acts.old }) in
        (acts.new ≡ order.acts) × (result ≡ order.drawn) }
    ensures permuted { IsPermutation acts.old acts.new }
    ensures len { length acts.new ≡ length acts.old }
{
    let mut drawn = drawn;
    for done in 0..acts.len() {
        let last = acts.len() - 1 - done;
        drawn = next_draw(drawn);
        let place = (u64::from(drawn) * (last as u64 + 1)) >> 32;
        acts.swap(last, place as usize);
    }
    drawn
}

/// Makes the order of the next round: unless the seed is 0, that of the round before is shuffled. It returns the number
/// that is drawn last.
#[tactic(auto, unfolding(crate::specs::Courses::next_order))]
pub(crate) fn next_order(acts: &mut [Act], drawn: u32, seed: u32) -> u32
    requires { length acts.old < 2 ^ 32 }
    ensures order { let order = next_order seed (record { drawn = drawn; acts = acts.old }) in
        (acts.new ≡ order.acts) × (result ≡ order.drawn) }
    ensures permuted { IsPermutation acts.old acts.new }
    ensures len { length acts.new ≡ length acts.old }
{
    if seed == 0 {
        drawn
    } else {
        shuffle(acts, drawn)
    }
}

/// Whether a tile has a task to dispatch: an idle one where a core is free, and else the least task.
fn is_dispatch_asked<N: Naming, P: Placer, T: Tap>(
    book: &Book<N, P, T>,
    tile: u32,
    least: Where,
) -> bool
    requires tile { tile < (machine_view book.now).settings.tiles }
    requires least { IsLeast (machine_view book.now) least }
    ensures { IsTrue result ↔ IsAskedInRound (machine_view book.now) (Act.Dispatch tile) }
{
    let state = book.state();
    match free_core(state, tile) {
        Some(_) => has_idle(state, tile),
        None => least_in(state, tile, least).is_some(),
    }
}

fn is_commit_asked(least: Where) -> bool
    ensures { (view : View) → IsLeast view least → IsTrue result ↔ IsAskedInRound view Act.Commit }
{
    match least {
        Where::Finished(_) => true,
        Where::Idle(_) => false,
        Where::Running(_) => false,
        Where::Trapped(_) => false,
        Where::Spilled(_) => false,
    }
}

fn is_split_asked<N: Naming>(state: &State<N>, tile: u32, least: Where) -> bool
    requires tile { tile < state.now.view.settings.tiles }
    requires least { IsLeast state.now.view least }
    ensures { IsTrue result ↔ IsAskedInRound state.now.view (Act.Split tile) }
{
    state.block_len(tile) > 0 && may_return(state, tile, least)
}

/// Whether an act of a round is asked for, while the run goes on, where this is the least task.
fn is_asked_in_round<N: Naming, P: Placer, T: Tap>(
    book: &Book<N, P, T>,
    act: Act,
    least: Where,
) -> bool
    requires within { let settings = (machine_view book.now).settings in
        ActIsInRange settings.tiles settings.cores act }
    requires least { IsLeast (machine_view book.now) least }
    ensures { IsTrue result ↔ IsAskedInRound (machine_view book.now) act }
{
    match act {
        Act::Dispatch(tile) => is_dispatch_asked(book, tile, least),
        Act::Step(tile, core) => book.core_at(tile, core).is_some(),
        Act::Commit => is_commit_asked(least),
        Act::Split(tile) => is_split_asked(book.state(), tile, least),
        Act::Take(_, _) => false,
        Act::Give(_, _) => false,
        Act::Abort(_) => false,
        Act::Coalesce(_) => false,
        Act::Advance => true,
    }
}

/// Whether an act is asked for: no act is once the run is over.
pub(crate) fn is_asked<N: Naming, P: Placer, T: Tap>(book: &Book<N, P, T>, act: Act) -> bool
    requires { let settings = (machine_view book.now).settings in
        ActIsInRange settings.tiles settings.cores act }
    ensures { let view = machine_view book.now in
        IsTrue result ↔ ((IsOver view → ⊥) × IsAskedInRound view act) }
{
    match least_going(book.state()) {
        Some(least) => is_asked_in_round(book, act, least),
        None => false,
    }
}
