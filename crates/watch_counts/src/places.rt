//! Where tasks are: in task queues, on cores, in commit queues and in blocks.

ghost use Rattle.std.specs.Prelude.{◌≡◌, ◌+◌, ◌*◌, ◌<◌, ℕ, None, cond, false, length, max, is_some, option_copied};
ghost use Rattle.std.specs.Prelude.{slice_index_or};
ghost use Rattle.watch_text.specs.spec_state.View.{block_at, cores_at, finished_at, queue_at};
ghost use Rattle.watch_text.specs.spec_state.Tasks.{trap_cause};
ghost use Rattle.watch_text.specs.Changes.{task_if};
ghost use Rattle.watch_counts.specs.Nothing.{no_places};
ghost use Rattle.watch_counts.specs.Capped.{capped, capped_places};
ghost use Rattle.watch_counts.specs.Counts.{by_place, cores_in, is_trapped, places, put_stalled, runs, stalls};
ghost use Rattle.watch_counts.specs.Work.{over_tiles};

use crate::numbers::{greater, more, sum_of};
use crate::spec_state::{State, Status, Task};
use rv_core::Naming;

/// How many tasks are where.
#[derive(Clone, Copy, Debug, PartialEq, Eq)]
pub struct PlaceCounts {
    /// In task queues: those on cores and in commit queues keep their places there.
    pub queued: u64,
    /// On cores, and neither stalled nor trapped.
    pub running: u64,
    /// On cores, where their last step stalled.
    pub stalled: u64,
    /// On cores, at a trap.
    pub trapped: u64,
    /// In commit queues.
    pub finished: u64,
    /// In blocks.
    pub spilled: u64,
}

/// How many tasks are on cores: of each kind at most one for each core.
#[derive(Clone, Copy)]
struct CoreCounts {
    running: u32,
    stalled: u32,
    trapped: u32,
}

impl PlaceCounts {
    /// None anywhere.
    pub(crate) fn none() -> Self
        ensures { result ≡ no_places }
    {
        PlaceCounts {
            queued: 0,
            running: 0,
            stalled: 0,
            trapped: 0,
            finished: 0,
            spilled: 0,
        }
    }

    /// Adds up place by place.
    pub(crate) fn add(&mut self, places: &PlaceCounts)
        ensures { (c n : PlaceCounts) → self.old ≡ capped_places c → places.now ≡ capped_places n
            → self.new ≡ capped_places (by_place (λ a b. a + b) c n) }
    {
        self.queued = sum_of(self.queued, places.queued);
        self.running = sum_of(self.running, places.running);
        self.stalled = sum_of(self.stalled, places.stalled);
        self.trapped = sum_of(self.trapped, places.trapped);
        self.finished = sum_of(self.finished, places.finished);
        self.spilled = sum_of(self.spilled, places.spilled);
    }

    /// Keeps the greater of both, place by place.
    pub(crate) fn rise_to(&mut self, places: &PlaceCounts)
        ensures { (c n : PlaceCounts) → self.old ≡ capped_places c → places.now ≡ capped_places n
            → self.new ≡ capped_places (by_place max c n) }
    {
        self.queued = greater(self.queued, places.queued);
        self.running = greater(self.running, places.running);
        self.stalled = greater(self.stalled, places.stalled);
        self.trapped = greater(self.trapped, places.trapped);
        self.finished = greater(self.finished, places.finished);
        self.spilled = greater(self.spilled, places.spilled);
    }
}

/// Puts down whether the last step on a core of a tile stalled.
pub(crate) fn put_stalled(cores: &mut [bool; 64], tile: u32, core: u32, stalled: bool)
    ensures { cores.new ≡ put_stalled tile core stalled cores.old }
{
    let place = 4 * tile as usize + core as usize;
    if place < 64 {
        cores[place] = stalled;
    }
}

/// Whether the last step on a core of a tile stalled.
fn is_stalled(cores: &[bool; 64], tile: u32, core: u32) -> bool
    requires place { 4 * tile + core < 64 }
    ensures { result ≡ slice_index_or cores.now (4 * tile + core) false }
{
    cores[4 * tile as usize + core as usize]
}

/// Whether it trapped.
fn is_at_trap(status: Status) -> bool
    ensures { result ≡ is_some (trap_cause status) }
{
    match status {
        Status::Trapped { .. } => true,
        Status::Idle => false,
        Status::Running { .. } => false,
        Status::Finished => false,
    }
}

/// The task that a core of a tile holds.
#[inline(always)]
fn task_on<N: Naming>(state: &State<N>, tile: u32, core: u32) -> Option<&Task>
    requires tile { tile < state.now.view.settings.tiles }
    requires core { core < state.now.view.settings.cores }
    ensures { option_copied result ≡ task_if state.now.view (slice_index_or (cores_at state.now.view tile) core None) }
{
    state.is_stored();
    match state.on_core(tile, core) {
        None => None,
        Some(id) => Some(state.task(id)),
    }
}

/// The task of a core of a tile more, where it holds one: at a trap, stalled where its last step was, or running.
#[inline(always)]
fn more_on(
    counts: CoreCounts,
    cores: &[bool; 64],
    tile: u32,
    core: u32,
    task: Option<&Task>,
) -> CoreCounts
    requires place { 4 * tile + core < 64 }
    requires few { (counts.running < 64) × (counts.stalled < 64) × (counts.trapped < 64) }
    ensures running { let waits = slice_index_or cores.now (4 * tile + core) false in
        result.running ≡ counts.running + cond (runs waits (option_copied task.entry)) 1 0 }
    ensures stalled { let waits = slice_index_or cores.now (4 * tile + core) false in
        result.stalled ≡ counts.stalled + cond (stalls waits (option_copied task.entry)) 1 0 }
    ensures trapped { let waits = slice_index_or cores.now (4 * tile + core) false in
        result.trapped ≡ counts.trapped + cond (is_trapped waits (option_copied task.entry)) 1 0 }
{
    let CoreCounts {
        mut running,
        mut stalled,
        mut trapped,
    } = counts;
    match task {
        None => {}
        Some(task) => {
            if is_at_trap(task.status) {
                trapped += 1;
            } else if is_stalled(cores, tile, core) {
                stalled += 1;
            } else {
                running += 1;
            }
        }
    }
    CoreCounts {
        running,
        stalled,
        trapped,
    }
}

/// How many tasks are on cores.
fn on_cores<N: Naming>(state: &State<N>, cores: &[bool; 64]) -> CoreCounts
    ensures running { let view = state.now.view in result.running ≡ over_tiles view (cores_in view cores.now runs) }
    ensures stalled { let view = state.now.view in result.stalled ≡ over_tiles view (cores_in view cores.now stalls) }
    ensures trapped { let view = state.now.view in
        result.trapped ≡ over_tiles view (cores_in view cores.now is_trapped) }
{
    // A law, called for its clauses.
    state.has_limits();
    let mut counts = CoreCounts {
        running: 0,
        stalled: 0,
        trapped: 0,
    };
    for tile in 0..state.settings().tiles {
        for core in 0..state.settings().cores {
            counts = more_on(counts, cores, tile, core, task_on(state, tile, core));
        }
    }
    counts
}

/// How many tasks are in task queues.
fn queued_of<N: Naming>(state: &State<N>) -> u64
    ensures { let view = state.now.view in result ≡ capped (over_tiles view (λ tile. length (queue_at view tile))) }
{
    let mut queued = 0;
    for tile in 0..state.settings().tiles {
        queued = more(queued, state.queued_in(tile).len() as u64);
    }
    queued
}

/// How many tasks are in commit queues.
fn finished_of<N: Naming>(state: &State<N>) -> u64
    ensures { let view = state.now.view in result ≡ capped (over_tiles view (λ tile. length (finished_at view tile))) }
{
    let mut finished = 0;
    for tile in 0..state.settings().tiles {
        finished = more(finished, state.finished_in(tile).len() as u64);
    }
    finished
}

/// How many tasks are in blocks.
pub(crate) fn spilled_of<N: Naming>(state: &State<N>) -> u64
    ensures { let view = state.now.view in result ≡ capped (over_tiles view (λ tile. length (block_at view tile))) }
{
    let mut spilled = 0;
    for tile in 0..state.settings().tiles {
        spilled = more(spilled, state.block_len(tile) as u64);
    }
    spilled
}

/// How many tasks are where.
pub(crate) fn places_of<N: Naming>(state: &State<N>, cores: &[bool; 64]) -> PlaceCounts
    ensures { result ≡ capped_places (places state.now.view cores.now) }
{
    let on_cores = on_cores(state, cores);
    PlaceCounts {
        queued: queued_of(state),
        running: u64::from(on_cores.running),
        stalled: u64::from(on_cores.stalled),
        trapped: u64::from(on_cores.trapped),
        finished: finished_of(state),
        spilled: spilled_of(state),
    }
}
