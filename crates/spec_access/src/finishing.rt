//! An end call. It takes no memory.

ghost use Rattle.std.specs.Prelude.{◌≡◌, ◌<◌, ◌∷◌, ◌++◌, [], ℕ, All, Contains, None, length, map};
ghost use Rattle.std.specs.Prelude.{vec_len, slice_index_or, slice_set};
ghost use Rattle.task_request.specs.declared.request.Request.TheVariants.{End};
ghost use Rattle.spec_dispatch.specs.spec_state.Fits.{ids_in};
ghost use Rattle.spec_dispatch.specs.spec_state.View.{core_ids};
ghost use Rattle.spec_dispatch.specs.spec_state.Changes.{Finishes};
ghost use Rattle.spec_access.specs.Asking.{Asks, CommitQueueHasRoom, OfTaker};

use crate::calling::{held_core, put_behind};
use rv_core::{Leg, Naming};
use spec_state::{State, Status, TaskId};
use tile_queues::CommitQueue;

/// Puts an id that is not there into a queue with a free place, as the last one.
fn put_last(queue: &mut CommitQueue, id: usize)
    requires absent { ¬ Contains queue.old.ids id }
    requires free { length queue.old.ids < queue.old.capacity }
    ensures { queue.new ≡ record queue.old { ids = queue.old.ids ++ id ∷ [] } }
{
    let _ = queue.put(id);
}

/// Puts an id that is not there into the commit queue of a tile, which has a free place, as the
/// last one.
fn put_finished(queues: &mut Vec<CommitQueue>, tile: usize, id: usize)
    requires tile { tile < vec_len queues.old }
    requires absent { ¬ Contains (slice_index_or (ids_in queues.old.items) tile []) id }
    requires free { (capacity : ℕ) × All (λ queue. queue.capacity ≡ capacity) queues.old.items
        × (length (slice_index_or (ids_in queues.old.items) tile []) < capacity) }
    ensures ids { let ids = slice_index_or (ids_in queues.old.items) tile [] in
        ids_in queues.new.items ≡ slice_set (ids_in queues.old.items) tile (ids ++ id ∷ []) }
    ensures count { length queues.new.items ≡ length queues.old.items }
    ensures capacities { (capacity : ℕ) → All (λ queue. queue.capacity ≡ capacity) queues.old.items
        → All (λ queue. queue.capacity ≡ capacity) queues.new.items }
{
    put_last(&mut queues[tile], id);
}

/// Frees a core of a tile.
fn free_core(cores: &mut Vec<Vec<Option<TaskId>>>, tile: usize, core: usize)
    requires tile { tile < vec_len cores.old }
    requires core { let old = map (λ held. core_ids held.items) cores.old.items in
        core < length (slice_index_or old tile []) }
    ensures held { let old = map (λ held. core_ids held.items) cores.old.items in
        map (λ held. core_ids held.items) cores.new.items
        ≡ slice_set old tile (slice_set (slice_index_or old tile []) core None) }
    ensures tiles { vec_len cores.new ≡ vec_len cores.old }
    ensures counts { (count : ℕ) → All (λ held. vec_len held ≡ count) cores.old.items
        → All (λ held. vec_len held ≡ count) cores.new.items }
{
    cores[tile][core] = None;
}

/// A task that asks to end leaves its core for the commit queue of its tile, where a place is
/// free.
pub fn finish<N: Naming>(state: &mut State<N>, task: TaskId, leg: &Leg<N>)
    requires asks { Asks state.old.view leg.now task.0 End }
    requires free { CommitQueueHasRoom state.old.view task.0 }
    ensures finishes { OfTaker state.old.view leg.now task.0 (λ tile core taker.
        Finishes tile core task.0 taker leg.now state.old.view state.new.view) }
    ensures effect { state.new.effect ≡ state.old.effect }
    ensures spare { state.new.spare ≡ state.old.spare }
{
    let budget = state.settings.budget;
    let taker = &mut state.tasks[task.0];
    let tile = taker.tile as usize;
    let core = held_core(taker.status) as usize;
    put_behind(&mut taker.core, budget, leg);
    taker.status = Status::Finished;
    put_finished(&mut state.finished, tile, task.0);
    free_core(&mut state.cores, tile, core);
}
