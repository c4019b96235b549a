//! The numbers under which tasks arrive in their queues.

ghost use Rattle.std.specs.Prelude.{All, ◌≡◌, ◌<◌, ◌≤◌, ◌-◌, ◌^◌, [], length, slice_index_or, slice_set};
ghost use Rattle.commit_arbiter.specs.declared.candidate.Candidate.{Candidate};
ghost use Rattle.commit_arbiter.specs.Indexed.{candidate_cmp, without_candidate, HasId};
ghost use Rattle.fractal_vt.specs.Sorted.{after_insert};
ghost use Rattle.spec_state.specs.Fits.{ids_in};
ghost use Rattle.spec_state.specs.Stored.{IsIndexed, AreTheirs, AreBelow, KeepsOthers};

use crate::task::Task;
use commit_arbiter::Index;
use kept_slab::KeptSlab;
use tile_queues::TaskQueue;

/// Enters a task of the index anew, under its key and this arrival number.
#[tactic(auto, using(crate::proofs::Moved::fewer, crate::proofs::Moved::no_more))]
pub(crate) fn enter_again(index: &mut Index, task: &Task, arrival: u64, id: usize)
    requires indexed { HasId id index.old.candidates }
    requires spare { length index.old.candidates ≤ index.old.capacity }
    ensures candidates { let t = task.now in
        let moved : Candidate = record { key = t.key; tile = t.tile; arrival = arrival; id = id } in
        index.new.candidates ≡ after_insert candidate_cmp moved (without_candidate id index.old.candidates) }
    ensures count { length index.new.candidates ≤ length index.old.candidates }
    ensures capacity { index.new.capacity ≡ index.old.capacity }
{
    index.remove(id);
    index.insert(&task.key, task.tile, arrival, id);
}

/// Gives a task of the index another arrival number.
fn move_arrival(index: &mut Index, arrivals: &mut Vec<u64>, task: &Task, id: usize, arrival: u64)
    requires slot { id < length arrivals.old.items }
    requires indexed { HasId id index.old.candidates }
    requires spare { length index.old.candidates ≤ index.old.capacity }
    ensures arrivals { arrivals.new.items ≡ slice_set arrivals.old.items id arrival }
    ensures candidates { let t = task.now in
        let moved : Candidate = record { key = t.key; tile = t.tile; arrival = arrival; id = id } in
        index.new.candidates ≡ after_insert candidate_cmp moved (without_candidate id index.old.candidates) }
    ensures count { length index.new.candidates ≤ length index.old.candidates }
    ensures capacity { index.new.capacity ≡ index.old.capacity }
{
    arrivals[id] = arrival;
    enter_again(index, task, arrival, id);
}

/// Gives the tasks of a tile's queue their places as arrival numbers.
fn renumber_queue(
    index: &mut Index,
    arrivals: &mut Vec<u64>,
    tasks: &KeptSlab<Task>,
    queues: &[TaskQueue],
    tile: usize,
    next: u64,
)
    requires tile { tile < length queues.now }
    requires theirs { AreTheirs tasks.now.slots (ids_in queues.now) }
    requires indexed { IsIndexed tasks.now.slots (ids_in queues.now) arrivals.old.items next index.old.candidates }
    requires slots { length arrivals.old.items ≡ tasks.now.capacity }
    requires spare { length index.old.candidates ≤ index.old.capacity }
    ensures indexed { IsIndexed tasks.now.slots (ids_in queues.now) arrivals.new.items next index.new.candidates }
    ensures below { let ids = slice_index_or (ids_in queues.now) tile [] in
        AreBelow arrivals.new.items ids (length ids) }
    ensures others { let ids = slice_index_or (ids_in queues.now) tile [] in
        KeepsOthers ids arrivals.old.items arrivals.new.items }
    ensures slots { length arrivals.new.items ≡ length arrivals.old.items }
    ensures count { length index.new.candidates ≤ length index.old.candidates }
    ensures capacity { index.new.capacity ≡ index.old.capacity }
{
    let ids = queues[tile].ids();
    let _slots = tasks.capacity();
    for place in 0..ids.len() {
        let id = ids[place];
        move_arrival(index, arrivals, &tasks[id], id, place as u64);
    }
}

/// The next arrival number, which is never the last one of its type: where the counter is at its end the tasks of
/// all queues are first renumbered, those of each queue by their places, of which there are at most `longest`.
pub(crate) fn fresh_arrival(
    index: &mut Index,
    arrivals: &mut Vec<u64>,
    tasks: &KeptSlab<Task>,
    queues: &[TaskQueue],
    longest: u32,
    next: u64,
) -> u64
    requires short { All (λ queue. length queue.ids ≤ longest) queues.now }
    requires theirs { AreTheirs tasks.now.slots (ids_in queues.now) }
    requires indexed { IsIndexed tasks.now.slots (ids_in queues.now) arrivals.old.items next index.old.candidates }
    requires slots { length arrivals.old.items ≡ tasks.now.capacity }
    requires spare { length index.old.candidates ≤ index.old.capacity }
    ensures indexed { IsIndexed tasks.now.slots (ids_in queues.now) arrivals.new.items result index.new.candidates }
    ensures below { result < 2 ^ 64 - 1 }
    ensures count { length index.new.candidates ≤ length index.old.candidates }
    ensures capacity { index.new.capacity ≡ index.old.capacity }
    ensures slots { length arrivals.new.items ≡ length arrivals.old.items }
{
    if next < u64::MAX {
        return next;
    }
    for tile in 0..queues.len() {
        renumber_queue(index, arrivals, tasks, queues, tile, next);
    }
    longest as u64
}
