//! A bounded list of distinct ids.

ghost use Rattle.std.specs.Prelude.{◌≡◌, false, slice_index_or, ◌+◌, ◌<◌, ◌≤◌, ◌↔◌, [], ◌∷◌, ◌++◌, length};
ghost use Rattle.std.specs.Prelude.{Contains, IsTrue, IsErr, IfOk, IfErr, OnOk, OnErr};
ghost use Rattle.std.specs.Bool.{OnFalse};
ghost use Rattle.tile_queues.specs.Queue.{AreDistinct, ids_but, unmarked_ids};

use std::alloc::{AllocError, Global};
use std::marker::{Model, PhantomData};

/// What a task queue holds: each uncommitted task of the tile that is not spilled.
#[derive(Clone, Copy, Debug)]
pub struct QueuedTasks;

/// What a commit queue holds: each finished task of the tile.
#[derive(Clone, Copy, Debug)]
pub struct FinishedTasks;

/// The task queue of a tile (Jeffrey et al. 2015).
pub type TaskQueue = Queue<QueuedTasks>;

/// The commit queue of a tile (Jeffrey et al. 2015).
pub type CommitQueue = Queue<FinishedTasks>;

/// A bounded list of distinct ids, in order of arrival. `Kind` says what they are ids of.
#[derive(Drop)]
pub struct Queue<Kind> {
    capacity: u32,
    ids: Vec<usize>,
    kind: PhantomData<Kind>,
}

impl<Kind> Model for Queue<Kind> {
    ghost use Rattle.std.specs.Prelude.{vec_capacity};
    ghost use Rattle.tile_queues.specs.Queue.{QueueValue, FitsIn};

    ghost Value = { QueueValue };

    ghost view = { λ queue. record { capacity = queue.capacity; ids = queue.ids.items } };

    ghost invariant = { λ queue. FitsIn queue.capacity (vec_capacity queue.ids) queue.ids.items };
}

impl<Kind> Queue<Kind> {
    /// An empty queue for at most `capacity` ids, which is at least 1. It takes all its memory here.
    pub fn new(alloc: Global, capacity: u32) -> Result<Self, AllocError>
        requires { 0 < capacity }
        ensures { IfOk result (λ queue. queue ≡ record { capacity = capacity; ids = [] }) }
    {
        Ok(Queue {
            capacity,
            ids: Vec::with_capacity(alloc, capacity as usize)?,
            kind: PhantomData,
        })
    }

    /// Adds an id that is not there, as the last one. A full queue hands it back.
    pub fn put(&mut self, id: usize) -> Result<(), usize>
        requires { ¬ Contains self.old.ids id }
        ensures ok { OnOk result (self.new ≡ record self.old { ids = self.old.ids ++ id ∷ [] }) }

        // The id comes back exactly where the queue is full.
        ensures full { IsErr result ↔ (length self.old.ids ≡ self.old.capacity) }
        ensures handed_back { IfErr result (λ back. back ≡ id) }
        ensures unchanged { OnErr result (self.new ≡ self.old) }
    {
        if self.free() == 0 {
            return Err(id);
        }
        // The memory was taken before.
        self.ids.push(id).map_err(|refused| refused.value)
    }

    /// Takes the id out, and returns whether the queue contained it. The others keep their order. It looks from the
    /// last id on, since tasks that are spilled or aborted are mostly near the end.
    pub fn take(&mut self, id: usize) -> bool
        ensures there { IsTrue result ↔ Contains self.old.ids id }
        ensures taken { self.new ≡ record self.old { ids = ids_but id self.old.ids } }
        ensures absent { OnFalse result (self.new ≡ self.old) }
    {
        match self.ids.iter().rposition(|other| *other == id) {
            Some(place) => {
                self.ids.remove(place);
                true
            }
            None => false,
        }
    }

    /// Takes out each id whose mark is true, in one pass. The others keep their order; an id past the marks has
    /// none, and stays.
    pub fn take_marked(&mut self, marks: &[bool])
        ensures { self.new ≡ record self.old { ids = unmarked_ids marks.now self.old.ids } }
    {
        self.ids.retain(|id| !is_marked(marks, *id));
    }

    /// Whether the id is there.
    pub fn contains(&self, id: usize) -> bool
        ensures { IsTrue result ↔ Contains self.now.ids id }
    {
        self.ids.contains(&id)
    }

    /// How many ids it holds at most.
    pub fn capacity(&self) -> u32
        ensures { result ≡ self.now.capacity }
    {
        self.capacity
    }

    /// The ids, in order of arrival.
    pub fn ids(&self) -> &[usize]
        ensures ids { result.now ≡ self.now.ids }
        ensures distinct { AreDistinct self.now.ids }
        ensures bounded { length self.now.ids ≤ self.now.capacity }
    {
        self.ids.as_slice()
    }

    /// How many more ids there is room for.
    pub fn free(&self) -> u32
        ensures { result + length self.now.ids ≡ self.now.capacity }
    {
        self.capacity - self.ids.len() as u32
    }
}

/// Whether the mark of the id is true. Past the marks it has none.
fn is_marked(marks: &[bool], id: usize) -> bool
    ensures { result ≡ slice_index_or marks.now id false }
{
    marks.get(id).copied().unwrap_or(false)
}
