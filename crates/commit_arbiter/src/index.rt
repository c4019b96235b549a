//! The index of the queued tasks.

ghost use Rattle.std.specs.Prelude.{◌≡◌, ◌≢◌, ◌<◌, ◌≤◌, ◌+◌, ◌↔◌, AllPairs, map, [], length, IfOk, IfSome};
ghost use Rattle.std.specs.Prelude.{IsNone, None, Some};
ghost use Rattle.std.specs.Prelude.{IsSome, IsTrue};
ghost use Rattle.std.specs.List.Sorted.{IsStrictlyIncreasing};
ghost use Rattle.fractal_vt.specs.Keys.{key_cmp};
ghost use Rattle.fractal_vt.specs.Least.{IsFirstLeast};
ghost use Rattle.fractal_vt.specs.Sorted.{IsInOrder, after_insert};
ghost use Rattle.commit_arbiter.specs.Indexed.{candidate_cmp, keys, renumbered_candidate, HoldsCandidates, HasId};
ghost use Rattle.commit_arbiter.specs.Indexed.{without_candidate};
ghost use Rattle.commit_arbiter.specs.Indexed.{IsOpenIn, IsTied};
ghost use Rattle.commit_arbiter.specs.Indexed.{first_id, closed_in, one_closed};
ghost use Rattle.commit_arbiter.specs.Slots.{IsPlaceOfId};
ghost use Rattle.commit_arbiter.specs.declared.candidate.Candidate.{Candidate};

use crate::candidate::one_closed;
use crate::heap::{settle, sift_up, take_out};
use crate::slots::Slots;
use fractal_vt::Key;
use std::alloc::{AllocError, Global};
use std::marker::Model;

/// The queued tasks, in their order: by key, then by tile, by arrival and by id.
///
/// It is a binary heap of slot numbers. `first` costs one look, `insert` and `remove` comparisons in the logarithm
/// of the length, where the ids are below the capacity. The candidate with another id is found by a look at each, and
/// so it is found that an id isn't there.
#[derive(Drop)]
pub struct Index {
    slots: Slots,
    /// How many of them have a closed tiebreaker.
    closed: usize,
}

impl Model for Index {
    ghost use Rattle.std.specs.Prelude.{◌≡◌};
    ghost use Rattle.commit_arbiter.specs.Indexed.{IndexValue, closed_in};
    ghost use Rattle.commit_arbiter.specs.Heap.{in_rising_order, IsHeapIndex};

    ghost Value = { IndexValue };

    ghost view = { λ x. record { capacity = x.slots.capacity; candidates = in_rising_order x.slots.candidates } };

    ghost invariant = { λ x. IsHeapIndex x.slots.candidates × (x.closed ≡ closed_in x.slots.candidates) };
}

impl Index {
    /// An empty index, with all memory that it will ever take.
    pub fn new(alloc: Global, capacity: u32) -> Result<Index, AllocError>
        requires { 1 ≤ capacity }
        ensures { IfOk result (λ index. index ≡ record { capacity = capacity; candidates = [] }) }
    {
        let slots = Slots::new(alloc, capacity)?;
        Ok(Index { slots, closed: 0 })
    }

    /// Adds a task. No memory.
    pub fn insert(&mut self, key: &Key, tile: u32, arrival: u64, id: usize)
        requires spare { length self.old.candidates < self.old.capacity }
        requires other { ¬ HasId id self.old.candidates }
        ensures capacity { self.new.capacity ≡ self.old.capacity }
        ensures candidates { let own : Candidate = record { key = key.now; tile = tile; arrival = arrival; id = id } in
            self.new.candidates ≡ after_insert candidate_cmp own self.old.candidates }
    {
        let place = self.slots.len();
        self.slots.push(key, tile, arrival, id);
        sift_up(&mut self.slots, place);
        self.closed = closed_with(&self.slots, self.closed, key.tb);
    }

    /// Takes the task with an id out; false exactly where there is none. No memory.
    pub fn remove(&mut self, id: usize) -> bool
        ensures found { IsTrue result ↔ HasId id self.old.candidates }
        ensures capacity { self.new.capacity ≡ self.old.capacity }
        ensures candidates { self.new.candidates ≡ without_candidate id self.old.candidates }
    {
        match place_of(&self.slots, id) {
            Some(place) => {
                let tb = self.slots.get(place).key.tb;
                take_out(&mut self.slots, place);
                self.closed -= one_closed(tb);
                true
            }
            None => false,
        }
    }

    /// Closes the open tiebreaker of a task in the index: its key becomes less. It allocates no memory.
    pub fn close(&mut self, id: usize, tb: u64)
        requires { IsOpenIn id self.old.candidates }
        ensures capacity { self.new.capacity ≡ self.old.capacity }
        ensures count { length self.new.candidates ≡ length self.old.candidates }
        ensures candidates { IsTied id (Some tb) self.old.candidates self.new.candidates }
    {
        match place_of(&self.slots, id) {
            Some(place) => {
                self.slots.set_tb(place, Some(tb));
                sift_up(&mut self.slots, place);
                self.closed = closed_with(&self.slots, self.closed, Some(tb));
            }
            None => unreachable!(),
        }
    }

    /// Opens the tiebreaker of a task in the index: its key becomes greater, or stays. It allocates no memory.
    pub fn open(&mut self, id: usize)
        requires { HasId id self.old.candidates }
        ensures capacity { self.new.capacity ≡ self.old.capacity }
        ensures count { length self.new.candidates ≡ length self.old.candidates }
        ensures candidates { IsTied id None self.old.candidates self.new.candidates }
    {
        match place_of(&self.slots, id) {
            Some(place) => {
                let was = self.slots.get(place).key.tb;
                self.slots.set_tb(place, None);
                settle(&mut self.slots, place);
                self.closed -= one_closed(was);
            }
            None => unreachable!(),
        }
    }

    /// The id of the first task, whose key is the first of the least; None exactly where there is none. No memory.
    pub fn first(&self) -> Option<usize>
        ensures first { result ≡ first_id self.now.candidates }
        ensures least { IsSome result → IsFirstLeast key_cmp (keys self.now.candidates) 0 }
    {
        if self.slots.len() == 0 {
            return None;
        }
        Some(self.slots.get(0).id)
    }

    /// Replaces each tiebreaker by its place in a strictly rising table that holds them all. The order stays. No
    /// memory.
    pub fn renumber(&mut self, table: &[u64])
        requires rising { IsStrictlyIncreasing table.now }
        requires held { HoldsCandidates table.now self.old.candidates }
        ensures capacity { self.new.capacity ≡ self.old.capacity }
        ensures candidates { self.new.candidates ≡ map (renumbered_candidate table.now) self.old.candidates }
    {
        self.slots.renumber(table);
    }

    /// How many of its tasks have a closed tiebreaker, which are those that are dispatched.
    pub fn closed_count(&self) -> usize
        ensures { result ≡ closed_in self.now.candidates }
    {
        self.closed
    }

    /// How many tasks it holds.
    pub fn len(&self) -> usize
        ensures { result ≡ length self.now.candidates }
    {
        self.slots.len()
    }

    /// Whether it holds none.
    pub fn is_empty(&self) -> bool
        ensures { IsTrue result ↔ (self.now.candidates ≡ []) }
    {
        self.len() == 0
    }

    /// How many tasks it holds at most.
    pub fn capacity(&self) -> usize
        ensures { result ≡ self.now.capacity }
    {
        self.slots.capacity()
    }

    /// Law: the tasks are in their order, and no two have one id.
    pub fn is_in_order(&self)
        ensures order { IsInOrder candidate_cmp self.now.candidates }
        ensures ids { AllPairs (λ a b. a.id ≢ b.id) self.now.candidates }
    {
        let _ = &self.slots;
    }
}

/// So many closed candidates and, where this tiebreaker is closed, one more: as many as there are.
fn closed_with(slots: &Slots, closed: usize, tb: Option<u64>) -> usize
    requires { closed_in slots.now.candidates ≡ closed + one_closed tb }
    ensures { result ≡ closed_in slots.now.candidates }
{
    // They are no more than the candidates, whose number is a `usize`.
    let _all = slots.len();
    closed + one_closed(tb)
}

/// The place of the candidate with an id.
fn place_of(slots: &Slots, id: usize) -> Option<usize>
    ensures some { IfSome result (IsPlaceOfId id slots.now.candidates) }
    ensures none { IsNone result → ¬ HasId id slots.now.candidates }
{
    if let Some(place) = noted_place(slots, id) {
        return Some(place);
    }
    scanned_place(slots, id)
}

/// The place of the candidate with an id, where it was noted.
#[tactic(auto, using(crate::proofs::Places::place_here))]
fn noted_place(slots: &Slots, id: usize) -> Option<usize>
    ensures { IfSome result (IsPlaceOfId id slots.now.candidates) }
{
    let place = slots.note_of(id)?;
    if place < slots.len() && slots.get(place).id == id {
        Some(place)
    } else {
        None
    }
}

/// The place of the candidate with an id, by a look at each candidate.
fn scanned_place(slots: &Slots, id: usize) -> Option<usize>
    ensures some { IfSome result (IsPlaceOfId id slots.now.candidates) }
    ensures none { IsNone result → ¬ HasId id slots.now.candidates }
{
    for place in 0..slots.len() {
        if slots.get(place).id == id {
            return Some(place);
        }
    }
    None
}
