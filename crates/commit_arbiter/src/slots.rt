//! The slots of an index, in which its candidates stay.

ghost use Rattle.std.specs.Prelude.{◌≡◌, ◌+◌, ◌-◌, ◌<◌, ◌≤◌, [], ◌∷◌, ◌++◌, length, take, replicate, slice_get};
ghost use Rattle.std.specs.Prelude.{slice_set};
ghost use Rattle.std.specs.Prelude.{Some, IfOk, map};
ghost use Rattle.std.specs.Prelude.{vec_capacity};
ghost use Rattle.std.specs.List.{range_with_len};
ghost use Rattle.std.specs.List.Sorted.{IsStrictlyIncreasing};
ghost use Rattle.commit_arbiter.specs.declared.candidate.Candidate.{Candidate};
ghost use Rattle.commit_arbiter.specs.Indexed.{renumbered_candidate, with_tiebreaker};
ghost use Rattle.commit_arbiter.specs.Slots.{blank_candidate, candidate_at, HasSwapped};

use crate::candidate::{Candidate, blank_candidate, put_candidate, renumber_candidate};
use fractal_vt::Key;
use std::alloc::{AllocError, Global};
use std::marker::Model;

/// A list of candidates that stay where they are in memory: what a change moves is the number of a slot, of four bytes.
///
/// The place of a candidate is noted by its id. Whoever asks tests the note, so no contract rests on it being right.
#[derive(Drop)]
pub(crate) struct Slots {
    /// What each slot holds, or was left with.
    table: Vec<Candidate>,
    /// The slots in use, in the order of the list.
    order: Vec<u32>,
    /// The slots that are free.
    free: Vec<u32>,
    /// Where the candidate of each id below the number of slots was last put.
    places: Vec<usize>,
}

impl Model for Slots {
    ghost use Rattle.std.specs.Prelude.{length, vec_capacity};
    ghost use Rattle.commit_arbiter.specs.Slots.{SlotsValue, in_slots, IsSlotted};

    ghost Value = { SlotsValue };

    ghost view = { λ s. record { capacity = length s.table.items; candidates = in_slots s.table.items s.order.items } };

    ghost invariant = { λ s.
        IsSlotted s.table.items s.order.items s.free.items (vec_capacity s.order) (vec_capacity s.free) };
}

impl Slots {
    /// An empty list of so many candidates at most.
    pub(crate) fn new(alloc: Global, capacity: u32) -> Result<Slots, AllocError>
        ensures { IfOk result (λ slots. slots ≡ record { capacity = capacity; candidates = [] }) }
    {
        let table = blanks(alloc, capacity)?;
        let free = numbers(alloc, capacity)?;
        let order = Vec::with_capacity(alloc, capacity as usize)?;
        let places = zeros(alloc, capacity)?;
        Ok(Slots {
            table,
            order,
            free,
            places,
        })
    }

    /// How many candidates there are.
    pub(crate) fn len(&self) -> usize
        ensures { result ≡ length self.now.candidates }
    {
        self.order.len()
    }

    /// How many slots there are.
    pub(crate) fn capacity(&self) -> usize
        ensures { result ≡ self.now.capacity }
    {
        self.table.len()
    }

    /// The candidate at a place.
    pub(crate) fn get(&self, place: usize) -> &Candidate
        requires { place < length self.now.candidates }
        ensures { slice_get self.now.candidates place ≡ Some result.now }
    {
        let slot = self.order[place] as usize;
        &self.table[slot]
    }

    /// The noted place of the candidate with this id, if there is a note: whoever asks tests it.
    pub(crate) fn note_of(&self, id: usize) -> Option<usize> {
        match self.places.get(id) {
            Some(place) => Some(*place),
            None => None,
        }
    }

    /// Adds a candidate at the end, without a note of its place. It is made in its slot.
    pub(crate) fn push(&mut self, key: &Key, tile: u32, arrival: u64, id: usize)
        requires { length self.old.candidates < self.old.capacity }
        ensures capacity { self.new.capacity ≡ self.old.capacity }
        ensures candidates { let own : Candidate = record { key = key.now; tile = tile; arrival = arrival; id = id } in
            self.new.candidates ≡ self.old.candidates ++ own ∷ [] }
    {
        match self.free.pop() {
            Some(slot) => {
                put_candidate(&mut self.table[slot as usize], key, tile, arrival, id);
                match self.order.push(slot) {
                    Ok(()) => {}
                    Err(_) => unreachable!(),
                }
            }
            None => unreachable!(),
        }
    }

    /// Drops the last candidate.
    pub(crate) fn pop(&mut self)
        requires { 0 < length self.old.candidates }
        ensures capacity { self.new.capacity ≡ self.old.capacity }
        ensures candidates { self.new.candidates ≡ take (length self.old.candidates - 1) self.old.candidates }
    {
        match self.order.pop() {
            Some(slot) => match self.free.push(slot) {
                Ok(()) => {}
                Err(_) => unreachable!(),
            },
            None => unreachable!(),
        }
    }

    /// Sets the tiebreaker of the key of a candidate.
    pub(crate) fn set_tb(&mut self, place: usize, tb: Option<u64>)
        requires { place < length self.old.candidates }
        ensures capacity { self.new.capacity ≡ self.old.capacity }
        ensures candidates { let was = self.old.candidates in
            self.new.candidates ≡ slice_set was place (with_tiebreaker tb (candidate_at was place)) }
    {
        let slot = self.order[place] as usize;
        self.table[slot].key.tb = tb;
    }

    /// Exchanges two candidates, without a note of their places.
    pub(crate) fn swap(&mut self, a: usize, b: usize)
        requires a { a < length self.old.candidates }
        requires b { b < length self.old.candidates }
        ensures capacity { self.new.capacity ≡ self.old.capacity }
        ensures candidates { HasSwapped self.old.candidates self.new.candidates a b }
    {
        self.order.swap(a, b);
    }

    /// Notes the place of the candidate at this place.
    pub(crate) fn note(&mut self, place: usize)
        requires { place < length self.old.candidates }
        ensures { self.new ≡ self.old }
    {
        let id = self.get(place).id;
        note_place(&mut self.places, id, place);
    }

    /// Replaces each tiebreaker by its place in the table.
    pub(crate) fn renumber(&mut self, table: &[u64])
        requires { IsStrictlyIncreasing table.now }
        ensures capacity { self.new.capacity ≡ self.old.capacity }
        ensures candidates { self.new.candidates ≡ map (renumbered_candidate table.now) self.old.candidates }
    {
        renumber_all(&mut self.table, table);
    }
}

/// So many blank candidates.
fn blanks(alloc: Global, many: u32) -> Result<Vec<Candidate>, AllocError>
    ensures { IfOk result (λ table. table.items ≡ replicate many blank_candidate) }
{
    let mut table = Vec::with_capacity(alloc, many as usize)?;
    for _slot in 0..many {
        table.push(blank_candidate())?;
    }
    Ok(table)
}

/// The numbers below a bound, in a vector with memory for them.
fn numbers(alloc: Global, many: u32) -> Result<Vec<u32>, AllocError>
    ensures items { IfOk result (λ free. free.items ≡ range_with_len 0 many) }
    ensures spare { IfOk result (λ free. many ≤ vec_capacity free) }
{
    let mut free = Vec::with_capacity(alloc, many as usize)?;
    for slot in 0..many {
        free.push(slot)?;
    }
    Ok(free)
}

/// So many zeros.
fn zeros(alloc: Global, many: u32) -> Result<Vec<usize>, AllocError> {
    let mut places = Vec::with_capacity(alloc, many as usize)?;
    for _id in 0..many {
        places.push(0)?;
    }
    Ok(places)
}

/// Replaces each tiebreaker of the candidates by its place in the table.
fn renumber_all(candidates: &mut [Candidate], table: &[u64])
    requires { IsStrictlyIncreasing table.now }
    ensures { candidates.new ≡ map (renumbered_candidate table.now) candidates.old }
{
    for candidate in candidates.iter_mut() {
        renumber_candidate(candidate, table);
    }
}

/// Notes the place of an id; one at or above the number of slots has no note.
fn note_place(places: &mut [usize], id: usize, place: usize) {
    if id < places.len() {
        places[id] = place;
    }
}
