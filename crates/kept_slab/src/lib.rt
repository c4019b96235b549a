//! A slab of large values, none of which moves: one that leaves keeps its place in memory for the next one that comes.
//!
//! Contracts see it as a slab. The memory of the largest number of values is allocated when it is made, so that to put
//! a value in and to take one out moves an address, and what a value has grown (a list's memory, say) serves the next
//! one. It uses `slab` of the toolchain library. The state of the machine keeps its tasks in one, and what changes it
//! goes through them.
#![tactic(auto)]

ghost use Rattle.std.specs.Prelude.{◌≡◌, ◌+◌, ◌<◌, ◌≤◌, ◌↔◌, [], length, IsTrue, IfOk, None, Some, option_copied};
ghost use Rattle.std.specs.Prelude.{vec_len, vec_capacity};
ghost use Rattle.std.specs.Option.{option_copied_mut};
ghost use Rattle.std.specs.Borrow.{Lends, sem};
ghost use Rattle.slab.specs.Slab.{get, ContainsKey, slab_len, HasRoomFor, Updates, entries};

use slab::{Iter, Slab};
use std::alloc::{AllocError, Global};
use std::marker::Model;
use std::ops::{Index, IndexMut};

/// A value that can be in a place before anything was put there.
pub trait Blank: Sized {
    /// Any value. It takes no memory.
    fn blank(alloc: Global) -> Self;
}

/// A value at an address of its own.
#[derive(Drop)]
pub struct Boxed<T> {
    boxed: Box<T>,
}

impl<T> Model for Boxed<T> {
    ghost Value = { T };

    ghost view = { λ h. h.boxed.value };
}

impl<T> Boxed<T> {
    ghost use Rattle.kept_slab.specs.contracts.Boxed.{the_row};

    /// The value.
    pub fn value(&self) -> &T
        ensures { result.now ≡ self.now }
    {
        &self.boxed
    }

    /// The value, for writing.
    fn value_mut(&mut self) -> &mut T
        ensures* lends { sem 𝓛 (Lends (the_row T.row) T.row self.entry result (λ w. w)) }
        ensures value { result.now ≡ self.old }
    {
        &mut self.boxed
    }
}

/// A slab whose values stay where they are. Its type keeps a spare value for each place that is free.
#[derive(Drop)]
pub struct KeptSlab<T> {
    places: Slab<Boxed<T>>,
    spares: Vec<Boxed<T>>,
}

impl<T> Model for KeptSlab<T> {
    ghost use Rattle.std.specs.Prelude.{◌≡◌, ◌+◌, ◌≤◌, vec_len, vec_capacity};
    ghost use Rattle.slab.specs.Slab.{Slab as Slots, slab_code, slab_len};

    ghost Value = { Slots T };

    ghost coded = { slab_code T.code };

    ghost view = { λ k. k.places };

    ghost invariant = { λ k. (slab_len k.places + vec_len k.spares ≡ k.places.capacity)
        × (k.places.capacity ≤ vec_capacity k.spares) };
}

/// Blank values, one for each of so many places.
fn blanks<T: Blank + Drop>(alloc: Global, places: usize) -> Result<Vec<Boxed<T>>, AllocError>
    ensures count { IfOk result (λ held. vec_len held ≡ places) }
    ensures spare { IfOk result (λ held. places ≤ vec_capacity held) }
{
    let mut held = Vec::with_capacity(alloc, places)?;
    for _ in 0..places {
        let at = Box::new(alloc, T::blank(alloc))?;
        held.push(Boxed { boxed: at })?;
    }
    Ok(held)
}

impl<T> KeptSlab<T> {
    ghost use Rattle.kept_slab.specs.Lends.{lends_value, lends_get};

    /// An empty slab for at least `capacity` values, whose memory it takes at once; `AllocError` where it runs out.
    pub fn with_capacity(alloc: Global, capacity: usize) -> Result<Self, AllocError>
    where
        T: Blank + Drop,
        ensures empty { IfOk result (λ k. k.slots ≡ []) }
        ensures first_key { IfOk result (λ k. k.vacant_key ≡ 0) }
        ensures capacity { IfOk result (λ k. capacity ≤ k.capacity) }
    {
        let places = Slab::with_capacity(alloc, capacity)?;
        let spares = blanks(alloc, places.capacity())?;
        Ok(KeptSlab { places, spares })
    }

    /// How many values fit.
    pub fn capacity(&self) -> usize
        ensures value { result ≡ self.now.capacity }
        ensures holds_all { slab_len self.now ≤ result }
        ensures slots { length self.now.slots ≤ result }
    {
        self.places.capacity()
    }

    /// Whether a key has a value.
    pub fn contains(&self, key: usize) -> bool
        ensures { IsTrue result ↔ ContainsKey self.now key }
    {
        self.places.contains(key)
    }

    /// The value of a key, if it has one.
    pub fn get(&self, key: usize) -> Option<&T>
        ensures { option_copied result ≡ get self.now key }
    {
        match self.places.get(key) {
            Some(held) => Some(held.value()),
            None => None,
        }
    }

    /// An iterator over the keys and values, by rising key.
    pub fn iter(&self) -> Iter<'_, Boxed<T>>
        ensures rest { result ≡ entries self.now }
        ensures len { length result ≡ slab_len self.now }
    {
        self.places.iter()
    }

    /// The value of a key that has one, for writing.
    fn value_mut(&mut self, key: usize) -> &mut T
        requires { ContainsKey self.old key }
        ensures* writes_back { sem 𝓛 (lends_value T.row self.entry key result) }
        ensures value { get self.old key ≡ Some result.now }
    {
        self.places[key].value_mut()
    }

    /// The value of a key for writing, if it has one.
    pub fn get_mut(&mut self, key: usize) -> Option<&mut T>
        ensures* writes_back { sem 𝓛 (lends_get T.row self.entry key result) }
        ensures value { option_copied_mut result ≡ get self.old key }
    {
        if self.contains(key) {
            Some(self.value_mut(key))
        } else {
            None
        }
    }

    /// Puts some value under the next key, which has a free place, and returns the key: a spare value, as it was left.
    /// It allocates no memory.
    pub fn insert_spare(&mut self) -> usize
        requires { HasRoomFor self.old 1 }
        ensures key { result ≡ self.old.vacant_key }
        ensures was_vacant { get self.old result ≡ None }
        ensures updates { (value : T) × Updates self.old self.new result (Some value) }
        ensures len { slab_len self.new ≡ slab_len self.old + 1 }
        ensures key_in_range { result < self.new.capacity }
        ensures capacity { self.new.capacity ≡ self.old.capacity }
    {
        match self.spares.pop() {
            Some(held) => self.places.insert_reserved(held),
            None => unreachable!(),
        }
    }

    /// Takes the value of a key out, and keeps it as a spare one.
    pub fn remove(&mut self, key: usize)
        requires { ContainsKey self.old key }
        ensures updates { Updates self.old self.new key None }
        ensures len { slab_len self.new + 1 ≡ slab_len self.old }
        ensures capacity { self.new.capacity ≡ self.old.capacity }
    {
        let held = self.places.remove(key);
        self.spares.push_reserved(held);
    }
}

impl<T> Index<usize> for KeptSlab<T> {
    type Output = T;

    ghost can_index = { ContainsKey };

    ghost index_gives = { λ k key value. get k key ≡ Some value };

    fn index(&self, key: usize) -> &T {
        let held = &self.places[key];
        held.value()
    }
}

impl<T> IndexMut<usize> for KeptSlab<T> {
    ghost use Rattle.kept_slab.specs.Lends.{lends_value};

    fn index_mut(&mut self, key: usize) -> &mut T
        requires { ContainsKey self.old key }
        ensures* writes_back { sem 𝓛 (lends_value T.row self.entry key result) }
        ensures value { get self.old key ≡ Some result.now }
    {
        self.value_mut(key)
    }
}
