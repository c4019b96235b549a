//! Memory that is taken before it is needed, for lists that contracts see without their capacity.
//!
//! A `Buffer` is an empty vector of a capacity that contracts see. A list that is full moves its items into the
//! buffer, and the two vectors change places: so a push after a reservation takes no memory, whichever list it is.
//! It stands on nothing. The layers that keep lists of their own (a task's log, its children, the output) call it.
//! To reserve costs an allocation at most, and a push amortized a constant: a move of all items only where the list
//! was full.
#![tactic(auto)]

ghost use Rattle.std.specs.Prelude.{◌≡◌, ◌≤◌, ◌+◌, [], vec_len, vec_capacity, IsOk, OnOk, OnErr};

use std::alloc::{AllocError, Global};
use std::marker::Model;
use std::mem;

/// Spare memory that a list can grow into. Contracts see for how many items.
#[derive(Drop)]
pub struct Buffer<T> {
    empty: Vec<T>,
}

impl<T> Model for Buffer<T> {
    ghost use Rattle.std.specs.Prelude.{◌≡◌, ℕ, [], vec_capacity};

    ghost Value = { ℕ };

    ghost view = { λ b. vec_capacity b.empty };

    ghost invariant = { λ b. b.empty.items ≡ [] };
}

impl<T> Buffer<T> {
    /// Nothing spare; what is reserved comes from `alloc`.
    pub fn new(alloc: Global) -> Self {
        Buffer {
            empty: Vec::new(alloc),
        }
    }

    /// For how many items memory is spare.
    pub fn spare_capacity(&self) -> usize
        ensures { result ≡ self.now }
    {
        self.empty.capacity()
    }

    /// Makes so many items spare. Where there is as much, no memory is taken; after an error there is as much as
    /// before.
    pub fn reserve(&mut self, items: usize) -> Result<(), AllocError>
        ensures spare { OnOk result (items ≤ self.new) }
        ensures stays { self.old ≤ self.new }
        ensures enough { items ≤ self.old → IsOk result }
        ensures err { OnErr result (self.new ≡ self.old) }
    {
        self.empty.reserve(items)
    }

    /// Sees to it that the list has memory for `more` items: where it has not, its items move into the spare one,
    /// and the buffer keeps what the list had. It takes no memory.
    pub fn lend_spare(&mut self, list: &mut Vec<T>, more: usize)
        requires { vec_len list.old + more ≤ self.old }
        ensures items { list.new.items ≡ list.old.items }
        ensures spare { vec_len list.new + more ≤ vec_capacity list.new }
    {
        if list.capacity() - list.len() < more {
            swap_into(list, &mut self.empty, more);
        }
    }
}

/// Moves the items into an empty vector that is large enough, and takes that one's place.
fn swap_into<T>(items: &mut Vec<T>, empty: &mut Vec<T>, more: usize)
    requires empty { empty.old.items ≡ [] }
    requires spare { vec_len items.old + more ≤ vec_capacity empty.old }
    ensures items { items.new.items ≡ items.old.items }
    ensures spare { vec_len items.new + more ≤ vec_capacity items.new }
    ensures empty { empty.new.items ≡ [] }
{
    match empty.append(items) {
        Ok(()) => mem::swap(items, empty),
        Err(_) => unreachable!(),
    }
}
