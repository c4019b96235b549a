//! A list that outcomes are made of.

ghost use Rattle.std.specs.Prelude.{◌≡◌, ◌+◌, ◌<◌, ◌≤◌, ◌++◌, ◌∷◌, [], length, OnOk, OnErr};

use spare_buffer::Buffer;
use std::alloc::{AllocError, Global};
use std::marker::Model;

/// Items in order. Contracts see the list alone.
#[derive(Drop)]
pub struct Items<T> {
    items: Vec<T>,
}

impl<T> Model for Items<T> {
    ghost use Rattle.std.specs.Prelude.{List};

    ghost Value = { List T };

    ghost view = { λ list. list.items.items };
}

impl<T> Items<T> {
    /// The empty list, which grows by this allocator.
    pub fn new(alloc: Global) -> Self
        ensures { result ≡ [] }
    {
        Items {
            items: Vec::new(alloc),
        }
    }

    /// The list handed in. It takes no memory.
    pub fn from_vec(items: Vec<T>) -> Self
        ensures { result ≡ items.items }
    {
        Items { items }
    }

    /// The items.
    pub fn as_slice(&self) -> &[T]
        ensures { result.now ≡ self.now }
    {
        &self.items
    }
}

impl<T: Drop> Items<T> {
    /// Adds an item at the end; when out of memory the list stays as it was.
    pub fn push(&mut self, item: T) -> Result<(), AllocError>
        ensures ok { OnOk result (self.new ≡ self.old ++ item ∷ []) }
        ensures err { OnErr result (self.new ≡ self.old) }
    {
        self.items.push(item)?;
        Ok(())
    }

    /// Adds an item at the end, by what is spare in the buffer where the list has none. It takes no memory.
    pub fn push_with(&mut self, spare: &mut Buffer<T>, item: T)
        requires { length self.old < spare.old }
        ensures { self.new ≡ self.old ++ item ∷ [] }
    {
        spare.lend_spare(&mut self.items, 1);
        match self.items.push(item) {
            Ok(()) => {}
            Err(_) => unreachable!(),
        }
    }

    /// Forgets all items, and keeps the memory for them.
    pub fn clear(&mut self)
        ensures { self.new ≡ [] }
    {
        self.items.clear();
    }
}

impl<T: Copy + Drop> Items<T> {
    /// Adds these items at the end, by what is spare in the buffer where the list has none. It takes no memory.
    pub fn append_with(&mut self, spare: &mut Buffer<T>, more: &[T])
        requires { length self.old + length more.now ≤ spare.old }
        ensures { self.new ≡ self.old ++ more.now }
    {
        spare.lend_spare(&mut self.items, more.len());
        match self.items.extend_from_slice(more) {
            Ok(()) => {}
            Err(_) => unreachable!(),
        }
    }
}
