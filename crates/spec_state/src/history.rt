//! The committed tasks, with memory for all that may commit.

ghost use Rattle.std.specs.Prelude.{◌≡◌, ◌<◌, ◌≤◌, [], ◌∷◌, ◌++◌, length, IfOk};

use crate::serial_machine::{Entry, Journal};
use std::alloc::{AllocError, Global};
use std::marker::Model;

/// The committed tasks in the order of their commits, at most as many as its limit. It takes all its memory when it
/// is made.
#[derive(Drop)]
pub struct History {
    entries: Vec<Entry>,
    limit: u32,
}

impl Model for History {
    ghost use Rattle.std.specs.Prelude.{◌≤◌, vec_capacity, length};
    ghost use Rattle.spec_state.specs.Fits.{HistoryValue};

    ghost Value = { HistoryValue };

    ghost view = { λ h. record { limit = h.limit; entries = h.entries.items } };

    ghost invariant = { λ h. (length h.entries.items ≤ h.limit) × (h.limit ≤ vec_capacity h.entries) };
}

impl History {
    /// No task, with memory for so many.
    pub fn new(alloc: Global, limit: u32) -> Result<History, AllocError>
        ensures { IfOk result (λ history. history ≡ record { limit = limit; entries = [] }) }
    {
        Ok(History {
            entries: Vec::with_capacity(alloc, limit as usize)?,
            limit,
        })
    }

    /// The committed tasks.
    pub fn as_slice(&self) -> &[Entry]
        ensures entries { result.now ≡ self.now.entries }
        ensures few { length self.now.entries ≤ self.now.limit }
    {
        &self.entries
    }

    /// How many tasks have committed: at most the limit.
    pub fn count(&self) -> u32
        ensures count { result ≡ length self.now.entries }
        ensures few { result ≤ self.now.limit }
    {
        let _limit = self.limit;
        self.entries.len() as u32
    }

    /// Adds a task at the end, where fewer than the limit are there. It takes no memory.
    pub fn push(&mut self, entry: Entry)
        requires { length self.old.entries < self.old.limit }
        ensures { self.new ≡ record self.old { entries = self.old.entries ++ entry ∷ [] } }
    {
        match self.entries.push(entry) {
            Ok(()) => {}
            Err(_) => unreachable!(),
        }
    }

    /// The committed tasks as a journal. It takes no memory.
    pub fn into_journal(self) -> Journal
        ensures { result ≡ self.entries }
    {
        let History { entries, limit: _ } = self;
        Journal::from_vec(entries)
    }
}
