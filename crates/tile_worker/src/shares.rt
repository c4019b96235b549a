//! How many events each worker made.

ghost use Rattle.std.specs.Prelude.{◌≡◌, ◌≤◌, ◌<◌, ◌+◌, ◌^◌, ◌∷◌, ◌++◌, [], length, sum};

use arrayvec::ArrayVec;
use std::marker::Model;

/// How many events each of at most 16 workers made. It keeps the numbers in itself.
#[derive(Drop)]
pub struct Shares {
    amounts: ArrayVec<u64, 16>,
}

impl Model for Shares {
    ghost use Rattle.std.specs.Prelude.{ℕ, List};

    ghost Value = { List ℕ };

    ghost view = { λ s. s.amounts.items };
}

impl Shares {
    /// The number of each worker, the lowest worker first.
    pub fn as_slice(&self) -> &[u64]
        ensures { result.now ≡ self.now }
    {
        self.amounts.as_slice()
    }

    /// That of one worker.
    pub(crate) fn one(amount: u64) -> Shares
        ensures { result ≡ amount ∷ [] }
    {
        let mut amounts = ArrayVec::new();
        amounts.push(amount);
        Shares { amounts }
    }

    /// Adds those of further workers.
    pub(crate) fn extend(&mut self, more: &Shares)
        requires { length self.old + length more.now ≤ 16 }
        ensures { self.new ≡ self.old ++ more.now }
    {
        let _ = self.amounts.try_extend_from_slice(more.as_slice());
    }

    /// Adds events to those of the first worker.
    pub(crate) fn add_to_first(&mut self, events: u64)
        requires some { 1 ≤ length self.old }
        requires fits { sum self.old + events < 2 ^ 64 }
        ensures sum { sum self.new ≡ sum self.old + events }
        ensures length { length self.new ≡ length self.old }
    {
        let first = self.amounts.as_mut_slice();
        first[0] += events;
    }
}
