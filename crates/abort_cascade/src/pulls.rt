//! A relation between nodes.

ghost use Rattle.std.specs.Prelude.{◌≡◌, ℕ, ◌<◌, ◌≤◌, Bool, true, length, slice_index};
ghost use Rattle.abort_cascade.specs.Cascade.{Marked};
ghost use Rattle.abort_cascade.specs.Growth.{Spreads, IsListOf};

use crate::closing::spread_by_looks;

/// A relation between the nodes below a number. It is library: the machine has a `Spreader`.
pub trait Pulls {
    /// How many nodes there are: they are numbered from 0.
    ghost count: { Self → ℕ };

    /// Whether a set that holds the first node has to hold the second too.
    ghost pull: { Self → ℕ → ℕ → Bool };

    /// How many nodes there are.
    fn len(&self) -> usize
        ensures { result ≡ count self.now };

    /// Whether a set that holds `a` has to hold `b` too.
    fn pulls(&self, a: usize, b: usize) -> bool
        requires first { a < count self.now }
        requires second { b < count self.now }
        ensures { result ≡ pull self.now a b };
}

/// What finds the nodes that a node pulls without a look at each of them.
pub trait Spreader {
    /// How many nodes there are: they are numbered from 0.
    ghost count: { Self → ℕ };

    /// Whether a set that holds the first node has to hold the second too.
    ghost pull: { Self → ℕ → ℕ → Bool };

    /// What it knows to find them.
    ghost knows: { Self → Type 0 };

    /// Marks what the node pulls. The `found` members that are listed stay, and each new one joins them; it returns how
    /// many are listed then.
    fn spread(&self, node: usize, marks: &mut [bool], members: &mut [usize], found: usize) -> usize
        requires knows { knows self.now }
        requires marks { length marks.old ≡ count self.now }
        requires members { length members.old ≡ length marks.old }
        requires marked { Marked marks.old node }
        requires listed { IsListOf marks.old members.old found }
        ensures spreads { Spreads (count self.now) (pull self.now) marks.old marks.new }
        ensures all { (b : ℕ) → b < length marks.old → pull self.now node b ≡ true → Marked marks.new b }
        ensures listed { IsListOf marks.new members.new result }
        ensures stay { (k : ℕ) → k < found → slice_index members.new k ≡ slice_index members.old k }
        ensures more { found ≤ result };
}

/// Finds what a node pulls by a look at each node.
#[derive(Drop)]
pub(crate) struct Looks<'a, P> {
    pub(crate) relation: &'a P,
}

impl<P: Pulls> Spreader for Looks<'_, P> {
    ghost count = { λ looks. P.count looks.relation.now };

    ghost pull = { λ looks. P.pull looks.relation.now };

    ghost knows = { λ looks. Unit {0} };

    fn spread(
        &self,
        node: usize,
        marks: &mut [bool],
        members: &mut [usize],
        found: usize,
    ) -> usize {
        spread_by_looks(self.relation, node, marks, members, found)
    }
}
