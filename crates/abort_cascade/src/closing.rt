//! Sets that are closed under a relation, each grown in one walk.

ghost use Rattle.std.specs.Prelude.{◌≡◌, ℕ, ◌<◌, ◌≤◌, ◌↔◌, true, length, take, count_by, slice_index, Contains};
ghost use Rattle.abort_cascade.specs.Cascade.{Marked, IsLeastClosed, ClosesToUnion, ClosesToLeast};
ghost use Rattle.abort_cascade.specs.Growth.{Spreads, IsListOf};

use crate::pulls::Looks;
use crate::{Pulls, Spreader};

/// Grows the marks to exactly the least set that contains them and with each node all that it pulls, and returns its
/// size.
///
/// Its nodes are then at the front of `members`, each once, in the order in which they were found. `pulls` is called at
/// most once for each of them and each node.
pub fn close<P: Pulls>(relation: &P, marks: &mut [bool], members: &mut [usize]) -> usize
    requires marks { length marks.old ≡ P.count relation.now }
    requires members { length members.old ≡ P.count relation.now }
    ensures least { IsLeastClosed (P.count relation.now) (P.pull relation.now) (Marked marks.old) marks.new }
    ensures size { result ≡ count_by (λ mark. mark) marks.new }
    ensures listed { (node : ℕ) → Marked marks.new node ↔ Contains (take result members.new) node }
{
    let found = list_marked(marks, members);
    close_listed(&Looks { relation }, marks, members, found)
}

/// Does what `close` does for marked nodes that are the first `found` members already. `spread` is called once for each
/// member of the set.
pub fn close_listed<S: Spreader>(
    relation: &S,
    marks: &mut [bool],
    members: &mut [usize],
    listed: usize,
) -> usize
    requires knows { S.knows relation.now }
    requires marks { length marks.old ≡ S.count relation.now }
    requires members { length members.old ≡ length marks.old }
    requires listed { IsListOf marks.old members.old listed }
    ensures least { IsLeastClosed (S.count relation.now) (S.pull relation.now) (Marked marks.old) marks.new }
    ensures size { result ≡ count_by (λ mark. mark) marks.new }
    ensures listed { (node : ℕ) → Marked marks.new node ↔ Contains (take result members.new) node }
{
    let mut found = listed;
    let mut next = 0;
    while next < found {
        found = relation.spread(members[next], marks, members, found);
        next += 1;
    }
    found
}

/// Two laws. The least closed set of several nodes is the union of the least closed sets of each, and each closed set
/// that holds those nodes holds it.
pub fn closed_sets()
    ensures union { ClosesToUnion }
    ensures least { ClosesToLeast }
{}

/// Puts the marked nodes at the front of the members, the lowest first, and returns how many they are.
pub fn list_marked(marks: &[bool], members: &mut [usize]) -> usize
    requires { length members.old ≡ length marks.now }
    ensures { IsListOf marks.now members.new result }
{
    let mut found = 0;
    for (node, marked) in marks.iter().enumerate() {
        if *marked {
            members[found] = node;
            found += 1;
        }
    }
    found
}

/// Marks what the node pulls, by a look at each node. The `found` members that are listed stay, and each new one joins
/// them; it returns how many are listed then.
pub(crate) fn spread_by_looks<P: Pulls>(
    relation: &P,
    node: usize,
    marks: &mut [bool],
    members: &mut [usize],
    found: usize,
) -> usize
    requires marks { length marks.old ≡ P.count relation.now }
    requires members { length members.old ≡ length marks.old }
    requires marked { Marked marks.old node }
    requires listed { IsListOf marks.old members.old found }
    ensures spreads { Spreads (P.count relation.now) (P.pull relation.now) marks.old marks.new }
    ensures all { (b : ℕ) → b < length marks.old → P.pull relation.now node b ≡ true → Marked marks.new b }
    ensures listed { IsListOf marks.new members.new result }
    ensures stay { (k : ℕ) → k < found → slice_index members.new k ≡ slice_index members.old k }
    ensures more { found ≤ result }
{
    let mut size = found;
    for b in 0..marks.len() {
        if !marks[b] && relation.pulls(node, b) {
            marks[b] = true;
            members[size] = b;
            size += 1;
        }
    }
    size
}
