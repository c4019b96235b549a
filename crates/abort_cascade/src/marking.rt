//! The closed set of one node, with no memory but the marks.

ghost use Rattle.std.specs.Prelude.{◌≡◌, ℕ, ◌<◌, true, false, length};
ghost use Rattle.abort_cascade.specs.Cascade.{Marked, IsClosed, IsLeastClosed, OnlyNode};
ghost use Rattle.abort_cascade.specs.Growth.{Spreads, SaysGrown};

use crate::Pulls;

/// Marks exactly the least set that holds the first node and with each node all that it pulls.
///
/// What the marks were before does not matter. It goes over the marked nodes until a round marks nothing new: at
/// most as many rounds as the set has nodes, each of at most one call of `pulls` for each of these and each node.
/// Who has memory for the members calls `close`. It is library: the machine calls `close_listed`.
pub fn mark<P: Pulls>(relation: &P, first: usize, marks: &mut [bool])
    requires len { length marks.old ≡ P.count relation.now }
    requires node { first < P.count relation.now }
    ensures { IsLeastClosed (P.count relation.now) (P.pull relation.now) (OnlyNode first) marks.new }
{
    marks.fill(false);
    marks[first] = true;
    grow(relation, marks);
}

/// Grows the marks to exactly the least set that holds them and with each node all that it pulls.
fn grow<P: Pulls>(relation: &P, marks: &mut [bool])
    requires { length marks.old ≡ P.count relation.now }
    ensures { IsLeastClosed (P.count relation.now) (P.pull relation.now) (Marked marks.old) marks.new }
{
    let mut grown = true;
    while grown {
        grown = pass(relation, marks);
    }
}

/// Marks what each marked node pulls, and says whether a mark is new.
fn pass<P: Pulls>(relation: &P, marks: &mut [bool]) -> bool
    requires { length marks.old ≡ P.count relation.now }
    ensures spreads { Spreads (P.count relation.now) (P.pull relation.now) marks.old marks.new }
    ensures closed { result ≡ false → IsClosed (P.count relation.now) (P.pull relation.now) (Marked marks.new) }
    ensures tells { SaysGrown marks.old marks.new result }
{
    let mut grown = false;
    for a in 0..marks.len() {
        if marks[a] {
            grown |= mark_pulled(relation, a, marks);
        }
    }
    grown
}

/// Marks what the node pulls, and says whether a mark is new.
fn mark_pulled<P: Pulls>(relation: &P, a: usize, marks: &mut [bool]) -> bool
    requires len { length marks.old ≡ P.count relation.now }
    requires node { a < length marks.old }
    requires marked { Marked marks.old a }
    ensures spreads { Spreads (P.count relation.now) (P.pull relation.now) marks.old marks.new }
    ensures all { (b : ℕ) → b < length marks.old → P.pull relation.now a b ≡ true → Marked marks.new b }
    ensures tells { SaysGrown marks.old marks.new result }
{
    let mut grown = false;
    for b in 0..marks.len() {
        if !marks[b] && relation.pulls(a, b) {
            marks[b] = true;
            grown = true;
        }
    }
    grown
}
