//! The heap of an index: candidates sift up and down in its slots.

ghost use Rattle.std.specs.Prelude.{◌≡◌, ◌<◌, ◌/◌, ◌∷◌, length};
ghost use Rattle.std.specs.List.Sorted.{IsPermutation};
ghost use Rattle.commit_arbiter.specs.Slots.{candidate_at};
ghost use Rattle.commit_arbiter.specs.Heap.{upto, IsHeap, IsHeapUp, IsHeapApart, IsLeastChild};
ghost use Rattle.commit_arbiter.specs.Heap.{SiftsUpOnce, SiftsDownOnce};

use crate::candidate::candidate_order;
use crate::slots::Slots;

/// Exchanges a candidate with its parent where it is less, and returns whether it did. The candidate at its old place
/// is noted.
fn sift_up_once(slots: &mut Slots, at: usize) -> bool
    requires below { 0 < at }
    requires within { at < length slots.old.candidates }
    requires heap { IsHeapUp upto (candidate_at slots.old.candidates) (length slots.old.candidates) at }
    ensures capacity { slots.new.capacity ≡ slots.old.capacity }
    ensures exchange { SiftsUpOnce slots.old.candidates slots.new.candidates at result }
{
    let above = (at - 1) / 2;
    if candidate_order(slots.get(at), slots.get(above)).is_lt() {
        slots.swap(at, above);
        slots.note(at);
        return true;
    }
    slots.note(at);
    false
}

/// Exchanges a candidate with its parent as long as it is less, and notes where it is then.
pub(crate) fn sift_up(slots: &mut Slots, start: usize)
    requires within { start < length slots.old.candidates }
    requires heap { IsHeapUp upto (candidate_at slots.old.candidates) (length slots.old.candidates) start }
    ensures capacity { slots.new.capacity ≡ slots.old.capacity }
    ensures heap { IsHeap slots.new.candidates }
    ensures permuted { IsPermutation slots.old.candidates slots.new.candidates }
{
    let mut at = start;
    while at > 0 {
        if !sift_up_once(slots, at) {
            return;
        }
        at = (at - 1) / 2;
    }
    slots.note(at);
}

/// The least child of a place that has one.
fn least_child(slots: &Slots, at: usize) -> usize
    requires { at < length slots.now.candidates / 2 }
    ensures { IsLeastChild slots.now.candidates at result }
{
    let many = slots.len();
    let left = 2 * at + 1;
    if left + 1 >= many {
        return left;
    }
    if candidate_order(slots.get(left + 1), slots.get(left)).is_lt() {
        left + 1
    } else {
        left
    }
}

/// Exchanges a candidate with its least child, and returns which it was. The child's new place is noted.
fn sift_down_once(slots: &mut Slots, at: usize) -> usize
    requires parent { at < length slots.old.candidates / 2 }
    requires heap { IsHeapApart upto (candidate_at slots.old.candidates) (length slots.old.candidates) at }
    ensures capacity { slots.new.capacity ≡ slots.old.capacity }
    ensures exchange { SiftsDownOnce slots.old.candidates slots.new.candidates at result }
{
    let child = least_child(slots, at);
    slots.swap(at, child);
    slots.note(at);
    child
}

/// Moves the one candidate that may stand wrong to where it belongs: down to a leaf, past the least child of each
/// place, and up again as far as it is less. What a removal puts there came from the end, and so mostly belongs
/// near a leaf: this takes about one comparison a row, where a test on the way down takes two.
pub(crate) fn settle(slots: &mut Slots, start: usize)
    requires within { start < length slots.old.candidates }
    requires heap { IsHeapApart upto (candidate_at slots.old.candidates) (length slots.old.candidates) start }
    ensures capacity { slots.new.capacity ≡ slots.old.capacity }
    ensures heap { IsHeap slots.new.candidates }
    ensures permuted { IsPermutation slots.old.candidates slots.new.candidates }
{
    let mut at = start;
    while at < slots.len() / 2 {
        at = sift_down_once(slots, at);
    }
    sift_up(slots, at);
}

/// Takes the candidate at a place out.
pub(crate) fn take_out(slots: &mut Slots, place: usize)
    requires within { place < length slots.old.candidates }
    requires heap { IsHeap slots.old.candidates }
    ensures capacity { slots.new.capacity ≡ slots.old.capacity }
    ensures heap { IsHeap slots.new.candidates }
    ensures permuted { IsPermutation slots.old.candidates
        (candidate_at slots.old.candidates place ∷ slots.new.candidates) }
{
    let last = slots.len() - 1;
    slots.swap(place, last);
    slots.pop();
    if place < last {
        settle(slots, place);
    }
}
