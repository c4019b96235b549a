//! Places for tasks, in the order of their arrival.

ghost use Rattle.std.specs.Prelude.{◌≡◌, ◌+◌, ◌*◌, ◌^◌, ◌<◌, ◌≤◌, ◌&&◌, true, length, vec_len, vec_capacity};
ghost use Rattle.std.specs.Prelude.{MatchOption};
ghost use Rattle.pending_list.specs.Pending.{name_before, is_named};
ghost use Rattle.pending_list.specs.Slots.{present, NamesRise, IsFirstNotBefore, IsPlaceOfName, IsNowhere, IsTrimmed};

use crate::task::PendingTask;
use task_desc::Name;

/// A place for a task, which keeps the task's name when it left.
#[derive(Clone, Copy, Debug)]
pub(crate) struct Slot {
    pub task: PendingTask,
    pub here: bool,
}

/// Whether a name comes before another.
fn comes_before(a: Name, b: Name) -> bool
    ensures { result ≡ name_before a b }
{
    a.creator < b.creator || a.creator == b.creator && a.index < b.index
}

/// Whether the task of a name is there.
fn holds(slot: &Slot, name: Name) -> bool
    ensures { result ≡ (slot.now.here && is_named name slot.now.task) }
{
    let found = slot.task.name;
    slot.here && found.creator == name.creator && found.index == name.index
}

/// Where the first slot stands whose name isn't before this one.
fn first_not_before(slots: &[Slot], name: Name) -> usize
    requires { NamesRise slots.now }
    ensures { IsFirstNotBefore name slots.now result }
{
    slots.partition_point(|slot| comes_before(slot.task.name, name))
}

/// Where the task of a name is, by halving the slots.
fn look_for(slots: &[Slot], name: Name) -> Option<usize>
    requires { NamesRise slots.now }
    ensures { MatchOption result (IsNowhere name slots.now) (IsPlaceOfName name slots.now) }
{
    let place = first_not_before(slots, name);
    if place == slots.len() {
        return None;
    }
    if holds(&slots[place], name) {
        Some(place)
    } else {
        None
    }
}

/// Where the task of a name is. A right guess saves the search.
pub(crate) fn place_of(slots: &[Slot], name: Name, guess: usize) -> Option<usize>
    requires { NamesRise slots.now }
    ensures { MatchOption result (IsNowhere name slots.now) (IsPlaceOfName name slots.now) }
{
    if guess < slots.len() {
        if holds(&slots[guess], name) {
            return Some(guess);
        }
    }
    look_for(slots, name)
}

/// Drops the vacant slots at the end.
pub(crate) fn trim(slots: &mut Vec<Slot>)
    ensures trimmed { IsTrimmed slots.old.items slots.new.items }
    ensures capacity { vec_capacity slots.new ≡ vec_capacity slots.old }
{
    while let Some(slot) = slots.last() {
        if slot.here {
            return;
        }
        slots.pop();
    }
}

/// How many tasks are there.
pub(crate) fn count(slots: &[Slot]) -> usize
    ensures { result ≡ length (present slots.now) }
{
    let mut many = 0;
    for slot in slots {
        if slot.here {
            many += 1;
        }
    }
    many
}
