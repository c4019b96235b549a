//! The list of pending tasks.

ghost use Rattle.std.specs.Prelude.{◌≡◌, ◌==◌, ◌≤◌, ◌<◌, ◌+◌, ◌-◌, ◌*◌, ◌%◌, ◌^◌, ◌++◌, ◌∷◌, [], length, IfOk};
ghost use Rattle.std.specs.Prelude.{OnOk, OnErr};
ghost use Rattle.std.specs.List.{list_any};
ghost use Rattle.pending_list.specs.Pending.{is_named, find_named, without_name, AllBefore, first_least};
ghost use Rattle.pending_list.specs.Slots.{present, NamesRise};

use crate::slot::{Slot, count, place_of, trim};
use crate::task::PendingTask;
use crate::tournament::{NO_RANK, Tournament};
use std::alloc::{AllocError, Global};
use std::marker::Model;
use task_desc::Name;

/// The numbers of slots lie below this: the number of a slot is the lower half of its rank.
const SLOT_NUMBERS: u64 = 1 << 32;

/// The pending tasks of a domain, in the order of their arrival, which is that of their names.
///
/// Each task has a slot. A slot that its task left stays vacant until no task follows it, or until the list moves. A
/// name is found by binary search over the slots, whose names rise; the first task of the least timestamp is at the
/// root of a tournament of ranks, a timestamp followed by a slot's number.
#[derive(Drop)]
pub struct PendingList {
    alloc: Global,
    slots: Vec<Slot>,
    ranks: Tournament,
}

impl Model for PendingList {
    ghost use Rattle.std.specs.Prelude.{length, ◌-◌, vec_capacity};
    ghost use Rattle.pending_list.specs.Pending.{PendingValue};
    ghost use Rattle.pending_list.specs.Slots.{present, AreRanked};

    ghost Value = { PendingValue };

    ghost view = { λ p. record { tasks = present p.slots.items; spare = length p.ranks - length p.slots.items } };

    ghost invariant = { λ p. AreRanked p.slots.items p.ranks (vec_capacity p.slots) };
}

impl PendingList {
    /// No tasks, and no memory for any.
    pub fn new(alloc: Global) -> PendingList
        ensures { result ≡ record { tasks = []; spare = 0 } }
    {
        PendingList {
            alloc,
            slots: Vec::new(alloc),
            ranks: Tournament::new(alloc),
        }
    }

    /// No tasks, with memory for so many.
    fn with_spare(alloc: Global, places: usize) -> Result<PendingList, AllocError>
        requires { places < 2 ^ 32 }
        ensures { IfOk result (λ list. list ≡ record { tasks = []; spare = places }) }
    {
        let slots = Vec::with_capacity(alloc, places)?;
        let ranks = Tournament::with_width(alloc, places as u32)?;
        Ok(PendingList {
            alloc,
            slots,
            ranks,
        })
    }

    /// How many tasks can join before memory is taken again.
    pub fn spare_capacity(&self) -> usize
        ensures { result ≡ self.now.spare }
    {
        self.ranks.len() - self.slots.len()
    }

    /// Whether no task is pending.
    pub fn is_empty(&self) -> bool
        ensures { result ≡ (length self.now.tasks == 0) }
    {
        self.slots.is_empty()
    }

    /// Takes memory for so many more tasks. Where there is too little the list moves into fresh slots: one for each
    /// task, and as many again or so many more, whichever is greater; where these are more than 4,294,967,295, that is
    /// refused as out of memory.
    pub fn reserve(&mut self, more: usize) -> Result<(), AllocError>
        ensures tasks { self.new.tasks ≡ self.old.tasks }
        ensures spare { OnOk result (more ≤ self.new.spare) }
        ensures unchanged { OnErr result (self.new ≡ self.old) }
    {
        if self.spare_capacity() < more {
            *self = self.larger_list(more)?;
        }
        Ok(())
    }

    /// The same tasks in fresh slots, with memory for so many more.
    fn larger_list(&self, more: usize) -> Result<PendingList, AllocError>
        ensures tasks { IfOk result (λ list. list.tasks ≡ self.now.tasks) }
        ensures spare { IfOk result (λ list. more ≤ list.spare) }
    {
        let live = count(&self.slots);
        let width = live.saturating_add(live.max(more));
        if width as u64 >= SLOT_NUMBERS {
            return Err(AllocError);
        }
        let mut fresh = PendingList::with_spare(self.alloc, width)?;
        copy(&self.slots, &mut fresh);
        Ok(fresh)
    }

    /// A task joins at the end. No memory.
    pub fn push(&mut self, task: PendingTask)
        requires spare { 0 < self.old.spare }
        requires later { AllBefore task.name self.old.tasks }
        ensures tasks { self.new.tasks ≡ self.old.tasks ++ task ∷ [] }
        ensures spare { self.new.spare + 1 ≡ self.old.spare }
    {
        let place = self.slots.len();
        self.ranks.set(place, rank(task.ts, place));
        self.slots.push(Slot { task, here: true }).unwrap();
    }

    /// The task of a name. Who asks by name mostly asks for the first of the least, which is tried first.
    pub fn find(&self, name: Name) -> Option<PendingTask>
        ensures { result ≡ find_named name self.now.tasks }
    {
        let Some(place) = place_of(&self.slots, name, slot_of(self.ranks.least())) else {
            return None;
        };
        Some(self.slots[place].task)
    }

    /// Whether a task of a name is pending.
    pub fn contains(&self, name: Name) -> bool
        ensures { result ≡ list_any (is_named name) self.now.tasks }
    {
        self.find(name).is_some()
    }

    /// The task of a name leaves, if it is pending. No memory.
    pub fn remove(&mut self, name: Name)
        ensures tasks { self.new.tasks ≡ without_name name self.old.tasks }
        ensures spare { self.old.spare ≤ self.new.spare }
    {
        if let Some(place) = place_of(&self.slots, name, slot_of(self.ranks.least())) {
            self.slots[place].here = false;
            self.ranks.set(place, NO_RANK);
            trim(&mut self.slots);
        }
    }

    /// The first of the tasks with the least timestamp.
    pub fn first_least(&self) -> Option<PendingTask>
        ensures { result ≡ first_least self.now.tasks }
    {
        let place = slot_of(self.ranks.least());
        if place < self.slots.len() {
            return Some(self.slots[place].task);
        }
        None
    }
}

/// The rank of a slot's task: by timestamp, then by the slot's number.
fn rank(ts: u32, place: usize) -> u64
    requires { place < 2 ^ 32 }
    ensures { result ≡ ts * 2 ^ 32 + place }
{
    u64::from(ts) << 32 | place as u64
}

/// The slot of a rank, which lies behind all slots for the rank of what isn't there.
fn slot_of(rank: u64) -> usize
    ensures { result ≡ rank % 2 ^ 32 }
{
    (rank % SLOT_NUMBERS) as usize
}

/// What slots hold joins a list, which has memory for it.
fn copy(slots: &[Slot], list: &mut PendingList)
    requires rises { NamesRise slots.now }
    requires empty { list.old.tasks ≡ [] }
    requires spare { length (present slots.now) ≤ list.old.spare }
    ensures tasks { list.new.tasks ≡ present slots.now }
    ensures spare { list.new.spare + length (present slots.now) ≡ list.old.spare }
{
    for slot in slots {
        if slot.here {
            list.push(slot.task);
        }
    }
}
