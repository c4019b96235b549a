//! The places of a block, in which its tasks stay.

ghost use Rattle.std.specs.Prelude.{◌≡◌, ◌+◌, ◌<◌, ◌≤◌, ◌↔◌, [], ◌∷◌, length, map, slice_get, Some, IfSome, IfNone};
ghost use Rattle.std.specs.Prelude.{IsNone, IsOk, OnErr, OnOk, OnSome};
ghost use Rattle.std.specs.List.{insert};
ghost use Rattle.std.specs.List.Sorted.{IsStrictlyIncreasing};
ghost use Rattle.task_desc.specs.Record.{IsDesc};
ghost use Rattle.spill_store.specs.SpilledTasks.{renumbered_spilled};

use crate::kept::Kept;
use fractal_vt::Vt;
use std::alloc::{AllocError, Global};
use std::collections::VecDeque;
use std::marker::Model;
use task_desc::Desc;

/// How many places a shelf has at most, so that the number of a place takes four bytes.
const MAX_PLACES: usize = 0x1_0000_0000;

/// A list of spilled tasks that stay where they are in memory: what a change moves is the number of a place.
#[derive(Drop)]
pub(crate) struct Shelf {
    /// What each place holds, or was left with.
    kept: Vec<Kept>,
    /// The places in use, in the order of the list.
    order: VecDeque<u32>,
    /// The places that are free.
    free: Vec<u32>,
    /// How many tasks it has memory for.
    capacity: usize,
}

impl Model for Shelf {
    ghost use Rattle.std.specs.Prelude.{◌-◌, length, vec_capacity};
    ghost use Rattle.std.specs.VecDeque.{deque_capacity};
    ghost use Rattle.spill_store.specs.SpilledTasks.{BlockValue};
    ghost use Rattle.spill_store.specs.Shelved.{IsShelved, at_places};

    ghost Value = { BlockValue };

    ghost view = { λ s. record {
      tasks = at_places s.kept.items s.order.items;
      spare = s.capacity - length s.order.items;
    } };

    ghost invariant = { λ s.
        IsShelved s.kept.items s.order.items s.free.items s.capacity
        (deque_capacity s.order) (vec_capacity s.kept) (vec_capacity s.free) };
}

impl Shelf {
    /// An empty list, which takes the memory of its growth from `alloc`.
    pub(crate) fn new(alloc: Global) -> Shelf
        ensures { result.tasks ≡ [] }
    {
        Shelf {
            kept: Vec::new(alloc),
            order: VecDeque::new(alloc),
            free: Vec::new(alloc),
            capacity: 0,
        }
    }

    /// How many tasks it holds.
    pub(crate) fn len(&self) -> usize
        ensures { result ≡ length self.now.tasks }
    {
        self.order.len()
    }

    /// Takes memory for `more` tasks. What was spare stays so, and where that is enough no memory is taken.
    pub(crate) fn reserve(&mut self, more: usize) -> Result<(), AllocError>
        ensures tasks { self.new.tasks ≡ self.old.tasks }
        ensures spare { OnOk result (more ≤ self.new.spare) }
        ensures stays { self.old.spare ≤ self.new.spare }
        ensures enough { more ≤ self.old.spare → IsOk result }
        ensures err { OnErr result (self.new ≡ self.old) }
    {
        if more <= self.capacity - self.order.len() {
            return Ok(());
        }
        self.order.reserve(more)?;
        let wanted = self.order.len() + more;
        if wanted > MAX_PLACES {
            return Err(AllocError);
        }
        self.kept.reserve(wanted.saturating_sub(self.kept.len()))?;
        self.free.reserve(wanted.saturating_sub(self.free.len()))?;
        self.capacity = wanted;
        Ok(())
    }

    /// The task at a place of the list.
    pub(crate) fn get(&self, at: usize) -> &Kept
        requires { at < length self.now.tasks }
        ensures { slice_get self.now.tasks at ≡ Some result.now }
    {
        let place = self.order[at] as usize;
        &self.kept[place]
    }

    /// Puts a task in at a place of the list.
    pub(crate) fn insert(&mut self, at: usize, fresh: Kept)
        requires spare { 1 ≤ self.old.spare }
        requires within { at ≤ length self.old.tasks }
        ensures tasks { self.new.tasks ≡ insert self.old.tasks at fresh }
        ensures spare { self.new.spare + 1 ≡ self.old.spare }
    {
        match self.free.pop() {
            Some(place) => {
                self.kept[place as usize] = fresh;
                match self.order.insert(at, place) {
                    Ok(()) => {}
                    Err(_) => unreachable!(),
                }
            }
            None => {
                let place = self.kept.len() as u32;
                match self.kept.push(fresh) {
                    Ok(()) => {}
                    Err(_) => unreachable!(),
                }
                match self.order.insert(at, place) {
                    Ok(()) => {}
                    Err(_) => unreachable!(),
                }
            }
        }
    }

    /// Takes the first task out.
    pub(crate) fn take_first(&mut self) -> Option<(Desc, Vt)>
        ensures none { IsNone result ↔ (self.old.tasks ≡ []) }
        ensures first { IfSome result
            (λ taken. self.old.tasks ≡ record { desc = taken.0; domain = taken.1 } ∷ self.new.tasks) }
        ensures fits { IfSome result (λ taken. IsDesc taken.0 × (length taken.1 + 1 ≡ taken.0.depth)) }
        ensures empty { IfNone result (self.new ≡ self.old) }
        ensures spare { OnSome result (self.new.spare ≡ self.old.spare + 1) }
    {
        let place = self.order.pop_front()?;
        match self.free.push(place) {
            Ok(()) => {}
            Err(_) => unreachable!(),
        }
        Some(self.kept[place as usize].parts())
    }

    /// Replaces each tiebreaker of the domains by its place in the table.
    pub(crate) fn renumber(&mut self, table: &[u64])
        requires { IsStrictlyIncreasing table.now }
        ensures tasks { self.new.tasks ≡ map (renumbered_spilled table.now) self.old.tasks }
        ensures spare { self.new.spare ≡ self.old.spare }
    {
        renumber_all(&mut self.kept, table);
    }
}

/// Replaces each tiebreaker of the domains by its place in the table.
fn renumber_all(kept: &mut [Kept], table: &[u64])
    requires { IsStrictlyIncreasing table.now }
    ensures { kept.new ≡ map (renumbered_spilled table.now) kept.old }
{
    for one in kept.iter_mut() {
        one.renumber(table);
    }
}
