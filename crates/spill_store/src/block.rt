//! The block of one tile.

ghost use Rattle.std.specs.Prelude.{◌≡◌, ◌+◌, ◌<◌, ◌≤◌, ◌↔◌, [], ◌∷◌, length, map, slice_get, Some, IfSome};
ghost use Rattle.std.specs.Prelude.{IfNone};
ghost use Rattle.std.specs.Prelude.{IsNone, IsOk, IsTrue, OnErr, OnOk, OnSome, option_map};
ghost use Rattle.std.specs.List.Sorted.{IsStrictlyIncreasing};
ghost use Rattle.fractal_vt.specs.Sorted.{IsInOrder, place_for};
ghost use Rattle.task_desc.specs.Record.{IsDesc};
ghost use Rattle.spill_store.specs.SpilledTasks.{by_key, after_push, first_key, TakesLeast, IsLeastKey};
ghost use Rattle.spill_store.specs.SpilledTasks.{renumbered_spilled};
ghost use Rattle.spill_store.specs.SpilledTasks.{HoldsSpilled};

use crate::kept::Kept;
use crate::shelf::Shelf;
use fractal_vt::{Key, Vt, cmp};
use std::alloc::{AllocError, Global};
use std::marker::Model;
use task_desc::Desc;

/// The spilled tasks of one tile by their open keys, those of one key in the order in which they were pushed.
///
/// Each stays at its place; a ring has the numbers of these places, the least task's at its front. To take the least
/// task moves nothing, and a push, which finds its place by comparisons in the logarithm of the length, moves the
/// numbers before it or those after it, whichever are fewer.
#[derive(Drop)]
pub struct Block {
    shelf: Shelf,
}

impl Model for Block {
    ghost use Rattle.fractal_vt.specs.Sorted.{IsInOrder};
    ghost use Rattle.spill_store.specs.SpilledTasks.{BlockValue, by_key};

    ghost Value = { BlockValue };

    ghost view = { λ b. b.shelf };

    ghost invariant = { λ b. IsInOrder by_key b.shelf.tasks };
}

impl Block {
    /// An empty block, which takes the memory of its growth from `alloc`.
    pub fn new(alloc: Global) -> Block
        ensures { result.tasks ≡ [] }
    {
        Block {
            shelf: Shelf::new(alloc),
        }
    }

    /// Sees to it that `more` pushes are spare. What was spare stays so, and where that is enough no memory is taken.
    pub fn reserve(&mut self, more: usize) -> Result<(), AllocError>
        ensures tasks { self.new.tasks ≡ self.old.tasks }
        ensures spare { OnOk result (more ≤ self.new.spare) }
        ensures stays { self.old.spare ≤ self.new.spare }
        ensures enough { more ≤ self.old.spare → IsOk result }
        ensures err { OnErr result (self.new ≡ self.old) }
    {
        self.shelf.reserve(more)
    }

    /// Adds a task with its domain, behind those whose keys are not greater.
    pub fn push(&mut self, desc: &Desc, domain: &Vt)
        requires spare { 1 ≤ self.old.spare }
        requires desc { IsDesc desc.now }
        requires domain { length domain.now + 1 ≡ desc.now.depth }
        ensures tasks { self.new.tasks
            ≡ after_push self.old.tasks (record { desc = desc.now; domain = domain.now }) }
        ensures spare { self.old.spare ≤ self.new.spare + 1 }
    {
        let fresh = Kept::new(desc, domain);
        let place = place_for(&self.shelf, &fresh);
        self.shelf.insert(place, fresh);
    }

    /// Takes out the first task with its domain: that of the least open key, the earliest of those on a tie. All others
    /// stay in their order. None exactly where the block is empty.
    pub fn take_least(&mut self) -> Option<(Desc, Vt)>
        ensures none { IsNone result ↔ (self.old.tasks ≡ []) }
        ensures first { IfSome result
            (λ taken. self.old.tasks ≡ record { desc = taken.0; domain = taken.1 } ∷ self.new.tasks) }
        ensures least { IfSome result
            (λ taken. TakesLeast self.old.tasks self.new.tasks (record { desc = taken.0; domain = taken.1 })) }
        ensures fits { IfSome result (λ taken. IsDesc taken.0 × (length taken.1 + 1 ≡ taken.0.depth)) }
        ensures empty { IfNone result (self.new ≡ self.old) }
        ensures spare { OnSome result (self.new.spare ≡ self.old.spare + 1) }
    {
        let taken = self.shelf.take_first()?;
        Some(taken)
    }

    /// The open key of the task that `take_least` would take, where it stands, with no copy; None exactly where
    /// the block is empty.
    pub fn front_key(&self) -> Option<&Key>
        ensures first { option_map (λ key. key.now) result ≡ first_key self.now.tasks }
        ensures none { IsNone result ↔ (self.now.tasks ≡ []) }
        ensures least { IfSome result (λ key. IsLeastKey self.now.tasks key.now) }
    {
        if self.is_empty() {
            return None;
        }
        Some(self.shelf.get(0).key())
    }

    /// A copy of that key.
    pub fn least_key(&self) -> Option<Key>
        ensures first { result ≡ first_key self.now.tasks }
        ensures none { IsNone result ↔ (self.now.tasks ≡ []) }
        ensures least { IfSome result (IsLeastKey self.now.tasks) }
    {
        let first = self.front_key()?;
        Some(first.copy())
    }

    /// The descriptor of the task at a place, in the order of the keys.
    pub fn desc_at(&self, place: usize) -> Desc
        requires { place < length self.now.tasks }
        ensures { option_map (λ task. task.desc) (slice_get self.now.tasks place) ≡ Some result }
    {
        self.shelf.get(place).desc()
    }

    /// How many tasks it holds.
    pub fn len(&self) -> usize
        ensures { result ≡ length self.now.tasks }
    {
        self.shelf.len()
    }

    /// Whether it holds none.
    pub fn is_empty(&self) -> bool
        ensures { IsTrue result ↔ (self.now.tasks ≡ []) }
    {
        self.shelf.len() == 0
    }

    /// Replaces each tiebreaker of the domains by its place in a strictly rising table that holds them all. The
    /// order stays. No memory.
    pub fn renumber(&mut self, table: &[u64])
        requires rising { IsStrictlyIncreasing table.now }
        requires held { HoldsSpilled table.now self.old.tasks }
        ensures tasks { self.new.tasks ≡ map (renumbered_spilled table.now) self.old.tasks }
        ensures spare { self.new.spare ≡ self.old.spare }
    {
        self.shelf.renumber(table);
    }

    /// Law: the tasks are in the order of their open keys.
    pub fn is_in_order(&self)
        ensures { IsInOrder by_key self.now.tasks }
    {
        let _ = &self.shelf;
    }
}

/// The number of tasks where the last one's key isn't greater, and else 0: what is spilled mostly belongs behind all
/// that was spilled before.
#[tactic(auto, using(crate::proofs::Pushed::search_beyond))]
fn low_for(shelf: &Shelf, fresh: &Kept) -> usize
    requires { IsInOrder by_key shelf.now.tasks }
    ensures { result ≤ place_for by_key fresh.now shelf.now.tasks }
{
    let many = shelf.len();
    if many > 0 && !cmp(fresh.key(), shelf.get(many - 1).key()).is_lt() {
        many
    } else {
        0
    }
}

/// The place of the first task with a greater key, or their number where there is none.
#[tactic(auto, using(crate::proofs::Pushed::search_upto, crate::proofs::Pushed::search_beyond, fractal_vt::proofs::Sorted::place_within))]
fn place_for(shelf: &Shelf, fresh: &Kept) -> usize
    requires { IsInOrder by_key shelf.now.tasks }
    ensures { result ≡ place_for by_key fresh.now shelf.now.tasks }
{
    let mut low = low_for(shelf, fresh);
    let mut high = shelf.len();
    while low < high {
        let middle = low + (high - low) / 2;
        if cmp(fresh.key(), shelf.get(middle).key()).is_lt() {
            high = middle;
        } else {
            low = middle + 1;
        }
    }
    low
}
