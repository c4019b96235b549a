//! What an event did beside its one change, for reports of it.

ghost use Rattle.std.specs.Prelude.{◌≡◌, ◌<◌, ◌≤◌, ◌+◌, ◌++◌, ◌∷◌, [], IfOk, None, Some, length, vec_capacity};
ghost use Rattle.spec_state.specs.Effects.{nothing};

use crate::reserving::MAX_MOVED;
use crate::task::TaskId;
use std::alloc::{AllocError, Global};
use std::marker::Model;
use task_desc::Name;

/// The most tasks that one event may abort: as many as the largest machine has places in its task queues.
pub const MAX_TAKEN: usize = 4096;

/// A task that was aborted.
#[derive(Clone, Copy, Debug, PartialEq, Eq)]
pub struct TakenTask {
    /// Its id.
    pub id: TaskId,
    /// The tile in whose task queue it stood.
    pub tile: u32,
    /// How many instructions it had executed since its dispatch.
    pub used: u32,
    /// How many loads and stores it had made since then.
    pub accesses: usize,
    /// How many of those were stores.
    pub stores: usize,
    /// How many bytes it had emitted since then.
    pub bytes: usize,
    /// Whether it is gone, because its creator was aborted too; else it is idle again.
    pub gone: bool,
}

/// A task that was spilled.
#[derive(Clone, Copy, Debug, PartialEq, Eq)]
pub struct SpilledTask {
    /// The id that it had.
    pub id: TaskId,
    /// The name that it is spilled under.
    pub name: Name,
}

/// What an event did beside its one change. The memory for all of it is in it from the start.
#[derive(Drop)]
pub struct Effect {
    back: Vec<TakenTask>,
    spilled: Vec<SpilledTask>,
    arrived: Option<TaskId>,
}

impl Model for Effect {
    ghost use Rattle.std.specs.Prelude.{◌≤◌, vec_capacity};
    ghost use Rattle.spec_state.specs.Effects.{EffectValue};
    ghost use Rattle.spec_state.specs.declared.effect.TheConstants.{MAX_TAKEN};
    ghost use Rattle.spec_state.specs.declared.reserving.TheConstants.{MAX_MOVED};

    ghost Value = { EffectValue };

    ghost view = { λ e. record { back = e.back.items; spilled = e.spilled.items; arrived = e.arrived } };

    ghost invariant = { λ e. (MAX_TAKEN ≤ vec_capacity e.back) × (MAX_MOVED ≤ vec_capacity e.spilled) };
}

/// Adds an item to a list that has the memory for it.
fn push_within<T: Drop>(items: &mut Vec<T>, item: T)
    requires { length items.old.items + 1 ≤ vec_capacity items.old }
    ensures items { items.new.items ≡ items.old.items ++ item ∷ [] }
    ensures spare { vec_capacity items.old ≤ vec_capacity items.new }
{
    match items.push(item) {
        Ok(()) => {}
        Err(_) => unreachable!(),
    }
}

impl Effect {
    /// Nothing, with memory for all that may be; `AllocError` where memory runs out.
    pub fn new(alloc: Global) -> Result<Effect, AllocError>
        ensures { IfOk result (λ effect. effect ≡ nothing) }
    {
        Ok(Effect {
            back: Vec::with_capacity(alloc, MAX_TAKEN)?,
            spilled: Vec::with_capacity(alloc, MAX_MOVED)?,
            arrived: None,
        })
    }

    /// Forgets what the event before did.
    pub fn clear(&mut self)
        ensures { self.new ≡ nothing }
    {
        self.back.clear();
        self.spilled.clear();
        self.arrived = None;
    }

    /// Forgets which tasks were spilled.
    pub fn clear_spilled(&mut self)
        ensures { self.new ≡ record self.old { spilled = [] } }
    {
        self.spilled.clear();
    }

    /// Adds an aborted task, where the list has fewer than `MAX_TAKEN`.
    pub fn note_taken(&mut self, task: TakenTask)
        requires { length self.old.back < MAX_TAKEN }
        ensures { self.new ≡ record self.old { back = self.old.back ++ task ∷ [] } }
    {
        push_within(&mut self.back, task);
    }

    /// Adds a task that is spilled, where fewer are there than move at once.
    pub fn note_spilled(&mut self, task: SpilledTask)
        requires { length self.old.spilled < MAX_MOVED }
        ensures { self.new ≡ record self.old { spilled = self.old.spilled ++ task ∷ [] } }
    {
        push_within(&mut self.spilled, task);
    }

    /// A task came.
    pub fn note_arrived(&mut self, id: TaskId)
        ensures { self.new ≡ record self.old { arrived = Some id } }
    {
        self.arrived = Some(id);
    }

    /// The tasks that were aborted.
    pub fn back(&self) -> &[TakenTask]
        ensures { result.now ≡ self.now.back }
    {
        &self.back
    }

    /// The tasks that were spilled, the least first.
    pub fn spilled(&self) -> &[SpilledTask]
        ensures { result.now ≡ self.now.spilled }
    {
        &self.spilled
    }

    /// The task that came: the child of an enqueue, or one that was spilled and came back.
    pub fn arrived(&self) -> Option<TaskId>
        ensures { result ≡ self.now.arrived }
    {
        self.arrived
    }
}
