//! The creation of a task.

ghost use Rattle.std.specs.Prelude.{◌≡◌, ◌+◌, ◌<◌, [], ◌∷◌, ◌++◌, length, Contains, IsOk, IfOk, None, Some};
ghost use Rattle.slab.specs.Slab.{get, slab_len, HasRoomFor, Updates};
ghost use Rattle.spec_state.specs.declared.task.Creator.TheVariants.{Committed};
ghost use Rattle.spec_state.specs.Tasks.{idle_task, root_descriptor};
ghost use Rattle.spec_state.specs.Stored.{IsWellFormed};
ghost use Rattle.spec_state.specs.Opening.{Adds, DescIsOfImage};
ghost use Rattle.spec_state.specs.Room.{QueueHasRoom};

use crate::arrival::fresh_arrival;
use crate::fresh::Fresh;
use crate::state::State;
use crate::task::{Creator, Task, TaskId};
use fractal_vt::Vt;
use kept_slab::KeptSlab;
use rv_core::Naming;
use std::alloc::AllocError;
use task_desc::Desc;
use tile_queues::TaskQueue;

/// Puts an id that is not there into a queue with a free place, as the last one.
fn put_last(queue: &mut TaskQueue, id: usize)
    requires absent { ¬ Contains queue.old.ids id }
    requires free { length queue.old.ids < queue.old.capacity }
    ensures { queue.new ≡ record queue.old { ids = queue.old.ids ++ id ∷ [] } }
{
    let _ = queue.put(id);
}

/// An idle task of the root domain with a committed creator, in a tile.
fn root_task(version: u16, desc: &Desc, tile: u32) -> Fresh
    ensures { let name = desc.now.name in
        result ≡ idle_task version (root_descriptor desc.now) (Committed name.creator name.index) tile }
{
    Fresh {
        version,
        entry: desc.entry,
        args: desc.args,
        hint: desc.hint,
        kinds: desc.kinds,
        domain: Vt::empty(),
        ts: desc.ts,
        creator: Creator::Committed {
            turn: desc.name.creator,
            index: desc.name.index,
        },
        tile,
    }
}

/// Puts an idle task under the next id, for which there is memory, over a spare one: one that has left, or a blank one.
/// It takes no memory.
fn put_in(tasks: &mut KeptSlab<Task>, task: &Fresh) -> usize
    requires { HasRoomFor tasks.old 1 }
    ensures was_vacant { get tasks.old result ≡ None }
    ensures updates { Updates tasks.old tasks.new result (Some task.now) }
    ensures len { slab_len tasks.new ≡ slab_len tasks.old + 1 }
    ensures key_in_range { result < tasks.new.capacity }
    ensures capacity { tasks.new.capacity ≡ tasks.old.capacity }
{
    let id = tasks.insert_spare();
    task.write_to(&mut tasks[id]);
    id
}

impl<N: Naming> State<N> {
    /// Puts an idle task under a free id, as the last one of the task queue of its tile, which has a free place. It
    /// takes no memory.
    pub fn put(&mut self, task: &Fresh) -> TaskId
        requires tile { task.now.tile < self.old.view.settings.tiles }
        requires free { QueueHasRoom self.old.view task.now.tile }
        requires formed { IsWellFormed N.image.data_size (length self.old.view.history) task.now }
        ensures adds { Adds result.0 task.now self.old.view self.new.view }
        ensures spare { self.new.spare ≡ self.old.spare }
        ensures effect { self.new.effect ≡ record self.old.effect { arrived = Some result } }
    {
        let tile = task.tile();
        let arrival = fresh_arrival(
            &mut self.index,
            &mut self.arrivals,
            &self.tasks,
            self.queues.as_slice(),
            self.settings.task_queue,
            self.next_arrival,
        );
        let id = put_in(&mut self.tasks, task);
        put_last(&mut self.queues[tile as usize], id);
        self.arrivals[id] = arrival;
        self.index.insert(&self.tasks[id].key, tile, arrival, id);
        self.next_arrival = arrival + 1;
        self.children.note(&self.tasks, id);
        self.effect.note_arrived(TaskId(id));
        TaskId(id)
    }

    /// Adds an idle task of the image, under the descriptor's name, as the last one of the task queue of the tile,
    /// which has a free place. It takes no memory, and never answers `AllocError`.
    pub fn add(&mut self, desc: &Desc, tile: u32) -> Result<TaskId, AllocError>
        requires image { DescIsOfImage desc.now }
        requires tile { tile < self.old.view.settings.tiles }
        requires free { QueueHasRoom self.old.view tile }
        ensures ok { let name = desc.now.name in
            let creator = Committed name.creator name.index in
            let task = idle_task self.old.view.version (root_descriptor desc.now) creator tile in
            IfOk result (λ id. Adds id.0 task self.old.view self.new.view) }
        ensures covered { IsOk result }
        ensures spare { self.new.spare ≡ self.old.spare }
    {
        Ok(self.put(&root_task(self.version, desc, tile)))
    }
}
