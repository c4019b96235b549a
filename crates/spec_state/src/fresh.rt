//! A new task, before it has a place.

ghost use Rattle.std.specs.Prelude.{◌≡◌};
ghost use Rattle.spec_state.specs.declared.task.Status.TheVariants.{Idle};

use crate::emitted::Emitted;
use crate::task::{Creator, Spawns, Status, Task};
use fractal_vt::{Key, Vt};
use kept_slab::Blank;
use line_table::Lines;
use rv_core::NotedCore;
use std::alloc::Global;
use std::marker::Model;
use undo_log::Log;

/// What is fixed of a task when it is made. Contracts see the idle task that it becomes.
#[derive(Drop)]
pub struct Fresh {
    /// The version of the image.
    pub version: u16,
    /// The address of its first instruction; it may lie outside the text.
    pub entry: u32,
    /// Its arguments, in the registers x10 to x12 at its start.
    pub args: [u32; 3],
    /// A number from which a tile may be picked for it.
    pub hint: u32,
    /// A bit for each domain that it is in, the root domain in bit 0: 1 where that domain is ordered.
    pub kinds: u16,
    /// The levels of its domain.
    pub domain: Vt,
    /// Its timestamp.
    pub ts: u32,
    /// Who made it.
    pub creator: Creator,
    /// The tile whose task queue it joins.
    pub tile: u32,
}

impl Model for Fresh {
    ghost use Rattle.spec_state.specs.declared.task.Task.{Task};
    ghost use Rattle.spec_state.specs.Tasks.{idle_task};

    ghost Value = { Task };

    ghost view = { λ f. idle_task f.version (record {
      entry = f.entry;
      args = f.args;
      hint = f.hint;
      ts = f.ts;
      domain = f.domain;
      kinds = f.kinds;
    }) f.creator f.tile };
}

impl Fresh {
    /// The tile whose task queue it joins. It is idle there.
    pub(crate) fn tile(&self) -> u32
        ensures tile { result ≡ self.now.tile }
        ensures idle { self.now.status ≡ Idle }
    {
        self.tile
    }

    /// Writes the task over another one, whose lists keep their memory. It takes none.
    pub(crate) fn write_to(&self, task: &mut Task)
        ensures { task.new ≡ self.now }
    {
        task.entry = self.entry;
        task.args = self.args;
        task.hint = self.hint;
        task.kinds = self.kinds;
        task.key.domain.put(&self.domain);
        task.key.ts = self.ts;
        task.key.tb = None;
        task.creator = self.creator;
        task.tile = self.tile;
        task.status = Status::Idle;
        task.core
            .put_start(self.version, self.entry, self.ts, self.args);
        task.log.clear();
        task.lines.clear();
        task.spawns.clear();
        task.bytes.clear();
        task.sub = None;
    }
}

impl Blank for Task {
    fn blank(alloc: Global) -> Self {
        Task {
            entry: 0,
            args: [0; 3],
            hint: 0,
            kinds: 0,
            key: Key::root(0),
            creator: Creator::Committed { turn: 0, index: 0 },
            tile: 0,
            status: Status::Idle,
            core: NotedCore::start(1, 0, 0, [0; 3]),
            log: Log::new(alloc),
            lines: Lines::new(),
            spawns: Spawns::new(alloc),
            bytes: Emitted::new(),
            sub: None,
        }
    }
}
