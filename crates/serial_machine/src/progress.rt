//! A task in progress.

ghost use Rattle.std.specs.Prelude.{◌≡◌};
ghost use Rattle.task_request.specs.TaskState.{task_at_start};

use guest_image::{Image, Kind};
use pending_list::PendingTask;
use rv_core::Core;
use std::alloc::Global;
use std::marker::Model;
use task_desc::Spawn;
use undo_log::{Log, Memory, undo};

/// Where an instruction leads.
#[derive(Clone, Copy, Debug, PartialEq, Eq)]
pub(crate) enum Flow {
    Continues,
    Ended,
    Trapped { cause: u8, pc: u32 },
}

/// A task in progress. Its stores are logged, so that they can be rolled back.
#[derive(Drop)]
pub(crate) struct Progress {
    pub core: Core,
    pub memory: Memory,
    pub log: Log,
    pub spawns: Vec<Spawn>,
    pub bytes: Vec<u8>,
    pub sub: Option<Kind>,
}

impl Model for Progress {
    ghost use Rattle.std.specs.Prelude.{length, ◌≤◌};
    ghost use Rattle.undo_log.specs.Undo.{undone, AllAccessible};
    ghost use Rattle.task_desc.specs.declared.calls.TheConstants.{MAX_BYTES, MAX_CHILDREN};
    ghost use Rattle.serial_machine.specs.Legs.{Tracked};

    ghost Value = { Tracked };

    ghost view = { λ p. record {
      task = record {
        core = p.core;
        memory = p.memory;
        spawns = p.spawns.items;
        bytes = p.bytes.items;
        sub = p.sub;
      };
      first = undone p.log p.memory;
    } };

    ghost invariant = { λ p.
        (length p.spawns.items ≤ MAX_CHILDREN) × (length p.bytes.items ≤ MAX_BYTES)
        × AllAccessible (length p.memory) p.log };
}

/// A pending task at its start, on this memory.
pub(crate) fn progress_at_start(
    alloc: Global,
    image: &Image,
    task: &PendingTask,
    memory: Memory,
) -> Progress
    ensures { let task = task.now in
        result ≡ record { task = task_at_start image.now.version task.entry task.ts task.args memory; first = memory } }
{
    Progress {
        core: Core::start(image.version(), task.entry, task.ts, task.args),
        memory,
        log: Log::new(alloc),
        spawns: Vec::new(alloc),
        bytes: Vec::new(alloc),
        sub: None,
    }
}

/// The memory that the task began with.
pub(crate) fn taken_back(task: Progress) -> Memory
    ensures { result ≡ task.first }
{
    let mut memory = task.memory;
    undo(&mut memory, &task.log);
    memory
}
