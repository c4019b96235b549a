//! The state, and what its type keeps.

use crate::children::Children;
use crate::effect::Effect;
use crate::history::History;
use crate::reserving::Buffers;
use crate::serial_machine::Bytes;
use crate::settings::Settings;
use crate::task::{Task, TaskId};
use commit_arbiter::Index;
use fractal_vt::Vt;
use kept_slab::KeptSlab;
use rv_core::{Decoded, Naming};
use spill_store::Blocks;
use std::alloc::Global;
use std::marker::{Model, PhantomData};
use tile_queues::{CommitQueue, TaskQueue};
use undo_log::Memory;

/// The machine between two events. Its fields are public for the crates that change a state; others use its calls, but
/// that `watch_text` reads `children`, and tests read `next`.
///
/// Contracts see it as a `View` beside the memory that is spare for the next event and its notes of
/// a cascade. Its type keeps that the settings are valid, with the limits that `N` names, that the
/// journal has memory for all commits, that each tile has its queues, of the capacities of the
/// settings, its cores and its block, (`IsStored`) that queues, commit queues and cores hold the
/// tasks of their tile and nothing else, each as its status says, that each task is well formed,
/// that the data has the image's size, (`IsIndexed`) that the index holds the queued tasks in their
/// order, and (`AreNoted`) that, where its notes are complete, each child is noted where it stands.
/// So a free place of a queue is a free slot and a free place of the index too.
#[derive(Drop)]
pub struct State<N: Naming> {
    /// The version of the image.
    pub version: u16,
    /// How large it is and how far it runs.
    pub settings: Settings,
    /// The uncommitted tasks that aren't spilled, by their ids.
    pub tasks: KeptSlab<Task>,
    /// The data memory, with the stores of all dispatched tasks.
    pub memory: Memory,
    /// The committed tasks, in the order of their commits.
    pub history: History,
    /// The bytes of the committed tasks.
    pub output: Bytes,
    /// The next dispatch number.
    pub next: u64,
    /// The levels of the key of the task that committed last; none before the first commit.
    pub path: Vt,
    /// The task queue of each tile: the ids of its tasks, in order of arrival.
    pub queues: Vec<TaskQueue>,
    /// The commit queue of each tile: the ids of its finished tasks, in order of arrival.
    pub finished: Vec<CommitQueue>,
    /// The cores of each tile, each with the task that it holds.
    pub cores: Vec<Vec<Option<TaskId>>>,
    /// The spilled tasks of each tile.
    pub blocks: Blocks,
    /// The queued tasks of all tiles, in the order of their keys.
    pub index: Index,
    /// The number of its arrival in its queue, for each id; that of an id which no task has means nothing.
    pub arrivals: Vec<u64>,
    /// The next arrival number.
    pub next_arrival: u64,
    /// Where the children of each task stand.
    pub children: Children,
    /// Memory for the marks of a cascade: one for each id that a task may have.
    pub marks: Vec<bool>,
    /// Memory for the members of a cascade: one for each id that a task may have.
    pub members: Vec<usize>,
    /// Memory for the table of the dispatch numbers in use, which is made where they are renumbered.
    pub numbers: Vec<u64>,
    /// What the last event did beside its one change.
    pub effect: Effect,
    /// Spare memory that a full list moves into.
    pub buffers: Buffers,
    /// The text, decoded.
    pub decoded: Decoded<N>,
    /// What larger buffers, the list of what pends and a book's lists take their memory from.
    pub alloc: Global,
    /// What the state is about: the limits are those that `N` names.
    pub naming: PhantomData<N>,
}

impl<N: Naming> Model for State<N> {
    ghost use Rattle.std.specs.Prelude.{◌≡◌, map, length, vec_len, vec_capacity, All};
    ghost use Rattle.spec_state.specs.View.{core_ids};
    ghost use Rattle.spec_state.specs.StateValue.{StateValue};
    ghost use Rattle.spec_state.specs.Fits.{view_of_parts, HasLimits, HasTiles, HasSlots};
    ghost use Rattle.spec_state.specs.Stored.{IsStored, IsIndexed};
    ghost use Rattle.spec_state.specs.Children.{AreNoted};

    ghost Value = { StateValue };

    ghost view = { λ s. record {
      view = view_of_parts s.version s.settings s.tasks.slots s.memory s.history.entries s.output s.next s.path
          s.queues.items s.finished.items
          (map (λ cores. core_ids cores.items) s.cores.items) (map (λ block. block.tasks) s.blocks.items);
      spare = record {
        log = s.buffers.log;
        spawns = s.buffers.spawns;
        output = s.buffers.output;
        blocks = map (λ block. block.spare) s.blocks.items;
      };
      scratch = record { marks = s.marks.items; members = s.members.items };
      effect = s.effect;
    } };

    ghost invariant = { λ s.
        let view = view_of_parts s.version s.settings s.tasks.slots s.memory s.history.entries s.output s.next s.path
        s.queues.items s.finished.items
        (map (λ cores. core_ids cores.items) s.cores.items) (map (λ block. block.tasks) s.blocks.items) in
        HasLimits N.budget N.commits s.settings s.history.limit
        × HasTiles s.settings s.queues.items s.finished.items (vec_len s.cores) (length s.blocks.items)
        × All (λ held. vec_len held ≡ s.settings.cores) s.cores.items
        × HasSlots s.settings s.tasks.slots s.queues.items (record {
          slots = s.tasks.capacity;
          indexed = length s.index.candidates;
          capacity = s.index.capacity;
          marks = vec_len s.marks;
          members = vec_len s.members;
          arrivals = length s.arrivals.items;
          numbers = vec_capacity s.numbers;
        })
        × IsStored N.image.data_size view
        × IsIndexed s.tasks.slots view.queues s.arrivals.items s.next_arrival s.index.candidates
        × AreNoted s.tasks.slots s.children };
}
