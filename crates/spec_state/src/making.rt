//! A state without a task.

ghost use Rattle.std.specs.Prelude.{◌≡◌, ◌<◌, ◌≤◌, ◌*◌, [], replicate, map, length, None, All, IfOk};
ghost use Rattle.std.specs.Prelude.{vec_len, vec_capacity};
ghost use Rattle.spec_state.specs.Settings.{IsNamed, IsValid};
ghost use Rattle.spec_state.specs.View.{core_ids};
ghost use Rattle.spec_state.specs.Opening.{IsEmptyView, HoldNothing};
ghost use Rattle.spec_state.specs.Fits.{HasTiles, HasSlots};
ghost use Rattle.spill_store.specs.Fronts.{lists_in};

use crate::children::Children;
use crate::effect::Effect;
use crate::history::History;
use crate::numbers::MAX_NUMBERS_IN_USE;
use crate::reserving::Buffers;
use crate::serial_machine::Bytes;
use crate::settings::Settings;
use crate::state::State;
use crate::task::{Task, TaskId};
use commit_arbiter::Index;
use fractal_vt::Vt;
use guest_image::Image;
use kept_slab::KeptSlab;
use rv_core::{Decoded, Naming};
use spill_store::Blocks;
use std::alloc::{AllocError, Global};
use std::marker::PhantomData;
use tile_queues::{CommitQueue, Queue, TaskQueue};
use undo_log::Memory;

/// An empty queue for each tile.
fn empty_queues<Kind>(
    alloc: Global,
    tiles: u32,
    capacity: u32,
) -> Result<Vec<Queue<Kind>>, AllocError>
    requires { 0 < capacity }
    ensures count { IfOk result (λ queues. vec_len queues ≡ tiles) }
    ensures ids { IfOk result (λ queues. map (λ queue. queue.ids) queues.items ≡ replicate tiles []) }
    ensures capacities { IfOk result (λ queues. All (λ queue. queue.capacity ≡ capacity) queues.items) }
{
    let mut queues = Vec::with_capacity(alloc, tiles as usize)?;
    for _ in 0..tiles {
        queues.push(Queue::new(alloc, capacity)?)?;
    }
    Ok(queues)
}

/// Cores that hold no task.
fn free_cores(alloc: Global, cores: u32) -> Result<Vec<Option<TaskId>>, AllocError>
    ensures count { IfOk result (λ held. vec_len held ≡ cores) }
    ensures free { IfOk result (λ held. core_ids held.items ≡ replicate cores None) }
{
    let mut held = Vec::with_capacity(alloc, cores as usize)?;
    for _ in 0..cores {
        held.push(None)?;
    }
    Ok(held)
}

/// Cores that hold no task, for each tile.
fn all_free_cores(
    alloc: Global,
    tiles: u32,
    cores: u32,
) -> Result<Vec<Vec<Option<TaskId>>>, AllocError>
    ensures count { IfOk result (λ held. vec_len held ≡ tiles) }
    ensures counts { IfOk result (λ held. All (λ tile. vec_len tile ≡ cores) held.items) }
    ensures free { let none = replicate tiles (replicate cores None) in
        IfOk result (λ held. map (λ tile. core_ids tile.items) held.items ≡ none) }
{
    let mut held = Vec::with_capacity(alloc, tiles as usize)?;
    for _ in 0..tiles {
        held.push(free_cores(alloc, cores)?)?;
    }
    Ok(held)
}

/// How many tasks all task queues may hold: 4 to 4,096.
fn places_of(settings: &Settings) -> u32
    requires { IsValid settings.now }
    ensures places { result ≡ settings.now.tiles * settings.now.task_queue }
    ensures some { 1 ≤ result }
    ensures few { result ≤ 4096 }
{
    settings.tiles * settings.task_queue
}

/// The lists of all tiles, which hold nothing.
#[derive(Drop)]
struct TileLists {
    queues: Vec<TaskQueue>,
    finished: Vec<CommitQueue>,
    cores: Vec<Vec<Option<TaskId>>>,
    blocks: Blocks,
}

impl TileLists {
    /// Those of a machine of these settings; `AllocError` where memory runs out.
    fn new(alloc: Global, settings: &Settings) -> Result<TileLists, AllocError>
        requires { IsValid settings.now }
        ensures tiles { IfOk result (λ lists. HasTiles settings.now lists.queues.items lists.finished.items
            (vec_len lists.cores) (length lists.blocks.items)) }
        ensures cores { IfOk result (λ lists. All (λ held. vec_len held ≡ settings.now.cores) lists.cores.items) }
        ensures none { IfOk result (λ lists. HoldNothing settings.now lists.queues.items lists.finished.items
            (map (λ cores. core_ids cores.items) lists.cores.items) (lists_in lists.blocks.items)) }
    {
        Ok(TileLists {
            queues: empty_queues(alloc, settings.tiles, settings.task_queue)?,
            finished: empty_queues(alloc, settings.tiles, settings.commit_queue)?,
            cores: all_free_cores(alloc, settings.tiles, settings.cores)?,
            blocks: Blocks::new(alloc, settings.tiles)?,
        })
    }
}

/// Memory for all tasks that the task queues may hold, and for what is noted of each. There is none yet.
#[derive(Drop)]
struct TaskMemory {
    tasks: KeptSlab<Task>,
    index: Index,
    arrivals: Vec<u64>,
    children: Children,
    marks: Vec<bool>,
    members: Vec<usize>,
    numbers: Vec<u64>,
}

impl TaskMemory {
    /// That of a machine of these settings; `AllocError` where memory runs out.
    fn new(alloc: Global, settings: &Settings) -> Result<TaskMemory, AllocError>
        requires { IsValid settings.now }
        ensures slots { IfOk result (λ made. HasSlots settings.now made.tasks.slots [] (record {
          slots = made.tasks.capacity;
          indexed = length made.index.candidates;
          capacity = made.index.capacity;
          marks = vec_len made.marks;
          members = vec_len made.members;
          arrivals = length made.arrivals.items;
          numbers = vec_capacity made.numbers;
        })) }
        ensures none { IfOk result (λ made. made.tasks.slots ≡ []) }
        ensures index { IfOk result (λ made. made.index.candidates ≡ []) }
    {
        let places = places_of(settings);
        let tasks = KeptSlab::with_capacity(alloc, places as usize)?;
        let slots = tasks.capacity();
        Ok(TaskMemory {
            tasks,
            index: Index::new(alloc, places)?,
            arrivals: vec![in alloc; 0; slots]?,
            children: Children::new(alloc, places)?,
            marks: vec![in alloc; false; slots]?,
            members: vec![in alloc; 0; slots]?,
            numbers: Vec::with_capacity(alloc, MAX_NUMBERS_IN_USE)?,
        })
    }
}

impl<N: Naming> State<N> {
    /// A state without a task, of a machine of valid settings, with the image's data. It has memory for all tasks of
    /// its queues, for the whole journal, for the marks of a cascade and for a renumbering; `AllocError` where
    /// memory runs out.
    pub fn new(alloc: Global, image: &Image, settings: Settings) -> Result<State<N>, AllocError>
        requires valid { IsValid settings }
        requires named { IsNamed image.now settings N.image N.budget N.commits }
        ensures { IfOk result (λ state. IsEmptyView N.image settings state.view) }
    {
        let memory = Memory::new(alloc, image.initial(), image.data_size())?;
        let history = History::new(alloc, settings.commits)?;
        let decoded = Decoded::new(alloc, image)?;
        let lists = TileLists::new(alloc, &settings)?;
        let made = TaskMemory::new(alloc, &settings)?;
        let effect = Effect::new(alloc)?;
        Ok(State {
            version: image.version(),
            settings,
            tasks: made.tasks,
            memory,
            history,
            output: Bytes::new(alloc),
            next: 0,
            path: Vt::empty(),
            queues: lists.queues,
            finished: lists.finished,
            cores: lists.cores,
            blocks: lists.blocks,
            index: made.index,
            arrivals: made.arrivals,
            next_arrival: 0,
            children: made.children,
            marks: made.marks,
            members: made.members,
            numbers: made.numbers,
            effect,
            buffers: Buffers::new(alloc),
            decoded,
            alloc,
            naming: PhantomData,
        })
    }
}
