//! Dispatches, steps and commits of a state by the calls that find the task and its request themselves, and the task
//! that is aborted for room.

ghost use Rattle.std.specs.Prelude.{◌≡◌, ◌<◌, ℕ, IsTrue};
ghost use Rattle.task_request.specs.declared.request.Request.TheVariants.{End, Trap};
ghost use Rattle.machine_run.specs.spec_state.declared.numbers.TheConstants.{DISPATCH_NUMBERS};
ghost use Rattle.machine_run.specs.spec_state.declared.task.Status.TheVariants.{Running};
ghost use Rattle.machine_run.specs.spec_state.declared.task.Task.{Task};
ghost use Rattle.machine_run.specs.spec_state.declared.task.Where.TheVariants.{Finished};
ghost use Rattle.machine_run.specs.spec_state.Changes.{TakesLeg};
ghost use Rattle.machine_run.specs.spec_state.Least.{IsLeast};
ghost use Rattle.machine_run.specs.spec_state.Opening.{DescIsOfImage};
ghost use Rattle.machine_run.specs.spec_state.Queries.{IsFreeCore, IsIdle, IsOnCore};
ghost use Rattle.machine_run.specs.spec_state.Room.{IsFull};
ghost use Rattle.machine_run.specs.spec_state.Settings.{IsValid};
ghost use Rattle.machine_run.specs.spec_access.Asking.{Asks, AsksForChild};

use crate::machines::{FOUR_CORES, TWO_TILES, image_of};
use crate::serial_machine::Entry;
use guest_image::Image;
use rv_core::{Leg, Naming, Stop, run_leg};
use sample_image::Program;
use spec_access::{
    call_trap, dispatch, emit, finish, keep, make_sub, read, request_of_task, spawn, write,
};
use spec_commit::{commit, room_victim};
use spec_dispatch::free_core;
use spec_state::{DISPATCH_NUMBERS, Parts, Settings, State, Status, Task, TaskId, Where};
use std::alloc::{AllocError, Global};
use std::marker::Brand;
use std::process::Abort;
use std::test::Fail;
use task_desc::{Desc, Name};
use task_request::Request;

/// Two tiles of one core, with legs of at most two plain instructions.
const SHORT_LEGS: Settings = Settings {
    quantum: 2,
    ..TWO_TILES
};

/// Where a task begins that loads the first word of the data, emits its low byte, stores it into the second word, makes
/// an ordered subdomain, enqueues a child there that begins at `ENDER`, and ends.
const CALLER: u32 = 0x0001_0000;

/// Where a task begins that ends at once.
const ENDER: u32 = 0x0001_0038;

/// An address without an instruction.
const NO_CODE: u32 = 0x0001_0040;

/// Where a task begins that makes call 6, which is none.
const BAD_CALLER: u32 = 0x0001_0044;

/// Where a task begins that enqueues a child at timestamp 9.
const MAKER: u32 = 0x0001_004c;

/// The text of the tasks that begin at these addresses, and a first word of 7 in the data.
const CALLERS: Program = Program {
    text: &[
        0x1000_02b7,
        0x0002_a503,
        0x0050_0893,
        0x0000_0073,
        0x00a2_a223,
        0x0040_0893,
        0x0010_0513,
        0x0000_0073,
        0x0020_0893,
        0x0001_0537,
        0x0385_0513,
        0x0000_0073,
        0x0000_0893,
        0x0000_0073,
        0x0000_0893,
        0x0000_0073,
        0x0000_0000,
        0x0060_0893,
        0x0000_0073,
        0x0010_0893,
        0x0001_0537,
        0x0385_0513,
        0x0090_0593,
        0x0000_0073,
    ],
    initial: &[7],
    data_size: 8,
    tasks: &[(CALLER, 1)],
};

/// What is done with a state; a step's child goes to the last tile.
#[derive(Clone, Copy)]
enum Act {
    Dispatch(u32),
    Step(u32, u32),
    Commit,
}

/// A task whose creator is the image, under the name 0.0.
fn image_task(entry: u32, ts: u32) -> Desc
    ensures { DescIsOfImage result }
{
    Desc {
        name: Name {
            creator: 0,
            index: 0,
        },
        entry,
        ts,
        args: [0; 3],
        hint: 0,
        depth: 1,
        kinds: 1,
    }
}

/// Adds a task whose creator is the image to a tile with a free place.
fn add<N: Naming>(rt: &impl Abort, state: &mut State<N>, entry: u32, ts: u32, tile: u32) -> TaskId {
    assert!(rt; tile < state.settings().tiles && state.queue_has_room(tile));
    state.add(&image_task(entry, ts), tile).unwrap()
}

/// Whether a dispatch number is left.
fn has_number<N: Naming>(state: &State<N>) -> bool
    ensures { IsTrue result → state.now.view.next < DISPATCH_NUMBERS }
{
    state.next < DISPATCH_NUMBERS
}

/// Whether a tile has an idle task and a free core.
fn may_start<N: Naming>(state: &State<N>, tile: u32) -> bool
    requires tile { tile < state.now.view.settings.tiles }
    ensures idle { IsTrue result → (id : ℕ) × (task : Task) × IsIdle state.now.view tile id task }
    ensures free { IsTrue result → (core : ℕ) × IsFreeCore state.now.view tile core }
{
    free_core(state, tile).is_some() && state.idle(tile).is_some()
}

/// The least idle task of a tile goes to a core.
fn start<N: Naming>(rt: &impl Abort, state: &mut State<N>, tile: u32) {
    assert!(rt; has_number(state));
    assert!(rt; tile < state.settings().tiles && may_start(state, tile));
    dispatch(state, tile);
}

/// The task that a core of a tile holds.
fn holder<N: Naming>(rt: &impl Abort, state: &State<N>, tile: u32, core: u32) -> TaskId
    requires tile { tile < state.now.view.settings.tiles }
    requires core { core < state.now.view.settings.cores }
    ensures { (task : Task) × IsOnCore state.now.view tile core result.0 task }
{
    state.is_stored();
    match state.on_core(tile, core) {
        Some(id) => id,
        None => panic!(rt; "the core holds no task"),
    }
}

/// Whether a task runs on this core of its tile, and the leg begins at its kept core.
fn takes<N: Naming>(task: &Task, core: u32, leg: &Leg<N>) -> bool
    ensures { IsTrue result → (task.now.status ≡ Running core) × (task.now.core ≡ leg.now.from) }
{
    task.status == Status::Running { core } && leg.begins_at(&task.core)
}

/// A leg of the task that a core of a tile holds, which takes it.
fn leg_of<N: Naming>(
    rt: &impl Abort,
    image: &Image,
    state: &State<N>,
    tile: u32,
    core: u32,
    id: TaskId,
) -> Leg<N>
    requires image { image.now ≡ N.image }
    requires on { (task : Task) × IsOnCore state.now.view tile core id.0 task }
    ensures { (task : Task) × TakesLeg state.now.view tile core result id.0 task }
{
    state.has_limits();
    let settings = state.settings();
    let task = state.task(id);
    let from = task.core.core();
    assert!(rt; from.used <= settings.budget);
    let leg = run_leg(image, from, settings.quantum, settings.budget);
    assert!(rt; takes(task, core, &leg));
    leg
}

/// A child is enqueued in the last tile.
fn enqueue<N: Naming>(
    rt: &impl Abort,
    state: &mut State<N>,
    id: TaskId,
    leg: &Leg<N>,
) -> Result<(), AllocError>
    requires asks { AsksForChild state.old.view leg.now id.0 }
{
    state.has_limits();
    let last = state.settings().tiles - 1;
    assert!(rt; state.queue_has_room(last));
    spawn(state, id, leg, last)
}

/// A trap is kept: that of a call by the call for it, any other one as the leg has it.
fn trap<N: Naming>(state: &mut State<N>, id: TaskId, leg: &Leg<N>, cause: u8)
    requires asks { Asks state.old.view leg.now id.0 (Trap cause) }
{
    match leg.stop() {
        Stop::Call => call_trap(state, id, leg, cause),
        _ => keep(state, id, leg),
    }
}

/// A task ends in a tile with a free place in its commit queue.
fn end<N: Naming>(
    rt: &impl Abort,
    state: &mut State<N>,
    tile: u32,
    core: u32,
    id: TaskId,
    leg: &Leg<N>,
)
    requires tile { tile < state.old.view.settings.tiles }
    requires on { (task : Task) × IsOnCore state.old.view tile core id.0 task }
    requires asks { Asks state.old.view leg.now id.0 End }
{
    assert!(rt; state.commit_free(tile) > 0);
    finish(state, id, leg);
}

/// What a task requests at the end of its leg is done.
fn make_request<N: Naming>(
    rt: &impl Abort,
    state: &mut State<N>,
    tile: u32,
    core: u32,
    id: TaskId,
    leg: &Leg<N>,
) -> Result<(), AllocError>
    requires tile { tile < state.old.view.settings.tiles }
    requires takes { (task : Task) × TakesLeg state.old.view tile core leg.now id.0 task }
{
    match request_of_task(state, id, leg) {
        Request::Load { .. } => return read(state, id, leg),
        Request::Store { .. } => return write(state, id, leg),
        Request::Enqueue(_) => return enqueue(rt, state, id, leg),
        Request::Continue => keep(state, id, leg),
        Request::MakeSub(_) => make_sub(state, id, leg),
        Request::Emit(_) => emit(state, id, leg),
        Request::Trap { cause } => trap(state, id, leg, cause),
        Request::End => end(rt, state, tile, core, id, leg),
    }
    Ok(())
}

/// The task on a core of a tile makes a step.
fn step<N: Naming>(
    rt: &impl Abort,
    image: &Image,
    state: &mut State<N>,
    tile: u32,
    core: u32,
) -> Result<(), AllocError>
    requires image { image.now ≡ N.image }
{
    assert!(rt; tile < state.settings().tiles && core < state.settings().cores);
    let id = holder(rt, state, tile, core);
    let leg = leg_of(rt, image, state, tile, core, id);
    make_request(rt, state, tile, core, id, &leg)
}

/// Whether the least task is finished.
fn is_least_finished<N: Naming>(state: &State<N>) -> bool
    ensures { IsTrue result → (id : ℕ) × IsLeast state.now.view (Finished (record { 0 = id })) }
{
    matches!(state.least(), Some(Where::Finished(_)))
}

/// The least task commits.
fn commit_least<N: Naming>(rt: &impl Abort, state: &mut State<N>) -> Result<Entry, AllocError> {
    assert!(rt; is_least_finished(state));
    assert!(rt; state.commit_count() < state.settings().commits);
    commit(state)
}

/// Does one thing with a state.
fn make_act<N: Naming>(
    rt: &impl Abort,
    image: &Image,
    state: &mut State<N>,
    act: Act,
) -> Result<(), AllocError>
    requires image { image.now ≡ N.image }
{
    match act {
        Act::Dispatch(tile) => {
            start(rt, state, tile);
            Ok(())
        }
        Act::Step(tile, core) => step(rt, image, state, tile, core),
        Act::Commit => {
            let _entry = commit_least(rt, state)?;
            Ok(())
        }
    }
}

/// Does one thing after another with a state.
fn make_all<N: Naming>(
    rt: &impl Abort,
    image: &Image,
    state: &mut State<N>,
    acts: &[Act],
) -> Result<(), AllocError>
    requires image { image.now ≡ N.image }
{
    for next in acts {
        make_act(rt, image, state, *next)?;
    }
    Ok(())
}

/// The task at `CALLER` loads, emits, stores, continues after its quantum, makes its subdomain, continues, enqueues its
/// child and ends; it commits, and then the child runs.
static WHOLE: [Act; 13] = [
    Act::Dispatch(0),
    Act::Step(0, 0),
    Act::Step(0, 0),
    Act::Step(0, 0),
    Act::Step(0, 0),
    Act::Step(0, 0),
    Act::Step(0, 0),
    Act::Step(0, 0),
    Act::Step(0, 0),
    Act::Commit,
    Act::Dispatch(1),
    Act::Step(1, 0),
    Act::Commit,
];

/// The task, and its child in its subdomain.
static JOURNAL: [Entry; 2] = [
    Entry {
        name: Name {
            creator: 0,
            index: 0,
        },
        depth: 1,
        ts: 1,
    },
    Entry {
        name: Name {
            creator: 1,
            index: 0,
        },
        depth: 2,
        ts: 0,
    },
];

/// What both left.
fn left_whole(rt: &impl Abort, parts: &Parts) {
    assert_eq!(rt; parts.journal.as_slice(), JOURNAL.as_slice());
    assert_eq!(rt; parts.output.as_slice(), [7].as_slice());
    assert_eq!(rt;
        parts.memory.as_slice(),
        [7, 0, 0, 0, 7, 0, 0, 0].as_slice()
    );
}

/// A task and its child are run.
fn runs_whole<N: Naming>(
    rt: &impl Abort,
    alloc: Global,
    image: &Image,
    settings: Settings,
) -> Result<(), AllocError>
    requires valid { IsValid settings }
    requires image { image.now ≡ N.image }
    requires budget { settings.budget ≡ N.budget }
    requires commits { settings.commits ≡ N.commits }
{
    let mut state = State::<N>::new(alloc, image, settings)?;
    let _caller = add(rt, &mut state, CALLER, 1, 0);
    let made = make_all(rt, image, &mut state, &WHOLE);
    assert!(rt; made.is_err() || state.least().is_none());
    let parts = state.into_parts();
    made?;
    left_whole(rt, &parts);
    Ok(())
}

#[test]
fn a_task_and_its_child_run_step_by_step(rt: HostRuntime) -> Result<(), Fail> {
    let image = image_of(rt.alloc(), &CALLERS)?;
    Ok(runs_whole::<Brand>(&rt, rt.alloc(), &image, SHORT_LEGS)?)
}

/// A task of each tile reaches its trap.
static TRAPS: [Act; 4] = [
    Act::Dispatch(0),
    Act::Step(0, 0),
    Act::Dispatch(1),
    Act::Step(1, 0),
];

/// The cause of the trap of the task on the first core of a tile.
fn trap_on<N: Naming>(rt: &impl Abort, state: &State<N>, tile: u32) -> Option<u8> {
    assert!(rt; tile < state.settings().tiles && state.settings().cores > 0);
    let id = holder(rt, state, tile, 0);
    state.trap_of(id)
}

/// The tasks of both tiles reached their traps.
fn has_traps<N: Naming>(rt: &impl Abort, state: &State<N>) -> bool {
    trap_on(rt, state, 0) == Some(2) && trap_on(rt, state, 1) == Some(9)
}

/// One task reaches a word that encodes no instruction, and another an unknown call.
fn comes_to_traps<N: Naming>(
    rt: &impl Abort,
    alloc: Global,
    image: &Image,
    settings: Settings,
) -> Result<(), AllocError>
    requires valid { IsValid settings }
    requires image { image.now ≡ N.image }
    requires budget { settings.budget ≡ N.budget }
    requires commits { settings.commits ≡ N.commits }
{
    let mut state = State::<N>::new(alloc, image, settings)?;
    let _first = add(rt, &mut state, NO_CODE, 1, 0);
    let _second = add(rt, &mut state, BAD_CALLER, 2, 1);
    let made = make_all(rt, image, &mut state, &TRAPS);
    assert!(rt; made.is_err() || has_traps(rt, &state));
    let _parts = state.into_parts();
    made
}

#[test]
fn traps_of_instructions_and_of_calls_are_kept(rt: HostRuntime) -> Result<(), Fail> {
    let image = image_of(rt.alloc(), &CALLERS)?;
    Ok(comes_to_traps::<Brand>(&rt, rt.alloc(), &image, TWO_TILES)?)
}

/// The tasks of a tile go to its four cores.
static ALL_RUN: [Act; 4] = [
    Act::Dispatch(0),
    Act::Dispatch(0),
    Act::Dispatch(0),
    Act::Dispatch(0),
];

/// Whether the task queue of a tile is full.
fn is_full<N: Naming>(state: &State<N>, tile: u32) -> bool
    requires tile { tile < state.now.view.settings.tiles }
    ensures { IsTrue result → IsFull state.now.view tile }
{
    !state.queue_has_room(tile)
}

/// The task that is aborted for room in the first tile, whose queue is full.
fn victim<N: Naming>(rt: &impl Abort, state: &State<N>, asker: Option<TaskId>) -> TaskId {
    assert!(rt; state.settings().tiles > 0 && is_full(state, 0));
    room_victim(state, 0, asker)
}

/// Of a full queue of firm tasks that run the latest is aborted.
fn takes_the_latest<N: Naming>(
    rt: &impl Abort,
    alloc: Global,
    image: &Image,
    settings: Settings,
) -> Result<(), AllocError>
    requires valid { IsValid settings }
    requires image { image.now ≡ N.image }
    requires budget { settings.budget ≡ N.budget }
    requires commits { settings.commits ≡ N.commits }
{
    let mut state = State::<N>::new(alloc, image, settings)?;
    let first = add(rt, &mut state, ENDER, 1, 0);
    let latest = add(rt, &mut state, ENDER, 4, 0);
    let _second = add(rt, &mut state, ENDER, 2, 0);
    let _third = add(rt, &mut state, ENDER, 3, 0);
    let made = make_all(rt, image, &mut state, &ALL_RUN);
    assert!(rt; made.is_err() || victim(rt, &state, Some(first)) == latest);
    let _parts = state.into_parts();
    made
}

#[test]
fn the_latest_firm_task_is_taken_back_for_room(rt: HostRuntime) -> Result<(), Fail> {
    let image = image_of(rt.alloc(), &CALLERS)?;
    Ok(takes_the_latest::<Brand>(&rt, rt.alloc(), &image, FOUR_CORES)?)
}

/// Three tasks run, and the second enqueues a child.
static CHILD_LATEST: [Act; 4] = [
    Act::Dispatch(0),
    Act::Dispatch(0),
    Act::Dispatch(0),
    Act::Step(0, 1),
];

/// If the latest task isn't firm its creator is aborted.
fn takes_the_creator<N: Naming>(
    rt: &impl Abort,
    alloc: Global,
    image: &Image,
    settings: Settings,
) -> Result<(), AllocError>
    requires valid { IsValid settings }
    requires image { image.now ≡ N.image }
    requires budget { settings.budget ≡ N.budget }
    requires commits { settings.commits ≡ N.commits }
{
    let mut state = State::<N>::new(alloc, image, settings)?;
    let first = add(rt, &mut state, ENDER, 1, 0);
    let creator = add(rt, &mut state, MAKER, 2, 0);
    let _third = add(rt, &mut state, ENDER, 3, 0);
    let made = make_all(rt, image, &mut state, &CHILD_LATEST);
    assert!(rt; made.is_err() || victim(rt, &state, Some(first)) == creator);
    let _parts = state.into_parts();
    made
}

#[test]
fn the_creator_of_a_latest_task_that_is_not_firm_is_taken_back(
    rt: HostRuntime,
) -> Result<(), Fail> {
    let image = image_of(rt.alloc(), &CALLERS)?;
    Ok(takes_the_creator::<Brand>(&rt, rt.alloc(), &image, FOUR_CORES)?)
}
