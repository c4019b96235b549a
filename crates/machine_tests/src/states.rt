//! The state of the speculative machine: its settings, the bytes of a task, its queries without a task, with one and
//! with two, and what it leaves.

ghost use Rattle.std.specs.Prelude.{◌≡◌, ◌<◌, IsSome};
ghost use Rattle.machine_run.specs.spec_state.Opening.{DescIsOfImage};
ghost use Rattle.machine_run.specs.spec_state.Settings.{IsValid};
ghost use Rattle.machine_run.specs.spec_state.View.{task_at};

use crate::machines::{DEFAULTS, image_of};
use guest_image::{Image, Kind};
use rv_core::Naming;
use sample_image::Program;
use spec_state::{Emitted, Parts, Pending, Settings, State, Task, TaskId, Where};
use std::alloc::{AllocError, Global};
use std::marker::Brand;
use std::process::Abort;
use std::test::Fail;
use task_desc::{Ctx, Desc, Name};

/// Settings, and whether each of their numbers is in its range.
static RANGES: [(Settings, bool); 4] = [
    (DEFAULTS, true),
    (
        Settings {
            tiles: 17,
            ..DEFAULTS
        },
        false,
    ),
    (
        Settings {
            line: 12,
            ..DEFAULTS
        },
        false,
    ),
    (
        Settings {
            commits: 0,
            ..DEFAULTS
        },
        false,
    ),
];

#[test]
fn settings_have_ranges(rt: HostRuntime) {
    for (settings, valid) in &RANGES {
        assert_eq!(rt; settings.valid(), *valid, "{settings:?}");
    }
}

#[test]
fn bytes_stand_in_the_order_of_their_calls(rt: HostRuntime) {
    let mut emitted = Emitted::new();
    emitted.push(65);
    emitted.push(66);
    assert_eq!(rt; emitted.as_slice(), [65, 66].as_slice());
    emitted.clear();
    assert!(rt; emitted.as_slice().is_empty());
}

/// Takes what may go to another thread.
fn is_sent<T: Send>(_value: &T) {}

/// A task may go to another thread.
#[allow(dead_code)]
fn task_is_sent(task: &Task) {
    is_sent(task);
}

/// A state may go to another thread.
#[allow(dead_code)]
fn state_is_sent<N: Naming + Send>(state: &State<N>) {
    is_sent(state);
}

/// A program without text, with one task.
const NO_TEXT: Program = Program {
    text: &[],
    initial: &[],
    data_size: 8,
    tasks: &[(0x0001_0000, 5)],
};

/// Four tiles hold nothing, and nothing was left.
fn are_empty(rt: &impl Abort, loads: &[u32], commits: usize, bytes: usize) {
    assert_eq!(rt; loads, [0, 0, 0, 0].as_slice());
    assert!(rt; commits == 0 && bytes == 0);
}

/// The state holds nothing yet.
fn has_nothing<N: Naming>(rt: &impl Abort, state: &State<N>) {
    are_empty(
        rt,
        state.loads().as_slice(),
        state.history().len(),
        state.output().len(),
    );
    assert!(rt; state.path().levels().is_empty() && state.next == 0);
}

/// The last tile has nothing on its last core, in its commit queue or in its block.
fn has_nothing_last<N: Naming>(rt: &impl Abort, state: &State<N>)
    requires tile { 3 < state.now.view.settings.tiles }
    requires core { 1 < state.now.view.settings.cores }
{
    assert!(rt; state.on_core(3, 1).is_none());
    assert_eq!(rt; state.commit_free(3), 16);
    assert_eq!(rt; state.block_len(3), 0);
}

/// The queries of a state of the default settings without a task.
fn tells_nothing<N: Naming>(rt: &impl Abort, state: &State<N>) {
    let settings = state.settings();
    assert_eq!(rt; *settings, DEFAULTS);
    assert!(rt; settings.tiles > 3 && settings.cores > 1);
    has_nothing_last(rt, state);
    has_nothing(rt, state);
}

/// A state without a task is made.
fn begins_with_nothing<N: Naming>(
    rt: &impl Abort,
    alloc: Global,
    image: &Image,
    settings: Settings,
) -> Result<(), AllocError>
    requires valid { IsValid settings }
    requires image { image.now ≡ N.image }
    requires budget { settings.budget ≡ N.budget }
    requires commits { settings.commits ≡ N.commits }
{
    let state = State::<N>::new(alloc, image, settings)?;
    tells_nothing(rt, &state);
    let _parts = state.into_parts();
    Ok(())
}

#[test]
fn a_new_state_has_no_task(rt: HostRuntime) -> Result<(), Fail> {
    let image = image_of(rt.alloc(), &NO_TEXT)?;
    Ok(begins_with_nothing::<Brand>(&rt, rt.alloc(), &image, DEFAULTS)?)
}

/// The name of the image's first task.
const FIRST_NAME: Name = Name {
    creator: 0,
    index: 0,
};

/// The image's task.
const FIRST: Desc = Desc {
    name: FIRST_NAME,
    entry: 0x0001_0000,
    ts: 5,
    args: [0; 3],
    hint: 0,
    depth: 1,
    kinds: 1,
};

/// The place of a state's one task among all.
fn tells_order<N: Naming>(rt: &impl Abort, state: &State<N>, task: TaskId)
    requires live { IsSome (task_at state.now.view task.0) }
{
    assert!(rt; state.least() == Some(Where::Idle(task)));
    assert!(rt; state.heir().is_none() && state.firm(task));
    assert!(rt; state.name_of(task) == Some(FIRST_NAME));
}

/// What the task's next call depends on.
fn is_first_context(rt: &impl Abort, context: &Ctx) {
    assert!(rt; context.depth == 1 && context.own == Kind::Ordered && context.outer.is_none());
    assert!(rt; context.ts == 5 && context.floor == 0);
    assert!(rt; context.children == 0 && context.bytes == 0);
}

/// The place of the task, and that it has not begun.
fn tells_idle<N: Naming>(rt: &impl Abort, state: &State<N>, task: TaskId)
    requires live { IsSome (task_at state.now.view task.0) }
{
    let key = state.key_of(task);
    assert!(rt; key.domain.levels().is_empty() && key.ts == 5 && key.tb.is_none());
    assert!(rt; state.core_of(task).is_none() && state.trap_of(task).is_none());
    assert_eq!(rt; state.tile_of(task), 3);
}

/// Adds a task whose creator is the image in a tile with a free place.
fn added_to<N: Naming>(rt: &impl Abort, state: &mut State<N>, desc: &Desc, tile: u32) -> TaskId
    requires { DescIsOfImage desc.now }
    ensures { IsSome (task_at state.new.view result.0) }
{
    assert!(rt; tile < state.settings().tiles && state.queue_has_room(tile));
    state.add(desc, tile).unwrap()
}

/// The queries about the one task that was added to a state.
fn tells_one<N: Naming>(rt: &impl Abort, state: &State<N>, task: TaskId)
    requires live { IsSome (task_at state.now.view task.0) }
{
    tells_order(rt, state, task);
    is_first_context(rt, &state.ctx_of(task));
    tells_idle(rt, state, task);
}

/// Memory is reserved for what one event of the task adds, and the task is unchanged.
fn is_reserved<N: Naming>(
    rt: &impl Abort,
    state: &mut State<N>,
    task: TaskId,
) -> Result<(), AllocError>
    requires live { IsSome (task_at state.old.view task.0) }
{
    assert!(rt; state.settings().tiles > 3);
    state.reserve(Some(task), 3)?;
    assert_eq!(rt; state.loads().as_slice(), [0, 0, 0, 1].as_slice());
    Ok(())
}

/// A task is added.
fn adds_one<N: Naming>(rt: &impl Abort, state: &mut State<N>) -> Result<(), AllocError> {
    let task = added_to(rt, state, &FIRST, 3);
    tells_one(rt, state, task);
    is_reserved(rt, state, task)
}

/// What a state left.
fn are_zeros(rt: &impl Abort, parts: &Parts) {
    assert!(rt; parts.journal.as_slice().is_empty() && parts.output.as_slice().is_empty());
    assert_eq!(rt; parts.memory.as_slice(), [0; 8].as_slice());
}

/// A state with one task is made.
fn begins_with_one<N: Naming>(
    rt: &impl Abort,
    alloc: Global,
    image: &Image,
    settings: Settings,
) -> Result<(), AllocError>
    requires valid { IsValid settings }
    requires image { image.now ≡ N.image }
    requires budget { settings.budget ≡ N.budget }
    requires commits { settings.commits ≡ N.commits }
{
    let mut state = State::<N>::new(alloc, image, settings)?;
    let added = adds_one(rt, &mut state);
    are_zeros(rt, &state.into_parts());
    added
}

#[test]
fn an_added_task_is_idle(rt: HostRuntime) -> Result<(), Fail> {
    let image = image_of(rt.alloc(), &NO_TEXT)?;
    Ok(begins_with_one::<Brand>(&rt, rt.alloc(), &image, DEFAULTS)?)
}

/// The name of a second task of an image.
const SECOND_NAME: Name = Name {
    creator: 0,
    index: 1,
};

/// A second task whose creator is the image; the image itself has the first one alone.
const SECOND: Desc = Desc {
    name: SECOND_NAME,
    ts: 3,
    args: [7, 8, 9],
    hint: 1,
    ..FIRST
};

/// Both tasks, as those that pend.
static BOTH: [Pending; 2] = [
    Pending {
        name: FIRST_NAME,
        depth: 1,
        entry: 0x0001_0000,
        ts: 5,
        args: [0; 3],
    },
    Pending {
        name: SECOND_NAME,
        depth: 1,
        entry: 0x0001_0000,
        ts: 3,
        args: [7, 8, 9],
    },
];

/// Both tasks pend, in their order, where the last one was added first.
fn adds_both<N: Naming>(rt: &impl Abort, state: &mut State<N>) -> Result<(), AllocError> {
    let _second = added_to(rt, state, &SECOND, 0);
    let _first = added_to(rt, state, &FIRST, 1);
    let pending = state.pending()?;
    assert_eq!(rt; pending.as_slice(), BOTH.as_slice());
    Ok(())
}

/// A state with both tasks is made.
fn begins_with_both<N: Naming>(
    rt: &impl Abort,
    alloc: Global,
    image: &Image,
    settings: Settings,
) -> Result<(), AllocError>
    requires valid { IsValid settings }
    requires image { image.now ≡ N.image }
    requires budget { settings.budget ≡ N.budget }
    requires commits { settings.commits ≡ N.commits }
{
    let mut state = State::<N>::new(alloc, image, settings)?;
    let added = adds_both(rt, &mut state);
    let _parts = state.into_parts();
    added
}

#[test]
fn the_tasks_of_an_image_pend_in_their_order(rt: HostRuntime) -> Result<(), Fail> {
    let image = image_of(rt.alloc(), &NO_TEXT)?;
    Ok(begins_with_both::<Brand>(&rt, rt.alloc(), &image, DEFAULTS)?)
}
