//! Books that are frozen, the images that are saved of them, and the runs that continue from these.

ghost use Rattle.std.specs.Prelude.{◌≡◌, ◌<◌, ℕ, length, IfOk};
ghost use Rattle.machine_run.specs.conflict_book.Frozen.{IsFrozenOf};
ghost use Rattle.resume_image.specs.Saved.{IsSavedOf};
ghost use Rattle.machine_run.specs.serial_machine.WholeRun.{IsRunOf};
ghost use Rattle.machine_run.specs.spec_state.Settings.{IsValid};

use crate::conflict_book::{Frozen, Halt};
use crate::machines::{Hinted, TWO_TILES, image_in, image_of, is_normal, opening_book};
use crate::serial_machine::{End, SerialRun, run_image};
use guest_image::{Image, write_image};
use resume_image::{SaveFault, join_runs, runs_join, snapshot};
use run_journal::{Entry, Journal};
use rv_core::Naming;
use sample_image::{MAKER_TEXT, Program};
use spec_state::{Pending, Settings};
use std::alloc::Global;
use std::marker::Brand;
use std::process::Abort;
use std::test::Fail;
use task_desc::Name;

/// What a book keeps for a run that continues it.
fn frozen_of<N: Naming>(book: Hinted<N>) -> Result<Frozen, Fail>
    ensures { IfOk result (IsFrozenOf N.image N.budget) }
{
    book.is_sound();
    match book.freeze() {
        Ok(frozen) => Ok(frozen),
        Err(book) => {
            let _closed = book.close();
            Err(Fail::from("no memory"))
        }
    }
}

/// What is kept of an image before its first event.
fn frozen_at_start<N: Naming>(
    alloc: Global,
    image: &Image,
    settings: Settings,
) -> Result<Frozen, Fail>
    requires valid { IsValid settings }
    requires image { image.now ≡ N.image }
    requires budget { settings.budget ≡ N.budget }
    requires commits { settings.commits ≡ N.commits }
    ensures { IfOk result (IsFrozenOf N.image N.budget) }
{
    frozen_of(opening_book::<N>(alloc, image, settings, Vec::new(alloc))?)
}

/// What is kept of a run that met its commit limit.
fn frozen_at_limit<N: Naming>(
    rt: &impl Abort,
    alloc: Global,
    image: &Image,
    settings: Settings,
) -> Result<Frozen, Fail>
    requires valid { IsValid settings }
    requires image { image.now ≡ N.image }
    requires budget { settings.budget ≡ N.budget }
    requires commits { settings.commits ≡ N.commits }
    ensures { IfOk result (IsFrozenOf N.image N.budget) }
{
    let mut book = opening_book::<N>(alloc, image, settings, Vec::new(alloc))?;
    assert!(rt; matches!(book.run_least(image), Halt::Ended(End::Limit)));
    frozen_of(book)
}

/// The image that is saved.
fn saved_of(rt: &impl Abort, alloc: Global, image: &Image, frozen: &Frozen) -> Result<Image, Fail>
    requires { (budget : ℕ) × IsFrozenOf image.now budget frozen.now }
    ensures { IfOk result (IsSavedOf image.now frozen.now) }
{
    assert!(rt; !frozen.pending.as_slice().is_empty());
    match snapshot(alloc, image, frozen) {
        Ok(saved) => Ok(saved),
        Err(_) => Err(Fail::from("not saved")),
    }
}

/// A run, and one of its saved image, as one journal.
fn journal_of_both(
    rt: &impl Abort,
    alloc: Global,
    image: &Image,
    budget: u32,
    frozen: &Frozen,
    saved: &Image,
    run: &SerialRun,
) -> Result<Journal, Fail>
    requires frozen { IsFrozenOf image.now budget frozen.now }
    requires saved { IsSavedOf image.now frozen.now saved.now }
    requires run { IsRunOf saved.now 3 budget run.now }
{
    assert!(rt; frozen.closed.journal.as_slice().len() <= 1);
    Ok(join_runs(alloc, image, budget, frozen, saved, &run.journal)?)
}

/// What an entry has: the creator and the place in a name, a depth and a timestamp.
type Turn = (u32, u32, u8, u32);

/// A run that is saved and continued.
struct Join {
    name: &'static str,
    image: &'static [u8],
    settings: Settings,
    /// Whether a task commits before the run is saved.
    is_begun: bool,
    /// The turns before that, what they emit, and the tasks that are pending after them, each with its first argument.
    one: &'static [Turn],
    output: &'static [u8],
    pending: &'static [(Turn, u32)],
    /// The saved image, its turns, and what they emit.
    saved: &'static [u8],
    two: &'static [Turn],
    behind: &'static [u8],
    /// The turns of both, by the names of the first image.
    joined: &'static [Turn],
}

/// An ordered image of one task, at timestamp 7 and with the arguments 1, 2 and 3, that ends at once.
const ENDER: [u8; 60] = [
    0x46, 0x52, 0x41, 0x43, 1, 0, 1, 0, 2, 0, 0, 0, 0, 0, 0, 0, 0, 0, 0, 0, 0, 0, 0, 0, 0, 0, 0, 0,
    1, 0, 0, 0, 0x93, 0x08, 0, 0, 0x73, 0, 0, 0, 0, 0, 1, 0, 7, 0, 0, 0, 1, 0, 0, 0, 2, 0, 0, 0, 3,
    0, 0, 0,
];

/// Two tasks that emit their first arguments: 66 at the greatest timestamp, and 65 at timestamp 0.
const TWO_EMITTERS: [u8; 88] = [
    0x46, 0x52, 0x41, 0x43, 1, 0, 1, 0, 4, 0, 0, 0, 0, 0, 0, 0, 0, 0, 0, 0, 0, 0, 0, 0, 0, 0, 0, 0,
    2, 0, 0, 0, 0x93, 0x08, 0x50, 0, 0x73, 0, 0, 0, 0x93, 0x08, 0, 0, 0x73, 0, 0, 0, 0, 0, 1, 0,
    0xff, 0xff, 0xff, 0xff, 0x42, 0, 0, 0, 0, 0, 0, 0, 0, 0, 0, 0, 0, 0, 1, 0, 0, 0, 0, 0, 0x41, 0,
    0, 0, 0, 0, 0, 0, 0, 0, 0, 0,
];

/// The image that is saved after the second of them.
const LAST_EMITTER: [u8; 68] = [
    0x46, 0x52, 0x41, 0x43, 1, 0, 1, 0, 4, 0, 0, 0, 0, 0, 0, 0, 0, 0, 0, 0, 0, 0, 0, 0, 0, 0, 0, 0,
    1, 0, 0, 0, 0x93, 0x08, 0x50, 0, 0x73, 0, 0, 0, 0x93, 0x08, 0, 0, 0x73, 0, 0, 0, 0, 0, 1, 0,
    0xff, 0xff, 0xff, 0xff, 0x42, 0, 0, 0, 0, 0, 0, 0, 0, 0, 0, 0,
];

/// A task at timestamp 9, and one at timestamp 0 whose child makes one more, each one timestamp later.
const CHAIN: [u8; 104] = [
    0x46, 0x52, 0x41, 0x43, 1, 0, 1, 0, 8, 0, 0, 0, 0, 0, 0, 0, 0, 0, 0, 0, 0, 0, 0, 0, 0, 0, 0, 0,
    2, 0, 0, 0, 0x63, 0x0c, 0x05, 0, 0x13, 0x06, 0xf5, 0xff, 0x37, 0x05, 0x01, 0, 0x93, 0x85, 0x16,
    0, 0x93, 0x08, 0x10, 0, 0x73, 0, 0, 0, 0x93, 0x08, 0, 0, 0x73, 0, 0, 0, 0, 0, 1, 0, 9, 0, 0, 0,
    0, 0, 0, 0, 0, 0, 0, 0, 0, 0, 0, 0, 0, 0, 1, 0, 0, 0, 0, 0, 2, 0, 0, 0, 0, 0, 0, 0, 0, 0, 0, 0,
];

/// The image that is saved after the second of them: its task is that one's child.
const REST_OF_CHAIN: [u8; 104] = [
    0x46, 0x52, 0x41, 0x43, 1, 0, 1, 0, 8, 0, 0, 0, 0, 0, 0, 0, 0, 0, 0, 0, 0, 0, 0, 0, 0, 0, 0, 0,
    2, 0, 0, 0, 0x63, 0x0c, 0x05, 0, 0x13, 0x06, 0xf5, 0xff, 0x37, 0x05, 0x01, 0, 0x93, 0x85, 0x16,
    0, 0x93, 0x08, 0x10, 0, 0x73, 0, 0, 0, 0x93, 0x08, 0, 0, 0x73, 0, 0, 0, 0, 0, 1, 0, 9, 0, 0, 0,
    0, 0, 0, 0, 0, 0, 0, 0, 0, 0, 0, 0, 0, 0, 1, 0, 1, 0, 0, 0, 1, 0, 0, 0, 0, 0, 0, 0, 0, 0, 0, 0,
];

/// Two tiles of one core, where a task may execute five instructions.
const SHORT_TASKS: Settings = Settings {
    budget: 5,
    ..TWO_TILES
};

/// One task may commit.
const ONE_COMMIT: Settings = Settings {
    commits: 1,
    ..TWO_TILES
};

/// A name of the saved image's run is that of the task that pends at its place, or one whose creator took its turn as
/// many turns later as were before.
static JOINS: [Join; 3] = [
    Join {
        name: "no turn before, and each name is as it was",
        image: &ENDER,
        settings: SHORT_TASKS,
        is_begun: false,
        one: &[],
        output: b"",
        pending: &[((0, 0, 1, 7), 1)],
        saved: &ENDER,
        two: &[(0, 0, 1, 7)],
        behind: b"",
        joined: &[(0, 0, 1, 7)],
    },
    Join {
        name: "a task of the first image pends",
        image: &TWO_EMITTERS,
        settings: ONE_COMMIT,
        is_begun: true,
        one: &[(0, 1, 1, 0)],
        output: b"A",
        pending: &[((0, 0, 1, u32::MAX), 66)],
        saved: &LAST_EMITTER,
        two: &[(0, 0, 1, u32::MAX)],
        behind: b"B",
        joined: &[(0, 1, 1, 0), (0, 0, 1, u32::MAX)],
    },
    Join {
        name: "a child pends, and makes one more",
        image: &CHAIN,
        settings: ONE_COMMIT,
        is_begun: true,
        one: &[(0, 1, 1, 0)],
        output: b"",
        pending: &[((0, 0, 1, 9), 0), ((1, 0, 1, 1), 1)],
        saved: &REST_OF_CHAIN,
        two: &[(0, 1, 1, 1), (1, 0, 1, 2), (0, 0, 1, 9)],
        behind: b"",
        joined: &[(0, 1, 1, 0), (1, 0, 1, 1), (2, 0, 1, 2), (0, 0, 1, 9)],
    },
];

/// Whether these are the entries of a journal.
fn are_turns(journal: &[Entry], turns: &[Turn]) -> bool {
    for (entry, turn) in journal.iter().zip(turns) {
        if (entry.name.creator, entry.name.index, entry.depth, entry.ts) != *turn {
            return false;
        }
    }
    journal.len() == turns.len()
}

/// Whether these tasks pend.
fn do_pend(pending: &[Pending], wanted: &[(Turn, u32)]) -> bool {
    for (task, (turn, first)) in pending.iter().zip(wanted) {
        if (task.name.creator, task.name.index, task.depth, task.ts) != *turn
            || task.args[0] != *first
        {
            return false;
        }
    }
    pending.len() == wanted.len()
}

/// What is kept of the first run.
fn is_kept(rt: &impl Abort, frozen: &Frozen, join: &Join) {
    assert!(rt;
        are_turns(frozen.closed.journal.as_slice(), join.one),
        "{}",
        join.name
    );
    assert!(rt;
        frozen.closed.output.as_slice() == join.output,
        "{}",
        join.name
    );
    assert!(rt;
        do_pend(frozen.pending.as_slice(), join.pending),
        "{}",
        join.name
    );
}

/// The saved image is written so.
fn is_written(rt: &impl Abort, alloc: Global, saved: &Image, join: &Join) -> Result<(), Fail> {
    let bytes = write_image(alloc, saved)?;
    assert_eq!(rt; bytes.as_slice(), join.saved, "{}", join.name);
    Ok(())
}

/// The result of a run of the saved image.
fn runs_on(rt: &impl Abort, run: &SerialRun, join: &Join) {
    assert!(rt; is_normal(run.end), "{}", join.name);
    assert!(rt; run.output.as_slice() == join.behind, "{}", join.name);
    assert!(rt;
        are_turns(run.journal.as_slice(), join.two),
        "{}",
        join.name
    );
}

/// The saved image runs to its end, and both runs are one.
fn joins(
    rt: &impl Abort,
    alloc: Global,
    image: &Image,
    budget: u32,
    frozen: &Frozen,
    saved: &Image,
    join: &Join,
) -> Result<(), Fail>
    requires frozen { IsFrozenOf image.now budget frozen.now }
    requires saved { IsSavedOf image.now frozen.now saved.now }
{
    let run = run_image(alloc, saved, 3, budget)?;
    runs_on(rt, &run, join);
    let journal = journal_of_both(rt, alloc, image, budget, frozen, saved, &run)?;
    assert!(rt; are_turns(journal.as_slice(), join.joined), "{}", join.name);
    Ok(())
}

/// What is kept of a run before its first event, or at its commit limit.
fn frozen_run<N: Naming>(
    rt: &impl Abort,
    alloc: Global,
    image: &Image,
    join: &Join,
) -> Result<Frozen, Fail>
    requires valid { IsValid join.now.settings }
    requires image { image.now ≡ N.image }
    requires budget { join.now.settings.budget ≡ N.budget }
    requires commits { join.now.settings.commits ≡ N.commits }
    ensures { IfOk result (IsFrozenOf N.image N.budget) }
{
    if join.is_begun {
        frozen_at_limit::<N>(rt, alloc, image, join.settings)
    } else {
        frozen_at_start::<N>(alloc, image, join.settings)
    }
}

/// A run is saved and continued.
fn goes_on<N: Naming>(
    rt: &impl Abort,
    alloc: Global,
    image: &Image,
    join: &Join,
) -> Result<(), Fail>
    requires valid { IsValid join.now.settings }
    requires image { image.now ≡ N.image }
    requires budget { join.now.settings.budget ≡ N.budget }
    requires commits { join.now.settings.commits ≡ N.commits }
{
    let frozen = frozen_run::<N>(rt, alloc, image, join)?;
    is_kept(rt, &frozen, join);
    let saved = saved_of(rt, alloc, image, &frozen)?;
    is_written(rt, alloc, &saved, join)?;
    joins(
        rt,
        alloc,
        image,
        join.settings.budget,
        &frozen,
        &saved,
        join,
    )
}

#[test]
fn a_saved_run_goes_on_under_the_names_of_one_run(rt: HostRuntime) -> Result<(), Fail> {
    runs_join();
    for join in &JOINS {
        let image = image_in(rt.alloc(), join.image)?;
        assert!(rt; join.settings.valid());
        goes_on::<Brand>(&rt, rt.alloc(), &image, join)?;
    }
    Ok(())
}

/// Two tasks at timestamp 5, the first of which makes a subdomain with tasks at the timestamps 3, 2 and 1.
static NESTED: [u8; 124] = [
    0x46, 0x52, 0x41, 0x43, 1, 0, 1, 0, 13, 0, 0, 0, 0, 0, 0, 0, 0, 0, 0, 0, 0, 0, 0, 0, 0, 0, 0,
    0, 2, 0, 0, 0, 0x93, 0x04, 0x05, 0, 0x63, 0x84, 0x04, 0x02, 0x13, 0x05, 0x10, 0, 0x93, 0x08,
    0x40, 0, 0x73, 0, 0, 0, 0x93, 0x08, 0x20, 0, 0x37, 0x05, 0x01, 0, 0x93, 0x85, 0x04, 0, 0x73, 0,
    0, 0, 0x93, 0x84, 0xf4, 0xff, 0xe3, 0x9a, 0x04, 0xfe, 0x93, 0x08, 0, 0, 0x73, 0, 0, 0, 0, 0, 1,
    0, 5, 0, 0, 0, 3, 0, 0, 0, 0, 0, 0, 0, 0, 0, 0, 0, 0, 0, 1, 0, 5, 0, 0, 0, 0, 0, 0, 0, 0, 0, 0,
    0, 0, 0, 0, 0,
];

/// Two tasks may commit.
const TWO_COMMITS: Settings = Settings {
    commits: 2,
    ..TWO_TILES
};

/// What pends after the first task and the first task of its subdomain.
static IN_AND_OUT: [Pending; 3] = [
    Pending {
        name: Name {
            creator: 0,
            index: 1,
        },
        depth: 1,
        entry: 0x0001_0000,
        ts: 5,
        args: [0; 3],
    },
    Pending {
        name: Name {
            creator: 1,
            index: 0,
        },
        depth: 2,
        entry: 0x0001_0000,
        ts: 3,
        args: [0, 5, 0],
    },
    Pending {
        name: Name {
            creator: 1,
            index: 1,
        },
        depth: 2,
        entry: 0x0001_0000,
        ts: 2,
        args: [0, 5, 0],
    },
];

/// Whether a run isn't saved since a task pends at this depth.
fn is_nested(saved: Result<Image, SaveFault>, wanted: u8) -> bool {
    match saved {
        Err(SaveFault::Nested { depth }) => depth == wanted,
        _ => false,
    }
}

/// A run that stopped inside a subdomain can't be saved.
fn stops_inside<N: Naming>(
    rt: &impl Abort,
    alloc: Global,
    image: &Image,
    settings: Settings,
) -> Result<(), Fail>
    requires valid { IsValid settings }
    requires image { image.now ≡ N.image }
    requires budget { settings.budget ≡ N.budget }
    requires commits { settings.commits ≡ N.commits }
{
    let frozen = frozen_at_limit::<N>(rt, alloc, image, settings)?;
    assert_eq!(rt; frozen.pending.as_slice(), IN_AND_OUT.as_slice());
    assert!(rt; is_nested(snapshot(alloc, image, &frozen), 2));
    Ok(())
}

#[test]
fn a_run_that_stopped_inside_a_domain_is_not_saved(rt: HostRuntime) -> Result<(), Fail> {
    let image = image_in(rt.alloc(), &NESTED)?;
    stops_inside::<Brand>(&rt, rt.alloc(), &image, TWO_COMMITS)
}

/// A task that makes 64 children at the timestamps 64 down to 1.
const MAKER: Program = Program {
    text: &MAKER_TEXT,
    initial: &[],
    data_size: 0,
    tasks: &[(0x0001_0000, 0)],
};

/// One tile with a task queue of four, where one task may commit.
const ONE_SHORT_QUEUE: Settings = Settings {
    tiles: 1,
    task_queue: 4,
    commits: 1,
    ..TWO_TILES
};

/// The child that was made first, by the task that committed first.
const FIRST_CHILD: Pending = Pending {
    name: Name {
        creator: 1,
        index: 0,
    },
    depth: 1,
    entry: 0x0001_0020,
    ts: 64,
    args: [0; 3],
};

/// The child that was made last.
const LAST_CHILD: Pending = Pending {
    name: Name {
        creator: 1,
        index: 63,
    },
    ts: 1,
    ..FIRST_CHILD
};

/// All children pend, the first at timestamp 64 and the last at 1.
fn are_the_children(rt: &impl Abort, pending: &[Pending]) {
    assert_eq!(rt; pending.len(), 64);
    assert!(rt; pending.first() == Some(&FIRST_CHILD));
    assert!(rt; pending.last() == Some(&LAST_CHILD));
}

/// The run stopped at its limit, with one child in the queue.
fn stopped_with_one(rt: &impl Abort, halt: &Halt, loads: &[u32]) {
    assert!(rt; matches!(halt, Halt::Ended(End::Limit)));
    assert_eq!(rt; loads, [1].as_slice());
}

/// One child is left in the queue and all others are spilled; all of them pend.
fn keeps_the_spilled<N: Naming>(
    rt: &impl Abort,
    alloc: Global,
    image: &Image,
    settings: Settings,
) -> Result<(), Fail>
    requires valid { IsValid settings }
    requires image { image.now ≡ N.image }
    requires budget { settings.budget ≡ N.budget }
    requires commits { settings.commits ≡ N.commits }
{
    let mut book = opening_book::<N>(alloc, image, settings, Vec::new(alloc))?;
    let halt = book.run_least(image);
    stopped_with_one(rt, &halt, book.loads().as_slice());
    let frozen = frozen_of(book)?;
    are_the_children(rt, frozen.pending.as_slice());
    Ok(())
}

#[test]
fn spilled_children_of_a_committed_task_pend(rt: HostRuntime) -> Result<(), Fail> {
    let image = image_of(rt.alloc(), &MAKER)?;
    keeps_the_spilled::<Brand>(&rt, rt.alloc(), &image, ONE_SHORT_QUEUE)
}

/// The task that makes them, before its turn.
static THE_MAKER: [Pending; 1] = [Pending {
    name: Name {
        creator: 0,
        index: 0,
    },
    depth: 1,
    entry: 0x0001_0000,
    ts: 0,
    args: [0; 3],
}];

/// Twenty events of the least task are made: its dispatch, and 19 children.
fn make_children<N: Naming>(book: &mut Hinted<N>, image: &Image)
    requires image { image.now ≡ N.image }
{
    for _ in 0..20 {
        let _ = book.advance(image);
    }
}

/// The queue holds the task and one child.
fn are_two(rt: &impl Abort, loads: &[u32]) {
    assert_eq!(rt; loads, [2].as_slice());
}

/// Only the task that makes children pends.
fn is_the_maker(rt: &impl Abort, pending: &[Pending]) {
    assert_eq!(rt; pending, THE_MAKER.as_slice());
}

/// The children of a task that has not committed don't pend; it does.
fn keeps_the_maker<N: Naming>(
    rt: &impl Abort,
    alloc: Global,
    image: &Image,
    settings: Settings,
) -> Result<(), Fail>
    requires valid { IsValid settings }
    requires image { image.now ≡ N.image }
    requires budget { settings.budget ≡ N.budget }
    requires commits { settings.commits ≡ N.commits }
{
    let mut book = opening_book::<N>(alloc, image, settings, Vec::new(alloc))?;
    make_children(&mut book, image);
    are_two(rt, book.loads().as_slice());
    let frozen = frozen_of(book)?;
    is_the_maker(rt, frozen.pending.as_slice());
    Ok(())
}

#[test]
fn children_of_a_running_task_do_not_pend(rt: HostRuntime) -> Result<(), Fail> {
    let image = image_of(rt.alloc(), &MAKER)?;
    keeps_the_maker::<Brand>(&rt, rt.alloc(), &image, ONE_SHORT_QUEUE)
}
