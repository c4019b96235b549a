//! Books that make given events, one by one or as a list, or those of the least tasks, and their answers and results.

ghost use Rattle.std.specs.Prelude.{◌≡◌, All, IsTrue};
ghost use Rattle.machine_run.specs.spec_state.Settings.{IsValid};
ghost use Rattle.machine_run.specs.conflict_book.Ranges.{IsInRange};

use crate::conflict_book::{Applied, Book, Event, Halt, Reply};
use crate::machines::{
    ENDERS, FOUR_CORES, Hinted, TWO_TILES, image_of, is_normal, one_tap, opening_book,
};
use crate::serial_machine::End;
use guest_image::Image;
use run_journal::Closed;
use rv_core::{Naming, run_leg};
use sample_image::{FIRST_MAKER, Program, READER_AND_WRITER};
use spec_state::{DISPATCH_NUMBERS, Settings};
use std::alloc::{AllocError, Global};
use std::marker::Brand;
use std::process::Abort;
use std::test::Fail;

/// Takes what may go to another thread.
fn is_sent<T: Send>(_value: &T) {}

/// A lock can hold a book with boxed placers and taps.
#[allow(dead_code)]
fn book_is_sent<N: Naming + Send>(book: &Book<N>) {
    is_sent(book);
}

/// What a script requests; a step is one of the first core of a tile.
#[derive(Clone, Copy)]
enum Act {
    Dispatch(u32),
    Step(u32),
    Commit,
    Split(u32),
}

const OK: Applied = Applied {
    reply: Reply::Ok,
    aborted: 0,
};

const TAKES_1: Applied = Applied {
    reply: Reply::Ok,
    aborted: 1,
};

const TAKES_2: Applied = Applied {
    reply: Reply::Ok,
    aborted: 2,
};

const STALL: Applied = Applied {
    reply: Reply::Stall,
    aborted: 0,
};

/// The script in which the writer comes last and is to come first, and the answer to each event.
static LATE_WRITER: [(Act, Applied); 17] = [
    (Act::Dispatch(0), OK),
    (Act::Step(0), OK),
    (Act::Step(0), OK),
    (Act::Step(0), OK),
    (Act::Dispatch(1), OK),
    (Act::Step(1), TAKES_2),
    (Act::Step(1), OK),
    (Act::Commit, OK),
    (Act::Dispatch(0), OK),
    (Act::Step(0), OK),
    (Act::Step(0), OK),
    (Act::Step(0), OK),
    (Act::Step(0), OK),
    (Act::Commit, OK),
    (Act::Dispatch(0), OK),
    (Act::Step(0), OK),
    (Act::Commit, OK),
];

/// The script in which a task of four cores is spilled, and the answer to each event.
static FULL_QUEUE: [(Act, Applied); 7] = [
    (Act::Dispatch(0), OK),
    (Act::Dispatch(0), OK),
    (Act::Dispatch(0), OK),
    (Act::Dispatch(0), OK),
    (Act::Step(0), TAKES_1),
    (Act::Step(0), OK),
    (Act::Split(0), STALL),
];

/// Whether the event's tile and core are there.
fn may_take<N: Naming>(settings: &Settings, event: &Event<N>) -> bool
    ensures { IsTrue result → IsInRange settings.now event.now }
{
    match event {
        Event::Step { tile, core, .. } => *tile < settings.tiles && *core < settings.cores,
        Event::Commit => true,
        Event::Dispatch { tile }
        | Event::Abort { tile }
        | Event::Coalesce { tile }
        | Event::Split { tile } => *tile < settings.tiles,
    }
}

/// Whether the tile and the core of each event are there.
fn may_take_all<N: Naming>(settings: &Settings, events: &[Event<N>]) -> bool
    ensures { IsTrue result → All (IsInRange settings.now) events.now }
{
    for event in events {
        if !may_take(settings, event) {
            return false;
        }
    }
    true
}

/// The step of the task on the first core of a tile; None if the machine hasn't that tile or no task runs there.
fn step_of<N: Naming>(image: &Image, book: &Hinted<N>, tile: u32) -> Option<Event<N>>
    requires image { image.now ≡ N.image }
{
    let (quantum, budget) = (book.settings().quantum, book.settings().budget);
    let leg = run_leg(image, book.core_at(tile, 0)?, quantum, budget);
    Some(Event::Step { tile, core: 0, leg })
}

/// The event of an act for the book as it is; None if no task runs that was to be stepped.
fn event_of<N: Naming>(image: &Image, book: &Hinted<N>, act: Act) -> Option<Event<N>>
    requires image { image.now ≡ N.image }
{
    match act {
        Act::Commit => Some(Event::Commit),
        Act::Step(tile) => step_of(image, book, tile),
        Act::Dispatch(tile) => Some(Event::Dispatch { tile }),
        Act::Split(tile) => Some(Event::Split { tile }),
    }
}

/// Makes the event of an act, and returns whether it has this answer.
fn is_answered<N: Naming>(image: &Image, book: &mut Hinted<N>, act: Act, answer: &Applied) -> bool
    requires image { image.now ≡ N.image }
{
    match event_of(image, book, act) {
        Some(event) => may_take(book.settings(), &event) && book.apply(event) == *answer,
        None => false,
    }
}

/// Makes the events of a script one after another; each has the answer of the script.
fn are_answered<N: Naming>(
    rt: &impl Abort,
    image: &Image,
    book: &mut Hinted<N>,
    script: &[(Act, Applied)],
)
    requires image { image.now ≡ N.image }
{
    for (place, (act, answer)) in script.iter().enumerate() {
        assert!(rt; is_answered(image, book, *act, answer), "event {place}");
    }
}

/// A book of these settings with one tap.
fn book_with_tap<N: Naming>(
    alloc: Global,
    image: &Image,
    settings: Settings,
) -> Result<Hinted<N>, Fail>
    requires valid { IsValid settings }
    requires image { image.now ≡ N.image }
    requires budget { settings.budget ≡ N.budget }
    requires commits { settings.commits ≡ N.commits }
{
    let taps = one_tap(alloc)?;
    Ok(opening_book(alloc, image, settings, taps)?)
}

/// Adds an event, if there is one.
fn add<N: Naming>(events: &mut Vec<Event<N>>, event: Option<Event<N>>) -> Result<(), AllocError> {
    match event {
        Some(event) => Ok(events.push(event)?),
        None => Ok(()),
    }
}

/// Notes the events of a script while a book makes them one after another; each has the answer of the script.
fn note_events<N: Naming>(
    rt: &impl Abort,
    image: &Image,
    book: &mut Hinted<N>,
    events: &mut Vec<Event<N>>,
    script: &[(Act, Applied)],
) -> Result<(), AllocError>
    requires image { image.now ≡ N.image }
{
    for (place, (act, answer)) in script.iter().enumerate() {
        add(events, event_of(image, book, *act))?;
        assert!(rt; is_answered(image, book, *act, answer), "event {place}");
    }
    Ok(())
}

/// The run of the reader, its child and the writer ended after its 17 events.
fn ended_whole(rt: &impl Abort, steps: u64, end: Option<End>) {
    assert_eq!(rt; steps, 17);
    assert!(rt; is_normal(end));
}

/// The tap has the last four records.
fn tap_has_the_last(rt: &impl Abort, length: Option<u32>, last: Option<u64>) {
    assert!(rt; length == Some(20));
    assert!(rt; last == Some(3));
}

/// What the run left.
fn left_whole(rt: &impl Abort, closed: &Closed) {
    assert_eq!(rt;
        closed.memory.as_slice(),
        [7, 0, 0, 0, 8, 0, 0, 0].as_slice()
    );
    assert_eq!(rt; closed.journal.as_slice().len(), 3);
}

/// The run reached its end.
fn is_whole<N: Naming>(rt: &impl Abort, book: Hinted<N>) {
    ended_whole(rt, book.steps(), book.end());
    tap_has_the_last(rt, book.tap_len(0), book.tap_at(0, 19));
    left_whole(rt, &book.close());
}

/// The events of the first script are made one after another.
fn made_one_by_one<N: Naming>(
    rt: &impl Abort,
    alloc: Global,
    image: &Image,
    settings: Settings,
) -> Result<(), Fail>
    requires valid { IsValid settings }
    requires image { image.now ≡ N.image }
    requires budget { settings.budget ≡ N.budget }
    requires commits { settings.commits ≡ N.commits }
{
    let mut book = book_with_tap::<N>(alloc, image, settings)?;
    are_answered(rt, image, &mut book, &LATE_WRITER);
    is_whole(rt, book);
    Ok(())
}

#[test]
fn a_late_writer_takes_the_reader_back(rt: HostRuntime) -> Result<(), Fail> {
    let image = image_of(rt.alloc(), &READER_AND_WRITER)?;
    made_one_by_one::<Brand>(&rt, rt.alloc(), &image, TWO_TILES)
}

/// The events of a script, noted while another book makes them one after another.
fn events_to_make<N: Naming>(
    rt: &impl Abort,
    alloc: Global,
    image: &Image,
    settings: Settings,
    script: &[(Act, Applied)],
) -> Result<Vec<Event<N>>, Fail>
    requires valid { IsValid settings }
    requires image { image.now ≡ N.image }
    requires budget { settings.budget ≡ N.budget }
    requires commits { settings.commits ≡ N.commits }
{
    let mut book = book_with_tap::<N>(alloc, image, settings)?;
    let mut events = Vec::new(alloc);
    let noted = note_events(rt, image, &mut book, &mut events, script);
    let _closed = book.close();
    noted?;
    Ok(events)
}

/// The answers are those of a script.
fn are_as_scripted(rt: &impl Abort, answers: &[Applied], script: &[(Act, Applied)]) {
    assert_eq!(rt; answers.len(), script.len());
    for (answer, (_, wanted)) in answers.iter().zip(script) {
        assert_eq!(rt; answer, wanted);
    }
}

/// Makes these events in a book as one list, with the answers of the script.
fn make_list<N: Naming>(
    rt: &impl Abort,
    book: &mut Hinted<N>,
    events: Vec<Event<N>>,
    script: &[(Act, Applied)],
) -> Result<(), AllocError> {
    assert!(rt; may_take_all(book.settings(), &events));
    let answers = book.apply_all(events)?;
    are_as_scripted(rt, &answers, script);
    Ok(())
}

/// A book that made the events of a script as one list.
fn book_after_list<N: Naming>(
    rt: &impl Abort,
    alloc: Global,
    image: &Image,
    settings: Settings,
    script: &[(Act, Applied)],
) -> Result<Hinted<N>, Fail>
    requires valid { IsValid settings }
    requires image { image.now ≡ N.image }
    requires budget { settings.budget ≡ N.budget }
    requires commits { settings.commits ≡ N.commits }
{
    let events = events_to_make::<N>(rt, alloc, image, settings, script)?;
    let mut book = book_with_tap::<N>(alloc, image, settings)?;
    match make_list(rt, &mut book, events, script) {
        Ok(()) => Ok(book),
        Err(error) => {
            let _closed = book.close();
            Err(Fail::from(error))
        }
    }
}

/// The events of the first script are made as one list.
fn made_at_once<N: Naming>(
    rt: &impl Abort,
    alloc: Global,
    image: &Image,
    settings: Settings,
) -> Result<(), Fail>
    requires valid { IsValid settings }
    requires image { image.now ≡ N.image }
    requires budget { settings.budget ≡ N.budget }
    requires commits { settings.commits ≡ N.commits }
{
    let book = book_after_list::<N>(rt, alloc, image, settings, &LATE_WRITER)?;
    is_whole(rt, book);
    Ok(())
}

#[test]
fn a_list_of_events_takes_the_reader_back(rt: HostRuntime) -> Result<(), Fail> {
    let image = image_of(rt.alloc(), &READER_AND_WRITER)?;
    made_at_once::<Brand>(&rt, rt.alloc(), &image, TWO_TILES)
}

/// The last of seven events was refused, and the queue stays full.
fn is_full(rt: &impl Abort, steps: u64, end: Option<End>, loads: &[u32]) {
    assert_eq!(rt; steps, 6);
    assert!(rt; end.is_none());
    assert_eq!(rt; loads, [4].as_slice());
}

/// The events of the second script are made as one list.
fn stalls_at_once<N: Naming>(
    rt: &impl Abort,
    alloc: Global,
    image: &Image,
    settings: Settings,
) -> Result<(), Fail>
    requires valid { IsValid settings }
    requires image { image.now ≡ N.image }
    requires budget { settings.budget ≡ N.budget }
    requires commits { settings.commits ≡ N.commits }
{
    let book = book_after_list::<N>(rt, alloc, image, settings, &FULL_QUEUE)?;
    is_full(rt, book.steps(), book.end(), book.loads().as_slice());
    let _closed = book.close();
    Ok(())
}

#[test]
fn a_list_of_events_fills_a_queue(rt: HostRuntime) -> Result<(), Fail> {
    let image = image_of(rt.alloc(), &FIRST_MAKER)?;
    stalls_at_once::<Brand>(&rt, rt.alloc(), &image, FOUR_CORES)
}

/// The events of the least tasks ended the run: a dispatch, its steps and a commit for each.
fn ended_by_the_least(rt: &impl Abort, halt: &Halt, steps: u64, commits: usize) {
    assert!(rt; matches!(halt, Halt::Ended(End::Normal)));
    assert_eq!(rt; steps, 13);
    assert_eq!(rt; commits, 3);
}

/// A book that was stopped makes no event.
fn made_no_more(rt: &impl Abort, halt: &Halt) {
    assert!(rt; matches!(halt, Halt::Memory));
}

/// A run by the least tasks.
fn least_run<N: Naming>(
    rt: &impl Abort,
    alloc: Global,
    image: &Image,
    settings: Settings,
) -> Result<(), Fail>
    requires valid { IsValid settings }
    requires image { image.now ≡ N.image }
    requires budget { settings.budget ≡ N.budget }
    requires commits { settings.commits ≡ N.commits }
{
    let mut book = book_with_tap::<N>(alloc, image, settings)?;
    let halt = book.run_least(image);
    ended_by_the_least(rt, &halt, book.steps(), book.history().len());
    book.stop();
    made_no_more(rt, &book.run_least(image));
    let _closed = book.close();
    Ok(())
}

#[test]
fn the_least_tasks_end_a_run(rt: HostRuntime) -> Result<(), Fail> {
    let image = image_of(rt.alloc(), &READER_AND_WRITER)?;
    least_run::<Brand>(&rt, rt.alloc(), &image, TWO_TILES)
}

/// One tile of one core.
const ONE_CORE: Settings = Settings {
    tiles: 1,
    ..TWO_TILES
};

/// Two tasks of one tile go to its one core, one after the other, and whether the tile is ready after each event: it
/// has an idle task and a free core.
static ACTS_ON_ONE_CORE: [(Act, bool); 4] = [
    (Act::Dispatch(0), false),
    (Act::Step(0), true),
    (Act::Dispatch(0), false),
    (Act::Step(0), false),
];

/// Whether a tile is there, and is ready.
fn is_ready<N: Naming>(book: &Hinted<N>, tile: u32) -> bool {
    tile < book.settings().tiles && book.ready(tile)
}

/// The tile is ready as long as a dispatch would be made at once.
fn is_ready_after_each<N: Naming>(
    rt: &impl Abort,
    alloc: Global,
    image: &Image,
    settings: Settings,
) -> Result<(), Fail>
    requires valid { IsValid settings }
    requires image { image.now ≡ N.image }
    requires budget { settings.budget ≡ N.budget }
    requires commits { settings.commits ≡ N.commits }
{
    let mut book = book_with_tap::<N>(alloc, image, settings)?;
    assert!(rt; is_ready(&book, 0));
    for (act, ready) in &ACTS_ON_ONE_CORE {
        assert!(rt; is_answered(image, &mut book, *act, &OK));
        assert!(rt; is_ready(&book, 0) == *ready);
    }
    let _closed = book.close();
    Ok(())
}

#[test]
fn a_tile_with_an_idle_task_and_a_free_core_is_ready(rt: HostRuntime) -> Result<(), Fail> {
    let image = image_of(rt.alloc(), &ENDERS)?;
    is_ready_after_each::<Brand>(&rt, rt.alloc(), &image, ONE_CORE)
}

#[test]
fn dispatch_numbers_have_sixteen_bits(rt: HostRuntime) {
    assert_eq!(rt; DISPATCH_NUMBERS, 65_536);
}

/// A task at timestamp 2 that emits the low byte of the last word of its stack, stores 65 there, emits that byte again,
/// and then loads the first word of the data. A writer at timestamp 1, which stores 7 into that word.
const STACK_KEEPER: Program = Program {
    text: &[
        0xffc1_2503,
        0x0050_0893,
        0x0000_0073,
        0x0410_0293,
        0xfe51_2e23,
        0xffc1_2503,
        0x0000_0073,
        0x1000_0337,
        0x0003_2383,
        0x0000_0893,
        0x0000_0073,
        0x1000_02b7,
        0x0070_0313,
        0x0062_a023,
        0x0000_0893,
        0x0000_0073,
    ],
    initial: &[],
    data_size: 4,
    tasks: &[(0x0001_0000, 2), (0x0001_002c, 1)],
};

/// The script in which the writer aborts the other task, which then runs again.
static STACK_TAKEN_BACK: [(Act, Applied); 14] = [
    (Act::Dispatch(0), OK),
    (Act::Step(0), OK),
    (Act::Step(0), OK),
    (Act::Step(0), OK),
    (Act::Dispatch(1), OK),
    (Act::Step(1), TAKES_1),
    (Act::Step(1), OK),
    (Act::Commit, OK),
    (Act::Dispatch(0), OK),
    (Act::Step(0), OK),
    (Act::Step(0), OK),
    (Act::Step(0), OK),
    (Act::Step(0), OK),
    (Act::Commit, OK),
];

/// The task found a stack of zeros, and then what it had stored there.
fn left_zero_and_65(rt: &impl Abort, end: Option<End>, closed: &Closed) {
    assert!(rt; is_normal(end));
    assert_eq!(rt; closed.output.as_slice(), [0, 65].as_slice());
    assert_eq!(rt; closed.memory.as_slice(), [7, 0, 0, 0].as_slice());
}

/// A task that is aborted after a store into its stack begins again with a stack of zeros.
fn begins_anew<N: Naming>(
    rt: &impl Abort,
    alloc: Global,
    image: &Image,
    settings: Settings,
) -> Result<(), Fail>
    requires valid { IsValid settings }
    requires image { image.now ≡ N.image }
    requires budget { settings.budget ≡ N.budget }
    requires commits { settings.commits ≡ N.commits }
{
    let mut book = book_with_tap::<N>(alloc, image, settings)?;
    are_answered(rt, image, &mut book, &STACK_TAKEN_BACK);
    let end = book.end();
    left_zero_and_65(rt, end, &book.close());
    Ok(())
}

#[test]
fn a_task_that_is_taken_back_begins_with_an_empty_stack(rt: HostRuntime) -> Result<(), Fail> {
    let image = image_of(rt.alloc(), &STACK_KEEPER)?.upgrade();
    begins_anew::<Brand>(&rt, rt.alloc(), &image, TWO_TILES)
}
