//! Images that are run to their end, with workers and without, and scripts that are played from the opening on.

ghost use Rattle.std.specs.Prelude.{◌≡◌, All};
ghost use Rattle.machine_run.specs.spec_state.Settings.{IsValid};
ghost use Rattle.machine_run.specs.step_script.Ranges.{ActIsInRange};

use crate::conflict_book::Reply;
use crate::machines::{TWO_TILES, image_of, is_normal, one_tap};
use crate::serial_machine::End;
use crate::step_script::{Act, Said, Word};
use crate::tile_worker::OpenGate;
use guest_image::Image;
use machine_run::{Played, Ran, Traced, play_script, run, trace_script};
use place_policy::ByHint;
use run_journal::Closed;
use rv_core::Naming;
use sample_image::READER_AND_WRITER;
use spec_state::Settings;
use std::alloc::{Alloc, Global};
use std::marker::Brand;
use std::process::Abort;
use std::sync::Wait;
use std::test::Fail;
use std::thread::Threads;
use trace_tap::LastN;

/// Two tiles of one core, for which two workers make the events.
const TWO_WORKERS: Settings = Settings {
    workers: 2,
    ..TWO_TILES
};

/// A run of an image.
fn ran<N: Naming + Send + Sync, R: Threads + Wait + Sync + Alloc<A = Global>>(
    rt: &R,
    image: &Image,
    settings: Settings,
) -> Result<Ran, Fail>
    requires valid { IsValid settings }
    requires image { image.now ≡ N.image }
    requires budget { settings.budget ≡ N.budget }
    requires commits { settings.commits ≡ N.commits }
{
    let alloc = rt.alloc();
    let _tasks = image.tasks();
    let taps = one_tap(alloc)?;
    let placers: Vec<ByHint> = Vec::new(alloc);
    Ok(run::<N, ByHint, LastN, OpenGate, R>(rt, alloc, image, settings, &OpenGate, placers, taps)?)
}

/// The run reached its end: the writer, the reader and its child took their turns.
fn is_whole(rt: &impl Abort, closed: &Closed, end: Option<End>) {
    assert!(rt; is_normal(end));
    assert_eq!(rt; closed.journal.as_slice().len(), 3);
    assert_eq!(rt;
        closed.memory.as_slice(),
        [7, 0, 0, 0, 8, 0, 0, 0].as_slice()
    );
}

#[test]
fn an_image_runs_without_workers(rt: HostRuntime) -> Result<(), Fail> {
    let image = image_of(rt.alloc(), &READER_AND_WRITER)?;
    let Ran { closed, end } = ran::<Brand, HostRuntime>(&rt, &image, TWO_TILES)?;
    is_whole(&rt, &closed, end);
    assert_eq!(rt; closed.steps, 13);
    Ok(())
}

#[test]
fn an_image_runs_by_two_workers(rt: HostRuntime) -> Result<(), Fail> {
    let image = image_of(rt.alloc(), &READER_AND_WRITER)?;
    let Ran { closed, end } = ran::<Brand, HostRuntime>(&rt, &image, TWO_WORKERS)?;
    is_whole(&rt, &closed, end);
    Ok(())
}

/// The reader is stepped twice on the first tile, a commit finds nothing, and then the writer, which comes first, is
/// stepped on the second.
static SCRIPT: [Act; 6] = [
    Act::Dispatch(0),
    Act::Step(0, 0),
    Act::Step(0, 0),
    Act::Commit,
    Act::Dispatch(1),
    Act::Step(1, 0),
];

/// An event that was made.
const OK: Said = Said {
    word: Word::Plain(Reply::Ok),
    aborted: 0,
};

/// An event that aborted one task.
const TAKES_1: Said = Said {
    word: Word::Plain(Reply::Ok),
    aborted: 1,
};

/// An event that found nothing.
const EMPTY: Said = Said {
    word: Word::Plain(Reply::Empty),
    aborted: 0,
};

/// The replies to these acts.
static SAID: [Said; 6] = [OK, OK, OK, EMPTY, OK, TAKES_1];

/// The script is played.
fn script_play<N: Naming>(alloc: Global, image: &Image, settings: Settings) -> Result<Played, Fail>
    requires valid { IsValid settings }
    requires image { image.now ≡ N.image }
    requires budget { settings.budget ≡ N.budget }
    requires commits { settings.commits ≡ N.commits }
    requires within { All (ActIsInRange settings.tiles settings.cores) SCRIPT }
{
    let _tasks = image.tasks();
    let taps = one_tap(alloc)?;
    let placers: Vec<ByHint> = Vec::new(alloc);
    Ok(play_script::<N, ByHint, LastN>(alloc, image, settings, &SCRIPT, placers, taps)?)
}

/// Whether a script was played to its end and the run isn't over.
fn is_unfinished(end: Option<End>) -> bool {
    matches!(end, Some(End::Unfinished))
}

/// The run isn't over, and none of its stores is left.
fn leaves_zeros(rt: &impl Abort, ran: Ran) {
    let Ran { closed, end } = ran;
    assert!(rt; is_unfinished(end));
    assert_eq!(rt; closed.steps, 5);
    assert_eq!(rt; closed.memory.as_slice(), [0; 8].as_slice());
}

#[test]
fn a_script_is_played(rt: HostRuntime) -> Result<(), Fail> {
    let image = image_of(rt.alloc(), &READER_AND_WRITER)?;
    let Played { ran, said } = script_play::<Brand>(rt.alloc(), &image, TWO_TILES)?;
    leaves_zeros(&rt, ran);
    assert_eq!(rt; said.as_slice(), SAID.as_slice());
    Ok(())
}

/// The script is played, and its taps' lists are returned.
fn script_trace<N: Naming>(alloc: Global, image: &Image, settings: Settings) -> Result<Traced, Fail>
    requires valid { IsValid settings }
    requires image { image.now ≡ N.image }
    requires budget { settings.budget ≡ N.budget }
    requires commits { settings.commits ≡ N.commits }
    requires within { All (ActIsInRange settings.tiles settings.cores) SCRIPT }
{
    let _tasks = image.tasks();
    let taps = one_tap(alloc)?;
    let placers: Vec<ByHint> = Vec::new(alloc);
    Ok(trace_script::<N, ByHint, LastN>(alloc, image, settings, &SCRIPT, placers, taps)?)
}

/// The last four records of the script.
static RECORDS: [u64; 20] = [2, 0, 1, 0, 0, 2, 0, 1, 0, 0, 1, 1, 0, 0, 0, 2, 1, 1, 1, 0];

#[test]
fn a_tap_tells_of_a_script(rt: HostRuntime) -> Result<(), Fail> {
    let image = image_of(rt.alloc(), &READER_AND_WRITER)?;
    let Traced { ran, lists } = script_trace::<Brand>(rt.alloc(), &image, TWO_TILES)?;
    let Ran { closed: _, end } = ran;
    assert!(rt; is_unfinished(end));
    assert_eq!(rt; lists.len(), 1);
    assert_eq!(rt; lists[0].as_slice(), RECORDS.as_slice());
    Ok(())
}
