//! An image is run to its end: one event for its least task after another, or by workers.

ghost use Rattle.std.specs.Prelude.{◌≡◌, ◌≤◌, ◌^◌, true, List, map, IfOk};
ghost use Rattle.guest_image.specs.ImageValue.{IsImage};
ghost use Rattle.place_policy.specs.Policy.{Policy};
ghost use Rattle.trace_tap.specs.TapValue.{TapValue};
ghost use Rattle.outcome_law.specs.spec_state.declared.settings.Settings.{Settings};
ghost use Rattle.outcome_law.specs.spec_state.Settings.{IsNamed, IsValid};
ghost use Rattle.outcome_law.specs.event_def.Opening.{IsOpening};
ghost use Rattle.outcome_law.specs.conflict_book.BookViews.{events_made, view_of};
ghost use Rattle.machine_run.specs.Least.{IsLeastRun, end_of_halt, run_of_closed};
ghost use Rattle.machine_run.specs.Halted.{IsHalted, IsMachineRun, KeepsPending};

use crate::conflict_book::{Book, Halt};
use crate::left::{Ran, Stopped, stop};
use crate::serial_machine::End;
use crate::spec_state::Settings;
use guest_image::Image;
use place_policy::Placer;
use rv_core::Naming;
use std::alloc::{AllocError, Global};
use std::sync::Wait;
use std::thread::Threads;
use tile_worker::{Gate, run_tiles};
use trace_tap::Tap;

/// Runs an image up to its end, or as far as memory allows: with no workers by the events of the least tasks, one after
/// another; else by so many workers, each of whose legs passes `Gate`. `AllocError` if memory runs out for the opening.
pub fn run<
    N: Naming + Send + Sync,
    P: Placer + Send,
    T: Tap + Send,
    G: Gate + Sync,
    R: Threads + Wait + Sync,
>(
    rt: &R,
    alloc: Global,
    image: &Image,
    settings: Settings,
    gate: &G,
    placers: Vec<P>,
    taps: Vec<T>,
) -> Result<Ran, AllocError>
    requires fits { IsImage image.now }
    requires valid { IsValid settings }
    requires named { IsNamed image.now settings N.image N.budget N.commits }
    ensures { let serving = map P.policy placers.items in
        let noting = map T.notes taps.items in
        IfOk result (IsMachineRun N image.now settings serving noting) }
{
    let stopped = run_as::<N, P, T, G, R>(rt, alloc, image, settings, gate, placers, taps, false)?;
    let Stopped { ran, pending: _ } = stopped;
    Ok(ran)
}

/// Runs an image as `run` does, and keeps the pending tasks if the run meets its commit limit. If memory runs out for
/// that, the end is None.
pub fn run_to_save<
    N: Naming + Send + Sync,
    P: Placer + Send,
    T: Tap + Send,
    G: Gate + Sync,
    R: Threads + Wait + Sync,
>(
    rt: &R,
    alloc: Global,
    image: &Image,
    settings: Settings,
    gate: &G,
    placers: Vec<P>,
    taps: Vec<T>,
) -> Result<Stopped, AllocError>
    requires fits { IsImage image.now }
    requires valid { IsValid settings }
    requires named { IsNamed image.now settings N.image N.budget N.commits }
    ensures run { let serving = map P.policy placers.items in
        let noting = map T.notes taps.items in
        IfOk result (λ stopped. IsMachineRun N image.now settings serving noting stopped.ran) }
    ensures pending { IfOk result (KeepsPending image.now settings.budget true) }
{
    run_as::<N, P, T, G, R>(rt, alloc, image, settings, gate, placers, taps, true)
}

/// Runs an image, and keeps the tasks that are pending at its commit limit if it is to be saved.
fn run_as<
    N: Naming + Send + Sync,
    P: Placer + Send,
    T: Tap + Send,
    G: Gate + Sync,
    R: Threads + Wait + Sync,
>(
    rt: &R,
    alloc: Global,
    image: &Image,
    settings: Settings,
    gate: &G,
    placers: Vec<P>,
    taps: Vec<T>,
    goes_on: bool,
) -> Result<Stopped, AllocError>
    requires fits { IsImage image.now }
    requires valid { IsValid settings }
    requires named { IsNamed image.now settings N.image N.budget N.commits }
    ensures run { let serving = map P.policy placers.items in
        let noting = map T.notes taps.items in
        IfOk result (λ stopped. IsMachineRun N image.now settings serving noting stopped.ran) }
    ensures pending { IfOk result (KeepsPending image.now settings.budget goes_on) }
{
    let workers = settings.workers;
    let book = Book::<N, P, T>::begin(alloc, image, settings, placers, taps)?;
    if workers == 0 {
        Ok(run_alone(image, book, goes_on))
    } else {
        Ok(run_by_workers(rt, image, book, workers, gate, goes_on))
    }
}

/// Runs a book by the events of the least tasks, and closes it.
fn run_alone<N: Naming, P: Placer, T: Tap>(
    image: &Image,
    book: Book<N, P, T>,
    goes_on: bool,
) -> Stopped
    requires fits { IsImage N.image }
    requires image { image.now ≡ N.image }
    ensures least { let opening = view_of P.policy T.notes book in
        (settings : Settings) (placers : List Policy) (taps : List TapValue) → IsValid settings
        → IsOpening N.image settings placers taps opening
        → IsLeastRun N N.image settings placers taps result.ran.closed.steps
        (run_of_closed result.ran.closed result.ran.end) }
    ensures halted { IsHalted N.image N.commits N.budget result.ran }
    ensures pending { KeepsPending N.image N.budget goes_on result }
{
    let mut book = book;
    let halt = book.run_least(image);
    stop(book, end_of(halt), goes_on)
}

/// Runs a book by workers, and closes it.
fn run_by_workers<
    N: Naming + Send + Sync,
    P: Placer + Send,
    T: Tap + Send,
    G: Gate + Sync,
    R: Threads + Wait + Sync,
>(rt: &R, image: &Image, book: Book<N, P, T>, workers: u32, gate: &G, goes_on: bool) -> Stopped
    requires fits { IsImage N.image }
    requires image { image.now ≡ N.image }
    requires workers { (1 ≤ workers) × (workers ≤ 16) }
    requires steps { events_made book ≤ 2 ^ 63 }
    ensures halted { IsHalted N.image N.commits N.budget result.ran }
    ensures pending { KeepsPending N.image N.budget goes_on result }
{
    let drained = run_tiles(rt, image, book, workers, gate);
    stop(drained.book, end_of(drained.halt), goes_on)
}

/// The end of a run that halted so; None where memory ran out.
fn end_of(halt: Halt) -> Option<End>
    ensures { result ≡ end_of_halt halt }
{
    match halt {
        Halt::Ended(end) => Some(end),
        Halt::Memory => None,
    }
}
