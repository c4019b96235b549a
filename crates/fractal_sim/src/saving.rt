//! An image is run, and saved where the run meets its commit limit.

ghost use Rattle.std.specs.Prelude.{◌≡◌, ◌<◌, ℕ, length, map, IfOk, IfSome, MatchResult, Some, None};
ghost use Rattle.guest_image.specs.ImageValue.{IsImage};
ghost use Rattle.machine_run.specs.conflict_book.Frozen.{IsFrozenOf};
ghost use Rattle.machine_run.specs.spec_state.Settings.{IsValid};
ghost use Rattle.machine_run.specs.Stopping.{IsStoppedWith};
ghost use Rattle.fractal_sim.specs.Deciding.{IsKeptSo, IsKeptStopped, IsSavedSo, Saves};
ghost use Rattle.fractal_sim.specs.Finding.{IsWritable};

use crate::finding::{Finding, Saving};
use crate::running::event_count;
use crate::serial_machine::End;
use crate::tile_worker::Gate;
use guest_image::{Image, write_image};
use machine_run::{Ran, Stopped, run_to_save};
use place_policy::Placer;
use resume_image::{Frozen, SaveFault, snapshot};
use spec_state::Settings;
use std::alloc::{AllocError, Global};
use std::marker::Brand;
use std::sync::Wait;
use std::thread::Threads;
use trace_tap::Tap;

/// Runs an image up to its end, or as far as memory goes, and makes the saved image where the run meets its commit
/// limit.
pub(crate) fn save_image<R: Threads + Wait + Sync, G: Gate + Sync, P: Placer + Send, T: Tap + Send>(
    rt: &R,
    alloc: Global,
    image: Image,
    settings: Settings,
    gate: &G,
    placers: Vec<P>,
    taps: Vec<T>,
) -> Finding
    requires fits { IsImage image }
    requires valid { IsValid settings }
    ensures found { let serving = map P.policy placers.items in
        let noting = map T.notes taps.items in
        IsSavedSo image settings serving noting result }
    ensures writable { IsWritable result }
{
    let made = run_to_save::<Brand, P, T, G, R>(rt, alloc, &image, settings, gate, placers, taps);
    save_finding(alloc, image, settings, made)
}

/// What is found of an image that was to be run and saved: the run that was made, or out of memory only if none was
/// made.
fn save_finding(
    alloc: Global,
    image: Image,
    settings: Settings,
    made: Result<Stopped, AllocError>,
) -> Finding
    requires { IfOk made (λ stopped. IfSome stopped.pending (IsStoppedWith image settings.budget stopped.ran)) }
    ensures { MatchResult made (λ stopped. IsKeptStopped image settings.workers stopped result)
        (λ error. result ≡ Finding.Memory) }
{
    match made {
        Ok(stopped) => keep_stopped(alloc, image, settings, stopped),
        Err(_) => Finding::Memory,
    }
}

/// What is found of a run that was made and is to be saved. The run is kept, whether or not saving succeeds.
fn keep_stopped(alloc: Global, image: Image, settings: Settings, stopped: Stopped) -> Finding
    requires { IfSome stopped.pending (IsStoppedWith image settings.budget stopped.ran) }
    ensures { IsKeptStopped image settings.workers stopped result }
{
    let Stopped { ran, pending } = stopped;
    let steps = event_count(settings.workers, ran.closed.steps);
    match pending {
        None => Finding::Ran(image, ran, steps),
        Some(pending) => {
            let Ran { closed, end: _ } = ran;
            keep_frozen(alloc, image, Frozen { closed, pending }, steps)
        }
    }
}

/// What is found of a run that met its commit limit and is to be saved. The run is kept whether or not saving succeeds,
/// also if memory runs out for it; then the end is None.
fn keep_frozen(alloc: Global, image: Image, frozen: Frozen, steps: Option<u64>) -> Finding
    requires run { (budget : ℕ) × IsFrozenOf image budget frozen }
    requires some { 0 < length frozen.pending }
    ensures { IsKeptSo image frozen steps result }
{
    match save(alloc, &image, &frozen) {
        Some(made) => Finding::Stopped(at_limit(frozen), steps, made),
        None => Finding::Ran(image, without_end(frozen), steps),
    }
}

/// What was frozen, as a run that met its commit limit.
fn at_limit(frozen: Frozen) -> Ran
    ensures { result ≡ record { closed = frozen.closed; end = Some End.Limit } }
{
    Ran {
        closed: frozen.closed,
        end: Some(End::Limit),
    }
}

/// What was frozen, as a run whose end is None.
fn without_end(frozen: Frozen) -> Ran
    ensures { result ≡ record { closed = frozen.closed; end = None } }
{
    Ran {
        closed: frozen.closed,
        end: None,
    }
}

/// The bytes of the saved image, or why there is none; None where memory runs out.
fn save(alloc: Global, image: &Image, frozen: &Frozen) -> Option<Saving>
    requires run { (budget : ℕ) × IsFrozenOf image.now budget frozen.now }
    requires some { 0 < length frozen.now.pending }
    ensures { IfSome result (Saves image.now frozen.now.closed.memory frozen.now.pending) }
{
    match snapshot(alloc, image, frozen) {
        Ok(saved) => match write_image(alloc, &saved) {
            Ok(bytes) => Some(Saving::Bytes(bytes)),
            Err(_) => None,
        },
        Err(SaveFault::Nested { depth }) => Some(Saving::Nested(depth)),
        Err(SaveFault::TooMany { count }) => Some(Saving::TooMany(count)),
        Err(SaveFault::Memory) => None,
    }
}
