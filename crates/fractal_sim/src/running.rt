//! An image is run: one that was read, or a generated one.

ghost use Rattle.std.specs.Prelude.{◌≡◌, map, IfOk};
ghost use Rattle.guest_image.specs.ImageValue.{IsImage};
ghost use Rattle.machine_run.specs.spec_state.Settings.{IsValid};
ghost use Rattle.load_gen.specs.Generated.{IsSize};
ghost use Rattle.fractal_sim.specs.Deciding.{IsRunSo, IsLoadedSo, event_count, run_finding, load_finding};
ghost use Rattle.fractal_sim.specs.Finding.{HasWindow, IsWritable};

use crate::finding::{Finding, Loading};
use crate::tile_worker::Gate;
use guest_image::Image;
use load_gen::make;
use machine_run::{Ran, run};
use place_policy::Placer;
use spec_state::Settings;
use std::alloc::{AllocError, Global};
use std::marker::Brand;
use std::sync::Wait;
use std::thread::Threads;
use trace_tap::Tap;

/// Runs an image up to its end, or as far as memory goes.
pub(crate) fn run_image<R: Threads + Wait + Sync, G: Gate + Sync, P: Placer + Send, T: Tap + Send>(
    rt: &R,
    alloc: Global,
    image: &Image,
    settings: Settings,
    gate: &G,
    placers: Vec<P>,
    taps: Vec<T>,
) -> Result<Ran, AllocError>
    requires fits { IsImage image.now }
    requires valid { IsValid settings }
    ensures made { let serving = map P.policy placers.items in
        let noting = map T.notes taps.items in
        IfOk result (λ ran.
        IsRunSo image.now settings serving noting ran (event_count settings.workers ran.closed.steps)) }
    ensures window { IfOk result (HasWindow image.now) }
{
    run::<Brand, P, T, G, R>(rt, alloc, image, settings, gate, placers, taps)
}

/// What is found of an image that was read and was to be run: the run that was made, with its events if no workers made
/// them, or out of memory only if none was made.
pub(crate) fn run_finding(image: Image, workers: u32, made: Result<Ran, AllocError>) -> Finding
    ensures { result ≡ run_finding image workers made }
{
    match made {
        Ok(ran) => {
            let steps = event_count(workers, ran.closed.steps);
            Finding::Ran(image, ran, steps)
        }
        Err(_) => Finding::Memory,
    }
}

/// The count of events that an outcome has: None with workers.
pub(crate) fn event_count(workers: u32, events: u64) -> Option<u64>
    ensures { result ≡ event_count workers events }
{
    if workers == 0 { Some(events) } else { None }
}

/// Generates an image and runs it.
pub(crate) fn run_load<R: Threads + Wait + Sync, G: Gate + Sync, P: Placer + Send, T: Tap + Send>(
    rt: &R,
    alloc: Global,
    load: Loading,
    settings: Settings,
    gate: &G,
    placers: Vec<P>,
    taps: Vec<T>,
) -> Finding
    requires size { IsSize load.load load.size }
    requires valid { IsValid settings }
    ensures found { let serving = map P.policy placers.items in
        let noting = map T.notes taps.items in
        IsLoadedSo load settings serving noting result }
    ensures writable { IsWritable result }
{
    let Ok(image) = make(alloc, load.load, load.seed, load.size) else {
        return Finding::Memory;
    };
    let made = run_image(rt, alloc, &image, settings, gate, placers, taps);
    load_finding(load, image, settings.workers, made)
}

/// What is found of a generated image that was to be run: the run that was made, with its events if no workers made
/// them, or out of memory only if none was made.
fn load_finding(load: Loading, image: Image, workers: u32, made: Result<Ran, AllocError>) -> Finding
    ensures { result ≡ load_finding load image workers made }
{
    match made {
        Ok(ran) => {
            let steps = event_count(workers, ran.closed.steps);
            Finding::Loaded(load, image, ran, steps)
        }
        Err(_) => Finding::Memory,
    }
}
