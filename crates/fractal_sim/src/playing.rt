//! A script after an image is played.

ghost use Rattle.std.specs.Prelude.{◌≡◌, ◌≤◌, length, map};
ghost use Rattle.guest_image.specs.ImageValue.{IsImage};
ghost use Rattle.command_line.specs.Requests.{IsLimited};
ghost use Rattle.fractal_sim.specs.Deciding.{IsFoundBehind, play_finding, trace_finding, no_script_finding};
ghost use Rattle.fractal_sim.specs.Finding.{IsWritable};
ghost use Rattle.program_call.specs.Call.{input_limit};

use crate::finding::Finding;
use crate::step_script::{ScriptFault, read_script};
use command_line::{Command, Request};
use guest_image::Image;
use machine_run::{Played, Traced, play_script, trace_script};
use place_policy::Placer;
use std::alloc::{AllocError, Global};
use std::marker::Brand;
use trace_tap::Tap;

/// Plays the script after an image.
pub(crate) fn play_behind<P: Placer, T: Tap>(
    alloc: Global,
    request: Request,
    image: Image,
    rest: &[u8],
    placers: Vec<P>,
    taps: Vec<T>,
) -> Finding
    requires command { request.command ≡ Command.Steps }
    requires limits { IsLimited request }
    requires short { length rest.now ≤ input_limit }
    ensures found { let serving = map P.policy placers.items in
        let noting = map T.notes taps.items in
        IsFoundBehind request image rest.now serving noting result }
    ensures writable { IsWritable result }
{
    let settings = request.settings;
    let script = match read_script(alloc, rest, settings.tiles, settings.cores) {
        Ok(script) => script,
        Err(fault) => return no_script_finding(fault),
    };
    let made = play_script::<Brand, P, T>(alloc, &image, settings, &script, placers, taps);
    play_finding(image, made)
}

/// What is found of a script that was to be played: the run that it made, or out of memory only if it made none.
fn play_finding(image: Image, made: Result<Played, AllocError>) -> Finding
    ensures { result ≡ play_finding image made }
{
    match made {
        Ok(played) => Finding::Played(image, played),
        Err(_) => Finding::Memory,
    }
}

/// Plays the script after an image for what its taps see.
pub(crate) fn trace_behind<P: Placer, T: Tap>(
    alloc: Global,
    request: Request,
    image: &Image,
    rest: &[u8],
    placers: Vec<P>,
    taps: Vec<T>,
) -> Finding
    requires fits { IsImage image.now }
    requires command { request.command ≡ Command.Trace }
    requires limits { IsLimited request }
    requires short { length rest.now ≤ input_limit }
    ensures found { let serving = map P.policy placers.items in
        let noting = map T.notes taps.items in
        IsFoundBehind request image.now rest.now serving noting result }
    ensures writable { IsWritable result }
{
    let settings = request.settings;
    let script = match read_script(alloc, rest, settings.tiles, settings.cores) {
        Ok(script) => script,
        Err(fault) => return no_script_finding(fault),
    };
    let made = trace_script::<Brand, P, T>(alloc, image, settings, &script, placers, taps);
    trace_finding(made)
}

/// What is found of a script that was to be played for its taps: the run that it made, or out of memory only if it made
/// none.
fn trace_finding(made: Result<Traced, AllocError>) -> Finding
    ensures { result ≡ trace_finding made }
{
    match made {
        Ok(traced) => Finding::Traced(traced),
        Err(_) => Finding::Memory,
    }
}

/// What is found where the text wasn't read as a script: it is none, or memory ran out.
fn no_script_finding(fault: ScriptFault) -> Finding
    ensures { result ≡ no_script_finding fault }
{
    match fault {
        ScriptFault::Line { line } => Finding::NoScript(line),
        ScriptFault::Memory => Finding::Memory,
    }
}
