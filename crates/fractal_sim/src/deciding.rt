//! What the words and the input lead to, before anything is written.

ghost use Rattle.std.specs.Prelude.{◌≡◌, ◌≤◌, ◌<◌, ◌-◌, ◌^◌, IfOk, length, map, true};
ghost use Rattle.command_line.specs.Requests.{IsLimited};
ghost use Rattle.program_call.specs.Call.{input_of};
ghost use Rattle.fractal_sim.specs.Deciding.{IsFoundBehind};
ghost use Rattle.fractal_sim.specs.Finding.{IsFoundOrFault, IsWritable};
ghost use Rattle.program_call.specs.Call.{input_limit};
ghost use Rattle.fractal_sim.specs.Given.{Reads};

use crate::checking::check_report;
use crate::finding::{Finding, Loading};
use crate::playing::{play_behind, trace_behind};
use crate::running::{run_finding, run_image, run_load};
use crate::saving::save_image;
use crate::tile_worker::Gate;
use command_line::{Command, Refusal, Request, read_words};
use guest_image::Image;
use place_policy::Placer;
use program_call::{FrontFault, Opened, read_input};
use sim_io::Source;
use std::alloc::Global;
use std::sync::Wait;
use std::thread::Threads;
use trace_tap::Tap;

/// Reads the arguments and the input, and does what they request.
pub(crate) fn find<
    R: Threads + Wait + Sync,
    S: Source,
    G: Gate + Sync,
    P: Placer + Send,
    T: Tap + Send,
>(
    rt: &R,
    alloc: Global,
    words: &[&str],
    source: &mut S,
    gate: &G,
    placers: Vec<P>,
    taps: Vec<T>,
) -> Result<Finding, FrontFault>
    ensures found { let serving = map P.policy placers.items in
        let noting = map T.notes taps.items in
        IsFoundOrFault (input_of words.now serving noting (S.state source.old) (S.state source.new)) result }
    ensures writable { IfOk result IsWritable }
{
    let request = match read_words(alloc, words) {
        Ok(request) => request,
        Err(Refusal::Usage) => return Err(FrontFault::Usage),
        Err(Refusal::Memory) => return Err(FrontFault::Memory),
    };
    if let Command::Load { load, seed, size } = request.command {
        let load = Loading { load, seed, size };
        return Ok(run_load(rt, alloc, load, request.settings, gate, placers, taps));
    }
    let opened = match read_input(alloc, source) {
        Ok(opened) => opened,
        Err(fault) => return Err(fault),
    };
    let Opened { bytes, image, size } = opened;
    let (_, rest) = bytes.split_at(size);
    Ok(find_behind(rt, alloc, request, image, rest, gate, placers, taps))
}

/// Does what is requested with an image and the bytes after it.
fn find_behind<R: Threads + Wait + Sync, G: Gate + Sync, P: Placer + Send, T: Tap + Send>(
    rt: &R,
    alloc: Global,
    request: Request,
    image: Image,
    rest: &[u8],
    gate: &G,
    placers: Vec<P>,
    taps: Vec<T>,
) -> Finding
    requires reads { Reads request.command }
    requires limits { IsLimited request }
    requires short { length rest.now ≤ input_limit }
    ensures found { let serving = map P.policy placers.items in
        let noting = map T.notes taps.items in
        IsFoundBehind request image rest.now serving noting result }
    ensures writable { IsWritable result }
{
    match request.command {
        Command::Run => {
            let made = run_image(rt, alloc, &image, request.settings, gate, placers, taps);
            run_finding(image, request.settings.workers, made)
        }
        Command::Save => save_image(rt, alloc, image, request.settings, gate, placers, taps),
        Command::Steps => play_behind(alloc, request, image, rest, placers, taps),
        Command::Trace => trace_behind(alloc, request, &image, rest, placers, taps),
        Command::Check => check_report(alloc, request, &image, rest),
        Command::Load { .. } => unreachable!(),
    }
}
