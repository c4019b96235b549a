//! Runs a guest program on the speculative machine, plays a script on it, saves a run for later, or checks the report
//! of a run: the image comes from standard input or is generated. The report, after the replies if a script is played,
//! is written to standard output, or instead of it the lists of the taps, the saved image, the verdict on a report, or
//! a line that says what is wrong. Nothing is written before the result is complete; a run takes memory for its tasks,
//! its journal and its output, and one copy of the data memory.
//!
//! It depends on `machine_run`, on the readers of command lines, images, scripts and reports, on `load_gen` and
//! `resume_image`, and on the writers of texts. A person, the launcher or a tool calls it. It costs what the run does,
//! and a look at each byte of the input and of the text.
#![tactic(auto)]

mod checking;
mod deciding;
mod finding;
mod laws;
mod lines;
mod playing;
mod program;
mod publishing;
mod running;
mod saving;
mod telling;
#[cfg(test)]
mod tests;

use machine_run::tile_worker::OpenGate;
use machine_run::{step_script, tile_worker};
use place_policy::{ByHint, LeastLoaded, Placer, RoundRobin};
use program::top;
use program_call::{exit_code, process_words, texts_of};
use script_text::report_text;
use sim_io::{StdSink, StdSource};
use spec_state::serial_machine;
use std::alloc::{AllocError, Global};
use std::env::Env;
use std::io::Read;
use std::process::ExitCode;
use std::sync::Wait;
use std::thread::Threads;
use trace_tap::{LastN, LineProfile, Tap};

/// How many events the first tap keeps, and how many lines the second one counts by.
const KEPT: u32 = 16;

fn main(rt: HostRuntime) -> ExitCode {
    exit_code(answer(&rt))
}

/// Does what the arguments of the process request, on the standard streams, and returns the exit status.
fn answer<
    I: Read + Drop,
    R: Threads + Wait + Sync + Env + Alloc<A = Global> + Input<Reader = I> + Print,
>(rt: &R) -> Result<u8, AllocError> {
    let alloc = rt.alloc();
    let owned = process_words(rt)?;
    let words = texts_of(alloc, &owned)?;
    let mut placers: Vec<Box<dyn Placer + Send>> = Vec::new(alloc);
    placers.push(Box::new(alloc, ByHint::new())?)?;
    placers.push(Box::new(alloc, LeastLoaded::new())?)?;
    placers.push(Box::new(alloc, RoundRobin::new())?)?;
    let mut taps: Vec<Box<dyn Tap + Send>> = Vec::new(alloc);
    taps.push(Box::new(alloc, LastN::new(alloc, KEPT)?)?)?;
    taps.push(Box::new(alloc, LineProfile::new(alloc, KEPT)?)?)?;
    let mut source = StdSource::new(rt);
    let mut sink = StdSink::new(rt);
    let outcome = top(
        rt,
        alloc,
        &words,
        &mut source,
        &mut sink,
        &OpenGate,
        placers,
        taps,
    );
    Ok(outcome.status)
}
