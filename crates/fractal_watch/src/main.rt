//! Shows the inside of the speculative machine: an image is run, or a script is played on it, and each act is printed
//! as a line of JSON once it is played, with its task, what that requested, the reply, and which tasks were aborted. Or
//! only the data memory that the run leaves is written. The image is read from standard input, and the lines or the
//! memory go to standard output; so does one line that says what is wrong.
//!
//! It uses `watch_play`, `watch_text` for the last line, on the readers of words, images and scripts, and on
//! the definitions of `machine_run` for what a closed book leaves. The launcher or a tool calls it. It costs what the
//! run does, and for each act that aborted tasks or may have spilled some a look at each place of the task queues.
#![tactic(auto)]

mod closing;
mod faults;
mod finding;
mod program;
mod watching;
mod words;

use place_policy::{ByHint, LeastLoaded, Placer, RoundRobin};
use program::top;
use program_call::{exit_code, process_words, texts_of};
use sim_io::{StdSink, StdSource};
use std::alloc::{AllocError, Global};
use std::env::Env;
use std::io::Read;
use std::process::ExitCode;
use watch_play::watch_text;
use watch_play::watch_text::step_script;
use watch_play::watch_text::step_script::conflict_book;

fn main(rt: HostRuntime) -> ExitCode {
    exit_code(answer(&rt))
}

/// Does what the words of the process ask for, on the standard streams, and returns the exit status.
fn answer<I: Read + Drop, R: Env + Alloc<A = Global> + Input<Reader = I> + Print>(
    rt: &R,
) -> Result<u8, AllocError> {
    let alloc = rt.alloc();
    let owned = process_words(rt)?;
    let words = texts_of(alloc, &owned)?;
    let mut placers: Vec<Box<dyn Placer + Send>> = Vec::new(alloc);
    placers.push(Box::new(alloc, ByHint::new())?)?;
    placers.push(Box::new(alloc, LeastLoaded::new())?)?;
    placers.push(Box::new(alloc, RoundRobin::new())?)?;
    let mut source = StdSource::new(rt);
    let mut sink = StdSink::new(rt);
    let outcome = top(alloc, &words, &mut source, &mut sink, placers);
    Ok(outcome.status)
}
