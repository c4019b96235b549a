//! What the program does on streams in memory: tables of calls, devices that fail, given placers and taps, and workers
//! that pass a gate.

mod devices;
mod gates;
mod images;
mod loads;
mod parts;
mod reports;
mod runs;
mod saves;
mod schedules;

use crate::program::top;
use crate::serial_machine::End;
use crate::tile_worker::{Gate, OpenGate};
use place_policy::{ByHint, LeastLoaded, Placer, RoundRobin};
use program_call::Outcome;
use sim_io::{MemSink, MemSource};
use std::alloc::{Alloc, Global};
use std::process::Abort;
use std::sync::Wait;
use std::test::Fail;
use std::thread::Threads;
use trace_tap::{LastN, LineProfile, Tap};

/// What a call leaves: its status, the name of its end, how many tasks committed, and its count of events.
type Left = (u8, &'static str, usize, Option<u64>);

/// A call: its arguments, what it reads and what it writes, each an image in hexadecimal followed by text, and what it
/// leaves.
struct Case {
    words: &'static str,
    read: (&'static str, &'static str),
    written: (&'static str, &'static str),
    left: Left,
}

/// A source and a sink in memory: how many bytes each gives or takes at a call, which call of it fails, where 0 is
/// none, and how many bytes the sink takes at most.
#[derive(Clone, Copy)]
struct Streams {
    gives: usize,
    unread: u32,
    takes: usize,
    unwritten: u32,
    most: usize,
}

/// Streams that never fail and make small pieces of all that there is.
const PIECES: Streams = Streams {
    gives: 50,
    unread: 0,
    takes: 3,
    unwritten: 0,
    most: 10_000,
};

fn bytes_of(alloc: Global, image: &str, behind: &str) -> Result<Vec<u8>, Fail> {
    let mut bytes = hex::decode(alloc, image)?;
    bytes.extend_from_slice(behind.as_bytes())?;
    Ok(bytes)
}

fn split(alloc: Global, line: &str) -> Result<Vec<&str>, Fail> {
    let mut words = Vec::new(alloc);
    for word in line.split(' ').filter(|word| !word.is_empty()) {
        words.push(word)?;
    }
    Ok(words)
}

fn source_of(alloc: Global, bytes: Vec<u8>, streams: Streams) -> Result<MemSource, Fail> {
    let fails = vec![in alloc; streams.unread]?;
    Ok(MemSource::new(bytes, streams.gives.max(1), fails))
}

fn sink_of(alloc: Global, streams: Streams) -> Result<MemSink, Fail> {
    let fails = vec![in alloc; streams.unwritten]?;
    Ok(MemSink::new(alloc, streams.most, streams.takes.max(1), fails)?)
}

/// The word of an end, as reports have it, or "none".
fn word_of(end: &Option<End>) -> &'static str {
    match end {
        None => "none",
        Some(End::Normal) => "normal",
        Some(End::Trap { .. }) => "trap",
        Some(End::Limit) => "limit",
        Some(End::Unfinished) => "open",
    }
}

fn left_of(outcome: &Outcome) -> Left {
    (
        outcome.status,
        word_of(&outcome.end),
        outcome.journal.as_slice().len(),
        outcome.steps,
    )
}

/// What a call leaves with this gate and these placers and taps.
fn left_with<G: Gate + Sync>(
    rt: &(impl Alloc<A = Global> + Threads + Wait + Sync),
    words: &[&str],
    source: &mut MemSource,
    sink: &mut MemSink,
    gate: &G,
    placers: Vec<Box<dyn Placer + Send>>,
    taps: Vec<Box<dyn Tap + Send>>,
) -> Left {
    let outcome = top(rt, rt.alloc(), words, source, sink, gate, placers, taps);
    left_of(&outcome)
}

/// What a call leaves with these placers and the taps that the program comes with.
fn left_by(
    rt: &(impl Alloc<A = Global> + Threads + Wait + Sync),
    words: &[&str],
    source: &mut MemSource,
    sink: &mut MemSink,
    placers: Vec<Box<dyn Placer + Send>>,
) -> Result<Left, Fail> {
    let alloc = rt.alloc();
    let mut taps: Vec<Box<dyn Tap + Send>> = Vec::new(alloc);
    taps.push(Box::new(alloc, LastN::new(alloc, 16)?)?)?;
    taps.push(Box::new(alloc, LineProfile::new(alloc, 16)?)?)?;
    Ok(left_with(rt, words, source, sink, &OpenGate, placers, taps))
}

/// What a call leaves with the placers and taps that the program comes with.
fn what_is_left(
    rt: &(impl Alloc<A = Global> + Threads + Wait + Sync),
    words: &[&str],
    source: &mut MemSource,
    sink: &mut MemSink,
) -> Result<Left, Fail> {
    let alloc = rt.alloc();
    let mut placers: Vec<Box<dyn Placer + Send>> = Vec::new(alloc);
    placers.push(Box::new(alloc, ByHint::new())?)?;
    placers.push(Box::new(alloc, LeastLoaded::new())?)?;
    placers.push(Box::new(alloc, RoundRobin::new())?)?;
    left_by(rt, words, source, sink, placers)
}

/// A call on these bytes writes and leaves this.
fn leaves(
    rt: &(impl Abort + Alloc<A = Global> + Threads + Wait + Sync),
    words: &str,
    bytes: Vec<u8>,
    streams: Streams,
    written: &[u8],
    wanted: Left,
) -> Result<(), Fail> {
    let alloc = rt.alloc();
    let words = split(alloc, words)?;
    let mut source = source_of(alloc, bytes, streams)?;
    let mut sink = sink_of(alloc, streams)?;
    let left = what_is_left(rt, &words, &mut source, &mut sink)?;
    assert_eq!(rt; sink.bytes(), written);
    assert_eq!(rt; left, wanted);
    Ok(())
}

/// A call on these streams writes and leaves what the case says.
fn holds(
    rt: &(impl Abort + Alloc<A = Global> + Threads + Wait + Sync),
    case: &Case,
    streams: Streams,
) -> Result<(), Fail> {
    let alloc = rt.alloc();
    let bytes = bytes_of(alloc, case.read.0, case.read.1)?;
    let written = bytes_of(alloc, case.written.0, case.written.1)?;
    leaves(rt, case.words, bytes, streams, &written, case.left)
}

/// Each call writes and leaves what its case says.
fn each_holds(
    rt: &(impl Abort + Alloc<A = Global> + Threads + Wait + Sync),
    cases: &[Case],
) -> Result<(), Fail> {
    for case in cases {
        holds(rt, case, PIECES)?;
    }
    Ok(())
}

/// A call with this gate and these placers and taps writes and leaves what the case says.
fn holds_with<G: Gate + Sync>(
    rt: &(impl Abort + Alloc<A = Global> + Threads + Wait + Sync),
    case: &Case,
    gate: &G,
    placers: Vec<Box<dyn Placer + Send>>,
    taps: Vec<Box<dyn Tap + Send>>,
) -> Result<(), Fail> {
    let alloc = rt.alloc();
    let words = split(alloc, case.words)?;
    let mut source = source_of(alloc, bytes_of(alloc, case.read.0, case.read.1)?, PIECES)?;
    let mut sink = sink_of(alloc, PIECES)?;
    let left = left_with(rt, &words, &mut source, &mut sink, gate, placers, taps);
    let written = bytes_of(alloc, case.written.0, case.written.1)?;
    assert_eq!(rt; sink.bytes(), written.as_slice());
    assert_eq!(rt; left, case.left);
    Ok(())
}
