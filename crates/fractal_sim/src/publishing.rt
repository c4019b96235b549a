//! A run is published: its text is written, and it is returned with the status of what was found of it.

ghost use Rattle.std.specs.Prelude.{◌≡◌, ◌≢◌, ◌++◌, Some, None, length, map, OnOk};
ghost use Rattle.sim_io.specs.Parts.{Writes};
ghost use Rattle.script_text.specs.report_text.Report.{body_lines, end_line};
ghost use Rattle.script_text.specs.Traces.{trace_text};
ghost use Rattle.machine_run.specs.Least.{run_of_closed};
ghost use Rattle.program_call.specs.declared.statuses.TheConstants.{SINK_FAULT};
ghost use Rattle.fractal_sim.specs.Deciding.{run_with_end};
ghost use Rattle.fractal_sim.specs.Finding.{HasWindow, HoldsRun, TellsFinding, TellsStopped};
ghost use Rattle.fractal_sim.specs.Texts.{commits_line, end_status, load_line, load_text, played_status, played_text};

use crate::finding::{Finding, Loading, Saving};
use crate::lines::{accept_line, commits_line, load_line, nested_line, tasks_line};
use crate::report_text::{write_body, write_end, write_report};
use crate::serial_machine::{End, SerialRun};
use crate::step_script::Said;
use guest_image::Image;
use machine_run::{Played, Ran, Traced};
use program_call::{DONE, LIMIT, NESTED, NO_MEMORY, Outcome, SINK_FAULT, TOO_MANY, TRAP};
use run_journal::Closed;
use script_text::{write_replies, write_trace};
use sim_io::{Failed, Sink, write_all};

/// What is answered with a run, and with the count of events that made it.
fn outcome(status: u8, run: SerialRun, steps: Option<u64>) -> Outcome
    ensures status { result.status ≡ status }
    ensures kept { HoldsRun run steps result }
{
    Outcome {
        status,
        journal: run.journal,
        memory: run.memory,
        output: run.output,
        end: run.end,
        steps,
    }
}

/// What is answered with what a closed book left.
fn outcome_of_run(status: u8, ran: Ran, steps: Option<u64>) -> Outcome
    ensures status { result.status ≡ status }
    ensures kept { HoldsRun (run_with_end ran) steps result }
{
    let Ran { closed, end } = ran;
    let run = SerialRun {
        journal: closed.journal,
        memory: closed.memory,
        output: closed.output,
        end,
    };
    outcome(status, run, steps)
}

/// Writes that a report is accepted, with the number of its entries.
pub(crate) fn accept<K: Sink>(sink: &mut K, run: SerialRun) -> Outcome
    ensures { TellsFinding (Finding.Accepted run) (K.state sink.old) (K.state sink.new) result }
{
    let line = accept_line(run.journal.as_slice().len() as u64);
    match write_all(sink, line.as_slice()) {
        Ok(()) => outcome(DONE, run, None),
        Err(_) => outcome(SINK_FAULT, run, None),
    }
}

/// Writes the report of a run; none where memory ran out.
pub(crate) fn publish<K: Sink>(sink: &mut K, image: &Image, ran: Ran, steps: Option<u64>) -> Outcome
    requires { HasWindow image.now ran }
    ensures { TellsFinding (Finding.Ran image.now ran steps) (K.state sink.old) (K.state sink.new) result }
{
    let Some(end) = ran.end else {
        return outcome_of_run(NO_MEMORY, ran, steps);
    };
    match write_report(sink, image, &ran.closed, &end) {
        Ok(()) => outcome_of_run(end_status(&end), ran, steps),
        Err(_) => outcome_of_run(SINK_FAULT, ran, steps),
    }
}

/// Writes the bytes of the saved image, or the line that says why there is none.
pub(crate) fn publish_stopped<K: Sink>(
    sink: &mut K,
    ran: Ran,
    steps: Option<u64>,
    made: Saving,
) -> Outcome
    ensures { TellsFinding (Finding.Stopped ran steps made) (K.state sink.old) (K.state sink.new) result }
{
    match made {
        Saving::Bytes(bytes) => tell_stopped(sink, LIMIT, &bytes, ran, steps),
        Saving::Nested(depth) => tell_stopped(
            sink,
            NESTED,
            nested_line(depth).as_slice(),
            ran,
            steps,
        ),
        Saving::TooMany(count) => tell_stopped(
            sink,
            TOO_MANY,
            tasks_line(count).as_slice(),
            ran,
            steps,
        ),
    }
}

/// Writes this text, and returns this status with a run that met its commit limit.
fn tell_stopped<K: Sink>(
    sink: &mut K,
    status: u8,
    text: &[u8],
    ran: Ran,
    steps: Option<u64>,
) -> Outcome
    requires { status ≢ SINK_FAULT }
    ensures { TellsStopped status text.now ran steps (K.state sink.old) (K.state sink.new) result }
{
    match write_all(sink, text) {
        Ok(()) => outcome_of_run(status, ran, steps),
        Err(_) => outcome_of_run(SINK_FAULT, ran, steps),
    }
}

/// Writes the report of a generated image's run; none where memory ran out.
pub(crate) fn publish_load<K: Sink>(
    sink: &mut K,
    load: Loading,
    image: &Image,
    ran: Ran,
    steps: Option<u64>,
) -> Outcome
    requires { HasWindow image.now ran }
    ensures { TellsFinding (Finding.Loaded load image.now ran steps) (K.state sink.old) (K.state sink.new) result }
{
    let Some(end) = ran.end else {
        return outcome_of_run(NO_MEMORY, ran, steps);
    };
    match write_load(sink, load, image, &ran.closed, &end) {
        Ok(()) => outcome_of_run(end_status(&end), ran, steps),
        Err(_) => outcome_of_run(SINK_FAULT, ran, steps),
    }
}

/// Writes the replies to a script's acts, followed by the report; nothing if memory ran out.
pub(crate) fn publish_played<K: Sink>(sink: &mut K, image: &Image, played: Played) -> Outcome
    requires { HasWindow image.now played.ran }
    ensures { TellsFinding (Finding.Played image.now played) (K.state sink.old) (K.state sink.new) result }
{
    let Played { ran, said } = played;
    let steps = Some(ran.closed.steps);
    let Some(end) = ran.end else {
        return outcome_of_run(NO_MEMORY, ran, steps);
    };
    match write_played(sink, &said, image, &ran.closed, &end) {
        Ok(()) => outcome_of_run(played_status(&end), ran, steps),
        Err(_) => outcome_of_run(SINK_FAULT, ran, steps),
    }
}

/// Writes what the taps saw; nothing where memory ran out.
pub(crate) fn publish_trace<K: Sink>(sink: &mut K, traced: Traced) -> Outcome
    ensures { TellsFinding (Finding.Traced traced) (K.state sink.old) (K.state sink.new) result }
{
    let Traced { ran, lists } = traced;
    let steps = Some(ran.closed.steps);
    if ran.end.is_none() {
        return outcome_of_run(NO_MEMORY, ran, steps);
    }
    match write_trace(sink, &lists) {
        Ok(()) => outcome_of_run(DONE, ran, steps),
        Err(_) => outcome_of_run(SINK_FAULT, ran, steps),
    }
}

/// Writes which image was generated, how many tasks committed, and what is left of the report.
fn write_load<K: Sink>(
    sink: &mut K,
    load: Loading,
    image: &Image,
    closed: &Closed,
    end: &End,
) -> Result<(), Failed>
    requires { length closed.now.memory ≡ image.now.data_size }
    ensures { Writes (K.state sink.old) (K.state sink.new) result
        (load_text load.load load.seed load.size image.now (run_of_closed closed.now None) end.now) }
{
    match write_load_front(sink, load, image, closed) {
        Ok(()) => write_end(sink, end),
        Err(failed) => Err(failed),
    }
}

// All lines but the last.
fn write_load_front<K: Sink>(
    sink: &mut K,
    load: Loading,
    image: &Image,
    closed: &Closed,
) -> Result<(), Failed>
    requires { length closed.now.memory ≡ image.now.data_size }
    ensures { Writes (K.state sink.old) (K.state sink.new) result
        (load_line load.load load.seed load.size ++ commits_line (length closed.now.journal)
        ++ body_lines image.now closed.now.memory closed.now.output) }
{
    match write_load_lines(sink, load, closed.journal.as_slice().len() as u64) {
        Ok(()) => write_body(
            sink,
            image,
            closed.memory.as_slice(),
            closed.output.as_slice(),
        ),
        Err(failed) => Err(failed),
    }
}

fn write_load_lines<K: Sink>(sink: &mut K, load: Loading, commits: u64) -> Result<(), Failed>
    ensures { Writes (K.state sink.old) (K.state sink.new) result
        (load_line load.load load.seed load.size ++ commits_line commits) }
{
    let line = load_line(load);
    match write_all(sink, line.as_slice()) {
        Ok(()) => write_commits(sink, commits),
        Err(failed) => Err(failed),
    }
}

fn write_commits<K: Sink>(sink: &mut K, commits: u64) -> Result<(), Failed>
    ensures { Writes (K.state sink.old) (K.state sink.new) result (commits_line commits) }
{
    let line = commits_line(commits);
    write_all(sink, line.as_slice())
}

/// Writes the replies to the acts, and the report of the run that they led to.
fn write_played<K: Sink>(
    sink: &mut K,
    said: &[Said],
    image: &Image,
    closed: &Closed,
    end: &End,
) -> Result<(), Failed>
    requires { length closed.now.memory ≡ image.now.data_size }
    ensures { Writes (K.state sink.old) (K.state sink.new) result
        (played_text said.now image.now (run_of_closed closed.now None) end.now) }
{
    match write_replies(sink, said) {
        Ok(()) => write_report(sink, image, closed, end),
        Err(failed) => Err(failed),
    }
}

/// The status of a run to its end.
fn end_status(end: &End) -> u8
    ensures value { result ≡ end_status end.now }
    ensures small { result ≢ SINK_FAULT }
{
    match end {
        End::Normal => DONE,
        End::Trap { .. } => TRAP,
        End::Limit => LIMIT,
        End::Unfinished => NO_MEMORY,
    }
}

/// The status of a script that was played: it may leave a run that isn't over.
fn played_status(end: &End) -> u8
    ensures value { result ≡ played_status end.now }
    ensures small { result ≢ SINK_FAULT }
{
    match end {
        End::Unfinished => DONE,
        other => end_status(other),
    }
}
