//! Writes what was found, and returns its status. Nothing here allocates.

ghost use Rattle.std.specs.Prelude.{◌≡◌, ◌≢◌, ◌<◌, ◌-◌, ◌^◌};
ghost use Rattle.program_call.specs.Answers.{TellsFrontFault};
ghost use Rattle.program_call.specs.Outcomes.{TellsLine};
ghost use Rattle.fractal_sim.specs.Finding.{IsWritable, TellsFinding};
ghost use Rattle.fractal_sim.specs.Given.{front};
ghost use Rattle.fractal_sim.specs.Texts.{image_fault_line};

use crate::finding::Finding;
use crate::lines::{image_line, journal_line, script_line};
use crate::publishing::{
    accept, publish, publish_load, publish_played, publish_stopped, publish_trace,
};
use guest_image::ImageFault;
use program_call::{
    FrontFault, IMAGE_FAULT, LONG, NO_MEMORY, Outcome, REPORT_FAULT, SCRIPT_FAULT, SOURCE_FAULT,
    USAGE, tell_line,
};
use sim_io::Sink;
use std::alloc::Global;

/// Writes what was found. The status is 7 where the sink fails.
pub(crate) fn tell<K: Sink>(alloc: Global, sink: &mut K, found: Finding) -> Outcome
    requires { IsWritable found }
    ensures { TellsFinding found (K.state sink.old) (K.state sink.new) result }
{
    match found {
        Finding::Memory => Outcome::empty(alloc, NO_MEMORY),
        Finding::Refused(line) => tell_journal_fault(alloc, sink, line),
        Finding::NoScript(line) => tell_script_fault(alloc, sink, line),
        Finding::Accepted(closed) => accept(sink, closed),
        Finding::Ran(image, ran, steps) => publish(sink, &image, ran, steps),
        Finding::Stopped(ran, steps, made) => publish_stopped(sink, ran, steps, made),
        Finding::Loaded(load, image, ran, steps) => publish_load(sink, load, &image, ran, steps),
        Finding::Played(image, played) => publish_played(sink, &image, played),
        Finding::Traced(traced) => publish_trace(sink, traced),
    }
}

/// Writes why a call finds no image. The status is 7 if the sink fails.
pub(crate) fn tell_fault<K: Sink>(alloc: Global, sink: &mut K, fault: FrontFault) -> Outcome
    ensures { TellsFrontFault front fault (K.state sink.old) (K.state sink.new) result }
{
    match fault {
        FrontFault::Usage => tell_line(alloc, sink, USAGE, b"fault usage\n"),
        FrontFault::Memory => Outcome::empty(alloc, NO_MEMORY),
        FrontFault::Unread => Outcome::empty(alloc, SOURCE_FAULT),
        FrontFault::Long => tell_line(alloc, sink, LONG, b"fault long\n"),
        FrontFault::NoImage(fault) => tell_image_fault(alloc, sink, fault),
    }
}

fn tell_image_fault<K: Sink>(alloc: Global, sink: &mut K, fault: ImageFault) -> Outcome
    ensures { TellsLine IMAGE_FAULT (image_fault_line fault) (K.state sink.old) (K.state sink.new) result }
{
    let line = image_line(fault);
    tell_line(alloc, sink, IMAGE_FAULT, line.as_slice())
}

fn tell_journal_fault<K: Sink>(alloc: Global, sink: &mut K, wrong: u32) -> Outcome
    ensures { TellsFinding (Finding.Refused wrong) (K.state sink.old) (K.state sink.new) result }
{
    let line = journal_line(wrong);
    tell_line(alloc, sink, REPORT_FAULT, line.as_slice())
}

fn tell_script_fault<K: Sink>(alloc: Global, sink: &mut K, wrong: u32) -> Outcome
    ensures { TellsFinding (Finding.NoScript wrong) (K.state sink.old) (K.state sink.new) result }
{
    let line = script_line(wrong);
    tell_line(alloc, sink, SCRIPT_FAULT, line.as_slice())
}
