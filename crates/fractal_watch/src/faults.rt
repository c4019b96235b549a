//! The lines for faults.

ghost use Rattle.std.specs.Prelude.{◌≡◌, ◌≢◌, IfOk, List, ℕ};
ghost use Rattle.std.specs.String.{string_bytes};
ghost use Rattle.program_call.specs.declared.statuses.TheConstants.{SINK_FAULT};
ghost use Rattle.program_call.specs.Answers.{TellsFrontFault};
ghost use Rattle.program_call.specs.Outcomes.{TellsMadeLine};
ghost use Rattle.fractal_watch.specs.Given.{front};
ghost use Rattle.fractal_watch.specs.Texts.{image_fault_object, image_fault_text, script_fault_object};

use guest_image::ImageFault;
use program_call::{
    FrontFault, IMAGE_FAULT, LONG, NO_MEMORY, Outcome, SCRIPT_FAULT, SINK_FAULT, SOURCE_FAULT,
    USAGE, tell_line,
};
use sim_io::Sink;
use std::alloc::{AllocError, Global};
use std::fmt::Write;

fn image_text(alloc: Global, number: u8, offset: u64) -> Result<String, AllocError>
    ensures { IfOk result (λ line. string_bytes line ≡ image_fault_text number offset) }
{
    let mut line = format!(in alloc; "{{\"fault\":\"image\",\"number\":{number}")?;
    write!(line, ",\"offset\":{offset}}}\n")?;
    Ok(line)
}

fn image_line(alloc: Global, fault: ImageFault) -> Result<String, AllocError>
    ensures { IfOk result (λ line. string_bytes line ≡ image_fault_object fault) }
{
    image_text(alloc, fault.number(), fault.offset())
}

fn script_line(alloc: Global, wrong: u32) -> Result<String, AllocError>
    ensures { IfOk result (λ line. string_bytes line ≡ script_fault_object wrong) }
{
    format!(in alloc; "{{\"fault\":\"script\",\"line\":{wrong}}}\n")
}

/// Prints a line that takes memory, with the status that belongs to it.
fn tell_made<K: Sink>(
    alloc: Global,
    sink: &mut K,
    status: u8,
    line: Result<String, AllocError>,
) -> Outcome
    requires { status ≢ SINK_FAULT }
    ensures { (text : List ℕ) → IfOk line (λ line. string_bytes line ≡ text)
        → TellsMadeLine status text (K.state sink.old) (K.state sink.new) result }
{
    match line {
        Ok(line) => tell_line(alloc, sink, status, line.as_bytes()),
        Err(_) => Outcome::empty(alloc, NO_MEMORY),
    }
}

/// Prints why a call has no image to run.
pub(crate) fn tell_fault<K: Sink>(alloc: Global, sink: &mut K, fault: FrontFault) -> Outcome
    ensures { TellsFrontFault front fault (K.state sink.old) (K.state sink.new) result }
{
    match fault {
        FrontFault::Usage => tell_line(alloc, sink, USAGE, b"{\"fault\":\"usage\"}\n"),
        FrontFault::Memory => Outcome::empty(alloc, NO_MEMORY),
        FrontFault::Unread => Outcome::empty(alloc, SOURCE_FAULT),
        FrontFault::Long => tell_line(alloc, sink, LONG, b"{\"fault\":\"long\"}\n"),
        FrontFault::NoImage(fault) => tell_image_fault(alloc, sink, fault),
    }
}

fn tell_image_fault<K: Sink>(alloc: Global, sink: &mut K, fault: ImageFault) -> Outcome
    ensures { TellsMadeLine IMAGE_FAULT (image_fault_object fault) (K.state sink.old) (K.state sink.new) result }
{
    tell_made(alloc, sink, IMAGE_FAULT, image_line(alloc, fault))
}

/// The script is refused at this line.
pub(crate) fn tell_script_fault<K: Sink>(alloc: Global, sink: &mut K, wrong: u32) -> Outcome
    ensures { TellsMadeLine SCRIPT_FAULT (script_fault_object wrong) (K.state sink.old) (K.state sink.new) result }
{
    tell_made(alloc, sink, SCRIPT_FAULT, script_line(alloc, wrong))
}
