//! A report after an image is checked.

ghost use Rattle.std.specs.Prelude.{◌≡◌, ◌≤◌, ◌<◌, length, List};
ghost use Rattle.place_policy.specs.Policy.{Policy};
ghost use Rattle.trace_tap.specs.TapValue.{TapValue};
ghost use Rattle.script_text.specs.report_text.Check.{IsReportOf};
ghost use Rattle.command_line.specs.Requests.{IsLimited};
ghost use Rattle.fractal_sim.specs.Deciding.{IsClosedReport, IsFoundBehind};
ghost use Rattle.fractal_sim.specs.Finding.{IsWritable};
ghost use Rattle.program_call.specs.Call.{input_limit};

use crate::finding::Finding;
use crate::report_text::{Examined, JournalFault, Report, examine, read_journal};
use crate::serial_machine::{Serial, SerialRun};
use command_line::{Command, Request};
use guest_image::Image;
use spec_state::Settings;
use std::alloc::Global;

/// Checks the report after an image.
pub(crate) fn check_report(alloc: Global, request: Request, image: &Image, rest: &[u8]) -> Finding
    requires command { request.command ≡ Command.Check }
    requires limits { IsLimited request }
    requires short { length rest.now ≤ input_limit }
    ensures found { (placers : List Policy) (taps : List TapValue)
        → IsFoundBehind request image.now rest.now placers taps result }
    ensures writable { IsWritable result }
{
    let report = match read_journal(alloc, rest) {
        Ok(report) => report,
        Err(JournalFault::Line { line }) => return Finding::Refused(line),
        Err(JournalFault::Memory) => return Finding::Memory,
    };
    let Settings {
        commits,
        budget,
        ..
    } = request.settings;
    match examine(alloc, image, commits, budget, &report) {
        Examined::Yes(serial) => Finding::Accepted(close(serial, report)),
        Examined::Illegal { line, .. } => Finding::Refused(line),
        Examined::Memory => Finding::Memory,
    }
}

/// The run of a report, which led to this machine.
fn close(serial: Serial, report: Report) -> SerialRun
    ensures { IsClosedReport serial.state report result }
{
    let (memory, output) = serial.into_parts();
    SerialRun {
        journal: report.journal,
        memory,
        output,
        end: Some(report.end),
    }
}
