//! A report that is read back.

ghost use Rattle.std.specs.Prelude.{◌≡◌, ◌+◌, ◌<◌, ◌≤◌, length};
ghost use Rattle.text_lines.specs.Lines.{lines_of};
ghost use Rattle.report_text.specs.ReadBack.{ReportReadsBack};
ghost use Rattle.report_text.specs.Grammar.{GivesRead, entries_at, report_of, window_at};

use crate::fault::JournalFault;
use crate::parsing::{end_in, entry_in, output_in, window_in};
use crate::report::{Report, Window};
use crate::serial_machine::{Bytes, End, Journal};
use std::alloc::Global;
use text_lines::next_line;

/// The report that a text is. `Line` names the first line outside the grammar; a line that is missing has the number
/// that it should have.
pub fn read_journal(alloc: Global, text: &[u8]) -> Result<Report, JournalFault>
    requires { length text.now < 4294967295 }
    ensures { GivesRead result (report_of text.now) }
{
    let Some((first, rest)) = next_line(text) else {
        return Err(JournalFault::Line { line: 1 });
    };
    if first != b"fractal 1".as_slice() {
        return Err(JournalFault::Line { line: 1 });
    }
    read_entries(alloc, rest)
}

// The entries and all that follows them.
#[tactic(auto, using(crate::proofs::Steps::entry_steps))]
fn read_entries(alloc: Global, text: &[u8]) -> Result<Report, JournalFault>
    requires { length text.now < 4294967294 }
    ensures { GivesRead result (entries_at 1 (lines_of text.now)) }
{
    let mut journal = Journal::new(alloc);
    let mut rest = text;
    let mut n = 1u32;
    while let Some((line, after)) = next_line(rest) {
        let output = match output_in(alloc, line) {
            Ok(output) => output,
            Err(_) => return Err(JournalFault::Memory),
        };
        if let Some(output) = output {
            return match read_window(alloc, after, n + 2) {
                Ok((window, end)) => Ok(Report {
                    journal,
                    output: Bytes::from_vec(output),
                    window,
                    end,
                }),
                Err(fault) => Err(fault),
            };
        }
        let Some(entry) = entry_in(n, line) else {
            return Err(JournalFault::Line { line: n + 1 });
        };
        if journal.push(entry).is_err() {
            return Err(JournalFault::Memory);
        }
        n += 1;
        rest = after;
    }
    Err(JournalFault::Line { line: n + 1 })
}

// The window and the end, in the lines from this one on.
#[tactic(auto, using(crate::proofs::Steps::window_steps))]
fn read_window(alloc: Global, text: &[u8], from: u32) -> Result<(Window, End), JournalFault>
    requires { from + length text.now < 4294967296 }
    ensures { GivesRead result (window_at from (lines_of text.now)) }
{
    let mut window = Window::new(alloc);
    let mut rest = text;
    let mut k = from;
    while let Some((line, after)) = next_line(rest) {
        if let Some(end) = end_in(line) {
            return if after.is_empty() {
                Ok((window, end))
            } else {
                Err(JournalFault::Line { line: k + 1 })
            };
        }
        let Some(word) = window_in(line) else {
            return Err(JournalFault::Line { line: k });
        };
        if window.push(word).is_err() {
            return Err(JournalFault::Memory);
        }
        k += 1;
        rest = after;
    }
    Err(JournalFault::Line { line: k })
}

/// A report that was written is read back as what it was written of.
#[tactic(auto, using(crate::proofs::ReportBack::report_back))]
pub fn written_reports_read_back()
    ensures { ReportReadsBack }
{}
