//! The lines of what taps saw.

ghost use Rattle.std.specs.Prelude.{◌≡◌, ◌++◌, codes, length, map};
ghost use Rattle.std.specs.List.{enumerate_from, flat_map};
ghost use Rattle.sim_io.specs.Parts.{Writes};
ghost use Rattle.script_text.specs.Traces.{number_line, tap_line, tap_lines, trace_text};

use crate::line::put_count;
use report_text::{Line, put};
use sim_io::{Failed, Sink, write_all};

/// The line of a tap beside its list.
#[tactic(auto, unfolding(crate::specs::Traces::tap_line))]
fn tap_line_of(tap: u64, list: &[u64]) -> Line
    ensures { result.items ≡ tap_line (tap, list.now) }
{
    let mut line = Line::new();
    put(&mut line, b"tap ");
    put_count(&mut line, tap);
    put(&mut line, b" ");
    put_count(&mut line, list.len() as u64);
    put(&mut line, b"\n");
    line
}

/// The line of a number.
#[tactic(auto, unfolding(crate::specs::Traces::number_line))]
fn number_line_of(number: u64) -> Line
    ensures { result.items ≡ number_line number }
{
    let mut line = Line::new();
    put_count(&mut line, number);
    put(&mut line, b"\n");
    line
}

fn write_tap_line<K: Sink>(sink: &mut K, tap: u64, list: &[u64]) -> Result<(), Failed>
    ensures { Writes (K.state sink.old) (K.state sink.new) result (tap_line (tap, list.now)) }
{
    let line = tap_line_of(tap, list);
    write_all(sink, line.as_slice())
}

fn write_number<K: Sink>(sink: &mut K, number: u64) -> Result<(), Failed>
    ensures { Writes (K.state sink.old) (K.state sink.new) result (number_line number) }
{
    let line = number_line_of(number);
    write_all(sink, line.as_slice())
}

fn write_numbers<K: Sink>(sink: &mut K, list: &[u64]) -> Result<(), Failed>
    ensures { Writes (K.state sink.old) (K.state sink.new) result (flat_map number_line list.now) }
{
    for number in list {
        match write_number(sink, *number) {
            Ok(()) => {}
            Err(failed) => return Err(failed),
        }
    }
    Ok(())
}

fn write_tap<K: Sink>(sink: &mut K, tap: u64, list: &[u64]) -> Result<(), Failed>
    ensures { Writes (K.state sink.old) (K.state sink.new) result (tap_lines (tap, list.now)) }
{
    match write_tap_line(sink, tap, list) {
        Ok(()) => write_numbers(sink, list),
        Err(failed) => Err(failed),
    }
}

fn write_taps<K: Sink>(sink: &mut K, lists: &[Vec<u64>]) -> Result<(), Failed>
    ensures { Writes (K.state sink.old) (K.state sink.new) result
        (flat_map tap_lines (enumerate_from 0 (map (λ list. list.items) lists.now))) }
{
    for (index, list) in lists.iter().enumerate() {
        match write_tap(sink, index as u64, list.as_slice()) {
            Ok(()) => {}
            Err(failed) => return Err(failed),
        }
    }
    Ok(())
}

// All lines but the last.
fn write_front<K: Sink>(sink: &mut K, lists: &[Vec<u64>]) -> Result<(), Failed>
    ensures { Writes (K.state sink.old) (K.state sink.new) result
        (codes "trace 1\n" ++ flat_map tap_lines (enumerate_from 0 (map (λ list. list.items) lists.now))) }
{
    match write_all(sink, b"trace 1\n") {
        Ok(()) => write_taps(sink, lists),
        Err(failed) => Err(failed),
    }
}

/// Writes the lists of taps, which are counted from 0: for each a line with how many numbers it has, and a line for
/// each number. After `Failed` a prefix of the text was taken.
pub fn write_trace<K: Sink>(sink: &mut K, lists: &[Vec<u64>]) -> Result<(), Failed>
    ensures { Writes (K.state sink.old) (K.state sink.new) result (trace_text (map (λ list. list.items) lists.now)) }
{
    match write_front(sink, lists) {
        Ok(()) => write_all(sink, b"end trace\n"),
        Err(failed) => Err(failed),
    }
}
