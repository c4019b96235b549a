//! A report that is written line by line. Each line is one piece for the sink, with its newline; but the line of
//! the output goes out as `output `, then pieces of at most 512 digits, or the dash, and the newline as its last piece.

ghost use Rattle.std.specs.Prelude.{◌≡◌, ℕ, ◌+◌, ◌-◌, ◌*◌, ◌^◌, ◌<◌, ◌≤◌, ◌++◌, codes, length, OnErr, OnOk};
ghost use Rattle.std.specs.List.{enumerate_from, flat_map};
ghost use Rattle.arrayvec.specs.ArrayVec.{array_vec_len};
ghost use Rattle.guest_image.specs.Numbers.{word_at};
ghost use Rattle.sim_io.specs.Parts.{Writes};
ghost use Rattle.report_text.specs.Hex.{byte_hex};
ghost use Rattle.report_text.specs.Report.{body_lines, end_line, entry_line, entry_lines, name_text, output_digits};
ghost use Rattle.report_text.specs.Report.{output_line, report, window_line, window_of};

use crate::line::{Line, digits_of, put, put_count, put_number, put_word};
use crate::report::WindowWord;
use crate::window::{window_len, word_of};
use guest_image::Image;
use run_journal::{Closed, End, Entry, Journal};
use sim_io::{Failed, Sink, write_all};
use task_desc::Name;

/// Writes the report of a closed run: its journal, the image's window of its memory, its output, and how it ended.
/// After `Failed` a prefix of the text was taken.
#[tactic(auto, unfolding(crate::specs::Report::report))]
pub fn write_report<K: Sink>(
    sink: &mut K,
    image: &Image,
    closed: &Closed,
    end: &End,
) -> Result<(), Failed>
    requires { length closed.now.memory ≡ image.now.data_size }
    ensures { Writes (K.state sink.old) (K.state sink.new) result
        (report image.now closed.now.journal closed.now.memory closed.now.output end.now) }
{
    match write_front(sink, image, closed) {
        Ok(()) => write_end(sink, end),
        Err(failed) => Err(failed),
    }
}

// All lines but the last.
fn write_front<K: Sink>(sink: &mut K, image: &Image, closed: &Closed) -> Result<(), Failed>
    requires { length closed.now.memory ≡ image.now.data_size }
    ensures { Writes (K.state sink.old) (K.state sink.new) result
        (entry_lines closed.now.journal ++ body_lines image.now closed.now.memory closed.now.output) }
{
    match write_entries(sink, &closed.journal) {
        Ok(()) => write_body(
            sink,
            image,
            closed.memory.as_slice(),
            closed.output.as_slice(),
        ),
        Err(failed) => Err(failed),
    }
}

/// Writes the first line and those of the entries, which are numbered from 1. After `Failed` a
/// prefix of the text was taken.
pub fn write_entries<K: Sink>(sink: &mut K, journal: &Journal) -> Result<(), Failed>
    ensures { Writes (K.state sink.old) (K.state sink.new) result (entry_lines journal.now) }
{
    match write_all(sink, b"fractal 1\n") {
        Ok(()) => write_list(sink, journal.as_slice()),
        Err(failed) => Err(failed),
    }
}

fn write_list<K: Sink>(sink: &mut K, entries: &[Entry]) -> Result<(), Failed>
    ensures { Writes (K.state sink.old) (K.state sink.new) result
        (flat_map entry_line (enumerate_from 1 entries.now)) }
{
    for (index, entry) in entries.iter().enumerate() {
        match write_entry(sink, index as u64 + 1, entry) {
            Ok(()) => {}
            Err(failed) => return Err(failed),
        }
    }
    Ok(())
}

fn write_entry<K: Sink>(sink: &mut K, number: u64, entry: &Entry) -> Result<(), Failed>
    ensures { Writes (K.state sink.old) (K.state sink.new) result (entry_line (number, entry.now)) }
{
    let line = entry_text(number, entry);
    write_all(sink, line.as_slice())
}

#[tactic(auto, unfolding(crate::specs::Report::entry_line))]
fn entry_text(number: u64, entry: &Entry) -> Line
    ensures { result.items ≡ entry_line (number, entry.now) }
{
    let mut line = Line::new();
    put_count(&mut line, number);
    put(&mut line, b" ");
    put_name(&mut line, entry.name);
    put(&mut line, b" ");
    put_number(&mut line, u32::from(entry.depth));
    put(&mut line, b" ");
    put_number(&mut line, entry.ts);
    put(&mut line, b"\n");
    line
}

fn put_name(line: &mut Line, name: Name)
    requires { array_vec_len line.old + 21 ≤ 72 }
    ensures text { line.new.items ≡ line.old.items ++ name_text name }
    ensures len { array_vec_len line.new ≤ array_vec_len line.old + 21 }
{
    put_number(line, name.creator);
    put(line, b".");
    put_number(line, name.index);
}

/// Writes the line of the output and those of the window, which is read from the memory. After
/// `Failed` a prefix of the text was taken.
pub fn write_body<K: Sink>(
    sink: &mut K,
    image: &Image,
    memory: &[u8],
    output: &[u8],
) -> Result<(), Failed>
    requires { length memory.now ≡ image.now.data_size }
    ensures { Writes (K.state sink.old) (K.state sink.new) result
        (body_lines image.now memory.now output.now) }
{
    match write_output(sink, output) {
        Ok(()) => write_window(sink, image, memory),
        Err(failed) => Err(failed),
    }
}

fn write_output<K: Sink>(sink: &mut K, output: &[u8]) -> Result<(), Failed>
    ensures { Writes (K.state sink.old) (K.state sink.new) result (output_line output.now) }
{
    match write_value(sink, output) {
        Ok(()) => write_all(sink, b"\n"),
        Err(failed) => Err(failed),
    }
}

fn write_value<K: Sink>(sink: &mut K, output: &[u8]) -> Result<(), Failed>
    ensures { Writes (K.state sink.old) (K.state sink.new) result
        (codes "output " ++ output_digits output.now) }
{
    match write_all(sink, b"output ") {
        Ok(()) => write_digits(sink, output),
        Err(failed) => Err(failed),
    }
}

fn write_digits<K: Sink>(sink: &mut K, output: &[u8]) -> Result<(), Failed>
    ensures { Writes (K.state sink.old) (K.state sink.new) result (output_digits output.now) }
{
    if output.is_empty() {
        return write_all(sink, b"-");
    }
    write_hex(sink, output)
}

fn write_hex<K: Sink>(sink: &mut K, bytes: &[u8]) -> Result<(), Failed>
    ensures { Writes (K.state sink.old) (K.state sink.new) result (flat_map byte_hex bytes.now) }
{
    let mut at = 0;
    while at < bytes.len() {
        let end = bytes.len().min(at + 256);
        match write_chunk(sink, &bytes[at..end]) {
            Ok(()) => at = end,
            Err(failed) => return Err(failed),
        }
    }
    Ok(())
}

fn write_chunk<K: Sink>(sink: &mut K, bytes: &[u8]) -> Result<(), Failed>
    requires { length bytes.now ≤ 256 }
    ensures { Writes (K.state sink.old) (K.state sink.new) result (flat_map byte_hex bytes.now) }
{
    let digits = digits_of(bytes);
    write_all(sink, digits.as_slice())
}

fn write_window<K: Sink>(sink: &mut K, image: &Image, memory: &[u8]) -> Result<(), Failed>
    requires { length memory.now ≡ image.now.data_size }
    ensures { Writes (K.state sink.old) (K.state sink.new) result
        (flat_map window_line (window_of image.now memory.now)) }
{
    for place in 0..window_len(image) {
        match write_word(sink, word_of(image, memory, place)) {
            Ok(()) => {}
            Err(failed) => return Err(failed),
        }
    }
    Ok(())
}

fn write_word<K: Sink>(sink: &mut K, word: WindowWord) -> Result<(), Failed>
    ensures { Writes (K.state sink.old) (K.state sink.new) result (window_line word) }
{
    let line = window_text(word);
    write_all(sink, line.as_slice())
}

#[tactic(auto, unfolding(crate::specs::Report::window_line))]
fn window_text(word: WindowWord) -> Line
    ensures { result.items ≡ window_line word }
{
    let mut line = Line::new();
    put(&mut line, b"window ");
    put_word(&mut line, word.addr);
    put(&mut line, b" ");
    put_word(&mut line, word.value);
    put(&mut line, b"\n");
    line
}

/// Writes the last line, which says how the run ended. After `Failed` a prefix of it was taken.
pub fn write_end<K: Sink>(sink: &mut K, end: &End) -> Result<(), Failed>
    ensures { Writes (K.state sink.old) (K.state sink.new) result (end_line end.now) }
{
    let line = end_text(end);
    write_all(sink, line.as_slice())
}

#[tactic(auto, unfolding(crate::specs::Report::end_line))]
fn end_text(end: &End) -> Line
    ensures { result.items ≡ end_line end.now }
{
    let mut line = Line::new();
    match end {
        End::Normal => put(&mut line, b"end normal\n"),
        End::Limit => put(&mut line, b"end limit\n"),
        End::Unfinished => put(&mut line, b"end open\n"),
        End::Trap { name, cause, pc } => {
            put(&mut line, b"end trap ");
            put_number(&mut line, u32::from(*cause));
            put(&mut line, b" ");
            put_word(&mut line, *pc);
            put(&mut line, b" ");
            put_name(&mut line, *name);
            put(&mut line, b"\n");
        }
    }
    line
}
