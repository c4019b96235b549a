//! The last line.

ghost use Rattle.std.specs.Prelude.{◌≡◌, ◌<◌, ◌+◌, ◌*◌, ◌++◌, OnOk, length};
ghost use Rattle.std.specs.String.{string_bytes};
ghost use Rattle.guest_image.specs.Numbers.{word_at};
ghost use Rattle.watch_text.specs.Views.{counts_text, end_front, last_line, memory_text, output_text, trap_text};
ghost use Rattle.watch_text.specs.Views.{windows_text};

use crate::fields::{put_comma, put_hex, put_name, put_number};
use crate::words::end_word;
use byteorder::{ByteOrder, LittleEndian};
use guest_image::Image;
use run_journal::{Closed, End};
use std::alloc::AllocError;
use std::fmt::Write;

/// Why a run ended at a trap, where, and of which task.
fn put_trap(line: &mut String, end: End) -> Result<(), AllocError>
    ensures { OnOk result (string_bytes line.new ≡ string_bytes line.old ++ trap_text end) }
{
    match end {
        End::Trap { name, cause, pc } => {
            put_number(line, "cause", u64::from(cause))?;
            put_number(line, "pc", u64::from(pc))?;
            put_name(line, u64::from(name.creator), name.index)
        }
        End::Normal => Ok(()),
        End::Limit => Ok(()),
        End::Unfinished => Ok(()),
    }
}

/// The word of the window at a place, counted from 0.
#[tactic(auto, unfolding(guest_image::specs::Numbers::word_at))]
fn window_word(image: &Image, memory: &[u8], place: u32) -> u32
    requires memory { length memory.now ≡ image.now.data_size }
    requires place { place < image.now.window_words }
    ensures { result ≡ word_at memory.now (image.now.window_offset + 4 * place) }
{
    // The image's window lies in its data.
    let _ = image.initial();
    let (offset, _) = image.window();
    LittleEndian::read_u32(memory.split_at((offset + 4 * place) as usize).1)
}

/// The words of the window in a memory, with commas between them.
#[tactic(auto, using(crate::proofs::Ranged::items_step))]
fn put_window(line: &mut String, image: &Image, memory: &[u8]) -> Result<(), AllocError>
    requires { length memory.now ≡ image.now.data_size }
    ensures { OnOk result (string_bytes line.new ≡ string_bytes line.old
        ++ windows_text image.now memory.now) }
{
    let (_, words) = image.window();
    for place in 0..words {
        put_comma(line, place)?;
        let word = window_word(image, memory, place);
        write!(line, "{word}")?;
    }
    Ok(())
}

/// How the run stands.
#[tactic(auto, unfolding(crate::specs::Views::end_front))]
fn put_stand(line: &mut String, end: End) -> Result<(), AllocError>
    ensures { OnOk result (string_bytes line.new ≡ string_bytes line.old ++ end_front end) }
{
    let word = end_word(end);
    write!(line, "{{\"end\":\"{word}\"")?;
    put_trap(line, end)
}

/// How many events were made and how many tasks committed.
#[tactic(auto, unfolding(crate::specs::Views::counts_text))]
fn put_counts(line: &mut String, closed: &Closed) -> Result<(), AllocError>
    ensures { OnOk result (string_bytes line.new ≡ string_bytes line.old
        ++ counts_text closed.now.steps (length closed.now.journal)) }
{
    let (events, commits) = (closed.steps, closed.journal.as_slice().len());
    write!(line, ",\"n\":{events},\"journal\":{commits}")
}

/// The bytes that the tasks emitted.
#[tactic(auto, unfolding(crate::specs::Views::output_text))]
fn put_output(line: &mut String, bytes: &[u8]) -> Result<(), AllocError>
    ensures { OnOk result (string_bytes line.new ≡ string_bytes line.old ++ output_text bytes.now) }
{
    write!(line, ",\"output\":\"")?;
    put_hex(line, bytes)?;
    write!(line, "\"")
}

/// The words of the window.
#[tactic(auto, unfolding(crate::specs::Views::memory_text))]
fn put_memory(line: &mut String, image: &Image, memory: &[u8]) -> Result<(), AllocError>
    requires { length memory.now ≡ image.now.data_size }
    ensures { OnOk result (string_bytes line.new ≡ string_bytes line.old ++ memory_text image.now memory.now) }
{
    write!(line, ",\"window\":[")?;
    put_window(line, image, memory)
}

/// The last line, of a run that was closed: how it stands, how many events were made and how many tasks committed, and
/// what they left.
#[tactic(auto, unfolding(crate::specs::Views::last_line))]
pub fn put_end(
    line: &mut String,
    image: &Image,
    closed: &Closed,
    end: End,
) -> Result<(), AllocError>
    requires { length closed.now.memory ≡ image.now.data_size }
    ensures { OnOk result (string_bytes line.new ≡ string_bytes line.old
        ++ last_line image.now end closed.now.steps (length closed.now.journal) closed.now.output closed.now.memory) }
{
    put_stand(line, end)?;
    put_counts(line, closed)?;
    put_output(line, closed.output.as_slice())?;
    put_memory(line, image, closed.memory.as_slice())?;
    write!(line, "]}}\n")
}
