//! The lines that report a fault by its numbers, that accept a report, and that begin the report of a generated image.

ghost use Rattle.std.specs.Prelude.{◌≡◌, ◌++◌, ◌<◌, ◌≤◌, ◌-◌, ◌^◌, codes, decimal, length};
ghost use Rattle.fractal_sim.specs.Texts.{accepted_line, commits_line, image_fault_line, journal_fault_line};
ghost use Rattle.fractal_sim.specs.Texts.{load_line, load_word, nested_line, script_fault_line, tasks_line};

use crate::finding::Loading;
use crate::report_text::{Line, put};
use guest_image::ImageFault;
use itoa::Buffer;
use load_gen::Load;

/// The line that reports a fault of the image.
pub(crate) fn image_line(fault: ImageFault) -> Line
    ensures { result.items ≡ image_fault_line fault }
{
    let mut number = Buffer::new();
    let mut offset = Buffer::new();
    let mut line = Line::new();
    put(&mut line, b"fault image ");
    put(&mut line, number.format(fault.number()).as_bytes());
    put(&mut line, b" ");
    put(&mut line, offset.format(fault.offset()).as_bytes());
    put(&mut line, b"\n");
    line
}

/// The line that reports the first wrong line of a report.
pub(crate) fn journal_line(wrong: u32) -> Line
    ensures { result.items ≡ journal_fault_line wrong }
{
    let mut number = Buffer::new();
    let mut line = Line::new();
    put(&mut line, b"fault journal ");
    put(&mut line, number.format(wrong).as_bytes());
    put(&mut line, b"\n");
    line
}

/// The line that reports the first wrong line of a script.
pub(crate) fn script_line(wrong: u32) -> Line
    ensures { result.items ≡ script_fault_line wrong }
{
    let mut number = Buffer::new();
    let mut line = Line::new();
    put(&mut line, b"fault script ");
    put(&mut line, number.format(wrong).as_bytes());
    put(&mut line, b"\n");
    line
}

/// The line that reports at which depth a task is pending that can't be saved.
pub(crate) fn nested_line(depth: u8) -> Line
    ensures { result.items ≡ nested_line depth }
{
    let mut number = Buffer::new();
    let mut line = Line::new();
    put(&mut line, b"fault nested ");
    put(&mut line, number.format(depth).as_bytes());
    put(&mut line, b"\n");
    line
}

/// The line that reports how many tasks are pending, which are too many to be saved.
pub(crate) fn tasks_line(count: u32) -> Line
    ensures { result.items ≡ tasks_line count }
{
    let mut number = Buffer::new();
    let mut line = Line::new();
    put(&mut line, b"fault tasks ");
    put(&mut line, number.format(count).as_bytes());
    put(&mut line, b"\n");
    line
}

/// The line that accepts a report of so many entries.
pub(crate) fn accept_line(entries: u64) -> Line
    ensures { result.items ≡ accepted_line entries }
{
    let mut number = Buffer::new();
    let mut line = Line::new();
    put(&mut line, b"check ok ");
    put(&mut line, number.format(entries).as_bytes());
    put(&mut line, b"\n");
    line
}

#[tactic(auto, unfolding(crate::specs::Texts::load_word))]
fn load_word(load: Load) -> &'static [u8]
    ensures text { result.now ≡ load_word load }
    ensures short { length result.now ≤ 4 }
{
    match load {
        Load::Walk => b"walk",
        Load::Nest => b"nest",
    }
}

/// The line that names the generated image.
pub(crate) fn load_line(which: Loading) -> Line
    ensures { result.items ≡ load_line which.load which.seed which.size }
{
    let mut seed = Buffer::new();
    let mut size = Buffer::new();
    let mut line = Line::new();
    put(&mut line, b"load ");
    put(&mut line, load_word(which.load));
    put(&mut line, b" ");
    put(&mut line, seed.format(which.seed).as_bytes());
    put(&mut line, b" ");
    put(&mut line, size.format(which.size).as_bytes());
    put(&mut line, b"\n");
    line
}

/// The line that reports how many tasks committed.
pub(crate) fn commits_line(commits: u64) -> Line
    ensures { result.items ≡ commits_line commits }
{
    let mut number = Buffer::new();
    let mut line = Line::new();
    put(&mut line, b"commits ");
    put(&mut line, number.format(commits).as_bytes());
    put(&mut line, b"\n");
    line
}
