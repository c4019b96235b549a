//! The first line of an event log: what is printed, of which mode, on which machine, and of which image.

ghost use Rattle.std.specs.Prelude.{◌≡◌, ◌++◌, OnOk};
ghost use Rattle.std.specs.String.{string_bytes};
ghost use Rattle.watch_text.specs.Fields.{window_field};
ghost use Rattle.watch_text.specs.Opening.{bounds_text, contents_text, course_text, filter_text, head_line, image_text};
ghost use Rattle.watch_text.specs.Opening.{limits_text, rounds_text, settings_text, sizes_text};

use crate::fields::{put_number, put_word};
use crate::spec_state::Settings;
use crate::words::{filter_word, kind_word};
use guest_image::Image;
use line_table::FilterKind;
use std::alloc::AllocError;
use std::fmt::Write;

/// Which acts are made.
#[derive(Clone, Copy, Debug, PartialEq, Eq)]
pub enum CourseWord {
    /// Those of a script.
    Steps,
    /// Those that advance the least task, up to the end of the run.
    Least,
    /// In each round every tile dispatches, every running core makes a step, tasks commit and come back; after many
    /// starved rounds in a row, a round advances the least task until it is dispatched.
    Lockstep {
        /// How many rounds: 1 to 1,000,000.
        rounds: u32,
        /// What the order of a round is drawn from; 0 leaves it as it is.
        seed: u32,
        /// After how many starved rounds in a row the least task is advanced: 1 to 1,000,000.
        starved: u32,
    },
}

/// How many rounds, what their orders are drawn from, and how many may be starved.
fn put_rounds(line: &mut String, rounds: u32, seed: u32, starved: u32) -> Result<(), AllocError>
    ensures { OnOk result (string_bytes line.new ≡ string_bytes line.old ++ rounds_text rounds seed starved) }
{
    put_number(line, "rounds", u64::from(rounds))?;
    put_number(line, "seed", u64::from(seed))?;
    put_number(line, "starved", u64::from(starved))
}

fn put_course(line: &mut String, course: CourseWord) -> Result<(), AllocError>
    ensures { OnOk result (string_bytes line.new ≡ string_bytes line.old ++ course_text course) }
{
    match course {
        CourseWord::Steps => put_word(line, "course", "steps"),
        CourseWord::Least => put_word(line, "course", "least"),
        CourseWord::Lockstep {
            rounds,
            seed,
            starved,
        } => {
            put_word(line, "course", "lockstep")?;
            put_rounds(line, rounds, seed, starved)
        }
    }
}

/// How large a tile is, and how many there are.
#[tactic(auto, unfolding(crate::specs::Opening::sizes_text))]
fn put_sizes(line: &mut String, settings: &Settings) -> Result<(), AllocError>
    ensures { OnOk result (string_bytes line.new ≡ string_bytes line.old ++ sizes_text settings.now) }
{
    let (tiles, cores) = (settings.tiles, settings.cores);
    let (tasks, commits) = (settings.task_queue, settings.commit_queue);
    write!(
        line,
        ",\"tiles\":{tiles},\"cores\":{cores},\"task_queue\":{tasks},\"commit_queue\":{commits}"
    )
}

/// How far it runs, and by which numbers.
#[tactic(auto, unfolding(crate::specs::Opening::limits_text))]
fn put_limits(line: &mut String, settings: &Settings) -> Result<(), AllocError>
    ensures { OnOk result (string_bytes line.new ≡ string_bytes line.old ++ limits_text settings.now) }
{
    let (bytes, quantum, phase) = (settings.line, settings.quantum, settings.phase);
    let (commits, budget) = (settings.commits, settings.budget);
    write!(
        line,
        ",\"line\":{bytes},\"quantum\":{quantum},\"commits\":{commits},\"budget\":{budget},\"phase\":{phase}"
    )
}

#[tactic(auto, unfolding(crate::specs::Opening::filter_text))]
fn put_filter(line: &mut String, kind: FilterKind) -> Result<(), AllocError>
    ensures { OnOk result (string_bytes line.new ≡ string_bytes line.old ++ filter_text kind) }
{
    put_word(line, "filter", filter_word(kind))
}

/// Puts the size of a machine, its limits, and the kind of its filters.
#[tactic(auto, unfolding(crate::specs::Opening::settings_text))]
fn put_settings(line: &mut String, settings: &Settings) -> Result<(), AllocError>
    ensures { OnOk result (string_bytes line.new ≡ string_bytes line.old ++ settings_text settings.now) }
{
    put_sizes(line, settings)?;
    put_limits(line, settings)?;
    put_filter(line, settings.filter)
}

/// The kind of the root domain, and how many words of text and bytes of data there are.
#[tactic(auto, unfolding(crate::specs::Opening::contents_text))]
fn put_contents(line: &mut String, image: &Image) -> Result<(), AllocError>
    ensures { OnOk result (string_bytes line.new ≡ string_bytes line.old ++ contents_text image.now) }
{
    put_word(line, "root", kind_word(image.kind()))?;
    put_number(line, "text", image.text().len() as u64)?;
    put_number(line, "data", u64::from(image.data_size()))
}

/// Where a window begins, and how many words it has.
#[tactic(auto, unfolding(crate::specs::Fields::window_field))]
fn put_window(line: &mut String, offset: u32, words: u32) -> Result<(), AllocError>
    ensures { OnOk result (string_bytes line.new ≡ string_bytes line.old ++ window_field offset words) }
{
    write!(line, ",\"window\":[{offset},{words}]")
}

/// The window, and how many tasks there are.
#[tactic(auto, unfolding(crate::specs::Opening::bounds_text))]
fn put_bounds(line: &mut String, image: &Image) -> Result<(), AllocError>
    ensures { OnOk result (string_bytes line.new ≡ string_bytes line.old ++ bounds_text image.now) }
{
    let (offset, words) = image.window();
    put_window(line, offset, words)?;
    put_number(line, "tasks", image.tasks().len() as u64)
}

#[tactic(auto, unfolding(crate::specs::Opening::image_text))]
fn put_image(line: &mut String, image: &Image) -> Result<(), AllocError>
    ensures { OnOk result (string_bytes line.new ≡ string_bytes line.old ++ image_text image.now) }
{
    put_contents(line, image)?;
    put_bounds(line, image)
}

/// Puts the first line: the mode, the settings but for the number of workers, because none run, and the image.
#[tactic(auto, unfolding(crate::specs::Opening::head_line))]
pub fn put_head(
    line: &mut String,
    course: CourseWord,
    settings: &Settings,
    image: &Image,
) -> Result<(), AllocError>
    ensures { OnOk result (string_bytes line.new ≡ string_bytes line.old
        ++ head_line course settings.now image.now) }
{
    write!(line, "{{\"watch\":1")?;
    put_course(line, course)?;
    put_settings(line, settings)?;
    put_image(line, image)?;
    write!(line, "}}\n")
}
