//! Words that are read.

ghost use Rattle.std.specs.Prelude.{◌≡◌, ◌≤◌, map, option_map, IfOk, IfSome, None, Some, if◌then◌else◌};
ghost use Rattle.clap.specs.Words.{first_value, found_of};
ghost use Rattle.spec_state.specs.Settings.{IsLine, IsValid};
ghost use Rattle.command_line.specs.Requests.{HasSize, IsLimited, alone, setting_number, command_by, greatest_size};
ghost use Rattle.command_line.specs.Requests.{load_by, load_of};
ghost use Rattle.command_line.specs.Requests.{number_in, request_by, request_of_words, settings_by};
ghost use Rattle.command_line.specs.Settings.{between, is_line, line as line_setting, setting};
ghost use Rattle.command_line.specs.Reading.{text_in};

use crate::number::{number_between, number_of};
use crate::request::{Command, Refusal, Request};
use crate::splitting::split;
use clap::ArgMatches;
use line_table::FilterKind;
use load_gen::Load;
use spec_state::Settings;
use std::alloc::Global;

/// What the words, without the program's name, ask for. `Usage` where they are outside the grammar.
pub fn read_words(alloc: Global, words: &[&str]) -> Result<Request, Refusal>
    ensures value { IfOk result (λ request. request_of_words (map (λ w. w.now) words.now) ≡ Some request) }
    ensures usage { result ≡ Err Refusal.Usage → request_of_words (map (λ w. w.now) words.now) ≡ None }
    ensures limits { IfOk result IsLimited }
{
    let Some((word, behind)) = words.split_first() else {
        return Err(Refusal::Usage);
    };
    let matches = split(alloc, behind)?;
    match request(word, &matches) {
        Some(request) => Ok(request),
        None => Err(Refusal::Usage),
    }
}

#[tactic(auto, unfolding(crate::specs::Requests::request_by))]
fn request(word: &str, matches: &ArgMatches<'_>) -> Option<Request>
    ensures value { result ≡ request_by word.now (first_value (found_of matches.now)) }
    ensures limits { IfSome result IsLimited }
{
    let command = command(word, matches)?;
    let settings = settings(matches)?;
    Some(Request { command, settings })
}

#[tactic(auto, unfolding(crate::specs::Requests::command_by))]
fn command(word: &str, matches: &ArgMatches<'_>) -> Option<Command>
    ensures value { result ≡ command_by word.now (first_value (found_of matches.now)) }
    ensures size { IfSome result HasSize }
{
    let word = word.as_bytes();
    if word == b"run".as_slice() {
        alone(Command::Run, matches)
    } else if word == b"save".as_slice() {
        alone(Command::Save, matches)
    } else if word == b"steps".as_slice() {
        alone(Command::Steps, matches)
    } else if word == b"trace".as_slice() {
        alone(Command::Trace, matches)
    } else if word == b"check".as_slice() {
        alone(Command::Check, matches)
    } else if word == b"load".as_slice() {
        load(matches)
    } else {
        None
    }
}

/// A command without further words.
fn alone(command: Command, matches: &ArgMatches<'_>) -> Option<Command>
    ensures { result ≡ alone command (first_value (found_of matches.now)) }
{
    match matches.get_str("kind") {
        None => Some(command),
        Some(_) => None,
    }
}

/// `load` with its three further words.
#[tactic(auto, unfolding(crate::specs::Requests::load_by))]
fn load(matches: &ArgMatches<'_>) -> Option<Command>
    ensures value { result ≡ load_by (first_value (found_of matches.now)) }
    ensures size { IfSome result HasSize }
{
    let load = load_of(matches.get_str("kind")?)?;
    let seed = number_between(0, u32::MAX, matches.get_str("seed")?)?;
    let size = number_between(1, greatest_size(load), matches.get_str("size")?)?;
    Some(Command::Load { load, seed, size })
}

fn load_of(text: &str) -> Option<Load>
    ensures { result ≡ load_of text.now }
{
    let text = text.as_bytes();
    if text == b"walk".as_slice() {
        Some(Load::Walk)
    } else if text == b"nest".as_slice() {
        Some(Load::Nest)
    } else {
        None
    }
}

fn greatest_size(load: Load) -> u32
    ensures { result ≡ greatest_size load }
{
    match load {
        Load::Walk => 100_000,
        Load::Nest => 10_000,
    }
}

#[tactic(auto, unfolding(crate::specs::Requests::settings_by))]
fn settings(matches: &ArgMatches<'_>) -> Option<Settings>
    ensures value { result ≡ settings_by (first_value (found_of matches.now)) }
    ensures valid { IfSome result IsValid }
{
    Some(Settings {
        tiles: number(matches, "tiles", 1, 16, 4)?,
        cores: number(matches, "cores", 1, 4, 2)?,
        task_queue: number(matches, "task-queue", 4, 256, 64)?,
        commit_queue: number(matches, "commit-queue", 1, 64, 16)?,
        line: line(matches)?,
        quantum: number(matches, "quantum", 1, 1024, 64)?,
        workers: number(matches, "workers", 0, 16, 0)?,
        commits: number(matches, "commits", 1, 1_000_000, 1_000_000)?,
        budget: number(matches, "budget", 1, 65_536, 65_536)?,
        phase: number(matches, "phase", 1, 1_000_000, 1_000_000)?,
        filter: FilterKind::Modulo,
    })
}

/// How many bytes a line has.
fn line(matches: &ArgMatches<'_>) -> Option<u32>
    ensures value { result ≡ setting_number line_setting (first_value (found_of matches.now)) }
    ensures valid { IfSome result IsLine }
{
    match matches.get_str("line") {
        None => Some(16),
        Some(text) => line_of(number_of(text)?),
    }
}

fn line_of(bytes: u64) -> Option<u32>
    ensures value { result ≡ (if is_line bytes then Some bytes else None) }
    ensures valid { IfSome result IsLine }
{
    match bytes {
        4 | 8 | 16 | 32 | 64 => Some(bytes as u32),
        _ => None,
    }
}

/// The setting of an option, from `least` to `greatest`.
fn number(
    matches: &ArgMatches<'_>,
    name: &str,
    least: u32,
    greatest: u32,
    default: u32,
) -> Option<u32>
    requires least { least ≤ default }
    requires greatest { default ≤ greatest }
    ensures value { let row = setting name.now (between least greatest) default in
        result ≡ setting_number row (first_value (found_of matches.now)) }
    ensures least { IfSome result (λ number. least ≤ number) }
    ensures greatest { IfSome result (λ number. number ≤ greatest) }
{
    match matches.get_str(name) {
        None => Some(default),
        Some(text) => number_between(least, greatest, text),
    }
}
