//! Words split by `clap`.

ghost use Rattle.std.specs.Prelude.{◌≡◌, ◌≢◌, map, IfOk, None, false};
ghost use Rattle.std.specs.List.{list_any};
ghost use Rattle.clap.specs.Words.{app_of, found_of, kind_of, rule_of};
ghost use Rattle.command_line.specs.App.{IsSplit, command_app, option_rule, plain_app, with_limits, with_places};
ghost use Rattle.command_line.specs.App.{with_sizes};
ghost use Rattle.command_line.specs.Reading.{word_with_dash, given_in, is_stray, word_of};

use crate::request::Refusal;
use clap::error::ErrorKind;
use clap::{Arg, ArgMatches, Command, Error};
use std::alloc::{AllocError, Global};

/// What the words behind the command give, name by name.
pub(crate) fn split<'a>(alloc: Global, words: &'a [&'a str]) -> Result<ArgMatches<'a>, Refusal>
    ensures ok { IfOk result (λ m. IsSplit (map (λ w. w.now) words.entry.now) (found_of m)) }
    ensures usage { result ≡ Err Refusal.Usage → given_in (map (λ w. w.now) words.entry.now) ≡ None }
{
    // `clap` would take what follows `--` for further arguments.
    if has_stray(words) {
        return Err(Refusal::Usage);
    }
    let Ok(command) = command(alloc) else {
        return Err(Refusal::Memory);
    };
    match command.try_get_matches_from(words) {
        Ok(matches) => Ok(matches),
        Err(error) => Err(refusal_of(&error)),
    }
}

fn refusal_of(error: &Error) -> Refusal
    ensures { result ≡ Refusal.Usage → kind_of error.now ≢ ErrorKind.OutOfMemory }
{
    if error.kind() == ErrorKind::OutOfMemory {
        Refusal::Memory
    } else {
        Refusal::Usage
    }
}

fn has_stray(words: &[&str]) -> bool
    ensures { result ≡ list_any (λ w. is_stray (word_of w.now)) words.now }
{
    words.iter().any(|word| is_stray(word.as_bytes()))
}

/// Whether a word begins with a dash and is neither a dash alone nor an option: no option has a short name.
fn is_stray(word: &[u8]) -> bool
    ensures { result ≡ is_stray (word_of word.now) }
{
    match word.split_first() {
        Some((first, behind)) => *first == b'-' && is_stray_behind(behind),
        None => false,
    }
}

fn is_stray_behind(word: &[u8]) -> bool
    ensures { result ≡ is_stray (word_with_dash word.now) }
{
    match word.split_first() {
        Some((second, name)) => *second != b'-' || name.is_empty(),
        None => false,
    }
}

fn command<'a>(alloc: Global) -> Result<Command<'a>, AllocError>
    ensures { IfOk result (λ c. app_of c ≡ command_app) }
{
    let sized = with_sizes(alloc, plain(alloc))?;
    let limited = with_limits(alloc, sized)?;
    with_places(alloc, limited)
}

#[tactic(auto, unfolding(crate::specs::App::plain_app))]
fn plain<'a>(alloc: Global) -> Command<'a>
    ensures { app_of result ≡ plain_app }
{
    Command::new(alloc, "fractal_sim")
        .no_binary_name(true)
        .disable_help_flag(true)
        .disable_version_flag(true)
}

fn with_sizes<'a>(alloc: Global, command: Command<'a>) -> Result<Command<'a>, AllocError>
    ensures { IfOk result (λ c. app_of c ≡ with_sizes (app_of command.entry)) }
{
    command
        .arg(option(alloc, "tiles"))?
        .arg(option(alloc, "cores"))?
        .arg(option(alloc, "task-queue"))?
        .arg(option(alloc, "commit-queue"))?
        .arg(option(alloc, "line"))
}

fn with_limits<'a>(alloc: Global, command: Command<'a>) -> Result<Command<'a>, AllocError>
    ensures { IfOk result (λ c. app_of c ≡ with_limits (app_of command.entry)) }
{
    command
        .arg(option(alloc, "quantum"))?
        .arg(option(alloc, "workers"))?
        .arg(option(alloc, "commits"))?
        .arg(option(alloc, "budget"))?
        .arg(option(alloc, "phase"))
}

fn with_places<'a>(alloc: Global, command: Command<'a>) -> Result<Command<'a>, AllocError>
    ensures { IfOk result (λ c. app_of c ≡ with_places (app_of command.entry)) }
{
    command
        .arg(Arg::new(alloc, "kind"))?
        .arg(Arg::new(alloc, "seed"))?
        .arg(Arg::new(alloc, "size"))
}

fn option<'a>(alloc: Global, name: &'a str) -> Arg<'a>
    ensures rule { rule_of result ≡ option_rule name.entry.now }
    ensures own { result.global ≡ false }
{
    Arg::new(alloc, name).long(name)
}
