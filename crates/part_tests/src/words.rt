//! Worked words of a command line, and words that are refused.

use crate::spec_state::{FilterKind, Settings};
use command_line::{Command, Refusal, Request, read_words};
use load_gen::Load;
use std::alloc::{AllocError, Global};
use std::test::Fail;

const DEFAULTS: Settings = Settings {
    tiles: 4,
    cores: 2,
    task_queue: 64,
    commit_queue: 16,
    line: 16,
    quantum: 64,
    workers: 0,
    commits: 1_000_000,
    budget: 65_536,
    phase: 1_000_000,
    filter: FilterKind::Modulo,
};

const TWO_COMMITS: Settings = Settings {
    commits: 2,
    ..DEFAULTS
};

const SMALL: Settings = Settings {
    tiles: 1,
    cores: 2,
    commit_queue: 1,
    ..DEFAULTS
};

const OTHERS: Settings = Settings {
    tiles: 16,
    cores: 4,
    task_queue: 256,
    commit_queue: 64,
    line: 64,
    quantum: 1024,
    workers: 16,
    commits: 1,
    budget: 1,
    phase: 1,
    filter: FilterKind::Modulo,
};

const EIGHT_WORKERS: Settings = Settings {
    tiles: 8,
    workers: 8,
    ..DEFAULTS
};

const WALK: Command = Command::Load {
    load: Load::Walk,
    seed: 7,
    size: 20_000,
};

const NEST: Command = Command::Load {
    load: Load::Nest,
    seed: 0,
    size: 8,
};

const GREATEST: Command = Command::Load {
    load: Load::Walk,
    seed: 4_294_967_295,
    size: 100_000,
};

/// The words of a line, separated by spaces.
fn words_of(alloc: Global, line: &str) -> Result<Vec<&str>, AllocError> {
    let mut words = Vec::new(alloc);
    for word in line.split(' ').filter(|word| !word.is_empty()) {
        words.push(word)?;
    }
    Ok(words)
}

/// A line, with its command and its settings: options stand anywhere behind the command, in both spellings.
static ACCEPTED: [(&str, Command, Settings); 11] = [
    ("run", Command::Run, DEFAULTS),
    ("run --commits 2", Command::Run, TWO_COMMITS),
    ("save --commits 2", Command::Save, TWO_COMMITS),
    ("check --commits=0000000002", Command::Check, TWO_COMMITS),
    (
        "steps --commit-queue=1 --tiles 1 --cores=2",
        Command::Steps,
        SMALL,
    ),
    ("trace --tiles=1 --commit-queue 1", Command::Trace, SMALL),
    (
        "run --tiles 16 --cores 4 --task-queue 256 --commit-queue 64 --line 64 --quantum 1024 \
        --workers 16 --commits 1 --budget 1 --phase 1",
        Command::Run,
        OTHERS,
    ),
    (
        "load walk 7 20000 --tiles 8 --workers 8",
        WALK,
        EIGHT_WORKERS,
    ),
    (
        "load --tiles 8 walk --workers=8 7 20000",
        WALK,
        EIGHT_WORKERS,
    ),
    ("load nest 0 8", NEST, DEFAULTS),
    ("load walk 4294967295 100000", GREATEST, DEFAULTS),
];

fn asks_for(read: &Result<Request, Refusal>, command: &Command, settings: &Settings) -> bool {
    match read {
        Ok(request) => request.command == *command && request.settings == *settings,
        Err(_) => false,
    }
}

#[test]
fn options_stand_behind_the_command_in_both_spellings(rt: HostRuntime) -> Result<(), Fail> {
    for (line, command, settings) in &ACCEPTED {
        let words = words_of(rt.alloc(), line)?;
        let read = read_words(rt.alloc(), &words);
        assert!(rt; asks_for(&read, command, settings), "{line}");
    }
    Ok(())
}

static REFUSED: [&str; 31] = [
    "",
    "walk",
    "--tiles 2 run",
    "run --tiles 17",
    "run --tiles 0",
    "run --tiles 2 --tiles 2",
    "run --",
    "run --tiles --",
    "run -- --tiles 2",
    "run --tiles",
    "run --tiles=",
    "run --tiles --cores 2",
    "run --tiles -2",
    "run --tiles +2",
    "run --tiles 00000000002",
    "run --task-queue 3",
    "run --line 12",
    "run --quantum 1025",
    "run --tile 2",
    "run --help",
    "run --version",
    "run -h",
    "run twice",
    "trace twice",
    "load walk 7",
    "load walk 7 20 1",
    "load hop 7 20",
    "load walk 4294967296 20",
    "load walk 7 100001",
    "load nest 7 10001",
    "load walk 7 0",
];

#[test]
fn words_outside_the_grammar_are_refused(rt: HostRuntime) -> Result<(), Fail> {
    for line in &REFUSED {
        let words = words_of(rt.alloc(), line)?;
        let read = read_words(rt.alloc(), &words);
        assert!(rt; matches!(read, Err(Refusal::Usage)), "{line}");
    }
    Ok(())
}
