//! Plays lockstep rounds on a generated walk with one placer for the whole run, and prints what that took: a row of CSV
//! for each word, which is `hint`, `least` or `turns`, and each number of tiles. All other settings are the defaults.
//!
//! It shows what a caller writes to hand in a placer. It stands on the book, on placers, taps and generated images;
//! docs/machine/STUDY.md has what it prints. A row costs one run of 500 commits.
#![tactic(auto)]

ghost use Rattle.std.specs.Prelude.{◌≡◌, IsTrue};
ghost use Rattle.conflict_book.specs.spec_state.Settings.{IsValid};
ghost use Rattle.conflict_book.specs.Ranges.{IsInRange};

use conflict_book::event_step::event_prelude::event_def::spec_state::{FilterKind, Settings};
use conflict_book::{Applied, Book, Event, Reply};
use guest_image::Image;
use load_gen::{Load, make};
use place_policy::{ByHint, LeastLoaded, Placer, RoundRobin};
use rv_core::{Naming, run_leg};
use std::alloc::{AllocError, Global};
use std::marker::Brand;
use std::{env, io};
use trace_tap::LineProfile;

/// The settings of a run that no option changes; a row has tiles of its own.
const DEFAULTS: Settings = Settings {
    tiles: 4,
    cores: 2,
    task_queue: 64,
    commit_queue: 16,
    line: 16,
    quantum: 64,
    workers: 0,
    commits: 1_000_000,
    budget: 65_536,
    phase: 1_000_000,
    filter: FilterKind::Modulo,
};

/// How many tiles the machine has, a row each.
static TILES: [u32; 3] = [1, 4, 16];

/// A run that isn't over after so many rounds is left.
const MOST_ROUNDS: u32 = 10_000;

fn main(rt: HostRuntime) -> io::Result<()> {
    // A small walk, since CI runs it twice.
    let image = make(rt.alloc(), Load::Walk, 7, 250)?;
    println!(rt; "placer,tiles,rounds,acts,commits,taken back,by loads and stores,stalls")?;
    for word in env::args(&rt)? {
        for tiles in &TILES {
            let settings = Settings {
                tiles: *tiles,
                ..DEFAULTS
            };
            if settings.valid() {
                print_rows(&rt, &image, word.as_str(), settings)?;
            }
        }
    }
    Ok(())
}

/// Prints the row of the placer that a word names, if it names one.
fn print_rows(rt: &HostRuntime, image: &Image, word: &str, settings: Settings) -> io::Result<()>
    requires { IsValid settings }
{
    match word {
        "hint" => print_row(rt, image, "hint", settings, ByHint::new()),
        "least" => print_row(rt, image, "least", settings, LeastLoaded::new()),
        "turns" => print_row(rt, image, "turns", settings, RoundRobin::new()),
        _ => Ok(()),
    }
}

/// Plays a run with this placer, and prints its row.
fn print_row<P: Placer>(
    rt: &HostRuntime,
    image: &Image,
    name: &str,
    settings: Settings,
    placer: P,
) -> io::Result<()>
    requires { IsValid settings }
{
    let row = row_of_play::<Brand, P>(rt.alloc(), image, settings, placer)?;
    print_counts(rt, name, settings.tiles, &row)
}

/// Prints a row.
fn print_counts(rt: &HostRuntime, name: &str, tiles: u32, row: &Row) -> io::Result<()> {
    let Counts {
        rounds,
        acts,
        stalls,
        taken_back,
    } = row.counts;
    let (commits, by_access) = (row.commits, row.by_access);
    println!(rt; "{name},{tiles},{rounds},{acts},{commits},{taken_back},{by_access},{stalls}")
}

/// What a row prints of a run.
#[derive(Clone, Copy)]
struct Row {
    counts: Counts,
    commits: usize,
    by_access: u64,
}

/// Plays rounds on an image until the run is over, at most `MOST_ROUNDS`, and counts.
fn row_of_play<N: Naming, P: Placer>(
    alloc: Global,
    image: &Image,
    settings: Settings,
    placer: P,
) -> Result<Row, AllocError>
    requires valid { IsValid settings }
    requires image { image.now ≡ N.image }
    requires budget { settings.budget ≡ N.budget }
    requires commits { settings.commits ≡ N.commits }
{
    let book = opening_book::<N, P>(alloc, image, settings, placer)?;
    Ok(played(image, book, settings.tiles, settings.cores))
}

/// Plays rounds on a book, and reports them. It closes the book, since a drop of one whose placer is any type costs the
/// prover half a minute.
fn played<N: Naming, P: Placer>(
    image: &Image,
    book: Book<N, P, LineProfile>,
    tiles: u32,
    cores: u32,
) -> Row
    requires { image.now ≡ N.image }
{
    let Play { book, counts } = whole_play(image, book, tiles, cores);
    let by_access = by_access(&book);
    let closed = book.close();
    Row {
        counts,
        commits: closed.journal.as_slice().len(),
        by_access,
    }
}

/// How many tasks a load or a store aborted, by the tap's two numbers: of the first line and of all others.
fn by_access<N: Naming, P: Placer>(book: &Book<N, P, LineProfile>) -> u64 {
    let first = book.tap_at(0, 0).unwrap_or(0);
    first.saturating_add(book.tap_at(0, 1).unwrap_or(0))
}

/// What was counted of a run: rounds; acts up to the end, and those that a full queue refused; tasks that were taken
/// back.
#[derive(Clone, Copy)]
struct Counts {
    rounds: u64,
    acts: u64,
    stalls: u64,
    taken_back: u64,
}

/// Nothing was counted yet.
const NO_COUNTS: Counts = Counts {
    rounds: 0,
    acts: 0,
    stalls: 0,
    taken_back: 0,
};

/// Counts the outcome of an event.
fn count_answer(counts: &mut Counts, applied: &Applied) {
    count(&mut counts.acts);
    counts.taken_back = counts.taken_back.saturating_add(u64::from(applied.aborted));
    if applied.reply == Reply::Stall {
        count(&mut counts.stalls);
    }
}

/// A book, and what was counted of its run.
#[derive(Drop)]
struct Play<N: Naming, P: Placer> {
    book: Book<N, P, LineProfile>,
    counts: Counts,
}

/// One placer, in a list as a book takes it.
fn one_placer<P: Placer>(alloc: Global, placer: P) -> Result<Vec<P>, AllocError> {
    let mut placers = Vec::new(alloc);
    placers.push(placer)?;
    Ok(placers)
}

/// One tap, in a list as a book takes it.
fn one_tap(alloc: Global) -> Result<Vec<LineProfile>, AllocError> {
    let tap = LineProfile::new(alloc, 1)?;
    let mut taps = Vec::new(alloc);
    taps.push(tap)?;
    Ok(taps)
}

/// A book of this placer before its first event.
fn opening_book<N: Naming, P: Placer>(
    alloc: Global,
    image: &Image,
    settings: Settings,
    placer: P,
) -> Result<Book<N, P, LineProfile>, AllocError>
    requires valid { IsValid settings }
    requires image { image.now ≡ N.image }
    requires budget { settings.budget ≡ N.budget }
    requires commits { settings.commits ≡ N.commits }
{
    let placers = one_placer(alloc, placer)?;
    let taps = one_tap(alloc)?;
    Book::begin(alloc, image, settings, placers, taps)
}

/// Plays rounds on an image until the run is over, at most `MOST_ROUNDS`.
fn whole_play<N: Naming, P: Placer>(
    image: &Image,
    book: Book<N, P, LineProfile>,
    tiles: u32,
    cores: u32,
) -> Play<N, P>
    requires { image.now ≡ N.image }
{
    let mut play = Play {
        book,
        counts: NO_COUNTS,
    };
    for _round in 0..MOST_ROUNDS {
        play.next_round(image, tiles, cores);
    }
    play
}

impl<N: Naming, P: Placer> Play<N, P> {
    /// Plays one more round, if the run isn't over.
    fn next_round(&mut self, image: &Image, tiles: u32, cores: u32)
        requires { image.now ≡ N.image }
    {
        if self.book.end().is_none() {
            count(&mut self.counts.rounds);
            self.round(image, tiles, cores);
        }
    }

    /// Tile after tile dispatches, and each of its cores that runs a task makes a step; then come a commit for each
    /// tile and a split of each.
    fn round(&mut self, image: &Image, tiles: u32, cores: u32)
        requires { image.now ≡ N.image }
    {
        for tile in 0..tiles {
            self.ask(Event::Dispatch { tile });
            for core in 0..cores {
                self.step(image, tile, core);
            }
        }
        for _tile in 0..tiles {
            self.ask(Event::Commit);
        }
        for tile in 0..tiles {
            self.ask(Event::Split { tile });
        }
    }

    /// Asks a core for the next leg of its task; where there is none, that is an act that is refused.
    fn step(&mut self, image: &Image, tile: u32, core: u32)
        requires { image.now ≡ N.image }
    {
        let (quantum, budget) = (self.book.settings().quantum, self.book.settings().budget);
        if let Some(from) = self.book.core_at(tile, core) {
            let leg = run_leg(image, from, quantum, budget);
            self.ask(Event::Step { tile, core, leg });
        } else if self.book.end().is_none() {
            count(&mut self.counts.acts);
        }
    }

    /// Asks for an event, if the machine has its tile and core and the run isn't over, and counts its outcome. Each
    /// time it looks anew, so that no loop has to keep that the settings stay.
    fn ask(&mut self, event: Event<N>) {
        if is_there(self.book.settings(), &event) && self.book.end().is_none() {
            let applied = self.book.apply(event);
            count_answer(&mut self.counts, &applied);
        }
    }
}

/// Whether the tile and the core of an event are there.
fn is_there<N: Naming>(settings: &Settings, event: &Event<N>) -> bool
    ensures { IsTrue result → IsInRange settings.now event.now }
{
    match event {
        Event::Step { tile, core, .. } => *tile < settings.tiles && *core < settings.cores,
        Event::Commit => true,
        Event::Dispatch { tile }
        | Event::Abort { tile }
        | Event::Coalesce { tile }
        | Event::Split { tile } => *tile < settings.tiles,
    }
}

fn count(number: &mut u64) {
    *number = number.saturating_add(1);
}
