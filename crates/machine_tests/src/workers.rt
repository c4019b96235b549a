//! Workers that run a book to its end: their shares, their gates, and a reader that follows them.

ghost use Rattle.std.specs.Prelude.{◌≡◌, ◌≤◌, ◌^◌, ◌∷◌, [], IfOk};
ghost use Rattle.progress_cell.specs.Readings.{opening_reading};
ghost use Rattle.machine_run.specs.conflict_book.BookViews.{events_made, machine_view};
ghost use Rattle.machine_run.specs.tile_worker.Readings.{HasTold};
ghost use Rattle.machine_run.specs.spec_state.Settings.{IsValid};

use crate::conflict_book::{Book, Halt};
use crate::machines::{ENDERS, Hinted, TWO_TILES, image_of, opening_book};
use crate::serial_machine::End;
use crate::tile_worker::{
    Drained, Gate, OpenGate, Watched, opening_is_reading, run_tiles, run_watched,
};
use guest_image::Image;
use load_gen::{Load, make};
use place_policy::{ByHint, Placer};
use progress_cell::{Board, Reader, Reading, Writer};
use rv_core::Naming;
use spec_state::Settings;
use std::alloc::{Alloc, Global};
use std::marker::Brand;
use std::process::Abort;
use std::sync::Wait;
use std::sync::atomic::{AtomicU64, Ordering};
use std::test::Fail;
use std::thread::{Threads, join, yield_now};
use trace_tap::{LastN, Tap};

/// How many readings a reader takes once it has seen a commit.
const ROUNDS: u32 = 1_000;

/// How many readings a reader takes at most until it has seen a commit, so that a test ends whatever happens.
const MOST_READINGS: u32 = 50_000_000;

/// How often a worker looks for the reader at its first leg; at each later one as often once more.
const LOOKS: u64 = 1_000;

/// From this leg on it looks as often at each.
const LAST_LONGER: u64 = 50;

/// Four tiles of two cores.
const FOUR_TILES: Settings = Settings {
    tiles: 4,
    cores: 2,
    ..TWO_TILES
};

/// A gate that keeps the number of each of two workers' last leg, and notes where one isn't the next number.
#[derive(Drop)]
struct CountingGate {
    first: AtomicU64,
    second: AtomicU64,
    gaps: AtomicU64,
}

impl CountingGate {
    /// A gate that no leg has passed.
    fn new() -> CountingGate {
        CountingGate {
            first: AtomicU64::new(0),
            second: AtomicU64::new(0),
            gaps: AtomicU64::new(0),
        }
    }

    /// The number of the last leg of the worker that made more of them.
    fn greatest(&self) -> u64 {
        let first = self.first.load(Ordering::SeqCst);
        let second = self.second.load(Ordering::SeqCst);
        first.max(second)
    }
}

impl Gate for CountingGate {
    fn pass(&self, worker: u32, leg: u64) {
        let last = if worker == 0 {
            &self.first
        } else {
            &self.second
        };
        if leg != last.swap(leg, Ordering::SeqCst).saturating_add(1) {
            self.gaps.store(1, Ordering::SeqCst);
        }
    }
}

/// A gate at which a worker waits for a reader that has seen a commit, the longer the more legs the worker had: before
/// the first commit that is in vain. It notes whether a worker passed after the reader had seen one.
#[derive(Drop)]
struct SeenGate {
    seen: AtomicU64,
    passed: AtomicU64,
}

impl SeenGate {
    /// A gate of a run that hasn't begun.
    fn new() -> SeenGate {
        SeenGate {
            seen: AtomicU64::new(0),
            passed: AtomicU64::new(0),
        }
    }

    /// The reader has seen a commit.
    fn note_seen(&self) {
        self.seen.store(1, Ordering::SeqCst);
    }

    /// Whether a worker passed after the reader had seen a commit.
    fn was_passed(&self) -> bool {
        self.passed.load(Ordering::SeqCst) != 0
    }
}

impl Gate for SeenGate {
    fn pass(&self, _worker: u32, leg: u64) {
        for _ in 0..leg.min(LAST_LONGER).saturating_mul(LOOKS) {
            if self.seen.load(Ordering::SeqCst) != 0 {
                self.passed.store(1, Ordering::SeqCst);
                return;
            }
            yield_now();
        }
    }
}

/// The book of an image before its first event, without taps.
fn book_of<N: Naming>(alloc: Global, image: &Image, settings: Settings) -> Result<Hinted<N>, Fail>
    requires valid { IsValid settings }
    requires image { image.now ≡ N.image }
    requires budget { settings.budget ≡ N.budget }
    requires commits { settings.commits ≡ N.commits }
{
    Ok(opening_book(alloc, image, settings, Vec::new(alloc))?)
}

/// The sum of the workers' shares.
fn sum_of(shares: &[u64]) -> u64 {
    let mut sum = 0u64;
    for share in shares {
        sum = sum.wrapping_add(*share);
    }
    sum
}

/// The run ended with so many commits.
fn ended_with(rt: &impl Abort, halt: &Halt, made: usize, commits: usize) {
    assert!(rt; matches!(halt, Halt::Ended(End::Normal)));
    assert_eq!(rt; made, commits);
}

/// The workers' shares are the book's events.
fn are_shares(rt: &impl Abort, shares: &[u64], steps: u64) {
    assert_eq!(rt; sum_of(shares), steps);
}

/// The run ended with so many commits, and the workers' shares are the book's events.
fn is_drained<N: Naming>(rt: &impl Abort, drained: Drained<N, ByHint, LastN>, commits: usize) {
    let Drained { book, shares, halt } = drained;
    ended_with(rt, &halt, book.history().len(), commits);
    are_shares(rt, shares.as_slice(), book.steps());
    let _closed = book.close();
}

/// So many workers end the run with so many commits.
fn run_by<N: Naming + Send + Sync, G: Gate + Sync>(
    rt: &(impl Abort + Alloc<A = Global> + Threads + Wait + Sync),
    image: &Image,
    settings: Settings,
    workers: u32,
    gate: &G,
    commits: usize,
) -> Result<(), Fail>
    requires valid { IsValid settings }
    requires image { image.now ≡ N.image }
    requires budget { settings.budget ≡ N.budget }
    requires commits { settings.commits ≡ N.commits }
    requires workers { (1 ≤ workers) × (workers ≤ 16) }
{
    let book = book_of::<N>(rt.alloc(), image, settings)?;
    assert!(rt; book.steps() == 0);
    let drained = run_tiles(rt, image, book, workers, gate);
    is_drained(rt, drained, commits);
    Ok(())
}

#[test]
fn two_workers_end_a_run(rt: HostRuntime) -> Result<(), Fail> {
    let image = image_of(rt.alloc(), &ENDERS)?;
    run_by::<Brand, OpenGate>(&rt, &image, TWO_TILES, 2, &OpenGate, 2)
}

#[test]
fn more_workers_than_tiles_end_a_run(rt: HostRuntime) -> Result<(), Fail> {
    let image = image_of(rt.alloc(), &ENDERS)?;
    run_by::<Brand, OpenGate>(&rt, &image, TWO_TILES, 16, &OpenGate, 2)
}

#[test]
fn legs_of_each_worker_are_numbered_without_a_gap(rt: HostRuntime) -> Result<(), Fail> {
    let image = make(rt.alloc(), Load::Walk, 7, 200)?;
    let gate = CountingGate::new();
    run_by::<Brand, CountingGate>(&rt, &image, FOUR_TILES, 2, &gate, 400)?;
    assert_eq!(rt; gate.gaps.load(Ordering::SeqCst), 0);
    assert!(rt; gate.greatest() > 1);
    Ok(())
}

/// Reads until a reading has a commit, and lets the workers know.
fn await_commit<R: Wait>(rt: &R, board: &Board, mut reader: Reader, gate: &SeenGate) -> Reader
    requires { reader.board ≡ board.now }
    ensures { result.board ≡ board.now }
{
    for _ in 0..MOST_READINGS {
        if board.read(rt, &mut reader).commits > 0 {
            gate.note_seen();
            return reader;
        }
        yield_now();
    }
    reader
}

/// Reads as many times as there are rounds, and returns the most commits and the most output that it saw.
fn follow<R: Wait>(rt: &R, board: &Board, mut reader: Reader) -> (Reader, Reading)
    requires { reader.board ≡ board.now }
    ensures { result.0.board ≡ board.now }
{
    let mut most = Reading {
        commits: 0,
        output: 0,
    };
    for _ in 0..ROUNDS {
        let seen = board.read(rt, &mut reader);
        most.commits = most.commits.max(seen.commits);
        most.output = most.output.max(seen.output);
    }
    (reader, most)
}

/// So many workers run a book, while a reader follows it in a thread of its own.
fn watch<N: Naming + Send + Sync, P: Placer + Send, T: Tap + Send, R: Threads + Wait + Sync>(
    rt: &R,
    image: &Image,
    book: Book<N, P, T>,
    workers: u32,
    board: &Board,
    writer: Writer,
    reader: Reader,
    gate: &SeenGate,
) -> (Watched<N, P, T>, (Reader, Reading))
    requires image { image.now ≡ N.image }
    requires workers { (1 ≤ workers) × (workers ≤ 16) }
    requires steps { events_made book ≤ 2 ^ 63 }
    requires told { HasTold N.image N.budget board.now (machine_view book) writer }
    requires reader { reader.board ≡ board.now }
    ensures belongs { result.0.writer.board ≡ board.now }
    ensures reader { result.1.0.board ≡ board.now }
{
    join(
        rt,
        move || -> Watched<N, P, T>
            requires { (image.now ≡ N.image) × ((1 ≤ workers) × (workers ≤ 16))
                × ((events_made book) ≤ 2 ^ 63)
                × HasTold N.image N.budget board.now (machine_view book) writer }
            ensures { result.writer.board ≡ board.entry.now }
        { run_watched(rt, image, book, workers, gate, board, writer) },
        move || -> (Reader, Reading)
            requires { reader.board ≡ board.now }
            ensures { result.0.board ≡ board.entry.now }
        { follow(rt, board, await_commit(rt, board, reader, gate)) },
    )
}

/// A book has so many commits and no output, and its writer published that last.
fn is_told(rt: &impl Abort, counts: Reading, last: Reading, commits: u32) {
    assert_eq!(rt; counts, last);
    assert_eq!(rt; last.commits, commits);
    assert_eq!(rt; last.output, 0);
}

/// So many workers end the run of a new book with so many commits and no output, and no reading of a reader that
/// follows them is above that.
fn watch_by<N: Naming + Send + Sync>(
    rt: &(impl Abort + Threads + Wait + Sync),
    image: &Image,
    book: Hinted<N>,
    workers: u32,
    commits: u32,
    board: &Board,
    writer: Writer,
    reader: Reader,
    gate: &SeenGate,
) -> (Writer, Reader)
    requires image { image.now ≡ N.image }
    requires workers { (1 ≤ workers) × (workers ≤ 16) }
    requires told { writer.told ≡ opening_reading ∷ [] }
    requires belongs { writer.board ≡ board.now }
    requires reader { reader.board ≡ board.now }
    ensures belongs { result.0.board ≡ board.now }
    ensures reader { result.1.board ≡ board.now }
{
    opening_is_reading();
    assert!(rt; book.steps() == 0 && book.counts() == writer.last());
    let (watched, (reader, most)) = watch(rt, image, book, workers, board, writer, reader, gate);
    let Watched { drained, writer } = watched;
    let Drained {
        book,
        shares: _shares,
        halt,
    } = drained;
    assert!(rt; matches!(halt, Halt::Ended(End::Normal)));
    is_told(rt, book.counts(), writer.last(), commits);
    let _closed = book.close();
    assert!(rt; most.commits <= commits && most.output == 0);
    (writer, reader)
}

/// A board is followed during a whole run.
fn watch_whole<N: Naming + Send + Sync>(
    rt: &(impl Abort + Alloc<A = Global> + Threads + Wait + Sync),
    image: &Image,
    settings: Settings,
    workers: u32,
    commits: u32,
    gate: &SeenGate,
) -> Result<(), Fail>
    requires valid { IsValid settings }
    requires image { image.now ≡ N.image }
    requires budget { settings.budget ≡ N.budget }
    requires commits { settings.commits ≡ N.commits }
    requires workers { (1 ≤ workers) × (workers ≤ 16) }
{
    let (board, mut writer) = Board::new(rt.alloc())?;
    let book = book_of::<N>(rt.alloc(), image, settings)?;
    let reader = board.reader(&mut writer);
    let (mut writer, reader) = watch_by(
        rt, image, book, workers, commits, &board, writer, reader, gate,
    );
    board.join(rt, &mut writer, reader);
    Ok(())
}

#[test]
fn a_reader_follows_two_workers(rt: HostRuntime) -> Result<(), Fail> {
    let image = image_of(rt.alloc(), &ENDERS)?;
    watch_whole::<Brand>(&rt, &image, TWO_TILES, 2, 2, &SeenGate::new())
}

#[test]
fn a_reader_sees_a_commit_of_workers_while_they_run(rt: HostRuntime) -> Result<(), Fail> {
    let image = make(rt.alloc(), Load::Walk, 7, 200)?;
    let gate = SeenGate::new();
    watch_whole::<Brand>(&rt, &image, FOUR_TILES, 2, 400, &gate)?;
    assert!(rt; gate.was_passed());
    Ok(())
}

#[test]
fn an_open_gate_lets_all_pass(_rt: HostRuntime) {
    OpenGate.pass(0, 1);
}
