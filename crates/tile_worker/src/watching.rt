//! Workers run a book to its end, and report on a board how far it has come.

ghost use Rattle.std.specs.Prelude.{◌≡◌, ◌≤◌, ◌+◌, ◌^◌, length, take};
ghost use Rattle.conflict_book.specs.BookViews.{events_made, machine_view};
ghost use Rattle.tile_worker.specs.Halts.{HaltsAt};
ghost use Rattle.tile_worker.specs.Readings.{HasTold};
ghost use Rattle.tile_worker.specs.Runs.{RunsOn};

use crate::crew::Crew;
use crate::fanning::fan;
use crate::followed::{Followable, Followed, FollowedLock, tell};
use crate::gate::Gate;
use crate::running::{Drained, Worked, open_ledger, run_rest, settle};
use crate::tally::Tallied;
use conflict_book::Book;
use guest_image::Image;
use place_policy::Placer;
use progress_cell::{Board, Writer};
use rv_core::Naming;
use std::marker::Brand;
use std::sync::ledger::Blank;
use std::sync::{Mutex, Wait};
use std::thread::Threads;
use trace_tap::Tap;

/// A book that workers ran and reported, and the writer by which they did.
#[derive(Drop)]
pub struct Watched<N: Naming, P: Placer = Box<dyn Placer + Send>, T: Tap = Box<dyn Tap + Send>> {
    /// The book, how many events each worker made, and why the run stopped.
    pub drained: Drained<N, P, T>,
    /// The writer, whose last reading is the book's counts.
    pub writer: Writer,
}

/// Runs the workers on a book, with a ledger that has a part for each of them and one for the events before, and
/// reports each commit.
fn watch_all<
    N: Naming + Send + Sync,
    L: Followable + Send + Sync,
    P: Placer + Send,
    T: Tap + Send,
    G: Gate + Sync,
    R: Threads + Wait + Sync,
>(
    rt: &R,
    blank: Blank,
    crew: &Crew<'_, N, G>,
    book: Book<N, P, T>,
    board: &Board,
    writer: Writer,
) -> (Worked<N, P, T>, Writer)
    requires name { blank.name ≡ L.name }
    requires parts { blank.parts ≡ L.parts }
    requires one_more { blank.parts ≡ crew.now.workers + 1 }
    requires steps { events_made book ≤ 2 ^ 63 }
    requires history { (machine_view book).history ≡ L.history }
    requires output { (machine_view book).output ≡ L.output }
    requires board { board.now ≡ L.board }
    requires before { writer.told ≡ L.before }
    requires told { HasTold N.image N.budget board.now (machine_view book) writer }
    ensures ran { RunsOn crew.now.workers book result.0.shares result.0.book }
    ensures told { HasTold N.image N.budget board.now (machine_view result.0.book) result.1 }
    ensures goes_on { take (length writer.told) result.1.told ≡ writer.told }
{
    let (total, mine, theirs) = open_ledger(blank, crew.workers, book.steps());
    let tallied = Tallied::new(book, total);
    let lock = Mutex::new(Followed { tallied, writer });
    let shared = FollowedLock { lock: &lock, board };
    let gathered = fan::<N, L, _, G, R>(rt, crew, &shared, theirs, 0, crew.workers);
    let Followed { tallied, writer } = lock.into_inner();
    (settle(tallied, mine, gathered), writer)
}

/// Runs a book by 1 to 16 workers up to the end of the run, or as far as memory goes, and reports on the writer's board
/// how far the book has come: in the hold of the lock in which a task was committed, and once more at the end. So each
/// reading on the board meanwhile is one of the book's journal.
///
/// What the writer has written before has to be readings of the book's journal, the last one its counts, as with a new
/// board's writer and a new book.
#[tactic(auto, using(crate::proofs::Growing::grows_trans))]
pub fn run_watched<
    N: Naming + Send + Sync,
    P: Placer + Send,
    T: Tap + Send,
    G: Gate + Sync,
    R: Threads + Wait + Sync,
>(
    rt: &R,
    image: &Image,
    book: Book<N, P, T>,
    workers: u32,
    gate: &G,
    board: &Board,
    writer: Writer,
) -> Watched<N, P, T>
    requires image { image.now ≡ N.image }
    requires workers { (1 ≤ workers) × (workers ≤ 16) }
    requires steps { events_made book ≤ 2 ^ 63 }
    requires told { HasTold N.image N.budget board.now (machine_view book) writer }
    ensures halt { HaltsAt (machine_view result.drained.book) result.drained.halt }
    ensures ran { RunsOn workers book result.drained.shares result.drained.book }
    ensures told { HasTold N.image N.budget board.now (machine_view result.drained.book) result.writer }
    ensures goes_on { take (length writer.told) result.writer.told ≡ writer.told }
{
    let blank = Blank::new(u64::from(workers) + 1);
    let crew = Crew::new(rt, book.alloc(), image, workers, gate);
    let (worked, mut writer) = watch_all::<N, Brand, P, T, G, R>(
        rt, blank, &crew, book, board, writer,
    );
    let drained = run_rest(image, worked);
    tell(rt, board, &mut writer, &drained.book);
    Watched { drained, writer }
}
