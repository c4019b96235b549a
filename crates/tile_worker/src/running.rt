//! Workers run a book to its end.

ghost use Rattle.std.specs.Prelude.{◌≡◌, ◌≤◌, ◌<◌, ◌+◌, ◌^◌, length, sum};
ghost use Rattle.conflict_book.specs.BookViews.{events_made, machine_view, view_of};
ghost use Rattle.tile_worker.specs.Grows.{Grows};
ghost use Rattle.tile_worker.specs.Halts.{HaltsAt};
ghost use Rattle.tile_worker.specs.Runs.{RunsOn};

use crate::begun::{Begun, Continued};
use crate::crew::Crew;
use crate::fanning::{Gathered, fan};
use crate::gate::Gate;
use crate::shares::Shares;
use crate::tally::Tallied;
use conflict_book::{Book, Halt};
use guest_image::Image;
use place_policy::Placer;
use rv_core::Naming;
use std::marker::Brand;
use std::sync::ledger::{Blank, Ledger, Share};
use std::sync::{Mutex, Wait, ledger};
use std::thread::Threads;
use trace_tap::Tap;

/// A book that workers ran, how many events each of them made, and why the run stopped.
#[derive(Drop)]
pub struct Drained<N: Naming, P: Placer = Box<dyn Placer + Send>, T: Tap = Box<dyn Tap + Send>> {
    /// The book.
    pub book: Book<N, P, T>,
    /// How many events each worker made; what was made after they stopped counts to the first one.
    pub shares: Shares,
    /// Why the run stopped.
    pub halt: Halt,
}

/// A book that workers have left, and how many events each of them made.
pub(crate) struct Worked<N: Naming, P: Placer, T: Tap> {
    pub(crate) book: Book<N, P, T>,
    pub(crate) shares: Shares,
}

/// Opens a ledger that has a part for each worker and one for the events before, which are counted to the latter:
/// its total, that part, and those of the workers as one share.
pub(crate) fn open_ledger<L: Ledger>(
    blank: Blank,
    workers: u32,
    steps: u64,
) -> (ledger::Book<L>, Share<L>, Share<L>)
    requires name { blank.name ≡ L.name }
    requires parts { blank.parts ≡ L.parts }
    requires one_more { blank.parts ≡ workers + 1 }
    ensures total { result.0.total ≡ steps }
    ensures before { (result.1.parts ≡ 1) × (result.1.amount ≡ steps) }
    ensures theirs { (result.2.parts ≡ workers) × (result.2.amount ≡ 0) }
{
    let (mut total, mut mine) = blank.open::<L>();
    total.add(&mut mine, steps);
    let theirs = mine.split_off(u64::from(workers), 0);
    (total, mine, theirs)
}

/// What workers leave of a book, with the share of the events before and what they hand back: a count of all events.
pub(crate) fn settle<N: Naming, L: Ledger, P: Placer, T: Tap>(
    tallied: Tallied<N, L, P, T>,
    mine: Share<L>,
    gathered: Gathered<L>,
) -> Worked<N, P, T>
    requires parts { mine.parts + length gathered.shares ≡ L.parts }
    ensures book { view_of P.policy T.notes result.book ≡ view_of P.policy T.notes tallied.book }
    ensures workers { length result.shares ≡ length gathered.shares }
    ensures shares { sum result.shares + mine.amount ≡ events_made result.book }
{
    let Tallied { book, mut total } = tallied;
    let Gathered {
        shares,
        ledger_share,
    } = gathered;
    let mut all = mine;
    all.merge(ledger_share);
    total.audit(&mut all);
    Worked { book, shares }
}

/// Runs the workers on a book, with a ledger that has a part for each of them and one for the events before.
fn work_all<
    N: Naming + Send + Sync,
    L: Begun + Send + Sync,
    P: Placer + Send,
    T: Tap + Send,
    G: Gate + Sync,
    R: Threads + Wait + Sync,
>(rt: &R, blank: Blank, crew: &Crew<'_, N, G>, book: Book<N, P, T>) -> Worked<N, P, T>
    requires name { blank.name ≡ L.name }
    requires parts { blank.parts ≡ L.parts }
    requires one_more { blank.parts ≡ crew.now.workers + 1 }
    requires steps { events_made book ≤ 2 ^ 63 }
    requires history { (machine_view book).history ≡ L.history }
    requires output { (machine_view book).output ≡ L.output }
    ensures { RunsOn crew.now.workers book result.shares result.book }
{
    let (total, mine, theirs) = open_ledger(blank, crew.workers, book.steps());
    let tallied = Tallied::new(book, total);
    let lock = Mutex::new(Continued { tallied });
    let gathered = fan::<N, L, _, G, R>(rt, crew, &lock, theirs, 0, crew.workers);
    let Continued { tallied } = lock.into_inner();
    settle(tallied, mine, gathered)
}

/// Why a book stands where it does: its end; or that memory ran out, or it was stopped.
fn halt_of<N: Naming, P: Placer, T: Tap>(book: &Book<N, P, T>) -> Halt
    ensures { HaltsAt (machine_view book.now) result }
{
    match book.end() {
        Some(end) => Halt::Ended(end),
        None => Halt::Memory,
    }
}

/// Makes the events of the least tasks until the run is over or memory runs out, and returns how many it made.
fn run_out<N: Naming, P: Placer, T: Tap>(book: &mut Book<N, P, T>, image: &Image) -> u64
    requires image { image.now ≡ N.image }
    ensures rise { let before = events_made book.old in
        result + before ≡ events_made book.new }
    ensures bounded { events_made book.new < 2 ^ 64 }
    ensures grows { Grows (machine_view book.old) (machine_view book.new) }
{
    let before = book.steps();
    let _halt = book.run_least(image);
    book.steps() - before
}

/// Runs a book on, after its workers, by the events of the least tasks, which count to the first worker.
pub(crate) fn run_rest<N: Naming, P: Placer, T: Tap>(
    image: &Image,
    worked: Worked<N, P, T>,
) -> Drained<N, P, T>
    requires image { image.now ≡ N.image }
    requires some { 1 ≤ length worked.shares }
    requires fits { sum worked.shares ≤ events_made worked.book }
    ensures halt { HaltsAt (machine_view result.book) result.halt }
    ensures workers { length result.shares ≡ length worked.shares }
    ensures shares { let before = events_made worked.book in
        sum result.shares + before ≡ sum worked.shares + events_made result.book }
    ensures grows { Grows (machine_view worked.book) (machine_view result.book) }
{
    let Worked {
        mut book,
        mut shares,
    } = worked;
    match book.end() {
        Some(end) => Drained {
            book,
            shares,
            halt: Halt::Ended(end),
        },
        None => {
            shares.add_to_first(run_out(&mut book, image));
            let halt = halt_of(&book);
            Drained { book, shares, halt }
        }
    }
}

/// Runs a book by 1 to 16 workers up to the end of the run, or as far as memory goes.
pub fn run_tiles<
    N: Naming + Send + Sync,
    P: Placer + Send,
    T: Tap + Send,
    G: Gate + Sync,
    R: Threads + Wait + Sync,
>(rt: &R, image: &Image, book: Book<N, P, T>, workers: u32, gate: &G) -> Drained<N, P, T>
    requires image { image.now ≡ N.image }
    requires workers { (1 ≤ workers) × (workers ≤ 16) }
    requires steps { events_made book ≤ 2 ^ 63 }
    ensures halt { HaltsAt (machine_view result.book) result.halt }
    ensures ran { RunsOn workers book result.shares result.book }
{
    let blank = Blank::new(u64::from(workers) + 1);
    let crew = Crew::new(rt, book.alloc(), image, workers, gate);
    let worked = work_all::<N, Brand, P, T, G, R>(rt, blank, &crew, book);
    run_rest(image, worked)
}
