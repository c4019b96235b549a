//! A book under a lock, with the writer of a board to which its readings are written.

ghost use Rattle.std.specs.Prelude.{◌≡◌, ◌≢◌, ◌≤◌, [], List, MatchBool, length, take};
ghost use Rattle.atomic_table.specs.Seated.{TableId};
ghost use Rattle.progress_cell.specs.Readings.{IsAtMost, last_of};
ghost use Rattle.progress_cell.specs.declared.reading.Reading.{Reading};
ghost use Rattle.conflict_book.specs.spec_state.Settings.{IsValid};
ghost use Rattle.conflict_book.specs.Counts.{counts_of};
ghost use Rattle.conflict_book.specs.BookViews.{machine_view, view_of};
ghost use Rattle.tile_worker.specs.Founds.{IsDoneAt};
ghost use Rattle.tile_worker.specs.Holds.{HoldsOnce};
ghost use Rattle.tile_worker.specs.Readings.{AreReadings};

use crate::begun::Begun;
use crate::carried::Carried;
use crate::errand::Errand;
use crate::hold::Found;
use crate::locks::BookLock;
use crate::spec_state::Settings;
use crate::tally::{Part, Tallied};
use crate::waiting::{Bell, take};
use conflict_book::Book;
use guest_image::Image;
use place_policy::Placer;
use progress_cell::{Board, Writer};
use rv_core::Naming;
use std::marker::Brand;
use std::sync::{Mutex, Wait};
use trace_tap::Tap;

/// A ledger of events that also names the board of a run, and the readings that were written before the run.
pub(crate) trait Followable: Begun {
    ghost board: { TableId };

    ghost before: { List Reading };
}

impl Followable for Brand {
    ghost board = { record { words = 0; slots = 0; views_name = 0; atom = 0; block = 0; offset = 0; slot_names = [] } };

    ghost before = { [] };
}

/// The value in the lock of a run with a board: a book with its ledger, and the writer of the board. All that was
/// written are readings of the book's journal, and the last one is the book's counts.
#[derive(Drop)]
pub(crate) struct Followed<N: Naming, L: Followable, P: Placer, T: Tap> {
    pub(crate) tallied: Tallied<N, L, P, T>,
    pub(crate) writer: Writer,
    ghost entries: { take (length L.history) tallied.book.sound.view.history ≡ L.history },
    ghost bytes: { take (length L.output) tallied.book.sound.view.output ≡ L.output },
    ghost belongs: { writer.board ≡ L.board },
    ghost goes_on: { take (length L.before) writer.told ≡ L.before },
    ghost readings: { AreReadings N.image N.budget tallied.book.sound.view.history writer.told },
    ghost last: { last_of writer.told ≡ counts_of tallied.book.sound.view },
}

/// Writes the counts of a book to the board.
#[tactic(auto, using(crate::proofs::Told::goes_on, crate::proofs::Told::readings_told, progress_cell::proofs::Proved::last_pushed),)]
pub(crate) fn tell<N: Naming, P: Placer, T: Tap, R: Wait>(
    rt: &R,
    board: &Board,
    writer: &mut Writer,
    book: &Book<N, P, T>,
)
    requires belongs { writer.old.board ≡ board.now }
    requires rises { IsAtMost (last_of writer.old.told) (counts_of (machine_view book.now)) }
    requires readings { let view = machine_view book.now in
        AreReadings N.image N.budget view.history writer.old.told }
    ensures belongs { writer.new.board ≡ writer.old.board }
    ensures goes_on { (before : List Reading) → take (length before) writer.old.told ≡ before
        → take (length before) writer.new.told ≡ before }
    ensures readings { let view = machine_view book.now in
        AreReadings N.image N.budget view.history writer.new.told }
    ensures last { last_of writer.new.told ≡ counts_of (machine_view book.now) }
{
    book.is_sound();
    board.publish(rt, writer, book.counts());
}

/// Whether the last reading that was written is the book's counts.
fn is_told<N: Naming, P: Placer, T: Tap>(book: &Book<N, P, T>, writer: &Writer) -> bool
    ensures { let counts = counts_of (machine_view book.now) in
        MatchBool result (last_of writer.now.told ≡ counts) (last_of writer.now.told ≢ counts) }
{
    writer.last() == book.counts()
}

impl<N: Naming, L: Followable, P: Placer, T: Tap> Followed<N, L, P, T> {
    /// One hold of a worker, as that of a book without a board; where a task was committed, it writes the book's counts
    /// to the board.
    fn hold<R: Wait>(
        &mut self,
        rt: &R,
        board: &Board,
        image: &Image,
        carried: &mut Carried<Part<L>, Errand<N>>,
    ) -> Found
        requires board { board.now ≡ L.board }
        requires image { image.now ≡ N.image }
        ensures amount { carried.old.part.amount ≤ carried.new.part.amount }
        ensures once { let old = view_of P.policy T.notes self.old.tallied.book in
            HoldsOnce N old (view_of P.policy T.notes self.new.tallied.book) }
        ensures done { IsDoneAt (view_of P.policy T.notes self.new.tallied.book) result }
    {
        let Followed { tallied, writer } = self;
        let found = tallied.hold(image, carried);
        if !is_told(&tallied.book, writer) {
            tell(rt, board, writer, &tallied.book);
        }
        found
    }
}

/// The lock of a run with a board, and the board.
#[derive(Drop)]
pub(crate) struct FollowedLock<'a, N: Naming, L: Followable, P: Placer, T: Tap> {
    pub(crate) lock: &'a Mutex<Followed<N, L, P, T>>,
    pub(crate) board: &'a Board,
    ghost named: { board.now ≡ L.board },
}

impl<'a, N: Naming, L: Followable, P: Placer, T: Tap> BookLock<N, Part<L>, Errand<N>>
    for FollowedLock<'a, N, L, P, T> {
    ghost amount = { λ part. part.amount };

    ghost has_left = { λ _. Unit {0} };

    fn settings<R: Wait>(&self, rt: &R) -> Settings
        ensures valid { IsValid result }
        ensures budget { result.budget ≡ N.budget }
    {
        self.lock.lock(rt).tallied.settings()
    }

    fn hold<R: Wait>(
        &self,
        rt: &R,
        image: &Image,
        carried: &mut Carried<Part<L>, Errand<N>>,
        bell: &Bell,
    ) -> Found
        requires image { image.now ≡ N.image }
        ensures amount { carried.old.part.amount ≤ carried.new.part.amount }
        ensures left { result ≡ Found.Done → Unit {0} }
    {
        let mut held = take(rt, self.lock, bell, &mut carried.round);
        held.hold(rt, self.board, image, carried)
    }
}
