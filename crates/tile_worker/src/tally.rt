//! A book under a lock, with a ledger of the events that each worker made.

ghost use Rattle.std.specs.Prelude.{◌≡◌, ◌≤◌, ◌+◌, ◌^◌, ℕ, List, length, take};
ghost use Rattle.run_journal.specs.declared.journal.Entry.{Entry};
ghost use Rattle.conflict_book.specs.spec_state.Settings.{IsValid};
ghost use Rattle.conflict_book.specs.BookViews.{events_made, view_of};
ghost use Rattle.tile_worker.specs.Founds.{IsDoneAt};
ghost use Rattle.tile_worker.specs.Holds.{HoldsOnce};

use crate::carried::Carried;
use crate::errand::Errand;
use crate::hold::{Found, serve};
use crate::spec_state::Settings;
use conflict_book::Book;
use guest_image::Image;
use place_policy::Placer;
use rv_core::Naming;
use std::sync::ledger;
use std::sync::ledger::{Ledger, Share};
use trace_tap::Tap;

/// At so many events workers stop.
const MAX_EVENTS: u64 = 1 << 63;

/// The value in the lock: a book, and the total of what is counted to the parts, which is the number of the book's
/// events.
#[derive(Drop)]
pub struct Tallied<
    N: Naming,
    L: Ledger,
    P: Placer = Box<dyn Placer + Send>,
    T: Tap = Box<dyn Tap + Send>,
> {
    pub(crate) book: Book<N, P, T>,
    pub(crate) total: ledger::Book<L>,
    ghost counted: { total.total ≡ book.sound.steps },
    ghost most: { book.sound.steps ≤ 2 ^ 63 },
}

/// One worker's part of the events: how many it made, and its share of the ledger, which says the same.
#[derive(Drop)]
pub struct Part<L: Ledger> {
    pub(crate) amount: u64,
    pub(crate) share: Share<L>,
    ghost is_amount: { share.amount ≡ amount },
    ghost one_part: { share.parts ≡ 1 },
}

impl<L: Ledger> Part<L> {
    /// A part that has no event yet.
    pub(crate) fn new(share: Share<L>) -> Part<L>
        requires parts { share.parts ≡ 1 }
        requires amount { share.amount ≡ 0 }
        ensures { result.amount ≡ 0 }
    {
        Part { amount: 0, share }
    }

    /// How many events the worker made.
    pub fn amount(&self) -> u64
        ensures { result ≡ self.now.amount }
    {
        self.amount
    }
}

impl<N: Naming, L: Ledger, P: Placer, T: Tap> Tallied<N, L, P, T> {
    /// A book whose events so far are counted to a share of its own.
    pub(crate) fn new(book: Book<N, P, T>, total: ledger::Book<L>) -> Tallied<N, L, P, T>
        requires counted { total.total ≡ events_made book }
        requires most { events_made book ≤ 2 ^ 63 }
        ensures book { view_of P.policy T.notes result.book ≡ view_of P.policy T.notes book }
        ensures total { result.total ≡ total }
    {
        Tallied { book, total }
    }

    /// The settings of the book.
    pub(crate) fn settings(&self) -> Settings
        ensures valid { IsValid result }
        ensures budget { result.budget ≡ N.budget }
    {
        *self.book.settings()
    }

    /// One hold of a worker: makes at most one event of the book, and counts it to the worker's part. The book is
    /// stopped only where memory may run out.
    #[tactic(auto, using(crate::proofs::Holding::rests, crate::proofs::Holding::holds_later, crate::proofs::Begins::entries_held, crate::proofs::Begins::bytes_held))]
    pub(crate) fn hold(&mut self, image: &Image, carried: &mut Carried<Part<L>, Errand<N>>) -> Found
        requires image { image.now ≡ N.image }
        ensures amount { carried.old.part.amount ≤ carried.new.part.amount }
        ensures booked { let old = view_of P.policy T.notes self.old.book in
            carried.new.part.amount + old.steps ≡ carried.old.part.amount + events_made self.new.book }
        ensures once { let old = view_of P.policy T.notes self.old.book in
            HoldsOnce N old (view_of P.policy T.notes self.new.book) }
        ensures done { IsDoneAt (view_of P.policy T.notes self.new.book) result }
        ensures entries { let old = view_of P.policy T.notes self.old.book in
            let new = view_of P.policy T.notes self.new.book in
            (before : List Entry) → take (length before) old.view.history ≡ before
            → take (length before) new.view.history ≡ before }
        ensures bytes { let old = view_of P.policy T.notes self.old.book in
            let new = view_of P.policy T.notes self.new.book in
            (before : List ℕ) → take (length before) old.view.output ≡ before
            → take (length before) new.view.output ≡ before }
    {
        let Tallied { book, total } = self;
        let Carried {
            part,
            round,
            errand,
        } = carried;
        let Part { amount, share } = part;
        total.audit(share);
        let before = book.steps();
        if before >= MAX_EVENTS {
            return Found::Done;
        }
        let found = serve(book, image, round, errand);
        let rise = book.steps() - before;
        total.add(share, rise);
        *amount += rise;
        round.learn_events(before, book.steps());
        found
    }
}
