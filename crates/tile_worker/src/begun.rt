//! A book under a lock whose type knows from where it was handed in.

ghost use Rattle.std.specs.Prelude.{◌≡◌, ◌≤◌, [], ℕ, List, length, take};
ghost use Rattle.run_journal.specs.declared.journal.Entry.{Entry};
ghost use Rattle.conflict_book.specs.spec_state.Settings.{IsValid};
ghost use Rattle.conflict_book.specs.BookViews.{view_of};
ghost use Rattle.tile_worker.specs.Founds.{IsDoneAt};

use crate::carried::Carried;
use crate::errand::Errand;
use crate::hold::Found;
use crate::locks::BookLock;
use crate::spec_state::Settings;
use crate::tally::{Part, Tallied};
use crate::waiting::{Bell, take};
use guest_image::Image;
use place_policy::Placer;
use rv_core::Naming;
use std::marker::Brand;
use std::sync::ledger::Ledger;
use std::sync::{Mutex, Wait};
use trace_tap::Tap;

/// A ledger of events that also names what was committed and emitted before them.
pub(crate) trait Begun: Ledger {
    ghost history: { List Entry };

    ghost output: { List ℕ };
}

impl Begun for Brand {
    ghost history = { [] };

    ghost output = { [] };
}

/// The value in the lock of a run: a book with its ledger, whose journal and output begin with those before.
#[derive(Drop)]
pub(crate) struct Continued<N: Naming, L: Begun, P: Placer, T: Tap> {
    pub(crate) tallied: Tallied<N, L, P, T>,
    ghost entries: { take (length L.history) tallied.book.sound.view.history ≡ L.history },
    ghost bytes: { take (length L.output) tallied.book.sound.view.output ≡ L.output },
}

impl<N: Naming, L: Begun, P: Placer, T: Tap> Continued<N, L, P, T> {
    /// One hold of a worker.
    fn hold(&mut self, image: &Image, carried: &mut Carried<Part<L>, Errand<N>>) -> Found
        requires image { image.now ≡ N.image }
        ensures amount { carried.old.part.amount ≤ carried.new.part.amount }
        ensures done { IsDoneAt (view_of P.policy T.notes self.new.tallied.book) result }
    {
        self.tallied.hold(image, carried)
    }
}

impl<N: Naming, L: Begun, P: Placer, T: Tap> BookLock<N, Part<L>, Errand<N>>
    for Mutex<Continued<N, L, P, T>> {
    ghost amount = { λ part. part.amount };

    ghost has_left = { λ _. Unit {0} };

    fn settings<R: Wait>(&self, rt: &R) -> Settings
        ensures valid { IsValid result }
        ensures budget { result.budget ≡ N.budget }
    {
        self.lock(rt).tallied.settings()
    }

    fn hold<R: Wait>(
        &self,
        rt: &R,
        image: &Image,
        carried: &mut Carried<Part<L>, Errand<N>>,
        bell: &Bell,
    ) -> Found
        requires image { image.now ≡ N.image }
        ensures amount { carried.old.part.amount ≤ carried.new.part.amount }
        ensures left { result ≡ Found.Done → Unit {0} }
    {
        take(rt, self, bell, &mut carried.round).hold(image, carried)
    }
}
