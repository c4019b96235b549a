//! Locks that workers share.

ghost use Rattle.std.specs.Prelude.{◌≡◌, ◌≤◌, ℕ};
ghost use Rattle.conflict_book.specs.spec_state.Settings.{IsValid};

use crate::carried::Carried;
use crate::errand::Errand;
use crate::hold::Found;
use crate::spec_state::Settings;
use crate::tally::{Part, Tallied};
use crate::waiting::{Bell, take};
use guest_image::Image;
use place_policy::Placer;
use rv_core::Naming;
use std::sync::ledger::Ledger;
use std::sync::{Mutex, Wait};
use trace_tap::Tap;

/// A lock in which a book stands: what a worker does with it. `W` is the worker's part of the events, and `H` its
/// errand: parameters of their own, since methods of a trait can't name a type over `N` or a ledger.
pub(crate) trait BookLock<N: Naming, W, H> {
    ghost amount: { W → ℕ };

    ghost has_left: { W → Type 0 };

    /// The settings of the book.
    fn settings<R: Wait>(&self, rt: &R) -> Settings
        ensures valid { IsValid result }
        ensures budget { result.budget ≡ N.budget };

    /// One hold: makes at most one event of the book, and counts it to the worker's part.
    fn hold<R: Wait>(
        &self,
        rt: &R,
        image: &Image,
        carried: &mut Carried<W, H>,
        bell: &Bell,
    ) -> Found
        requires image { image.now ≡ N.image }
        ensures amount { amount carried.old.part ≤ amount carried.new.part }
        ensures left { result ≡ Found.Done → has_left carried.new.part };
}

impl<N: Naming, L: Ledger, P: Placer, T: Tap> BookLock<N, Part<L>, Errand<N>>
    for Mutex<Tallied<N, L, P, T>> {
    ghost amount = { λ part. part.amount };

    ghost has_left = { λ _. Unit {0} };

    fn settings<R: Wait>(&self, rt: &R) -> Settings
        ensures valid { IsValid result }
        ensures budget { result.budget ≡ N.budget }
    {
        self.lock(rt).settings()
    }

    fn hold<R: Wait>(
        &self,
        rt: &R,
        image: &Image,
        carried: &mut Carried<Part<L>, Errand<N>>,
        bell: &Bell,
    ) -> Found
        requires image { image.now ≡ N.image }
        ensures amount { carried.old.part.amount ≤ carried.new.part.amount }
        ensures left { result ≡ Found.Done → Unit {0} }
    {
        take(rt, self, bell, &mut carried.round).hold(image, carried)
    }
}
