//! The state between the acts of a play.

ghost use Rattle.std.specs.Prelude.{◌≡◌, [], IfOk, OnErr};
ghost use Rattle.conflict_book.specs.BookViews.{effect_of, machine_view, view_of};
ghost use Rattle.step_script.specs.Asking.{AskedIsInRange, AsksFor, AttemptComes, AttemptTells, RunsOut, asks_of};
ghost use Rattle.step_script.specs.Ranges.{ActIsInRange};

use crate::act::Act;
use crate::asked::Asked;
use crate::asking::{ask_advance, ask_give, ask_step, ask_take};
use crate::event_def::Applied;
use crate::holding::Held;
use crate::running::first_leg;
use conflict_book::{Book, Legless};
use guest_image::Image;
use place_policy::Placer;
use rv_core::{Leg, Naming};
use std::alloc::{AllocError, Global};
use std::marker::Model;
use trace_tap::Tap;

/// The state between the acts of a play: the legs that are held, and the one that is ready for its event.
#[derive(Drop)]
pub struct Player<N: Naming> {
    held: Vec<Held<N>>,
    leg: Leg<N>,
}

impl<N: Naming> Model for Player<N> {
    ghost use Rattle.step_script.specs.Playing.{PlayerValue};

    ghost Value = { PlayerValue };

    ghost view = { λ p. record { held = p.held.items; leg = p.leg } };
}

impl<N: Naming> Player<N> {
    /// No leg is held. It takes no memory.
    pub fn new<P: Placer, T: Tap>(alloc: Global, image: &Image, book: &Book<N, P, T>) -> Self
        requires { image.now ≡ N.image }
        ensures { result.held ≡ [] }
    {
        Player {
            held: Vec::new(alloc),
            leg: first_leg(image, book),
        }
    }

    /// The leg that is ready.
    pub fn leg(&self) -> &Leg<N>
        ensures { result.now ≡ self.now.leg }
    {
        &self.leg
    }

    /// What an act requests of the book. A leg for an event replaces the one that was ready. If memory runs out for a
    /// leg that is to be held, none is held for its core any more.
    pub fn ask<P: Placer, T: Tap>(
        &mut self,
        image: &Image,
        book: &Book<N, P, T>,
        act: Act,
    ) -> Result<Asked, AllocError>
        requires image { image.now ≡ N.image }
        requires within { let settings = (machine_view book.now).settings in
            ActIsInRange settings.tiles settings.cores act }
        ensures asks { let book = view_of P.policy T.notes book.now in
            IfOk result (λ asked. AsksFor {N = N} N.image act (record { book = book; held = self.old.held })
            (asks_of asked self.new.leg) self.new.held) }
        ensures within { IfOk result (AskedIsInRange N (machine_view book.now).settings) }
        ensures out_of_memory { OnErr result (RunsOut act self.old self.new) }
    {
        match act {
            Act::Dispatch(tile) => Ok(Asked::Legless(Legless::Dispatch { tile })),
            Act::Step(tile, core) => Ok(ask_step(&mut self.leg, image, book, tile, core)),
            Act::Take(tile, core) => ask_take(image, book, &mut self.held, tile, core),
            Act::Give(tile, core) => Ok(ask_give(&mut self.leg, book, &mut self.held, tile, core)),
            Act::Abort(tile) => Ok(Asked::Legless(Legless::Abort { tile })),
            Act::Commit => Ok(Asked::Legless(Legless::Commit)),
            Act::Coalesce(tile) => Ok(Asked::Legless(Legless::Coalesce { tile })),
            Act::Split(tile) => Ok(Asked::Legless(Legless::Split { tile })),
            Act::Advance => Ok(ask_advance(&mut self.leg, image, book)),
        }
    }

    /// Makes the event that an act requests, or gives its reply. After an event the book's `effect` lists what it did
    /// beside its one change.
    pub fn make<P: Placer, T: Tap>(&self, book: &mut Book<N, P, T>, asked: Asked) -> Applied
        requires { AskedIsInRange N (machine_view book.old).settings asked }
        ensures comes { let old = view_of P.policy T.notes book.old in
            let new = view_of P.policy T.notes book.new in
            AttemptComes {N = N} (asks_of asked self.now.leg) result.reply result.aborted old new }
        ensures told { let old = view_of P.policy T.notes book.old in
            let new = view_of P.policy T.notes book.new in
            AttemptTells {N = N} (asks_of asked self.now.leg) result.reply result.aborted old new (effect_of book.new) }
        ensures settings { let old = view_of P.policy T.notes book.old in
            (machine_view book.new).settings ≡ old.view.settings }
    {
        match asked {
            Asked::Legless(event) => book.apply_legless(event),
            Asked::Ready { tile, core } => book.apply_step(tile, core, &self.leg),
            Asked::Says(reply) => Applied { reply, aborted: 0 },
        }
    }
}
