//! Events that are handed in.

ghost use Rattle.std.specs.Prelude.{◌≡◌, ◌+◌, ◌<◌, ◌≤◌, ◌++◌, ◌∷◌, [], All, IfOk, OnErr};
ghost use Rattle.std.specs.Prelude.{length, map, vec_capacity};
ghost use Rattle.event_step.specs.event_def.Happens.{Happens, HappenAll};
ghost use Rattle.event_step.specs.event_def.Telling.{HappensTelling};
ghost use Rattle.event_step.specs.event_def.declared.event.Event.TheVariants as event;
ghost use Rattle.conflict_book.specs.Legless.{event_of};
ghost use Rattle.conflict_book.specs.Ranges.{IsInRange};
ghost use Rattle.conflict_book.specs.BookViews.{after_event, effect_of, machine_view, view_of};

use crate::book::Book;
use crate::event_def::{Applied, Came, Event, Reply};
use crate::legless::Legless;
use place_policy::Placer;
use rv_core::{Leg, Naming};
use std::alloc::AllocError;
use trace_tap::{Record, Tap, note_all};

/// Adds an answer to a list that has the memory for it.
fn push_answer(answers: &mut Vec<Applied>, applied: Applied)
    requires { length answers.old.items + 1 ≤ vec_capacity answers.old }
    ensures items { answers.new.items ≡ answers.old.items ++ applied ∷ [] }
    ensures spare { vec_capacity answers.old ≤ vec_capacity answers.new }
{
    match answers.push(applied) {
        Ok(()) => {}
        Err(_) => unreachable!(),
    }
}

impl<N: Naming, P: Placer, T: Tap> Book<N, P, T> {
    /// Counts an event that was made, and has the taps note it.
    pub(crate) fn note(&mut self, seen: &Record)
        ensures noted { let old = view_of P.policy T.notes self.old in
            view_of P.policy T.notes self.new ≡ after_event seen.now old }
        ensures effect { effect_of self.new ≡ effect_of self.old }
    {
        self.sound.count();
        note_all(self.taps.as_mut_slice(), seen);
    }

    /// Makes an event without a leg, as `apply` does.
    pub fn apply_legless(&mut self, event: Legless) -> Applied
        requires given { let old = view_of P.policy T.notes self.old in
            IsInRange {N = N} old.view.settings (event_of event) }
        ensures happens { let old = view_of P.policy T.notes self.old in
            let new = view_of P.policy T.notes self.new in
            Happens {N = N} old (event_of event) result.reply result.aborted new }
        ensures told { let old = view_of P.policy T.notes self.old in
            let new = view_of P.policy T.notes self.new in
            HappensTelling {N = N} old (event_of event) result.reply result.aborted new (effect_of self.new) }
        ensures settings { let old = view_of P.policy T.notes self.old in
            (machine_view self.new).settings ≡ old.view.settings }
    {
        self.sound.forget();
        if self.stopped {
            return Applied {
                reply: Reply::Memory,
                aborted: 0,
            };
        }
        match self.sound.come(&mut self.placers, event) {
            Came::Made(seen) => {
                self.note(&seen);
                Applied {
                    reply: Reply::Ok,
                    aborted: seen.aborted,
                }
            }
            Came::Refused(reply) => Applied { reply, aborted: 0 },
        }
    }

    /// Hands in a leg that the caller keeps, as `apply` does with a step.
    pub fn apply_step(&mut self, tile: u32, core: u32, leg: &Leg<N>) -> Applied
        requires tile { tile < (machine_view self.old).settings.tiles }
        requires core { core < (machine_view self.old).settings.cores }
        ensures happens { let old = view_of P.policy T.notes self.old in
            let new = view_of P.policy T.notes self.new in
            Happens {N = N} old (event.Step tile core leg.now) result.reply result.aborted new }
        ensures told { let old = view_of P.policy T.notes self.old in
            let new = view_of P.policy T.notes self.new in
            HappensTelling {N = N} old (event.Step tile core leg.now) result.reply result.aborted new
            (effect_of self.new) }
        ensures settings { let old = view_of P.policy T.notes self.old in
            (machine_view self.new).settings ≡ old.view.settings }
    {
        self.sound.forget();
        if self.stopped {
            return Applied {
                reply: Reply::Memory,
                aborted: 0,
            };
        }
        match self.sound.come_step(&mut self.placers, tile, core, leg) {
            Came::Made(seen) => {
                self.note(&seen);
                Applied {
                    reply: Reply::Ok,
                    aborted: seen.aborted,
                }
            }
            Came::Refused(reply) => Applied { reply, aborted: 0 },
        }
    }

    /// Makes or refuses an event, as `apply` does, and leaves it to the caller.
    fn apply_kept(&mut self, event: &Event<N>) -> Applied
        requires given { let old = view_of P.policy T.notes self.old in
            IsInRange old.view.settings event.now }
        ensures happens { let old = view_of P.policy T.notes self.old in
            let new = view_of P.policy T.notes self.new in
            Happens old event.now result.reply result.aborted new }
        ensures told { let old = view_of P.policy T.notes self.old in
            let new = view_of P.policy T.notes self.new in
            HappensTelling old event.now result.reply result.aborted new (effect_of self.new) }
        ensures settings { let old = view_of P.policy T.notes self.old in
            (machine_view self.new).settings ≡ old.view.settings }
    {
        match event {
            Event::Step { tile, core, leg } => self.apply_step(*tile, *core, leg),
            Event::Dispatch { tile } => self.apply_legless(Legless::Dispatch { tile: *tile }),
            Event::Abort { tile } => self.apply_legless(Legless::Abort { tile: *tile }),
            Event::Commit => self.apply_legless(Legless::Commit),
            Event::Coalesce { tile } => self.apply_legless(Legless::Coalesce { tile: *tile }),
            Event::Split { tile } => self.apply_legless(Legless::Split { tile: *tile }),
        }
    }

    /// Makes an event on one of the machine's tiles and cores, or refuses it, and then nothing changes. Each event that
    /// is made is counted, the taps note it, and `effect` lists what it did. A stopped book answers `Memory`.
    pub fn apply(&mut self, event: Event<N>) -> Applied
        requires given { let old = view_of P.policy T.notes self.old in
            IsInRange old.view.settings event }
        ensures happens { let old = view_of P.policy T.notes self.old in
            let new = view_of P.policy T.notes self.new in
            Happens old event result.reply result.aborted new }
        ensures told { let old = view_of P.policy T.notes self.old in
            let new = view_of P.policy T.notes self.new in
            HappensTelling old event result.reply result.aborted new (effect_of self.new) }
        ensures settings { let old = view_of P.policy T.notes self.old in
            (machine_view self.new).settings ≡ old.view.settings }
    {
        self.apply_kept(&event)
    }

    /// Makes or refuses events one after another, and lists their answers. `AllocError` where memory for the list runs
    /// out, and then no event was tried.
    pub fn apply_all(&mut self, events: Vec<Event<N>>) -> Result<Vec<Applied>, AllocError>
        requires given { let old = view_of P.policy T.notes self.old in
            All (IsInRange old.view.settings) events.items }
        ensures ok { let old = view_of P.policy T.notes self.old in
            let new = view_of P.policy T.notes self.new in
            IfOk result (λ answers. HappenAll old events.items answers.items new) }
        ensures err { let old = view_of P.policy T.notes self.old in
            OnErr result (view_of P.policy T.notes self.new ≡ old) }
    {
        let mut answers = Vec::with_capacity(self.sound.state.alloc(), events.len())?;
        for event in &events {
            push_answer(&mut answers, self.apply_kept(event));
        }
        Ok(answers)
    }
}
