//! The events for the least task.

ghost use Rattle.std.specs.Prelude.{◌≡◌, ◌≤◌, ◌+◌, ◌*◌, ℕ, List, IfSome, IsNone, map};
ghost use Rattle.place_policy.specs.Policy.{Policy};
ghost use Rattle.trace_tap.specs.TapValue.{TapValue};
ghost use Rattle.event_step.specs.spec_law.Sound.{Sound};
ghost use Rattle.event_step.specs.spec_state.Effects.{nothing};
ghost use Rattle.event_step.specs.spec_state.declared.task.Task.{Task};
ghost use Rattle.event_step.specs.spec_state.declared.task.Where.TheVariants as where_;
ghost use Rattle.event_step.specs.spec_state.Least.{IsLeast, IsLeastTask, IsLeastSpilled};
ghost use Rattle.event_step.specs.spec_state.Settings.{IsValid};
ghost use Rattle.event_step.specs.event_def.Advancing.{AdvanceAnswers, HasRest, IsLegFrom};
ghost use Rattle.event_step.specs.event_def.End.{IsOver};
ghost use Rattle.event_step.specs.event_def.Book.{book_of};
ghost use Rattle.event_step.specs.event_def.Telling.{AdvanceTelling};
ghost use Rattle.conflict_book.specs.Halting.{FallsIfMoved, AdvanceGoesOn, NextComes, RunsLeast};
ghost use Rattle.conflict_book.specs.Halting.{advance_of, last_answer};
ghost use Rattle.conflict_book.specs.Next.{ComesNext};
ghost use Rattle.conflict_book.specs.BookViews.{effect_of, going_book, machine_view, view_of};

use crate::book::{Book, SoundState};
use crate::event_def::{Advance, Came, Halt};
use crate::event_prelude::end_with;
use crate::events::pass_after;
use crate::serial_machine::End;
use crate::spec_state::{Settings, State, TaskId, Where};
use event_move::{make_commit, make_dispatch, make_split};
use event_step::make_step;
use guest_image::Image;
use place_policy::Placer;
use rv_core::{Leg, Naming};
use trace_tap::{Deed, Record, Tap};

/// Runs the leg of a running task from its kept core, with the quantum of the settings.
fn run_leg_of<N: Naming>(leg: &mut Leg<N>, state: &State<N>, image: &Image, id: TaskId)
    requires sound { Sound N.image state.now.view }
    requires image { image.now ≡ N.image }
    requires least { IsLeast state.now.view (where_.Running id) }
    ensures { (task : Task) → IsLeastTask state.now.view id.0 task
        → IsLegFrom N.image state.now.view task leg.new }
{
    state.has_limits();
    let settings = state.settings();
    leg.run_again(
        state.decoded_text(),
        image,
        &state.task(id).core,
        settings.quantum,
        settings.budget,
    );
}

/// The step of the least task, which runs.
fn step_least<N: Naming, P: Placer>(
    state: &mut State<N>,
    leg: &mut Leg<N>,
    placers: &mut [P],
    image: &Image,
    id: TaskId,
) -> Came
    requires sound { Sound N.image state.old.view }
    requires image { image.now ≡ N.image }
    requires goes_on { IsOver state.old.view → ⊥ }
    requires least { IsLeast state.old.view (where_.Running id) }
    requires fresh { state.old.effect ≡ nothing }
    ensures { let before = map P.policy placers.old in
        (taps : List TapValue) (steps : ℕ)
        → NextComes N N.image (book_of state.old.view before taps steps) result state.new.view
        (map P.policy placers.new) state.new.effect }
{
    let tile = state.tile_of(id);
    run_leg_of(leg, state, image, id);
    make_step(state, placers, tile, id, leg)
}

/// The dispatch of the least task, which is idle.
fn dispatch_least<N: Naming>(state: &mut State<N>, id: TaskId) -> Came
    requires sound { Sound N.image state.old.view }
    requires goes_on { IsOver state.old.view → ⊥ }
    requires least { IsLeast state.old.view (where_.Idle id) }
    requires fresh { state.old.effect ≡ nothing }
    ensures { (placers : List Policy) (taps : List TapValue) (steps : ℕ)
        → NextComes N N.image (book_of state.old.view placers taps steps) result state.new.view
        placers state.new.effect }
{
    let tile = state.tile_of(id);
    Came::Made(make_dispatch(state, tile, id))
}

/// The commit of the least task, which is finished; another placer may serve then.
fn commit_least<N: Naming, P: Placer>(
    state: &mut State<N>,
    placers: &mut Vec<P>,
    id: TaskId,
) -> Came
    requires sound { Sound N.image state.old.view }
    requires goes_on { IsOver state.old.view → ⊥ }
    requires least { IsLeast state.old.view (where_.Finished id) }
    requires fresh { state.old.effect ≡ nothing }
    ensures { let before = map P.policy placers.old.items in
        (taps : List TapValue) (steps : ℕ)
        → NextComes N N.image (book_of state.old.view before taps steps) result state.new.view
        (map P.policy placers.new.items) state.new.effect }
{
    let came = make_commit(state, id);
    pass_after(state, placers, &came);
    came
}

/// The split that brings the least task back, which is spilled.
fn split_least<N: Naming>(state: &mut State<N>, tile: u32) -> Came
    requires sound { Sound N.image state.old.view }
    requires goes_on { IsOver state.old.view → ⊥ }
    requires least { IsLeastSpilled state.old.view tile }
    requires fresh { state.old.effect ≡ nothing }
    ensures { (placers : List Policy) (taps : List TapValue) (steps : ℕ)
        → NextComes N N.image (book_of state.old.view placers taps steps) result state.new.view
        placers state.new.effect }
{
    make_split(state, tile)
}

/// The event for the least task, where the run isn't over.
fn come_least<N: Naming, P: Placer>(
    state: &mut State<N>,
    leg: &mut Leg<N>,
    placers: &mut Vec<P>,
    image: &Image,
    least: Where,
) -> Came
    requires sound { Sound N.image state.old.view }
    requires image { image.now ≡ N.image }
    requires goes_on { IsOver state.old.view → ⊥ }
    requires least { IsLeast state.old.view least }
    requires fresh { state.old.effect ≡ nothing }
    ensures { let before = map P.policy placers.old.items in
        (taps : List TapValue) (steps : ℕ)
        → NextComes N N.image (book_of state.old.view before taps steps) result state.new.view
        (map P.policy placers.new.items) state.new.effect }
{
    match least {
        Where::Idle(id) => dispatch_least(state, id),
        Where::Running(id) => step_least(state, leg, placers.as_mut_slice(), image, id),
        Where::Finished(id) => commit_least(state, placers, id),
        Where::Spilled(tile) => split_least(state, tile),
        Where::Trapped(_) => unreachable!(),
    }
}

/// The end of a run that is over, or the outcome of the event for the least task.
enum NextEvent {
    Over(End),
    Came(Came),
}

impl<N: Naming> SoundState<N> {
    /// The end of a run that is over, or the event for the least task. It costs one call of `least` beside the event.
    fn come_next<P: Placer>(&mut self, placers: &mut Vec<P>, image: &Image) -> NextEvent
        requires image { image.now ≡ N.image }
        requires fresh { self.old.effect ≡ nothing }
        ensures next { let before = map P.policy placers.old.items in
            (taps : List TapValue)
            → ComesNext N N.image (going_book self.old before taps) result self.new.view
            (map P.policy placers.new.items) self.new.effect }
        ensures steps { self.new.steps ≡ self.old.steps }
    {
        let least = self.state.least();
        if let Some(end) = end_with(&self.state, least) {
            return NextEvent::Over(end);
        }
        match least {
            Some(stands) => {
                let SoundState { state, leg, .. } = self;
                NextEvent::Came(come_least(state, leg, placers, image, stands))
            }
            None => unreachable!(),
        }
    }
}

/// What an advance answers of an event that was made.
fn advance_of(seen: &Record) -> Advance
    ensures { result ≡ advance_of seen.now }
{
    match seen.deed {
        Deed::Commit => Advance::Committed,
        _ => Advance::Moved {
            aborted: seen.aborted,
        },
    }
}

/// Why a run halts at this answer; None where it goes on.
fn halt_of(answer: Advance) -> Option<Halt>
    ensures some { IfSome result (λ halt. answer ≡ last_answer halt) }
    ensures none { IsNone result → AdvanceGoesOn answer }
{
    match answer {
        Advance::Moved { .. } | Advance::Committed => None,
        Advance::Ended(end) => Some(Halt::Ended(end)),
        Advance::Memory => Some(Halt::Memory),
    }
}

/// More events than there are for the least tasks: for each commit and one more as many as the task budget and 4.
fn enough_events(settings: &Settings) -> u64
    requires { IsValid settings.now }
    ensures { result ≡ (settings.now.commits + 1) * (settings.now.budget + 4) + 1 }
{
    (u64::from(settings.commits) + 1) * (u64::from(settings.budget) + 4) + 1
}

impl<N: Naming, P: Placer, T: Tap> Book<N, P, T> {
    /// Makes the event for the least task, as `advance` does, and proves the answer.
    fn advance_once(&mut self, image: &Image) -> Advance
        requires image { image.now ≡ N.image }
        ensures { let old = view_of P.policy T.notes self.old in
            AdvanceTelling N N.image old result (view_of P.policy T.notes self.new) (effect_of self.new) }
    {
        self.sound.forget();
        if self.stopped {
            return Advance::Memory;
        }
        self.is_sound();
        match self.sound.come_next(&mut self.placers, image) {
            NextEvent::Over(end) => Advance::Ended(end),
            NextEvent::Came(Came::Made(seen)) => {
                self.note(&seen);
                advance_of(&seen)
            }
            NextEvent::Came(Came::Refused(_)) => Advance::Memory,
        }
    }

    /// Makes the event for the least task: a split where it is spilled, a dispatch where it is idle, a step where it
    /// runs, and its commit where it is finished. `Ended` where the run is over, and `Memory` where memory runs
    /// out or the book was stopped; nothing changes then. Less is left up to the next commit after each event
    /// but that, and never more than the task budget and 4.
    pub fn advance(&mut self, image: &Image) -> Advance
        requires image { image.now ≡ N.image }
        ensures answers { let old = view_of P.policy T.notes self.old in
            AdvanceAnswers N N.image old result (view_of P.policy T.notes self.new) }
        ensures told { let old = view_of P.policy T.notes self.old in
            AdvanceTelling N N.image old result (view_of P.policy T.notes self.new) (effect_of self.new) }
        ensures falls { let old = view_of P.policy T.notes self.old in
            FallsIfMoved result old.view (machine_view self.new) }
        ensures bound { let new = view_of P.policy T.notes self.new in
            (left : ℕ) → HasRest new.view left → left ≤ new.view.settings.budget + 4 }
        ensures settings { let old = view_of P.policy T.notes self.old in
            (machine_view self.new).settings ≡ old.view.settings }
    {
        self.is_sound();
        self.advance_once(image)
    }

    /// Makes events for the least tasks until the run is over or memory runs out, which a stopped book answers too.
    pub fn run_least(&mut self, image: &Image) -> Halt
        requires image { image.now ≡ N.image }
        ensures { let old = view_of P.policy T.notes self.old in
            RunsLeast N N.image old result (view_of P.policy T.notes self.new) }
    {
        self.is_sound();
        for made in 0..enough_events(self.settings()) {
            if let Some(halt) = halt_of(self.advance_once(image)) {
                return halt;
            }
        }
        unreachable!()
    }
}
