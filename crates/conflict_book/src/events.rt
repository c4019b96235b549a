//! The outcome of an event, for a sound state and its placers.

ghost use Rattle.std.specs.Prelude.{◌≡◌, ◌<◌, ℕ, List, length, map};
ghost use Rattle.trace_tap.specs.TapValue.{TapValue};
ghost use Rattle.event_step.specs.spec_law.Sound.{Sound};
ghost use Rattle.event_step.specs.spec_state.Effects.{nothing};
ghost use Rattle.event_step.specs.event_def.declared.event.Event.TheVariants as event;
ghost use Rattle.event_step.specs.event_def.Book.{placers_after_commit, book_of};
ghost use Rattle.event_step.specs.event_def.Events.{IsGiven};
ghost use Rattle.event_step.specs.event_def.Telling.{ComesTelling};
ghost use Rattle.event_move.specs.Moving.{CommitComes, placers_after};
ghost use Rattle.conflict_book.specs.Legless.{event_of};
ghost use Rattle.conflict_book.specs.Ranges.{IsInRange};
ghost use Rattle.conflict_book.specs.BookViews.{going_book};

use crate::book::SoundState;
use crate::event_def::Came;
use crate::legless::Legless;
use crate::spec_state::State;
use event_move::{abort, coalesce, commit, dispatch, split};
use event_step::step;
use place_policy::Placer;
use rv_core::{Leg, Naming};

/// Lets the next placer serve where so many commits end a phase, unless the last one serves already.
fn pass_on<P: Placer>(placers: &mut Vec<P>, phase: u32, commits: u32)
    requires { 0 < phase }
    ensures { let before = map P.policy placers.old.items in
        map P.policy placers.new.items ≡ placers_after_commit phase commits before }
{
    if commits % phase == 0 && placers.len() > 1 {
        let _ = placers.remove(0);
    }
}

/// Passes on to the next placer where it is due after a commit that was made; after one that was refused the placers
/// stay.
pub(crate) fn pass_after<N: Naming, P: Placer>(state: &State<N>, placers: &mut Vec<P>, came: &Came)
    ensures { let view = state.now.view in
        let before = map P.policy placers.old.items in
        map P.policy placers.new.items
        ≡ placers_after view.settings.phase (length view.history) came.now before }
{
    state.has_limits();
    if let Came::Made(_) = came {
        pass_on(placers, state.settings().phase, state.commit_count());
    }
}

/// The event `Commit`, after which another placer may serve.
fn commit_event<N: Naming, P: Placer>(state: &mut State<N>, placers: &mut Vec<P>) -> Came
    requires sound { Sound N.image state.old.view }
    requires fresh { state.old.effect ≡ nothing }
    ensures { let before = map P.policy placers.old.items in
        (taps : List TapValue) (steps : ℕ)
        → ComesTelling {N = N} (book_of state.old.view before taps steps) event.Commit result state.new.view
        (map P.policy placers.new.items) state.new.effect }
{
    let came = commit(state);
    pass_after(state, placers, &came);
    came
}

/// Law: an event without a leg whose tile is there may be handed in.
fn is_given<N: Naming>(state: &State<N>, event: Legless)
    requires { IsInRange {N = N} state.now.view.settings (event_of event) }
    ensures { IsGiven {N = N} N.image state.now.view.settings (event_of event) }
{
    state.has_limits();
    match event {
        Legless::Dispatch { .. }
        | Legless::Abort { .. }
        | Legless::Commit
        | Legless::Coalesce { .. }
        | Legless::Split { .. } => {}
    }
}

/// Law: a leg may be handed in for any tile and core of the machine, since its type keeps of which image it is.
fn leg_is_given<N: Naming>(state: &State<N>, tile: u32, core: u32, leg: &Leg<N>)
    requires tile { tile < state.now.view.settings.tiles }
    requires core { core < state.now.view.settings.cores }
    ensures { IsGiven {N = N} N.image state.now.view.settings (event.Step tile core leg.now) }
{
    state.has_limits();
    let _ = leg.from();
}

/// The outcome of an event without a leg, on one of the machine's tiles.
fn come<N: Naming, P: Placer>(state: &mut State<N>, placers: &mut Vec<P>, event: Legless) -> Came
    requires sound { Sound N.image state.old.view }
    requires given { IsInRange {N = N} state.old.view.settings (event_of event) }
    requires fresh { state.old.effect ≡ nothing }
    ensures { let before = map P.policy placers.old.items in
        (taps : List TapValue) (steps : ℕ)
        → ComesTelling {N = N} (book_of state.old.view before taps steps) (event_of event) result state.new.view
        (map P.policy placers.new.items) state.new.effect }
{
    match event {
        Legless::Dispatch { tile } => dispatch(state, tile),
        Legless::Abort { tile } => abort(state, tile),
        Legless::Commit => commit_event(state, placers),
        Legless::Coalesce { tile } => coalesce(state, tile),
        Legless::Split { tile } => split(state, tile),
    }
}

/// The outcome of a leg that is handed in for one of the machine's cores.
fn come_step<N: Naming, P: Placer>(
    state: &mut State<N>,
    placers: &mut Vec<P>,
    tile: u32,
    core: u32,
    leg: &Leg<N>,
) -> Came
    requires sound { Sound N.image state.old.view }
    requires tile { tile < state.old.view.settings.tiles }
    requires core { core < state.old.view.settings.cores }
    requires fresh { state.old.effect ≡ nothing }
    ensures { let before = map P.policy placers.old.items in
        (taps : List TapValue) (steps : ℕ)
        → ComesTelling {N = N} (book_of state.old.view before taps steps) (event.Step tile core leg.now) result
        state.new.view (map P.policy placers.new.items) state.new.effect }
{
    step(state, placers.as_mut_slice(), tile, core, leg)
}

impl<N: Naming> SoundState<N> {
    /// The outcome of an event without a leg, on one of the machine's tiles.
    pub(crate) fn come<P: Placer>(&mut self, placers: &mut Vec<P>, event: Legless) -> Came
        requires given { IsInRange {N = N} self.old.view.settings (event_of event) }
        requires fresh { self.old.effect ≡ nothing }
        ensures comes { let before = map P.policy placers.old.items in
            (taps : List TapValue)
            → ComesTelling {N = N} (going_book self.old before taps) (event_of event) result self.new.view
            (map P.policy placers.new.items) self.new.effect }
        ensures settings { self.new.view.settings ≡ self.old.view.settings }
        ensures steps { self.new.steps ≡ self.old.steps }
    {
        is_given(&self.state, event);
        come(&mut self.state, placers, event)
    }

    /// The outcome of a leg that is handed in for one of the machine's cores.
    pub(crate) fn come_step<P: Placer>(
        &mut self,
        placers: &mut Vec<P>,
        tile: u32,
        core: u32,
        leg: &Leg<N>,
    ) -> Came
        requires tile { tile < self.old.view.settings.tiles }
        requires core { core < self.old.view.settings.cores }
        requires fresh { self.old.effect ≡ nothing }
        ensures comes { let before = map P.policy placers.old.items in
            (taps : List TapValue)
            → ComesTelling {N = N} (going_book self.old before taps) (event.Step tile core leg.now) result self.new.view
            (map P.policy placers.new.items) self.new.effect }
        ensures settings { self.new.view.settings ≡ self.old.view.settings }
        ensures steps { self.new.steps ≡ self.old.steps }
    {
        leg_is_given(&self.state, tile, core, leg);
        come_step(&mut self.state, placers, tile, core, leg)
    }
}
