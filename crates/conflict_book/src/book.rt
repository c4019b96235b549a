//! The book, and the sound state in it.

ghost use Rattle.std.specs.Prelude.{◌≡◌};
ghost use Rattle.event_step.specs.spec_state.Effects.{nothing};
ghost use Rattle.event_step.specs.event_def.Book.{next_count};
ghost use Rattle.event_step.specs.spec_law.Sound.{Sound};

use crate::spec_state::State;
use place_policy::Placer;
use rv_core::{Leg, Naming};
use std::marker::Model;
use trace_tap::Tap;

/// A sound state, and how many events have been made on it, up to 2^64 - 1. Its type keeps the soundness. Beside them
/// stands the leg that was run last for the least task, at first some leg, whose memory serves the next one.
#[derive(Drop)]
pub struct SoundState<N: Naming> {
    pub(crate) state: State<N>,
    pub(crate) steps: u64,
    pub(crate) leg: Leg<N>,
}

impl<N: Naming> Model for SoundState<N> {
    ghost use Rattle.event_step.specs.event_def.Book.{CountedView};
    ghost use Rattle.event_step.specs.spec_law.Sound.{Sound};

    ghost Value = { CountedView };

    ghost view = { λ s. record { view = s.state.view; effect = s.state.effect; steps = s.steps } };

    ghost invariant = { λ s. Sound N.image s.state.view };
}

/// The book of a machine: a sound state, the placers that are left, of which the first serves, the taps that note each
/// event, and whether it was stopped.
///
/// It has no invariant of its own, so that its placers and taps may be boxed; [`SoundState`] keeps what is true of
/// every book.
#[derive(Drop)]
pub struct Book<N: Naming, P: Placer = Box<dyn Placer + Send>, T: Tap = Box<dyn Tap + Send>> {
    pub(crate) sound: SoundState<N>,
    pub(crate) placers: Vec<P>,
    pub(crate) taps: Vec<T>,
    pub(crate) stopped: bool,
}

/// Forgets what the last event did beside its one change.
fn forget<N: Naming>(state: &mut State<N>)
    ensures view { state.new.view ≡ state.old.view }
    ensures effect { state.new.effect ≡ nothing }
{
    state.effect.clear();
}

impl<N: Naming> SoundState<N> {
    /// Law: what the type keeps of the view.
    pub(crate) fn is_sound(&self)
        ensures { Sound N.image self.now.view }
    {
        let _ = &self.state;
    }

    /// The state.
    pub(crate) fn state(&self) -> &State<N>
        ensures view { result.now.view ≡ self.now.view }
        ensures effect { result.now.effect ≡ self.now.effect }
        ensures sound { Sound N.image self.now.view }
    {
        &self.state
    }

    /// Forgets what the last event did beside its one change, before another one.
    pub(crate) fn forget(&mut self)
        ensures { self.new ≡ record self.old { effect = nothing } }
    {
        forget(&mut self.state);
    }

    /// Counts an event that was made.
    pub(crate) fn count(&mut self)
        ensures { self.new ≡ record self.old { steps = next_count self.old.steps } }
    {
        self.steps = self.steps.saturating_add(1);
    }
}
