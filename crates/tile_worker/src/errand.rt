//! The legs that a worker computes between two holds of the lock.

ghost use Rattle.std.specs.Prelude.{◌≡◌, ◌≤◌};
ghost use Rattle.conflict_book.specs.spec_state.Settings.{IsValid};

use crate::round::TileCore;
use crate::spec_state::Settings;
use crate::waiting::LONG_LEG;
use guest_image::{Image, TEXT_START};
use rv_core::{Decoded, Leg, Naming, NotedCore, Stop, run_leg};

/// So many legs of a core a worker computes one after another where they are long, before it hands in the first.
const LEGS_AHEAD: u32 = 4;

/// Places for legs of one core, each of which begins where the one before ends. No array, since a leg's type has a
/// parameter.
#[derive(Drop)]
struct Legs<N: Naming> {
    first: Leg<N>,
    second: Leg<N>,
    third: Leg<N>,
    fourth: Leg<N>,
}

impl<N: Naming> Legs<N> {
    /// The leg at a place, counted from 0; the last one at each further place.
    fn at(&self, place: u32) -> &Leg<N> {
        match place {
            0 => &self.first,
            1 => &self.second,
            2 => &self.third,
            _ => &self.fourth,
        }
    }

    /// The leg at a place, counted from 0, to be changed; the last one at each further place.
    fn at_mut(&mut self, place: u32) -> &mut Leg<N> {
        match place {
            0 => &mut self.first,
            1 => &mut self.second,
            2 => &mut self.third,
            _ => &mut self.fourth,
        }
    }
}

/// The core for which a worker computes legs, as it stood in the hold in which it was found, and those legs. All keep
/// their places from hold to hold, so that no more of them moves than the core that is found.
#[derive(Drop)]
pub(crate) struct Errand<N: Naming> {
    /// The core from which the leg was computed that is to be handed in; None where there is none.
    pub(crate) place: Option<TileCore>,
    from: NotedCore,
    legs: Legs<N>,
    next: u32,
    ready: u32,
    ghost within: { from.used ≤ N.budget },
}

impl<N: Naming> Errand<N> {
    /// That of a worker before its first hold: it has no leg to hand in.
    pub(crate) fn new(image: &Image, budget: u32) -> Errand<N>
        requires image { image.now ≡ N.image }
        requires budget { budget ≡ N.budget }
    {
        let from = NotedCore::start(image.version(), TEXT_START, 0, [0; 3]);
        Errand {
            place: None,
            // Made in place: a leg is large, and a local of its own would take room on the stack.
            legs: Legs {
                first: run_leg(image, from.core(), 1, budget),
                second: run_leg(image, from.core(), 1, budget),
                third: run_leg(image, from.core(), 1, budget),
                fourth: run_leg(image, from.core(), 1, budget),
            },
            from,
            next: 0,
            ready: 0,
        }
    }

    /// Goes for a core that was found.
    pub(crate) fn go_for(&mut self, place: TileCore, core: &NotedCore)
        requires { core.now.used ≤ N.budget }
    {
        let Errand {
            place: old,
            from,
            next,
            ready,
            ..
        } = self;
        from.put(core);
        *old = Some(place);
        *next = 0;
        *ready = 0;
    }

    /// Has no leg to hand in.
    pub(crate) fn go_for_none(&mut self) {
        self.place = None;
        self.next = 0;
        self.ready = 0;
    }

    /// The leg that is handed in next, where there is one.
    pub(crate) fn leg(&self) -> &Leg<N> {
        self.legs.at(self.next)
    }

    /// Goes to the leg that begins where the one ends that was handed in, and returns whether there is one.
    pub(crate) fn take_next(&mut self) -> bool {
        let has_next = self.ready.saturating_sub(self.next) > 1;
        if has_next {
            self.next = self.next.saturating_add(1);
        }
        has_next
    }

    /// Computes the next leg of the core, on the decoded text where there is one, and returns whether a further one is
    /// to be computed too: where this one was long, and stopped within its quantum.
    fn compute_one(
        &mut self,
        image: &Image,
        decoded: &Option<Decoded<N>>,
        settings: &Settings,
    ) -> bool
        requires image { image.now ≡ N.image }
        requires valid { IsValid settings.now }
        requires budget { settings.now.budget ≡ N.budget }
    {
        let (quantum, budget) = (settings.quantum, settings.budget);
        let Errand {
            from,
            legs,
            ready,
            ..
        } = self;
        let leg = legs.at_mut(*ready);
        match decoded {
            Some(text) => leg.run_again(text, image, from, quantum, budget),
            None => run_on_text(leg, image, from, quantum, budget),
        }
        *ready = ready.saturating_add(1);
        // Called for its clauses: the core is within the task budget.
        let _to = leg.to();
        leg.put_end(from);
        leg.steps() >= LONG_LEG && leg.stop() == Stop::Quantum
    }

    /// Computes legs of the core that was found, unless one is ready.
    pub(crate) fn compute(
        &mut self,
        image: &Image,
        decoded: &Option<Decoded<N>>,
        settings: &Settings,
    )
        requires image { image.now ≡ N.image }
        requires valid { IsValid settings.now }
        requires budget { settings.now.budget ≡ N.budget }
    {
        if self.next < self.ready {
            return;
        }
        for _ in 0..LEGS_AHEAD {
            if !self.compute_one(image, decoded, settings) {
                return;
            }
        }
    }
}

/// Becomes the leg of a core on the text itself. No part of `compute`, where it would take room of its own at each leg.
#[inline(never)]
fn run_on_text<N: Naming>(
    leg: &mut Leg<N>,
    image: &Image,
    from: &NotedCore,
    quantum: u32,
    budget: u32,
)
    requires image { image.now ≡ N.image }
    requires budget { budget ≡ N.budget }
    requires quantum { (1 ≤ quantum) × (quantum ≤ 1024) }
    requires used { from.now.used ≤ budget }
{
    *leg = run_leg(image, from.core(), quantum, budget);
}
