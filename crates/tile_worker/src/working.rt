//! One worker.

ghost use Rattle.std.specs.Prelude.{◌≡◌, ◌<◌, ◌≤◌};

use crate::carried::Carried;
use crate::crew::Crew;
use crate::errand::Errand;
use crate::gate::Gate;
use crate::hold::Found;
use crate::locks::BookLock;
use crate::round::Round;
use crate::tally::{Part, Tallied};
use crate::waiting::Bell;
use guest_image::Image;
use place_policy::Placer;
use rv_core::Naming;
use std::sync::ledger::Ledger;
use std::sync::{Mutex, Wait};
use trace_tap::Tap;

/// Drives the tiles of a worker, as `work` says, over any lock in which a book stands. Its legs run on the decoded text
/// where there is one. It isn't inlined into `fan`, which calls itself and would keep room for legs at each depth.
#[inline(never)]
pub(crate) fn drive<
    N: Naming,
    L: Ledger,
    K: BookLock<N, Part<L>, Errand<N>>,
    G: Gate + Sync,
    R: Wait,
>(rt: &R, crew: &Crew<'_, N, G>, lock: &K, part: Part<L>, worker: u32) -> Part<L>
    requires { worker < crew.now.workers }
    ensures amount { K.amount part ≤ K.amount result }
    ensures left { K.has_left result }
{
    let settings = lock.settings(rt);
    let mut carried = Carried {
        part,
        round: Round::new(worker, crew.workers),
        errand: Errand::new(crew.image, settings.budget),
    };
    let mut legs = 0u64;
    for _ in rt.forever() {
        // The lock is free again once the hold returns, so that the leg is computed outside it.
        match lock.hold(rt, crew.image, &mut carried, &crew.bell) {
            Found::Done => {
                crew.bell.ring();
                return carried.part;
            }
            Found::Nothing => carried.round.let_others(rt, &crew.bell),
            Found::Core => {
                let Carried { round, errand, .. } = &mut carried;
                errand.compute(crew.image, &crew.decoded, &settings);
                round.learn_leg(errand.leg().steps());
                legs = legs.saturating_add(1);
                crew.gate.pass(worker, legs);
            }
        }
    }
    unreachable!()
}

/// Drives the tiles `t` with `t % workers == worker`, one event in each hold of the lock, until the run is over, memory
/// runs out, or the book has 2^63 events; and gives back its part, to which each event that it made is counted.
///
/// It hands in legs of its running cores, each after it passed the `Gate`, and dispatches where an own tile has an idle
/// task and a free core, or brings a spilled task back that is the first one there. Only where it has none of these, or
/// all of them were refused, it makes the event for the least task. What was refused is skipped for 512 events of the
/// book: a core whose leg stalled gets no leg, and in its tile, as in one whose dispatch was refused, no dispatch is
/// tried, even if its queue gets a task meanwhile. A tile that stalled at its full commit queue is tried again once
/// that has a free place.
///
/// Where its last 16 legs were short the worker asks for a dispatch in any own tile, and where that stalls or finds all
/// cores busy it skips the whole tile, its cores too. So it makes the events for the least tasks then, as a run without
/// workers does, and looks at a leg once in 512 events. Where legs are long it computes up to four of a core before it
/// hands in the first, and leaves the least task to the worker whose core it runs on.
///
/// A hold costs one event and a look at each core of its own tiles; a leg is computed outside the lock, on the text
/// itself, since no decoded one is handed in.
pub fn work<N: Naming, L: Ledger, P: Placer, T: Tap, G: Gate + Sync, R: Wait>(
    rt: &R,
    image: &Image,
    lock: &Mutex<Tallied<N, L, P, T>>,
    part: Part<L>,
    worker: u32,
    workers: u32,
    gate: &G,
) -> Part<L>
    requires image { image.now ≡ N.image }
    requires workers { (worker < workers) × (workers ≤ 16) }
    ensures { part.amount ≤ result.amount }
{
    let crew = Crew {
        image,
        decoded: None,
        bell: Bell::new(false),
        gate,
        workers,
    };
    drive::<N, L, _, G, R>(rt, &crew, lock, part, worker)
}
