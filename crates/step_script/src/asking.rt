//! What acts request of the book, except those that are an event by themselves.

ghost use Rattle.std.specs.Prelude.{◌≡◌, ◌<◌, IfOk, IfSome, IsNone, List, OnErr};
ghost use Rattle.conflict_book.specs.BookViews.{machine_view, view_of};
ghost use Rattle.rv_core.specs.LegValue.{LegValue};
ghost use Rattle.conflict_book.specs.spec_state.declared.task.Where.TheVariants as where_;
ghost use Rattle.conflict_book.specs.spec_state.Least.{IsLeast};
ghost use Rattle.conflict_book.specs.event_def.End.{IsOver};
ghost use Rattle.step_script.specs.Playing.{HeldLeg, without_held_leg};
ghost use Rattle.step_script.specs.Asking.{AskedIsInRange, AsksAdvance, AsksGive, AsksStep, AsksTake, asks_of};

use crate::asked::Asked;
use crate::event_def::Reply;
use crate::event_prelude::least_going;
use crate::holding::{Held, forget, hand_out, hold};
use crate::running::{leg_at, run_at};
use crate::spec_state::{Status, TaskId, Where};
use conflict_book::{Book, Legless};
use guest_image::Image;
use place_policy::Placer;
use rv_core::{Leg, Naming};
use std::alloc::AllocError;
use trace_tap::Tap;

/// `step`: runs the leg of the running task on a core, which replaces the one that was ready.
pub(crate) fn ask_step<N: Naming, P: Placer, T: Tap>(
    leg: &mut Leg<N>,
    image: &Image,
    book: &Book<N, P, T>,
    tile: u32,
    core: u32,
) -> Asked
    requires image { image.now ≡ N.image }
    requires tile { tile < (machine_view book.now).settings.tiles }
    requires core { core < (machine_view book.now).settings.cores }
    ensures asks { let book = view_of P.policy T.notes book.now in
        (held : List HeldLeg) → AsksStep {N = N} N.image tile core (record { book = book; held = held })
        (asks_of result leg.new) held }
    ensures within { AskedIsInRange N (machine_view book.now).settings result }
{
    if book.end().is_some() {
        return Asked::Says(Reply::Ended);
    }
    if run_at(leg, image, book, tile, core) {
        Asked::Ready { tile, core }
    } else {
        Asked::Says(Reply::Stale)
    }
}

/// `take`: the leg of the running task on a core is held; where no task runs there, nothing is held for that core.
pub(crate) fn ask_take<N: Naming, P: Placer, T: Tap>(
    image: &Image,
    book: &Book<N, P, T>,
    held: &mut Vec<Held<N>>,
    tile: u32,
    core: u32,
) -> Result<Asked, AllocError>
    requires image { image.now ≡ N.image }
    requires tile { tile < (machine_view book.now).settings.tiles }
    requires core { core < (machine_view book.now).settings.cores }
    ensures asks { let book = view_of P.policy T.notes book.now in
        IfOk result (λ asked. (leg : LegValue) → AsksTake {N = N} N.image tile core
        (record { book = book; held = held.old.items }) (asks_of asked leg) held.new.items) }
    ensures within { IfOk result (AskedIsInRange N (machine_view book.now).settings) }
    ensures out_of_memory { OnErr result (held.new.items ≡ without_held_leg tile core held.old.items) }
{
    match leg_at(image, book, tile, core) {
        Some(leg) => {
            hold(held, tile, core, leg)?;
            Ok(Asked::Says(Reply::Ok))
        }
        None => {
            forget(held, tile, core);
            Ok(Asked::Says(Reply::Stale))
        }
    }
}

/// `give`: the leg that is held for a core replaces the one that was ready.
pub(crate) fn ask_give<N: Naming, P: Placer, T: Tap>(
    leg: &mut Leg<N>,
    book: &Book<N, P, T>,
    held: &mut Vec<Held<N>>,
    tile: u32,
    core: u32,
) -> Asked
    requires tile { tile < (machine_view book.now).settings.tiles }
    requires core { core < (machine_view book.now).settings.cores }
    ensures asks { let book = view_of P.policy T.notes book.now in
        AsksGive {N = N} tile core (record { book = book; held = held.old.items }) (asks_of result leg.new)
        held.new.items }
    ensures within { AskedIsInRange N (machine_view book.now).settings result }
{
    if book.end().is_some() {
        return Asked::Says(Reply::Ended);
    }
    match hand_out(held, tile, core) {
        Some(found) => {
            *leg = found;
            Asked::Ready { tile, core }
        }
        None => Asked::Says(Reply::Stale),
    }
}

/// A leg of the least task, which runs.
fn ask_running<N: Naming, P: Placer, T: Tap>(
    leg: &mut Leg<N>,
    image: &Image,
    book: &Book<N, P, T>,
    id: TaskId,
) -> Asked
    requires image { image.now ≡ N.image }
    requires goes_on { IsOver (machine_view book.now) → ⊥ }
    requires least { IsLeast (machine_view book.now) (where_.Running id) }
    ensures asks { let book = view_of P.policy T.notes book.now in
        (held : List HeldLeg) → AsksAdvance {N = N} N.image (record { book = book; held = held })
        (asks_of result leg.new) held }
    ensures within { AskedIsInRange N (machine_view book.now).settings result }
{
    let state = book.state();
    let tile = state.tile_of(id);
    match state.task(id).status {
        Status::Running { core } => {
            if run_at(leg, image, book, tile, core) {
                Asked::Ready { tile, core }
            } else {
                unreachable!()
            }
        }
        Status::Idle | Status::Trapped { .. } | Status::Finished => unreachable!(),
    }
}

/// The least task, found once, while a run continues; None if the run is over.
fn least_of<N: Naming, P: Placer, T: Tap>(book: &Book<N, P, T>) -> Option<Where>
    ensures some { let view = machine_view book.now in
        IfSome result (λ least. (IsOver view → ⊥) × IsLeast view least) }
    ensures none { IsNone result → IsOver (machine_view book.now) }
{
    least_going(book.state())
}

/// `advance`: the event for the least task.
pub(crate) fn ask_advance<N: Naming, P: Placer, T: Tap>(
    leg: &mut Leg<N>,
    image: &Image,
    book: &Book<N, P, T>,
) -> Asked
    requires image { image.now ≡ N.image }
    ensures asks { let book = view_of P.policy T.notes book.now in
        (held : List HeldLeg) → AsksAdvance {N = N} N.image (record { book = book; held = held })
        (asks_of result leg.new) held }
    ensures within { AskedIsInRange N (machine_view book.now).settings result }
{
    book.is_sound();
    match least_of(book) {
        None => Asked::Says(Reply::Ended),
        Some(Where::Idle(id)) => Asked::Legless(Legless::Dispatch {
            tile: book.state().tile_of(id),
        }),
        Some(Where::Running(id)) => ask_running(leg, image, book, id),
        Some(Where::Finished(_)) => Asked::Legless(Legless::Commit),
        Some(Where::Spilled(tile)) => Asked::Legless(Legless::Split { tile }),
        Some(Where::Trapped(_)) => unreachable!(),
    }
}
