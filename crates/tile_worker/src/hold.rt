//! What a worker does with the book in one hold of the lock: at most one event, and a look for the core of its next
//! leg.

ghost use Rattle.std.specs.Prelude.{◌≡◌, ◌<◌};
ghost use Rattle.conflict_book.specs.BookViews.{machine_view, view_of};
ghost use Rattle.tile_worker.specs.Counts.{CountsSo};
ghost use Rattle.tile_worker.specs.Founds.{IsDoneAt};
ghost use Rattle.tile_worker.specs.Holds.{HoldsOnce};

use crate::errand::Errand;
use crate::round::{Round, TileCore};
use crate::spec_state::{Status, Task, Where};
use conflict_book::{Advance, Book, Legless, Reply};
use guest_image::Image;
use place_policy::Placer;
use rv_core::{Leg, Naming};
use trace_tap::Tap;

/// What a worker has found in a hold.
#[derive(Clone, Copy)]
pub(crate) enum Found {
    /// The core of its next leg, which it carries.
    Core,
    /// None of its cores has a leg to be computed.
    Nothing,
    /// It has nothing more to do: the run is over, memory runs out, or as many events were made as may be.
    Done,
}

/// The outcome of an event that was tried.
#[derive(Clone, Copy)]
pub(crate) enum Tried {
    /// It was made.
    Made,
    /// It was refused, and is to be tried again later.
    Waits,
    /// It was refused, as there is nothing for it any more.
    Missed,
    /// The run is over, or memory runs out.
    Over,
}

/// Dispatches in one of the machine's tiles. Where memory runs out the book is stopped.
#[tactic(auto, using(crate::proofs::Holding::event_tries))]
fn try_dispatch<N: Naming, P: Placer, T: Tap>(book: &mut Book<N, P, T>, tile: u32) -> Tried
    requires { tile < (machine_view book.old).settings.tiles }
    ensures { let old = view_of P.policy T.notes book.old in
        CountsSo N old result (view_of P.policy T.notes book.new) }
{
    match book.apply_legless(Legless::Dispatch { tile }).reply {
        Reply::Ok => Tried::Made,
        Reply::Busy | Reply::Stall => Tried::Waits,
        Reply::Empty | Reply::Stale | Reply::Firm => Tried::Missed,
        Reply::Ended => Tried::Over,
        Reply::Memory => {
            book.stop();
            Tried::Over
        }
    }
}

/// Brings back the least spilled task of one of the machine's tiles. Where memory runs out the book is stopped.
#[tactic(auto, using(crate::proofs::Holding::event_tries))]
fn try_split<N: Naming, P: Placer, T: Tap>(book: &mut Book<N, P, T>, tile: u32) -> Tried
    requires { tile < (machine_view book.old).settings.tiles }
    ensures { let old = view_of P.policy T.notes book.old in
        CountsSo N old result (view_of P.policy T.notes book.new) }
{
    match book.apply_legless(Legless::Split { tile }).reply {
        Reply::Ok => Tried::Made,
        Reply::Empty | Reply::Busy | Reply::Stall => Tried::Waits,
        Reply::Stale | Reply::Firm => Tried::Missed,
        Reply::Ended => Tried::Over,
        Reply::Memory => {
            book.stop();
            Tried::Over
        }
    }
}

/// Hands in a leg for one of the machine's cores. Where memory runs out the book is stopped.
#[tactic(auto, using(crate::proofs::Holding::event_tries))]
fn try_leg<N: Naming, P: Placer, T: Tap>(
    book: &mut Book<N, P, T>,
    place: TileCore,
    leg: &Leg<N>,
) -> Tried
    requires tile { place.tile < (machine_view book.old).settings.tiles }
    requires core { place.core < (machine_view book.old).settings.cores }
    ensures { let old = view_of P.policy T.notes book.old in
        CountsSo N old result (view_of P.policy T.notes book.new) }
{
    match book.apply_step(place.tile, place.core, leg).reply {
        Reply::Ok => Tried::Made,
        Reply::Empty | Reply::Busy | Reply::Stall => Tried::Waits,
        Reply::Stale | Reply::Firm => Tried::Missed,
        Reply::Ended => Tried::Over,
        Reply::Memory => {
            book.stop();
            Tried::Over
        }
    }
}

/// Makes the event for the least task. Where memory runs out the book is stopped.
#[tactic(auto, using(crate::proofs::Holding::advance_tries))]
fn try_advance<N: Naming, P: Placer, T: Tap>(book: &mut Book<N, P, T>, image: &Image) -> Tried
    requires image { image.now ≡ N.image }
    ensures { let old = view_of P.policy T.notes book.old in
        CountsSo N old result (view_of P.policy T.notes book.new) }
{
    match book.advance(image) {
        Advance::Moved { .. } | Advance::Committed => Tried::Made,
        Advance::Ended(_) => Tried::Over,
        Advance::Memory => {
            book.stop();
            Tried::Over
        }
    }
}

/// Whether the commit queue of a tile has a free place.
fn has_room<N: Naming, P: Placer, T: Tap>(book: &Book<N, P, T>, tile: u32) -> bool
    requires { tile < (machine_view book.now).settings.tiles }
{
    book.state().commit_free(tile) > 0
}

/// Tries those tiles again whose commit queue was full, and isn't any more.
fn wake<N: Naming, P: Placer, T: Tap>(book: &Book<N, P, T>, round: &mut Round) {
    for tile in 0..book.settings().tiles {
        if round.was_full(tile) && has_room(book, tile) {
            round.wake_tile(tile);
        }
    }
}

/// The core on which the least task runs; None where it doesn't run.
fn least_core<N: Naming, P: Placer, T: Tap>(book: &Book<N, P, T>) -> Option<TileCore> {
    let state = book.state();
    match state.least() {
        Some(Where::Running(id)) => core_of(state.task(id)),
        _ => None,
    }
}

/// The core on which a task runs; None where it doesn't run.
fn core_of(task: &Task) -> Option<TileCore> {
    match task.status {
        Status::Running { core } => Some(TileCore {
            tile: task.tile,
            core,
        }),
        Status::Idle | Status::Trapped { .. } | Status::Finished => None,
    }
}

/// Goes for a core of the worker's own, and returns whether there is one.
fn go_for_own<N: Naming, P: Placer, T: Tap>(
    book: &Book<N, P, T>,
    round: &Round,
    errand: &mut Errand<N>,
    found: Option<TileCore>,
) -> bool {
    // Called for its clauses: its task budget is the one that `N` names.
    let _settings = book.settings();
    let Some(place) = found else {
        return false;
    };
    if !round.is_own(place.tile) {
        return false;
    }
    match book.core_in_place(place.tile, place.core) {
        Some(core) => {
            errand.go_for(place, core);
            true
        }
        None => false,
    }
}

/// Skips for a while what stalled: the core, and in its tile all dispatches, but where its commit queue was full only
/// until that has a free place; where legs are short the whole tile.
fn rest_stalled<N: Naming, P: Placer, T: Tap>(
    book: &Book<N, P, T>,
    round: &mut Round,
    place: TileCore,
)
    requires tile { place.tile < (machine_view book.now).settings.tiles }
    requires core { place.core < (machine_view book.now).settings.cores }
{
    // Called for its clauses: a machine has at most sixteen tiles.
    let _settings = book.settings();
    if round.has_short_legs() {
        round.rest_whole(place.tile, book.steps());
    } else {
        round.rest_core(place, book.steps());
        round.rest_tile(place.tile, book.steps());
        round.note_full(place.tile, !has_room(book, place.tile));
    }
}

/// Hands in a leg, and lets the core and its tile be for a while where it stalls.
fn hand_in<N: Naming, P: Placer, T: Tap>(
    book: &mut Book<N, P, T>,
    round: &mut Round,
    place: TileCore,
    leg: &Leg<N>,
) -> Tried
    ensures { let old = view_of P.policy T.notes book.old in
        CountsSo N old result (view_of P.policy T.notes book.new) }
{
    let settings = book.settings();
    // No type proves that the settings are still those of the hold in which the core was found.
    if place.tile >= settings.tiles || place.core >= settings.cores {
        return Tried::Missed;
    }
    let tried = try_leg(book, place, leg);
    if let Tried::Waits = tried {
        rest_stalled(book, round, place);
    }
    tried
}

/// Whether a core of the tile may be free: no running task is there. `Book::ready` would look through the queue too, as
/// the dispatch does, which is refused where nothing is idle.
fn may_have_free_core<N: Naming, P: Placer, T: Tap>(book: &Book<N, P, T>, tile: u32) -> bool {
    for core in 0..book.settings().cores {
        if book.core_at(tile, core).is_none() {
            return true;
        }
    }
    false
}

/// Dispatches in a tile, or lets all of it be for a while where no core is free or no place is left.
fn ask_dispatch<N: Naming, P: Placer, T: Tap>(
    book: &mut Book<N, P, T>,
    round: &mut Round,
    tile: u32,
) -> Tried
    requires { tile < (machine_view book.old).settings.tiles }
    ensures { let old = view_of P.policy T.notes book.old in
        CountsSo N old result (view_of P.policy T.notes book.new) }
{
    // Called for its clauses: a machine has at most sixteen tiles.
    let _settings = book.settings();
    let tried = try_dispatch(book, tile);
    if let Tried::Waits = tried {
        round.rest_whole(tile, book.steps());
    } else if let Tried::Missed = tried {
        round.rest_tile(tile, book.steps());
    }
    tried
}

/// Whether the least spilled task of a tile comes before its least idle one, by their timestamps.
fn spilled_comes_first<N: Naming, P: Placer, T: Tap>(book: &Book<N, P, T>, tile: u32) -> bool
    requires { tile < (machine_view book.now).settings.tiles }
{
    let state = book.state();
    if state.block_len(tile) == 0 {
        return false;
    }
    let spilled = state.spilled_at(tile, 0);
    match state.idle(tile) {
        None => true,
        Some(id) => {
            let key = state.key_of(id);
            spilled.depth == 1 && key.domain.levels().is_empty() && spilled.ts < key.ts
        }
    }
}

/// Brings a spilled task back that comes before the idle ones, or else dispatches.
fn fill<N: Naming, P: Placer, T: Tap>(
    book: &mut Book<N, P, T>,
    round: &mut Round,
    tile: u32,
) -> Tried
    requires { tile < (machine_view book.old).settings.tiles }
    ensures { let old = view_of P.policy T.notes book.old in
        CountsSo N old result (view_of P.policy T.notes book.new) }
{
    // Called for its clauses: a machine has at most sixteen tiles.
    let _settings = book.settings();
    if spilled_comes_first(book, tile) {
        match try_split(book, tile) {
            Tried::Made => return Tried::Made,
            Tried::Over => return Tried::Over,
            Tried::Waits | Tried::Missed => {}
        }
    }
    let tried = try_dispatch(book, tile);
    if let Tried::Waits | Tried::Missed = tried {
        round.rest_tile(tile, book.steps());
    }
    tried
}

/// Dispatches in a tile: where legs are short also where no core is free, so that the whole tile is skipped.
fn dispatch_in<N: Naming, P: Placer, T: Tap>(
    book: &mut Book<N, P, T>,
    round: &mut Round,
    tile: u32,
) -> Tried
    requires { tile < (machine_view book.old).settings.tiles }
    ensures { let old = view_of P.policy T.notes book.old in
        CountsSo N old result (view_of P.policy T.notes book.new) }
{
    if round.has_short_legs() {
        ask_dispatch(book, round, tile)
    } else if may_have_free_core(book, tile) {
        fill(book, round, tile)
    } else {
        Tried::Missed
    }
}

/// Dispatches in the first of the worker's own tiles that isn't skipped and takes a dispatch.
fn dispatch_own<N: Naming, P: Placer, T: Tap>(book: &mut Book<N, P, T>, round: &mut Round) -> Tried
    ensures { let old = view_of P.policy T.notes book.old in
        CountsSo N old result (view_of P.policy T.notes book.new) }
{
    for tile in 0..book.settings().tiles {
        if round.tries_tile(tile, book.steps()) {
            match dispatch_in(book, round, tile) {
                Tried::Made => return Tried::Made,
                Tried::Over => return Tried::Over,
                Tried::Waits | Tried::Missed => {}
            }
        }
    }
    Tried::Missed
}

/// Goes for the next of the worker's own cores on which a task runs, and which isn't skipped.
fn go_on<N: Naming, P: Placer, T: Tap>(
    book: &Book<N, P, T>,
    round: &mut Round,
    errand: &mut Errand<N>,
) -> Found
    ensures { IsDoneAt (view_of P.policy T.notes book.now) result }
{
    let settings = book.settings();
    let steps = book.steps();
    for _ in 0..round.own_tiles(settings.tiles) * settings.cores {
        let Some(place) = round.next_core(settings.tiles, settings.cores) else {
            break;
        };
        if round.tries_core(place, steps) {
            if let Some(core) = book.core_in_place(place.tile, place.core) {
                errand.go_for(place, core);
                return Found::Core;
            }
        }
    }
    errand.go_for_none();
    Found::Nothing
}

/// Hands in the leg, if there is one, or else dispatches.
fn serve_own<N: Naming, P: Placer, T: Tap>(
    book: &mut Book<N, P, T>,
    round: &mut Round,
    errand: &mut Errand<N>,
) -> Tried
    ensures { let old = view_of P.policy T.notes book.old in
        CountsSo N old result (view_of P.policy T.notes book.new) }
{
    match errand.place {
        None => dispatch_own(book, round),
        Some(place) => match hand_in(book, round, place, errand.leg()) {
            Tried::Made => Tried::Made,
            Tried::Over => Tried::Over,
            Tried::Waits | Tried::Missed => {
                errand.go_for_none();
                dispatch_own(book, round)
            }
        },
    }
}

/// Makes the event for the least task, and then looks for the core of the next leg.
#[tactic(auto, using(crate::proofs::Holding::counts_hold))]
fn advance_least<N: Naming, P: Placer, T: Tap>(
    book: &mut Book<N, P, T>,
    image: &Image,
    round: &mut Round,
    errand: &mut Errand<N>,
) -> Found
    requires image { image.now ≡ N.image }
    ensures once { let old = view_of P.policy T.notes book.old in
        HoldsOnce N old (view_of P.policy T.notes book.new) }
    ensures done { IsDoneAt (view_of P.policy T.notes book.new) result }
{
    match try_advance(book, image) {
        Tried::Over => Found::Done,
        Tried::Made | Tried::Waits | Tried::Missed => go_on(book, round, errand),
    }
}

/// Makes the event for the least task, unless others go on.
#[tactic(auto, using(crate::proofs::Holding::counts_hold, crate::proofs::Holding::rests))]
fn advance_idle<N: Naming, P: Placer, T: Tap>(
    book: &mut Book<N, P, T>,
    image: &Image,
    round: &Round,
) -> Found
    requires image { image.now ≡ N.image }
    ensures once { let old = view_of P.policy T.notes book.old in
        HoldsOnce N old (view_of P.policy T.notes book.new) }
    ensures done { IsDoneAt (view_of P.policy T.notes book.new) result }
{
    if round.is_behind_at(book.steps()) {
        return Found::Nothing;
    }
    match try_advance(book, image) {
        Tried::Over => Found::Done,
        Tried::Made | Tried::Waits | Tried::Missed => Found::Nothing,
    }
}

/// Where the least task runs on a core of the worker's own, goes for that core, even if it is skipped otherwise; where
/// it runs on another's, that one computes its leg, and this one waits while others go on. Else makes the event for the
/// least task.
#[tactic(auto, using(crate::proofs::Holding::rests))]
fn help_least<N: Naming, P: Placer, T: Tap>(
    book: &mut Book<N, P, T>,
    image: &Image,
    round: &mut Round,
    errand: &mut Errand<N>,
) -> Found
    requires image { image.now ≡ N.image }
    ensures once { let old = view_of P.policy T.notes book.old in
        HoldsOnce N old (view_of P.policy T.notes book.new) }
    ensures done { IsDoneAt (view_of P.policy T.notes book.new) result }
{
    let place = least_core(book);
    if go_for_own(book, round, errand, place) {
        return Found::Core;
    }
    if place.is_some() && round.others_go_on(book.steps()) {
        errand.go_for_none();
        return Found::Nothing;
    }
    advance_least(book, image, round, errand)
}

/// A hold in which nothing of the worker's own is left to be tried. Where its legs are short, or no tile is its own,
/// all of that is skipped, and it makes only the events for the least tasks.
#[tactic(auto)]
fn serve_others<N: Naming, P: Placer, T: Tap>(
    book: &mut Book<N, P, T>,
    image: &Image,
    round: &mut Round,
    errand: &mut Errand<N>,
) -> Found
    requires image { image.now ≡ N.image }
    ensures once { let old = view_of P.policy T.notes book.old in
        HoldsOnce N old (view_of P.policy T.notes book.new) }
    ensures done { IsDoneAt (view_of P.policy T.notes book.new) result }
{
    let tiles = book.settings().tiles;
    if round.has_short_legs() || round.own_tiles(tiles) == 0 {
        round.go_idle(tiles);
        advance_idle(book, image, round)
    } else {
        help_least(book, image, round, errand)
    }
}

/// A look for the core of the next leg after an event was made, unless a further leg of this core is ready. Where legs
/// are short it has none: the worker asks for a dispatch next, until its tiles are skipped.
fn go_on_after<N: Naming, P: Placer, T: Tap>(
    book: &Book<N, P, T>,
    round: &mut Round,
    errand: &mut Errand<N>,
) -> Found
    ensures { IsDoneAt (view_of P.policy T.notes book.now) result }
{
    if errand.take_next() {
        Found::Core
    } else if round.has_short_legs() {
        errand.go_for_none();
        Found::Nothing
    } else {
        go_on(book, round, errand)
    }
}

/// A hold in which something of the worker's own may be tried: the leg is handed in, or else a dispatch is made; then
/// a look for the core of the next leg.
#[tactic(auto, using(crate::proofs::Holding::counts_hold, crate::proofs::Holding::refused_holds))]
fn serve_awake<N: Naming, P: Placer, T: Tap>(
    book: &mut Book<N, P, T>,
    image: &Image,
    round: &mut Round,
    errand: &mut Errand<N>,
) -> Found
    requires image { image.now ≡ N.image }
    ensures once { let old = view_of P.policy T.notes book.old in
        HoldsOnce N old (view_of P.policy T.notes book.new) }
    ensures done { IsDoneAt (view_of P.policy T.notes book.new) result }
{
    match serve_own(book, round, errand) {
        Tried::Over => Found::Done,
        Tried::Made => go_on_after(book, round, errand),
        Tried::Waits | Tried::Missed => match go_on(book, round, errand) {
            Found::Core => Found::Core,
            Found::Nothing | Found::Done => serve_others(book, image, round, errand),
        },
    }
}

/// A look for a core where all of the worker's own was skipped until now, so that it learns whether legs are still
/// short.
fn look_again<N: Naming, P: Placer, T: Tap>(
    book: &Book<N, P, T>,
    round: &mut Round,
    errand: &mut Errand<N>,
) -> Found
    ensures { IsDoneAt (view_of P.policy T.notes book.now) result }
{
    if round.wakes() {
        go_on(book, round, errand)
    } else {
        Found::Nothing
    }
}

/// One hold of the lock: the leg is handed in, or else a task comes back or is dispatched; then a look for the core of
/// the next leg. Only where none of these is made and no core is found, or while all is skipped, the event for the
/// least task. At most one of these events is made.
#[tactic(auto, using(crate::proofs::Holding::rests))]
pub(crate) fn serve<N: Naming, P: Placer, T: Tap>(
    book: &mut Book<N, P, T>,
    image: &Image,
    round: &mut Round,
    errand: &mut Errand<N>,
) -> Found
    requires image { image.now ≡ N.image }
    ensures once { let old = view_of P.policy T.notes book.old in
        HoldsOnce N old (view_of P.policy T.notes book.new) }
    ensures done { IsDoneAt (view_of P.policy T.notes book.new) result }
{
    if round.is_idle(book.steps()) {
        return advance_idle(book, image, round);
    }
    wake(book, round);
    match look_again(book, round, errand) {
        Found::Core => Found::Core,
        Found::Nothing | Found::Done => serve_awake(book, image, round, errand),
    }
}
