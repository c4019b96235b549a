//! Legs that are run.

ghost use Rattle.std.specs.Prelude.{◌≡◌, ◌<◌, IfSome, IsNone, IsTrue, false};
ghost use Rattle.conflict_book.specs.BookViews.{machine_view, view_of};
ghost use Rattle.step_script.specs.Playing.{HasLegAt, NoneRuns};

use conflict_book::Book;
use guest_image::{Image, TEXT_START};
use place_policy::Placer;
use rv_core::{Core, Leg, Naming, run_leg_decoded};
use trace_tap::Tap;

/// The leg of the running task on a core, from the core that it has, with the quantum of the settings; None where
/// no task runs there.
pub(crate) fn leg_at<N: Naming, P: Placer, T: Tap>(
    image: &Image,
    book: &Book<N, P, T>,
    tile: u32,
    core: u32,
) -> Option<Leg<N>>
    requires image { image.now ≡ N.image }
    requires tile { tile < (machine_view book.now).settings.tiles }
    requires core { core < (machine_view book.now).settings.cores }
    ensures some { let book = view_of P.policy T.notes book.now in
        IfSome result (HasLegAt N.image book.view tile core) }
    ensures none { let book = view_of P.policy T.notes book.now in
        IsNone result → NoneRuns book.view tile core }
{
    let (quantum, budget) = (book.settings().quantum, book.settings().budget);
    let from = book.core_at(tile, core)?;
    Some(run_leg_decoded(book.decoded_text(), image, from, quantum, budget))
}

/// Runs the leg of the running task on a core in place of another leg, and returns whether a task runs there; if not,
/// the other leg stays.
pub(crate) fn run_at<N: Naming, P: Placer, T: Tap>(
    leg: &mut Leg<N>,
    image: &Image,
    book: &Book<N, P, T>,
    tile: u32,
    core: u32,
) -> bool
    requires image { image.now ≡ N.image }
    requires tile { tile < (machine_view book.now).settings.tiles }
    requires core { core < (machine_view book.now).settings.cores }
    ensures some { let book = view_of P.policy T.notes book.now in
        IsTrue result → HasLegAt N.image book.view tile core leg.new }
    ensures none { let book = view_of P.policy T.notes book.now in
        result ≡ false → NoneRuns book.view tile core }
{
    let (quantum, budget) = (book.settings().quantum, book.settings().budget);
    match book.core_in_place(tile, core) {
        Some(from) => {
            leg.run_again(book.decoded_text(), image, from, quantum, budget);
            true
        }
        None => false,
    }
}

/// Some leg, from the first word of the text on.
pub(crate) fn first_leg<N: Naming, P: Placer, T: Tap>(image: &Image, book: &Book<N, P, T>) -> Leg<N>
    requires image { image.now ≡ N.image }
{
    let start = Core::start(image.version(), TEXT_START, 0, [0; 3]);
    run_leg_decoded(
        book.decoded_text(),
        image,
        &start,
        1,
        book.settings().budget,
    )
}
