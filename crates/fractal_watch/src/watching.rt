//! An image is watched from the opening to what comes at the end.

ghost use Rattle.std.specs.Prelude.{◌≡◌, ◌<◌, ◌^◌, All, length, map, []};
ghost use Rattle.guest_image.specs.ImageValue.{IsImage};
ghost use Rattle.watch_play.specs.spec_state.Settings.{IsNamed};
ghost use Rattle.watch_play.specs.conflict_book.BookViews.{machine_view, view_of};
ghost use Rattle.command_line.specs.Requests.{IsLimited};
ghost use Rattle.watch_play.specs.step_script.Ranges.{ActIsInRange};
ghost use Rattle.watch_play.specs.Courses.{course_of};
ghost use Rattle.watch_play.specs.Telling.{Plan, Tells};
ghost use Rattle.watch_play.specs.Texts.{IsTellable};
ghost use Rattle.fractal_watch.specs.Telling.{TellsBookOf, TellsRunOf};
ghost use Rattle.fractal_watch.specs.Words.{IsInRanges};

use crate::closing::{break_off, finish};
use crate::conflict_book::Book;
use crate::step_script::Act;
use crate::watch_text::CourseWord;
use crate::words::Asking;
use guest_image::Image;
use place_policy::Placer;
use program_call::{NO_MEMORY, Outcome};
use rv_core::Naming;
use sim_io::Sink;
use std::alloc::Global;
use trace_tap::{LastN, Tap};
use watch_play::{Play, Printer, StoryStop, Watch, play_course, tell_opening};

/// Prints an opening, plays from it, and prints that.
fn tell_course<N: Naming, P: Placer, T: Tap, K: Sink>(
    watch: &mut Watch<N, P, T>,
    sink: &mut K,
    image: &Image,
    course: CourseWord,
    script: Vec<Act>,
) -> Result<(), StoryStop>
    requires image { image.now ≡ N.image }
    requires few { length script.items < 2 ^ 32 }
    requires telling { IsTellable watch.old.telling }
    requires moments { watch.old.printer.told.moments ≡ 0 }
    requires held { watch.old.play.player.held ≡ [] }
    requires within { let settings = (machine_view watch.old.play.book).settings in
        All (ActIsInRange settings.tiles settings.cores) script.items }
    ensures { let opening = view_of P.policy T.notes watch.old.play.book in
        (plan : Plan) → plan.image ≡ image.now → plan.settings ≡ opening.view.settings
        → plan.telling ≡ watch.old.telling → plan.course ≡ course_of course plan.settings script.items
        → Tells N plan opening (view_of P.policy T.notes watch.new.play.book) (K.state sink.old) (K.state sink.new)
        result }
{
    tell_opening(watch, sink, image, course)?;
    play_course(watch, sink, image, course, script)
}

/// Prints the story of a book that was begun, and closes it. The run is kept, also where memory runs out or the sink
/// fails on the way.
fn tell_book<N: Naming, P: Placer, T: Tap, K: Sink>(
    alloc: Global,
    sink: &mut K,
    image: &Image,
    asking: &Asking,
    script: Vec<Act>,
    book: Book<N, P, T>,
) -> Outcome
    requires fits { IsImage N.image }
    requires named { IsNamed image.now asking.now.request.settings N.image N.budget N.commits }
    requires few { length script.items < 2 ^ 32 }
    requires ranges { IsInRanges asking.now }
    requires settings { (machine_view book).settings ≡ asking.now.request.settings }
    requires within { let settings = asking.now.request.settings in
        All (ActIsInRange settings.tiles settings.cores) script.items }
    ensures { TellsBookOf N N.image asking.now script.items (view_of P.policy T.notes book) (K.state sink.old)
        (K.state sink.new) result }
{
    let mut watch = Watch::new(alloc, image, book, asking.telling);
    let told = tell_course(&mut watch, sink, image, asking.course, script);
    let Watch {
        play,
        printer,
        telling: _,
    } = watch;
    let Play { book, player: _ } = play;
    let Printer { line, told: _ } = printer;
    match told {
        Ok(()) => finish(sink, asking.telling, image, book, line),
        Err(stop) => break_off(book, stop),
    }
}

/// Begins a machine on an image, plays, and prints what happens.
pub(crate) fn watch_image<N: Naming, P: Placer, K: Sink>(
    alloc: Global,
    sink: &mut K,
    image: &Image,
    asking: &Asking,
    script: Vec<Act>,
    placers: Vec<P>,
) -> Outcome
    requires fits { IsImage image.now }
    requires few { length script.items < 2 ^ 32 }
    requires limits { IsLimited asking.now.request }
    requires ranges { IsInRanges asking.now }
    requires named { IsNamed image.now asking.now.request.settings N.image N.budget N.commits }
    requires within { let settings = asking.now.request.settings in
        All (ActIsInRange settings.tiles settings.cores) script.items }
    ensures { TellsRunOf N image.now asking.now script.items (map P.policy placers.items) (K.state sink.old)
        (K.state sink.new) result }
{
    let taps: Vec<LastN> = Vec::new(alloc);
    match Book::<N, P, LastN>::begin(alloc, image, asking.request.settings, placers, taps) {
        Ok(book) => tell_book(alloc, sink, image, asking, script, book),
        Err(_) => Outcome::empty(alloc, NO_MEMORY),
    }
}
