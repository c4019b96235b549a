//! Drivers, which are played act by act from their first stage on.

ghost use Rattle.std.specs.Prelude.{◌≡◌, ◌<◌, ◌≤◌, ◌+◌, ◌^◌, All, List, OnOk, length};
ghost use Rattle.watch_counts.specs.Capped.{capped_counts};
ghost use Rattle.watch_counts.specs.Counts.{counts_at};
ghost use Rattle.watch_counts.specs.conflict_book.BookViews.{machine_view, view_of};
ghost use Rattle.watch_counts.specs.spec_state.declared.settings.Settings.{Settings};
ghost use Rattle.watch_counts.specs.step_script.declared.act.Act.{Act};
ghost use Rattle.watch_counts.specs.step_script.Ranges.{ActIsInRange};
ghost use Rattle.watch_play.specs.Courses.{HasNext, course_of, first_stage};
ghost use Rattle.watch_play.specs.Made.{play_of};
ghost use Rattle.watch_play.specs.Staged.{AreWithin, IsSmall, stage_of};
ghost use Rattle.watch_play.specs.Telling.{ActComesOn, ActGoesOn, TellsCourse};
ghost use Rattle.watch_play.specs.Texts.{IsTellable};

use crate::counting::{begin_counts, end_act, pass_act, tell_last_counts};
use crate::playing::tell_act;
use crate::stage::Stage;
use crate::step_script::Act;
use crate::stop::StoryStop;
use crate::telling::Telling;
use crate::watch::{Play, Printer, Watch};
use crate::watch_text::CourseWord;
use guest_image::Image;
use place_policy::Placer;
use rv_core::Naming;
use sim_io::Sink;
use trace_tap::Tap;

/// Plays the next act of a stage, where the driver asks for it; else the act passes.
fn play_asked<N: Naming, P: Placer, T: Tap, K: Sink>(
    play: &mut Play<N, P, T>,
    printer: &mut Printer,
    sink: &mut K,
    image: &Image,
    telling: Telling,
    stage: &Stage,
    number: u64,
    act: Act,
) -> Result<(), StoryStop>
    requires image { image.now ≡ N.image }
    requires telling { IsTellable telling }
    requires moments { printer.old.told.moments ≤ number }
    requires below { number + 1 < 2 ^ 64 }
    requires within { let settings = (machine_view play.old.book).settings in
        ActIsInRange settings.tiles settings.cores act }
    requires next { (settings : Settings) (script : List Act)
        → HasNext (course_of stage.now.course settings script) (stage_of stage.now) (machine_view play.old.book) act }
    ensures comes { (settings : Settings) (script : List Act)
        → ActComesOn N N.image telling (course_of stage.now.course settings script) number (stage_of stage.now)
        printer.old.told printer.new.told (play_of P.policy T.notes play.old) (play_of P.policy T.notes play.new)
        (K.state sink.old) (K.state sink.new) result }
    ensures settings { (machine_view play.new.book).settings ≡ (machine_view play.old.book).settings }
    ensures moments { OnOk result (printer.new.told.moments ≤ number + 1) }
{
    if stage.asks(&play.book, act) {
        let told = tell_act(play, printer, sink, image, telling, number + 1, act);
        // A law, called for its clauses.
        play.book.is_sound();
        told
    } else {
        pass_act(&mut printer.told.counts, telling, act);
        Ok(())
    }
}

/// Plays the next act of a stage, and goes on to the following stage.
fn play_next<N: Naming, P: Placer, T: Tap, K: Sink>(
    play: &mut Play<N, P, T>,
    printer: &mut Printer,
    sink: &mut K,
    image: &Image,
    telling: Telling,
    stage: &mut Stage,
    number: u64,
    act: Act,
) -> Result<(), StoryStop>
    requires image { image.now ≡ N.image }
    requires telling { IsTellable telling }
    requires moments { printer.old.told.moments ≤ number }
    requires small { IsSmall number (stage_of stage.old) }
    requires below { number + 1 < 2 ^ 64 }
    requires inside { let settings = (machine_view play.old.book).settings in
        AreWithin settings.tiles settings.cores (stage_of stage.old) }
    requires within { let settings = (machine_view play.old.book).settings in
        ActIsInRange settings.tiles settings.cores act }
    requires next { (settings : Settings) (script : List Act)
        → HasNext (course_of stage.old.course settings script) (stage_of stage.old) (machine_view play.old.book) act }
    ensures goes_on { (settings : Settings) (script : List Act)
        → ActGoesOn N N.image telling (course_of stage.old.course settings script) number (stage_of stage.old)
        (stage_of stage.new) printer.old.told printer.new.told (play_of P.policy T.notes play.old)
        (play_of P.policy T.notes play.new) (K.state sink.old) (K.state sink.new) result }
    ensures settings { (machine_view play.new.book).settings ≡ (machine_view play.old.book).settings }
    ensures moments { OnOk result (printer.new.told.moments ≤ number + 1) }
    ensures course { stage.new.course ≡ stage.old.course }
    ensures small { OnOk result (IsSmall (number + 1) (stage_of stage.new)) }
    ensures inside { let settings = (machine_view play.old.book).settings in
        OnOk result (AreWithin settings.tiles settings.cores (stage_of stage.new)) }
{
    play_asked(play, printer, sink, image, telling, stage, number, act)?;
    let round = stage.round;
    stage.after(&play.book);
    end_act(
        printer,
        sink,
        play.book.state(),
        telling,
        stage,
        round,
        number + 1,
    )
}

/// Plays a driver from a stage on, up to its end.
fn play_from<N: Naming, P: Placer, T: Tap, K: Sink>(
    play: &mut Play<N, P, T>,
    printer: &mut Printer,
    sink: &mut K,
    image: &Image,
    telling: Telling,
    stage: &mut Stage,
) -> Result<(), StoryStop>
    requires image { image.now ≡ N.image }
    requires telling { IsTellable telling }
    requires moments { printer.old.told.moments ≡ 0 }
    requires counts { printer.old.told.counts ≡ capped_counts (counts_at (machine_view play.old.book)) }
    requires small { IsSmall 0 (stage_of stage.old) }
    requires inside { let settings = (machine_view play.old.book).settings in
        AreWithin settings.tiles settings.cores (stage_of stage.old) }
    ensures { (settings : Settings) (script : List Act)
        → (let course = course_of stage.old.course settings script in
        stage_of stage.old ≡ first_stage course (length (machine_view play.old.book).history)
        → TellsCourse N N.image telling course (play_of P.policy T.notes play.old)
        (view_of P.policy T.notes play.new.book) (K.state sink.old) (K.state sink.new) result) }
{
    for number in 0..u64::MAX {
        match stage.next(&play.book) {
            None => return tell_last_counts(printer, sink, play.book.state(), telling),
            Some(act) => play_next(play, printer, sink, image, telling, stage, number, act)?,
        }
    }
    // No run is so long; want of memory is the one answer that says nothing of it.
    Err(StoryStop::Memory)
}

/// Plays a mode: the acts of a script, each of which is printed; advances of the least task, until the run is over; or
/// rounds in lockstep, each of which shuffles the order of the one before, unless the seed is 0, up to the one in which
/// the run ends. After so many starved rounds in a row, a round advances the least task until it is dispatched.
pub fn play_course<N: Naming, P: Placer, T: Tap, K: Sink>(
    watch: &mut Watch<N, P, T>,
    sink: &mut K,
    image: &Image,
    course: CourseWord,
    script: Vec<Act>,
) -> Result<(), StoryStop>
    requires image { image.now ≡ N.image }
    requires telling { IsTellable watch.old.telling }
    requires moments { watch.old.printer.told.moments ≡ 0 }
    requires few { length script.items < 2 ^ 32 }
    requires within { let settings = (machine_view watch.old.play.book).settings in
        All (ActIsInRange settings.tiles settings.cores) script.items }
    ensures { let old = play_of P.policy T.notes watch.old.play in
        let course = course_of course old.book.view.settings script.items in
        TellsCourse N N.image watch.old.telling course old (view_of P.policy T.notes watch.new.play.book)
        (K.state sink.old) (K.state sink.new) result }
{
    // A law, called for its clauses.
    watch.play.book.is_sound();
    let alloc = watch.play.book.alloc();
    let commits = watch.play.book.state().commit_count();
    let settings = watch.play.book.settings();
    let Ok(mut stage) = Stage::first(alloc, course, settings, script, commits) else {
        return Err(StoryStop::Memory);
    };
    begin_counts(&mut watch.printer.told.counts, watch.play.book.state());
    play_from(
        &mut watch.play,
        &mut watch.printer,
        sink,
        image,
        watch.telling,
        &mut stage,
    )
}
