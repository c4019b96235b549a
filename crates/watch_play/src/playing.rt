//! One act, which is played, and printed where lines are printed.

ghost use Rattle.std.specs.Prelude.{◌≡◌, ◌+◌, ◌<◌, ◌^◌, ◌++◌, List, OnOk, ℕ, true};
ghost use Rattle.std.specs.String.{string_bytes};
ghost use Rattle.rv_core.specs.LegValue.{LegValue};
ghost use Rattle.watch_counts.specs.conflict_book.BookViews.{effect_of, events_made, machine_view, view_of};
ghost use Rattle.watch_counts.specs.spec_state.declared.task.Task.{Task};
ghost use Rattle.watch_counts.specs.spec_state.Changes.{TakesLeg};
ghost use Rattle.watch_counts.specs.step_script.Ranges.{ActIsInRange};
ghost use Rattle.watch_counts.specs.step_script.Asking.{AskedIsInRange, AsksFor, asks_of};
ghost use Rattle.watch_counts.specs.step_script.Playing.{HeldLeg, PlayState};
ghost use Rattle.watch_counts.specs.watch_text.Lines.{rest_text};
ghost use Rattle.watch_counts.specs.watch_text.Moments.{IsAbout, IsAskedFor, task_of};
ghost use Rattle.watch_play.specs.Made.{TellsAct, play_of};
ghost use Rattle.watch_play.specs.Playing.{ComesToLine, MakesAct};
ghost use Rattle.watch_play.specs.Texts.{IsTellable, has_counts, has_lines, is_due, view_text};
ghost use Rattle.watch_counts.specs.declared.counts.Counts.{Counts};
ghost use Rattle.watch_counts.specs.Capped.{capped_counts};
ghost use Rattle.watch_counts.specs.Counts.{after_attempt, after_told};
ghost use Rattle.watch_counts.specs.Kinds.{kind_done};
ghost use Rattle.watch_counts.specs.Work.{done_by};

use crate::conflict_book::{Book, Reply};
use crate::spec_state::State;
use crate::step_script::{Act, Asked};
use crate::stop::StoryStop;
use crate::telling::{Telling, has_counts, has_lines};
use crate::watch::{Play, Printer, SoTold};
use crate::watch_text::{About, Answer, about_of, about_taken, put_front, put_rest, put_view};
use guest_image::Image;
use place_policy::Placer;
use rv_core::{Leg, Naming};
use sim_io::{Sink, write_all};
use std::alloc::AllocError;
use trace_tap::Tap;
use watch_counts::{Counts, Done, done_by};

/// The outcome of an act.
#[derive(Clone, Copy, Debug, PartialEq, Eq)]
pub(crate) enum PlayedAct {
    /// It was made or refused, or its word was said, and its line stands ready.
    Told,
    /// It was made or refused, or its reply was found, but no memory was left for its line.
    Untold,
    /// Out of memory before anything was made.
    Unmade,
}

/// Whether the view is printed after the log entry of this number.
fn is_due(telling: Telling, number: u64) -> bool
    requires { IsTellable telling }
    ensures { result ≡ is_due telling number }
{
    match telling {
        Telling::Lines => false,
        Telling::Views(each) => number % u64::from(each) == 0,
        Telling::Memory => false,
        Telling::Counts(_) => false,
    }
}

/// Puts the view, where it is printed after the log entry of this number.
fn put_view_behind<N: Naming, P: Placer, T: Tap>(
    line: &mut String,
    book: &Book<N, P, T>,
    telling: Telling,
    number: u64,
) -> Result<(), AllocError>
    requires { IsTellable telling }
    ensures { OnOk result (string_bytes line.new ≡ string_bytes line.old
        ++ view_text telling number (machine_view book.now) (events_made book.now)) }
{
    if is_due(telling, number) {
        put_view(line, book.state(), book.steps())
    } else {
        Ok(())
    }
}

/// Puts the rest of the line of an act, which is the log entry of this number, and the view after it where it is
/// printed.
fn tell_rest<N: Naming, P: Placer, T: Tap>(
    line: &mut String,
    book: &Book<N, P, T>,
    telling: Telling,
    number: u64,
    asked: &Asked,
    about: &About,
    answer: &Answer,
) -> Result<(), AllocError>
    requires events { answer.now.events ≡ events_made book.now }
    requires telling { IsTellable telling }
    ensures { (leg : LegValue) → let view = machine_view book.now in
        OnOk result (string_bytes line.new ≡ string_bytes line.old
        ++ rest_text (effect_of book.now) answer.now.output view (asks_of {N = N} asked.now leg)
        (task_of about.now) about.now.request answer.now.reply answer.now.aborted (events_made book.now)
        ++ view_text telling number view (events_made book.now)) }
{
    put_rest(line, book.state(), asked, about, book.effect(), answer)?;
    put_view_behind(line, book, telling, number)
}

/// Plays an act of this number, from 1, and makes its line, where lines are printed.
fn play_act<N: Naming, P: Placer, T: Tap>(
    play: &mut Play<N, P, T>,
    printer: &mut Printer,
    image: &Image,
    telling: Telling,
    at: u64,
    act: Act,
) -> PlayedAct
    requires image { image.now ≡ N.image }
    requires within { let settings = (machine_view play.old.book).settings in
        ActIsInRange settings.tiles settings.cores act }
    requires telling { IsTellable telling }
    requires lines { has_lines telling ≡ true }
    requires count { printer.old.told.moments + 1 < 2 ^ 64 }
    ensures comes { ComesToLine N N.image telling at (printer.old.told.moments + 1) act
        (play_of P.policy T.notes play.old) result (string_bytes printer.new.line) (play_of P.policy T.notes play.new) }
    ensures settings { (machine_view play.new.book).settings ≡ (machine_view play.old.book).settings }
    ensures count { result ≡ PlayedAct.Told → printer.new.told.moments ≡ printer.old.told.moments + 1 }
{
    let Ok(asked) = play.player.ask(image, &play.book, act) else {
        return PlayedAct::Unmade;
    };
    let leg = play.player.leg();
    let about = about_act(play.book.state(), act, &asked, leg);
    let output = play.book.state().output().len();
    printer.line.clear();
    if put_front(&mut printer.line, at, act, &asked, &about, leg).is_err() {
        return PlayedAct::Unmade;
    }
    let applied = play.player.make(&mut play.book, asked);
    if applied.reply == Reply::Memory {
        return PlayedAct::Unmade;
    }
    printer.told.moments += 1;
    let answer = Answer {
        reply: applied.reply,
        aborted: applied.aborted,
        events: play.book.steps(),
        output,
    };
    let number = printer.told.moments;
    match tell_rest(
        &mut printer.line,
        &play.book,
        telling,
        number,
        &asked,
        &about,
        &answer,
    ) {
        Ok(()) => PlayedAct::Told,
        Err(_) => PlayedAct::Untold,
    }
}

/// Plays an act of this number, and prints its line.
fn tell_line<N: Naming, P: Placer, T: Tap, K: Sink>(
    play: &mut Play<N, P, T>,
    printer: &mut Printer,
    sink: &mut K,
    image: &Image,
    telling: Telling,
    at: u64,
    act: Act,
) -> Result<(), StoryStop>
    requires image { image.now ≡ N.image }
    requires within { let settings = (machine_view play.old.book).settings in
        ActIsInRange settings.tiles settings.cores act }
    requires telling { IsTellable telling }
    requires lines { has_lines telling ≡ true }
    requires count { printer.old.told.moments + 1 < 2 ^ 64 }
    ensures tells { TellsAct N N.image telling at printer.old.told printer.new.told act
        (play_of P.policy T.notes play.old) (play_of P.policy T.notes play.new)
        (K.state sink.old) (K.state sink.new) result }
    ensures settings { (machine_view play.new.book).settings ≡ (machine_view play.old.book).settings }
    ensures count { OnOk result (printer.new.told.moments ≡ printer.old.told.moments + 1) }
{
    match play_act(play, printer, image, telling, at, act) {
        PlayedAct::Told => match write_all(sink, printer.line.as_bytes()) {
            Ok(()) => Ok(()),
            Err(_) => Err(StoryStop::Sink),
        },
        PlayedAct::Untold => Err(StoryStop::Memory),
        PlayedAct::Unmade => Err(StoryStop::Memory),
    }
}

/// What an act that asked for a step is about, or the reply in its place.
fn about_step<N: Naming>(state: &State<N>, asked: &Asked, leg: &Leg<N>) -> About
    requires within { AskedIsInRange N state.now.view.settings asked.now }
    requires takes { (tile core : ℕ) → asked.now ≡ Asked.Ready tile core
        → (id : ℕ) × (task : Task) × TakesLeg state.now.view tile core leg.now id task }
    ensures task { IsAbout {N = N} state.now.view (asks_of asked.now leg.now) (task_of result) }
    ensures request { IsAskedFor {N = N} state.now.view (asks_of asked.now leg.now) result.request }
{
    match *asked {
        Asked::Ready { tile, core } => about_taken(state, tile, core, leg),
        Asked::Legless(_) | Asked::Says(_) => about_of(state, asked, leg),
    }
}

/// What an act is about that was asked for, where this is the leg that stands ready. That of a `step` was just run, so
/// that the task on the core takes it, and nothing is compared.
fn about_act<N: Naming>(state: &State<N>, act: Act, asked: &Asked, leg: &Leg<N>) -> About
    requires within { AskedIsInRange N state.now.view.settings asked.now }
    requires asks { (old : PlayState) × (held : List HeldLeg) × (old.book.view ≡ state.now.view)
        × AsksFor {N = N} N.image act old (asks_of asked.now leg.now) held }
    ensures task { IsAbout {N = N} state.now.view (asks_of asked.now leg.now) (task_of result) }
    ensures request { IsAskedFor {N = N} state.now.view (asks_of asked.now leg.now) result.request }
{
    match act {
        Act::Step(_, _) => about_step(state, asked, leg),
        Act::Dispatch(_)
        | Act::Take(_, _)
        | Act::Give(_, _)
        | Act::Abort(_)
        | Act::Commit
        | Act::Coalesce(_)
        | Act::Split(_)
        | Act::Advance => about_of(state, asked, leg),
    }
}

/// What the task of a commit has done, where counts are printed.
fn done_before<N: Naming>(
    state: &State<N>,
    telling: Telling,
    asked: &Asked,
    about: &About,
) -> Option<Done>
    ensures { (leg : LegValue) → has_counts telling ≡ true → result
        ≡ done_by {N = N} state.now.view (asks_of asked.now leg) (task_of about.now) }
{
    if has_counts(telling) {
        done_by(state, asked, about)
    } else {
        None
    }
}

/// Counts an act that was played, where counts are printed: its number, its kind, the number of instructions of its
/// leg, what it is about, what the task of a commit had done, and the reply.
fn count_moment<N: Naming, P: Placer, T: Tap>(
    counts: &mut Counts,
    book: &Book<N, P, T>,
    telling: Telling,
    at: u64,
    act: Act,
    asked: &Asked,
    steps: u32,
    about: &About,
    done: &Option<Done>,
    reply: Reply,
)
    ensures { (leg : LegValue) (c : Counts) → has_counts telling ≡ true → leg.steps ≡ steps
        → counts.old ≡ capped_counts c → counts.new ≡ capped_counts
        (after_attempt reply (asks_of {N = N} asked.now leg) (task_of about.now) about.now.request
        (effect_of book.now) done.now (machine_view book.now)
        (after_told at act (kind_done act (asks_of {N = N} asked.now leg)) c)) }
{
    if has_counts(telling) {
        let (effect, state) = (book.effect(), book.state());
        counts.note(at, act, asked, steps, about, done, reply, effect, state);
    }
}

/// Plays an act of this number, of which no line is printed, and counts it where counts are.
fn make_act<N: Naming, P: Placer, T: Tap>(
    play: &mut Play<N, P, T>,
    told: &mut SoTold,
    image: &Image,
    telling: Telling,
    at: u64,
    act: Act,
) -> Result<(), StoryStop>
    requires image { image.now ≡ N.image }
    requires within { let settings = (machine_view play.old.book).settings in
        ActIsInRange settings.tiles settings.cores act }
    requires count { told.old.moments + 1 < 2 ^ 64 }
    ensures makes { MakesAct N N.image telling at told.old told.new act
        (play_of P.policy T.notes play.old) (play_of P.policy T.notes play.new) result }
    ensures settings { (machine_view play.new.book).settings ≡ (machine_view play.old.book).settings }
    ensures count { OnOk result (told.new.moments ≡ told.old.moments + 1) }
{
    let Ok(asked) = play.player.ask(image, &play.book, act) else {
        return Err(StoryStop::Memory);
    };
    let leg = play.player.leg();
    let steps = leg.steps();
    // What the act is about belongs to its log entry, printed or not.
    let about = about_act(play.book.state(), act, &asked, leg);
    let done = done_before(play.book.state(), telling, &asked, &about);
    let applied = play.player.make(&mut play.book, asked);
    if applied.reply == Reply::Memory {
        return Err(StoryStop::Memory);
    }
    told.moments += 1;
    count_moment(
        &mut told.counts,
        &play.book,
        telling,
        at,
        act,
        &asked,
        steps,
        &about,
        &done,
        applied.reply,
    );
    Ok(())
}

/// Plays an act of this number, and prints it where lines are printed; else nothing goes to the sink.
pub(crate) fn tell_act<N: Naming, P: Placer, T: Tap, K: Sink>(
    play: &mut Play<N, P, T>,
    printer: &mut Printer,
    sink: &mut K,
    image: &Image,
    telling: Telling,
    at: u64,
    act: Act,
) -> Result<(), StoryStop>
    requires image { image.now ≡ N.image }
    requires within { let settings = (machine_view play.old.book).settings in
        ActIsInRange settings.tiles settings.cores act }
    requires telling { IsTellable telling }
    requires count { printer.old.told.moments + 1 < 2 ^ 64 }
    ensures tells { TellsAct N N.image telling at printer.old.told printer.new.told act
        (play_of P.policy T.notes play.old) (play_of P.policy T.notes play.new)
        (K.state sink.old) (K.state sink.new) result }
    ensures settings { (machine_view play.new.book).settings ≡ (machine_view play.old.book).settings }
    ensures count { OnOk result (printer.new.told.moments ≡ printer.old.told.moments + 1) }
{
    if has_lines(telling) {
        tell_line(play, printer, sink, image, telling, at, act)
    } else {
        make_act(play, &mut printer.told, image, telling, at, act)
    }
}
