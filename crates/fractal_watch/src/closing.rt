//! Closes a watched run, and prints its last line, or the memory that it leaves.

ghost use Rattle.std.specs.Prelude.{◌≡◌, IfSome, None, Option, length};
ghost use Rattle.guest_image.specs.ImageValue.{IsImage};
ghost use Rattle.watch_play.specs.serial_machine.WholeRun.{IsRunOf};
ghost use Rattle.watch_play.specs.event_def.Closing.{Closes};
ghost use Rattle.watch_play.specs.conflict_book.BookViews.{machine_view, view_of};
ghost use Rattle.watch_play.specs.machine_run.Least.{run_of_closed};
ghost use Rattle.watch_play.specs.machine_run.Played.{StandsAt};
ghost use Rattle.watch_play.specs.Telling.{TellsText};
ghost use Rattle.watch_play.specs.watch_text.Views.{last_line};
ghost use Rattle.fractal_watch.specs.Closing.{StoryFinishes, HoldsClosed, IsClosedAs, stop_status, text_of_closed};
ghost use Rattle.fractal_watch.specs.Texts.{watch_status};

use crate::conflict_book::Book;
use crate::watch_text::put_end;
use guest_image::Image;
use place_policy::Placer;
use program_call::{DONE, LIMIT, NO_MEMORY, Outcome, SINK_FAULT, TRAP};
use run_journal::{Closed, End};
use rv_core::Naming;
use sim_io::Sink;
use std::alloc::AllocError;
use trace_tap::Tap;
use watch_play::{StoryStop, Telling, tell_text};

/// How the run of a book stands: its end, or unfinished where it isn't over.
fn stand<N: Naming, P: Placer, T: Tap>(book: &Book<N, P, T>) -> End
    ensures { StandsAt (machine_view book.now) result }
{
    match book.end() {
        Some(end) => end,
        None => End::Unfinished,
    }
}

/// The status of a run that was played to its end.
fn status_of(end: End) -> u8
    ensures { result ≡ watch_status end }
{
    match end {
        End::Normal => DONE,
        End::Trap { .. } => TRAP,
        End::Limit => LIMIT,
        End::Unfinished => DONE,
    }
}

/// The outcome that holds a run which was closed.
fn hold(closed: Closed, status: u8, end: Option<End>) -> Outcome
    ensures { HoldsClosed closed status end result }
{
    let Closed {
        journal,
        memory,
        output,
        steps,
    } = closed;
    Outcome {
        status,
        journal,
        memory,
        output,
        end,
        steps: Some(steps),
    }
}

/// Closes a book: what is left is a run of the serial machine, which ends as the book stands.
fn close_book<N: Naming, P: Placer, T: Tap>(book: Book<N, P, T>) -> Closed
    requires fits { IsImage N.image }
    ensures closes { Closes (view_of P.policy T.notes book) result }
    ensures run { (end : Option End) → IfSome end (StandsAt (machine_view book))
        → IsRunOf N.image N.commits N.budget (run_of_closed result end) }
    ensures sized { length result.memory ≡ N.image.data_size }
{
    book.is_sound();
    book.close()
}

/// Prints the last line of a run that was closed.
fn tell_last_line<K: Sink>(
    sink: &mut K,
    line: &mut String,
    image: &Image,
    closed: &Closed,
    end: End,
) -> Result<(), StoryStop>
    requires { length closed.now.memory ≡ image.now.data_size }
    ensures { let text = last_line image.now end closed.now.steps (length closed.now.journal) closed.now.output
        closed.now.memory in
        TellsText text (K.state sink.old) (K.state sink.new) result }
{
    line.clear();
    if put_end(line, image, closed, end).is_err() {
        return Err(StoryStop::Memory);
    }
    tell_text(sink, line.as_bytes())
}

/// Prints the end of a run that was closed: its last line, or the memory that it leaves.
fn tell_end<K: Sink>(
    sink: &mut K,
    telling: Telling,
    line: &mut String,
    image: &Image,
    closed: &Closed,
    end: End,
) -> Result<(), StoryStop>
    requires { length closed.now.memory ≡ image.now.data_size }
    ensures { TellsText (text_of_closed telling image.now closed.now end) (K.state sink.old) (K.state sink.new)
        result }
{
    match telling {
        Telling::Lines => tell_last_line(sink, line, image, closed, end),
        Telling::Views(_) => tell_last_line(sink, line, image, closed, end),
        Telling::Memory => tell_text(sink, closed.memory.as_slice()),
        Telling::Counts(_) => tell_last_line(sink, line, image, closed, end),
    }
}

/// The status of a story that ended too early.
fn stop_status(stop: StoryStop) -> u8
    ensures { result ≡ stop_status stop }
{
    match stop {
        StoryStop::Memory => NO_MEMORY,
        StoryStop::Sink => SINK_FAULT,
    }
}

/// Closes a book whose whole story was printed, and prints the end.
pub(crate) fn finish<N: Naming, P: Placer, T: Tap, K: Sink>(
    sink: &mut K,
    telling: Telling,
    image: &Image,
    book: Book<N, P, T>,
    line: String,
) -> Outcome
    requires fits { IsImage N.image }
    requires image { image.now ≡ N.image }
    ensures { StoryFinishes N.image N.commits N.budget telling (view_of P.policy T.notes book) (K.state sink.old)
        (K.state sink.new) result }
{
    let mut line = line;
    let end = stand(&book);
    let closed = close_book(book);
    match tell_end(sink, telling, &mut line, image, &closed, end) {
        Ok(()) => hold(closed, status_of(end), Some(end)),
        Err(stop) => hold(closed, stop_status(stop), None),
    }
}

/// Closes a book whose story ended too early.
pub(crate) fn break_off<N: Naming, P: Placer, T: Tap>(
    book: Book<N, P, T>,
    stop: StoryStop,
) -> Outcome
    requires { IsImage N.image }
    ensures { IsClosedAs N.image N.commits N.budget (view_of P.policy T.notes book) (stop_status stop) None result }
{
    hold(close_book(book), stop_status(stop), None)
}
