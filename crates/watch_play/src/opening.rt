//! What is printed before the first act.

ghost use Rattle.std.specs.Prelude.{◌≡◌, ◌++◌, OnOk, [], if◌then◌else◌};
ghost use Rattle.std.specs.String.{string_bytes};
ghost use Rattle.watch_counts.specs.conflict_book.BookViews.{machine_view, view_of};
ghost use Rattle.watch_counts.specs.watch_text.Opening.{head_line, placed_lines};
ghost use Rattle.watch_play.specs.Courses.{course_word};
ghost use Rattle.watch_play.specs.Telling.{Plan, TellsOpening, TellsText};

use crate::spec_state::State;
use crate::stop::{StoryStop, tell_text};
use crate::telling::{has_counts, has_lines};
use crate::watch::Watch;
use crate::watch_text::{CourseWord, put_head, put_placed};
use guest_image::Image;
use place_policy::Placer;
use rv_core::Naming;
use sim_io::Sink;
use std::alloc::AllocError;
use trace_tap::Tap;

/// Puts the lines before the first act together, or the head alone.
fn put_opening<N: Naming>(
    line: &mut String,
    image: &Image,
    course: CourseWord,
    state: &State<N>,
    whole: bool,
) -> Result<(), AllocError>
    ensures { let view = state.now.view in
        OnOk result (string_bytes line.new ≡ head_line course view.settings image.now
        ++ (if whole then placed_lines view else [])) }
{
    line.clear();
    put_head(line, course, state.settings(), image)?;
    if whole {
        put_placed(line, state)
    } else {
        Ok(())
    }
}

/// Prints the lines before the first act, or only the first of them.
fn tell_lines<N: Naming, K: Sink>(
    line: &mut String,
    sink: &mut K,
    image: &Image,
    course: CourseWord,
    state: &State<N>,
    whole: bool,
) -> Result<(), StoryStop>
    ensures { let view = state.now.view in
        TellsText (head_line course view.settings image.now ++ (if whole then placed_lines view else []))
        (K.state sink.old) (K.state sink.new) result }
{
    if put_opening(line, image, course, state, whole).is_err() {
        return Err(StoryStop::Memory);
    }
    tell_text(sink, line.as_bytes())
}

/// Prints the first line, and the tasks of the image where they were placed, where lines are printed; where counts are,
/// only the first line; else nothing goes to the sink.
pub fn tell_opening<N: Naming, P: Placer, T: Tap, K: Sink>(
    watch: &mut Watch<N, P, T>,
    sink: &mut K,
    image: &Image,
    course: CourseWord,
) -> Result<(), StoryStop>
    ensures tells { (plan : Plan) → plan.image ≡ image.now → course_word plan.course ≡ course
        → plan.settings ≡ (machine_view watch.old.play.book).settings → plan.telling ≡ watch.old.telling
        → TellsOpening plan (view_of P.policy T.notes watch.old.play.book) (K.state sink.old) (K.state sink.new)
        result }
    ensures play { watch.new.play ≡ watch.old.play }
    ensures telling { watch.new.telling ≡ watch.old.telling }
    ensures told { watch.new.printer.told ≡ watch.old.printer.told }
{
    if has_lines(watch.telling) {
        tell_lines(
            &mut watch.printer.line,
            sink,
            image,
            course,
            watch.play.book.state(),
            true,
        )
    } else if has_counts(watch.telling) {
        tell_lines(
            &mut watch.printer.line,
            sink,
            image,
            course,
            watch.play.book.state(),
            false,
        )
    } else {
        Ok(())
    }
}
