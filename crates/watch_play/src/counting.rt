//! The counts that are printed.

ghost use Rattle.std.specs.Prelude.{◌≡◌, ◌==◌, ◌&&◌, [], not, true, if◌then◌else◌, List};
ghost use Rattle.watch_counts.specs.spec_state.declared.settings.Settings.{Settings};
ghost use Rattle.watch_counts.specs.step_script.declared.act.Act.{Act};
ghost use Rattle.watch_counts.specs.Capped.{capped_counts};
ghost use Rattle.watch_counts.specs.Counts.{after_passed, after_round, counts_at};
ghost use Rattle.watch_counts.specs.declared.counts.Counts.{Counts};
ghost use Rattle.watch_counts.specs.Texts.{counts_line};
ghost use Rattle.watch_play.specs.Counted.{after_stage, is_due_behind, line_behind};
ghost use Rattle.watch_play.specs.Courses as courses;
ghost use Rattle.watch_play.specs.Courses.{course_of};
ghost use Rattle.watch_play.specs.Staged.{stage_of};
ghost use Rattle.watch_play.specs.Telling.{TellsText};
ghost use Rattle.watch_play.specs.Texts.{are_counts_due, has_counts};

use crate::spec_state::State;
use crate::stage::Stage;
use crate::step_script::Act;
use crate::stop::{StoryStop, tell_text};
use crate::telling::{Telling, are_counts_due, has_counts};
use crate::watch::Printer;
use crate::watch_text::CourseWord;
use rv_core::Naming;
use sim_io::Sink;
use watch_counts::{Counts, put_counts};

/// Counts from here on: what was counted before is forgotten.
pub(crate) fn begin_counts<N: Naming>(counts: &mut Counts, state: &State<N>)
    ensures { counts.new ≡ capped_counts (counts_at state.now.view) }
{
    *counts = Counts::new(state);
}

/// Prints the counts, if they are due.
fn tell_counts_if<N: Naming, K: Sink>(
    line: &mut String,
    sink: &mut K,
    state: &State<N>,
    counts: &Counts,
    due: bool,
) -> Result<(), StoryStop>
    ensures { (c : Counts) → (due ≡ true → counts.now ≡ capped_counts c)
        → TellsText (if due then counts_line c state.now.view else []) (K.state sink.old) (K.state sink.new) result }
{
    if !due {
        return Ok(());
    }
    line.clear();
    if put_counts(line, counts, state).is_err() {
        return Err(StoryStop::Memory);
    }
    tell_text(sink, line.as_bytes())
}

/// Prints the counts at the end of a driver, where counts are printed.
pub(crate) fn tell_last_counts<N: Naming, K: Sink>(
    printer: &mut Printer,
    sink: &mut K,
    state: &State<N>,
    telling: Telling,
) -> Result<(), StoryStop>
    ensures { (c : Counts) → (has_counts telling ≡ true → printer.old.told.counts ≡ capped_counts c)
        → TellsText (if has_counts telling then counts_line c state.now.view else [])
        (K.state sink.old) (K.state sink.new) result }
{
    tell_counts_if(
        &mut printer.line,
        sink,
        state,
        &printer.told.counts,
        has_counts(telling),
    )
}

/// Counts an act that the driver doesn't ask for, where counts are printed.
pub(crate) fn pass_act(counts: &mut Counts, telling: Telling, act: Act)
    ensures { (c : Counts) → has_counts telling ≡ true → counts.old ≡ capped_counts c
        → counts.new ≡ capped_counts (after_passed act c) }
{
    if has_counts(telling) {
        counts.pass(act);
    }
}

/// Counts a round, where one ended: `before` rounds had ended before an act, and `now` after it.
fn count_round(counts: &mut Counts, before: u64, now: u64)
    ensures { (c : Counts) → counts.old ≡ capped_counts c
        → counts.new ≡ capped_counts (if now == before then c else after_round c) }
{
    if now != before {
        counts.end_round();
    }
}

/// Whether counts are due after a round, where one ended: `before` rounds had ended before an act, and `now` after it.
fn is_round_due(telling: Telling, before: u64, now: u64) -> bool
    ensures { result ≡ (not (now == before) && are_counts_due telling now) }
{
    if now == before {
        false
    } else {
        are_counts_due(telling, now)
    }
}

/// Whether counts are due behind the act of this number, which led to a stage, where so many rounds had ended.
fn is_due_behind(telling: Telling, stage: &Stage, round: u64, number: u64) -> bool
    ensures { (settings : Settings) (script : List Act) (at : courses.Stage) → at.round ≡ round
        → result ≡ is_due_behind telling (course_of stage.now.course settings script) number at (stage_of stage.now) }
{
    match stage.course {
        CourseWord::Steps => are_counts_due(telling, number),
        CourseWord::Least => are_counts_due(telling, number),
        CourseWord::Lockstep { .. } => is_round_due(telling, round, stage.round),
    }
}

/// Counts the end of a round, where the act of this number ended one, and prints the counts that are due, where counts
/// are printed. Before the act, `round` rounds had ended.
pub(crate) fn end_act<N: Naming, K: Sink>(
    printer: &mut Printer,
    sink: &mut K,
    state: &State<N>,
    telling: Telling,
    stage: &Stage,
    round: u64,
    number: u64,
) -> Result<(), StoryStop>
    ensures tells { (settings : Settings) (script : List Act) (at : courses.Stage) (c : Counts) → at.round ≡ round
        → (has_counts telling ≡ true → printer.old.told.counts ≡ capped_counts c)
        → TellsText (line_behind telling (course_of stage.now.course settings script) number at (stage_of stage.now) c
        state.now.view) (K.state sink.old) (K.state sink.new) result }
    ensures counts { (at : courses.Stage) (c : Counts) → at.round ≡ round → has_counts telling ≡ true
        → printer.old.told.counts ≡ capped_counts c
        → printer.new.told.counts ≡ capped_counts (after_stage at (stage_of stage.now) c) }
    ensures moments { printer.new.told.moments ≡ printer.old.told.moments }
{
    if has_counts(telling) {
        count_round(&mut printer.told.counts, round, stage.round);
        let due = is_due_behind(telling, stage, round, number);
        tell_counts_if(&mut printer.line, sink, state, &printer.told.counts, due)
    } else {
        Ok(())
    }
}
