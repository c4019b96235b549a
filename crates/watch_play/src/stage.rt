//! The position of a driver.

ghost use Rattle.std.specs.Prelude.{◌≡◌, ◌+◌, ◌<◌, ◌≤◌, ◌^◌, ◌↔◌, Bool, IfOk, IfSome, IsNone, IsTrue, length, List};
ghost use Rattle.watch_counts.specs.conflict_book.BookViews.{machine_view};
ghost use Rattle.watch_counts.specs.spec_state.declared.settings.Settings.{Settings};
ghost use Rattle.watch_counts.specs.spec_state.Least.{IsLeast};
ghost use Rattle.watch_counts.specs.spec_state.Settings.{IsValid};
ghost use Rattle.watch_counts.specs.spec_state.View.{View};
ghost use Rattle.watch_counts.specs.event_def.End.{IsOver};
ghost use Rattle.watch_counts.specs.step_script.declared.act.Act.{Act};
ghost use Rattle.watch_counts.specs.step_script.Ranges.{ActIsInRange};
ghost use Rattle.watch_play.specs.Courses.{EndsAt, GoesOnAt, HasNext, IsAskedBy, LeastWaits, act_of, course_of};
ghost use Rattle.watch_play.specs.Courses.{at_forced, at_round, first_stage, following, stage_after, starved_after};
ghost use Rattle.watch_play.specs.Staged.{stage_of};
ghost use Rattle.watch_play.specs.Stories.{NextStage};

use crate::conflict_book::Book;
use crate::event_prelude::least_going;
use crate::lockstep::{is_asked, next_order, round_acts};
use crate::spec_state::{Settings, Where};
use crate::step_script::Act;
use crate::watch_text::CourseWord;
use place_policy::Placer;
use rv_core::Naming;
use std::alloc::{AllocError, Global};
use trace_tap::Tap;

/// The position of a driver: the definition's `Stage`, beside the mode.
#[derive(Drop)]
pub(crate) struct Stage {
    /// The mode.
    pub course: CourseWord,
    /// The acts of the round that is played, in their order; of a script, all of them.
    pub acts: Vec<Act>,
    /// The number that was drawn last.
    pub drawn: u32,
    /// How many rounds ended.
    pub round: u64,
    /// The place of the next act.
    pub place: usize,
    /// How many tasks had committed when the round began.
    pub begun: u32,
    /// How many rounds in a row before it were starved.
    pub starved: u64,
    /// Whether the round advances the least task.
    pub forced: bool,
}

/// Whether the least task waits, where the run goes on and this is the least task.
fn is_waiting(least: Where) -> bool
    ensures { (view : View) → (IsOver view → ⊥) → IsLeast view least → IsTrue result ↔ LeastWaits view }
{
    match least {
        Where::Idle(_) => true,
        Where::Spilled(_) => true,
        Where::Running(_) => false,
        Where::Trapped(_) => false,
        Where::Finished(_) => false,
    }
}

/// Whether the run goes on and its least task waits, by one look at where that is.
#[tactic(auto, using(crate::proofs::Waiting::no_wait, crate::proofs::Waiting::over_not_waiting))]
fn waits<N: Naming, P: Placer, T: Tap>(book: &Book<N, P, T>) -> bool
    ensures { IsTrue result ↔ LeastWaits (machine_view book.now) }
{
    match least_going(book.state()) {
        Some(least) => is_waiting(least),
        None => false,
    }
}

impl Stage {
    /// Before the first act, where so many tasks have committed.
    #[tactic(auto, using(crate::proofs::Rounds::few_in_round), unfolding(crate::specs::Courses::first_stage))]
    pub(crate) fn first(
        alloc: Global,
        course: CourseWord,
        settings: &Settings,
        script: Vec<Act>,
        commits: u32,
    ) -> Result<Self, AllocError>
        requires { IsValid settings.now }
        ensures stage { IfOk result (λ s.
            stage_of s ≡ first_stage (course_of course settings.now script.items) commits) }
        ensures course { IfOk result (λ s. s.course ≡ course) }
    {
        match course {
            CourseWord::Steps => Ok(Stage::of_acts(course, script, 0, commits, false)),
            CourseWord::Least => Ok(Stage::of_acts(course, Vec::new(alloc), 0, commits, true)),
            CourseWord::Lockstep {
                rounds: _,
                seed,
                starved: _,
            } => {
                let mut acts = round_acts(alloc, settings)?;
                let drawn = next_order(acts.as_mut_slice(), seed, seed);
                Ok(Stage::of_acts(course, acts, drawn, commits, false))
            }
        }
    }

    /// Where the first round begins, with these acts.
    fn of_acts(course: CourseWord, acts: Vec<Act>, drawn: u32, commits: u32, forced: bool) -> Self
        ensures stage { stage_of result ≡ record (at_round (record { drawn = drawn; acts = acts.items }) 0 commits 0) {
          forced = forced;
        } }
        ensures course { result.course ≡ course }
    {
        Stage {
            course,
            acts,
            drawn,
            round: 0,
            place: 0,
            begun: commits,
            starved: 0,
            forced,
        }
    }

    /// The next act, where there is one.
    pub(crate) fn act(&self) -> Option<Act>
        ensures { result ≡ act_of (stage_of self.now) }
    {
        if self.forced {
            Some(Act::Advance)
        } else {
            self.acts.get(self.place).copied()
        }
    }

    /// Whether the driver has a next act in this state of the book.
    fn goes_on<N: Naming, P: Placer, T: Tap>(&self, book: &Book<N, P, T>) -> bool
        ensures { (settings : Settings) (script : List Act)
            → IsTrue result ↔ GoesOnAt (course_of self.now.course settings script) (stage_of self.now)
            (machine_view book.now) }
    {
        match self.course {
            CourseWord::Steps => true,
            CourseWord::Least => book.end().is_none(),
            CourseWord::Lockstep {
                rounds,
                seed: _,
                starved: _,
            } => { self.round < u64::from(rounds) && (self.place != 0 || book.end().is_none()) }
        }
    }

    /// The next act of a driver that goes on; None exactly where it ends.
    pub(crate) fn next<N: Naming, P: Placer, T: Tap>(&self, book: &Book<N, P, T>) -> Option<Act>
        ensures some { (settings : Settings) (script : List Act)
            → IfSome result (HasNext (course_of self.now.course settings script) (stage_of self.now)
            (machine_view book.now)) }
        ensures none { (settings : Settings) (script : List Act)
            → IsNone result → EndsAt (course_of self.now.course settings script) (stage_of self.now)
            (machine_view book.now) }
    {
        let act = self.act()?;
        if self.goes_on(book) { Some(act) } else { None }
    }

    /// Whether the driver asks for an act in this state of the machine.
    pub(crate) fn asks<N: Naming, P: Placer, T: Tap>(&self, book: &Book<N, P, T>, act: Act) -> bool
        requires { let settings = (machine_view book.now).settings in
            ActIsInRange settings.tiles settings.cores act }
        ensures { (settings : Settings) (script : List Act)
            → IsTrue result ↔ IsAskedBy (course_of self.now.course settings script) (machine_view book.now) act }
    {
        match self.course {
            CourseWord::Steps => true,
            CourseWord::Least => true,
            CourseWord::Lockstep { .. } => is_asked(book, act),
        }
    }

    /// The round that follows, in the next order.
    fn follow(&mut self, seed: u32, commits: u32, starved: u64)
        requires few { length self.old.acts.items < 2 ^ 32 }
        requires round { self.old.round + 1 < 2 ^ 64 }
        ensures stage { stage_of self.new ≡ following seed (stage_of self.old) commits starved }
        ensures course { self.new.course ≡ self.old.course }
    {
        self.drawn = next_order(self.acts.as_mut_slice(), self.drawn, seed);
        self.round += 1;
        self.place = 0;
        self.begun = commits;
        self.starved = starved;
        self.forced = false;
    }

    /// A round that advances the least task.
    fn force(&mut self, commits: u32)
        requires { self.old.round + 1 < 2 ^ 64 }
        ensures stage { stage_of self.new ≡ at_forced (stage_of self.old).order (self.old.round + 1) commits }
        ensures course { self.new.course ≡ self.old.course }
    {
        self.round += 1;
        self.place = 0;
        self.begun = commits;
        self.starved = 0;
        self.forced = true;
    }

    /// How many rounds in a row are starved, with this one, which ends here.
    fn starved_after<N: Naming, P: Placer, T: Tap>(&self, book: &Book<N, P, T>) -> u64
        requires { self.now.starved + 1 < 2 ^ 64 }
        ensures { (waits : Bool) → IsTrue waits ↔ LeastWaits (machine_view book.now)
            → result ≡ starved_after (stage_of self.now) (length (machine_view book.now).history) waits }
    {
        if book.state().commit_count() == self.begun && waits(book) {
            self.starved + 1
        } else {
            0
        }
    }

    /// Behind an act of a round.
    fn after_act<N: Naming, P: Placer, T: Tap>(
        &mut self,
        book: &Book<N, P, T>,
        seed: u32,
        most: u32,
    )
        requires few { length self.old.acts.items < 2 ^ 32 }
        requires round { self.old.round + 1 < 2 ^ 64 }
        requires place { self.old.place + 1 < 2 ^ 64 }
        requires starved { self.old.starved + 1 < 2 ^ 64 }
        ensures stage { (waits : Bool) → IsTrue waits ↔ LeastWaits (machine_view book.now)
            → stage_of self.new
            ≡ stage_after seed most (stage_of self.old) (length (machine_view book.now).history) waits }
        ensures course { self.new.course ≡ self.old.course }
    {
        let commits = book.state().commit_count();
        if self.forced {
            if !waits(book) {
                self.follow(seed, commits, 0);
            }
        } else if self.place + 1 == self.acts.len() {
            let starved = self.starved_after(book);
            if starved == u64::from(most) {
                self.force(commits);
            } else {
                self.follow(seed, commits, starved);
            }
        } else {
            self.place += 1;
        }
    }

    /// Behind an act that led here: the stage of the next one.
    pub(crate) fn after<N: Naming, P: Placer, T: Tap>(&mut self, book: &Book<N, P, T>)
        requires few { length self.old.acts.items < 2 ^ 32 }
        requires round { self.old.round + 1 < 2 ^ 64 }
        requires place { self.old.place + 1 < 2 ^ 64 }
        requires starved { self.old.starved + 1 < 2 ^ 64 }
        ensures next { (settings : Settings) (script : List Act)
            → NextStage (course_of self.old.course settings script) (stage_of self.old) (machine_view book.now)
            (stage_of self.new) }
        ensures course { self.new.course ≡ self.old.course }
    {
        // A law, called for its clauses.
        book.is_sound();
        match self.course {
            CourseWord::Steps => self.place += 1,
            CourseWord::Least => {}
            CourseWord::Lockstep {
                rounds: _,
                seed,
                starved,
            } => self.after_act(book, seed, starved),
        }
    }
}
