//! Laws of stories and their lines. Each is the contract of a function that does nothing.

ghost use Rattle.watch_play.specs.Leaving.{LeastStoryAdvances, LeastStoryIsRun, StoryStaysSound};
ghost use Rattle.watch_play.specs.Lockstep.{LockstepPlays};
ghost use Rattle.watch_play.specs.Replies.{MomentDoes, StoryPlays};
ghost use Rattle.watch_play.specs.Rounds.{AskedIsMade, PassedIsRefused};
ghost use Rattle.watch_play.specs.Twice.{EndIsOne, StoryIsOne};

use rv_core::Naming;

/// A log entry of a sound book that wasn't stopped does its act, as a script that is played does; it states its reply,
/// or of an advance whether it committed or moved, and how many tasks it aborted. On an unsound view the event for the
/// least task might be refused, and a stopped book advances to no end.
pub fn moment_does<N: Naming>()
    ensures { MomentDoes N }
{}

/// A story of a whole script, from a sound opening on, plays it: its replies are those of whatever plays the script
/// from there, since a script that is played twice says one thing.
pub fn story_plays<N: Naming>()
    ensures { StoryPlays N }
{}

/// While a run goes on, what a round asks for as the machine stands is made, unless a step stalls or memory runs out.
pub fn asked_is_made<N: Naming>()
    ensures { AskedIsMade N }
{}

/// What a round passes over isn't made by whoever hands it in: it is refused, or memory is wanting, and the book stays
/// as it is. On an unsound view an id might stand twice in a task queue, so that none is the least idle one.
pub fn passed_is_refused<N: Naming>()
    ensures { PassedIsRefused N }
{}

/// The acts that the log of a run in rounds lists, in their order, are a script that is played so: lockstep is `steps`
/// of the acts of its lines, with the same replies.
pub fn lockstep_plays<N: Naming>()
    ensures { LockstepPlays N }
{}

/// An event log of any driver whose acts are within the settings leaves a sound book that wasn't stopped, however long
/// it is, if it began with one. An unsound opening stays unsound, and a stopped book makes no event.
pub fn story_stays_sound<N: Naming>()
    ensures { StoryStaysSound N }
{}

/// Each moment of the course of the least task is one event for the least task, of a sound opening that wasn't stopped.
pub fn least_story_advances<N: Naming>()
    ensures { LeastStoryAdvances N }
{}

/// So what this driver leaves of an opening is the run that as many events of the least tasks make as the log has
/// entries: the one that `fractal_sim` runs without workers.
pub fn least_story_is_run<N: Naming>()
    ensures { LeastStoryIsRun N }
{}

/// Two event logs of one driver, from openings of one image with the same settings, placers and taps, agree entry by
/// entry: only the ids of tasks differ. Of what an event did beside its one change they agree on how many tasks were
/// aborted, and no more is claimed.
pub fn story_is_one<N: Naming>()
    ensures { StoryIsOne N }
{}

/// A driver from an opening ends after one number of acts and no other: so the numbers of rounds, acts and lines of its
/// log are determined.
pub fn end_is_one<N: Naming>()
    ensures { EndIsOne N }
{}
