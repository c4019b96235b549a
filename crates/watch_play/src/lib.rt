//! Drivers that are played on a book, with an event log of their acts: a script, advances of the least task, or rounds
//! in lockstep.
//!
//! Each act that the driver asks for is one log line, with a whole view after each K-th where views are printed, and is
//! one piece for the sink, written before the next act; where only the memory is printed, no line is made, and nothing
//! goes to the sink. Between acts it keeps the player, the line and the order of a round: its memory doesn't grow with
//! the number of acts. It uses the lines of `watch_text`, scripts, by whose player it plays, and the book;
//! `fractal_watch` calls it.
#![tactic(auto)]

mod counting;
mod driving;
mod laws;
mod lockstep;
mod opening;
mod playing;
mod stage;
mod stop;
mod telling;
mod watch;

pub use driving::play_course;
pub use laws::{
    asked_is_made, end_is_one, least_story_advances, least_story_is_run, lockstep_plays,
    moment_does, passed_is_refused, story_is_one, story_plays, story_stays_sound,
};
use machine_run::step_script;
use machine_run::step_script::conflict_book;
use machine_run::step_script::conflict_book::event_move;
use machine_run::step_script::conflict_book::event_step::event_prelude;
use machine_run::step_script::conflict_book::event_step::event_prelude::event_def::spec_state;
use machine_run::step_script::conflict_book::event_step::spec_access::spec_dispatch;
pub use opening::tell_opening;
pub use stop::{StoryStop, tell_text};
pub use telling::Telling;
pub use watch::{Play, Printer, SoTold, Watch};
pub use watch_counts::watch_text;
