//! Aborts: of the cascade of one task, of those of all tasks that conflict with an access, and of all tasks.
//!
//! It uses the state, closed sets, logs and filters; the book, `event_step`, `event_move` and `event_prelude` call it.
//! To abort a task costs a look at its noted children and, for each store in its log, one at each task on a core or in
//! a commit queue, and a write; no call allocates memory.
#![tactic(auto)]

mod aborting;
mod cascade;
mod ending;
mod marking;
mod releasing;
mod telling;
mod undoing;

pub use aborting::{abort, abort_conflicts};
pub use ending::undo_all;
