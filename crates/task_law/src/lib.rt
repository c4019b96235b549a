//! The laws of a machine's uncommitted tasks, with no speculative state in them: what they mean to the serial machine,
//! how a full task queue gets room, and how far the least task is from its commit.
//!
//! Each law is a definition over functions from ids, and the contract of a function that does nothing and costs
//! nothing; whoever holds a machine's tables states them of what it reads of its own tasks. It stands on the serial
//! machine and on the laws of memory and of runs; the laws of states and events stand on it, and the state, its
//! rollback and commit, the events, the book and `resume_image` cite it.
#![tactic(auto)]

mod commit;
mod logged;
mod moves;
mod progress;
mod room;

pub use commit::{
    commit_is_turn, commit_keeps_tasks, context_fits, least_commits_serially, least_has_turn,
    least_traps_serially, turn_keeps_domains,
};
pub use logged::{logged_run_is_turn, logged_trap_is_serial};
pub use moves::{
    abort_keeps_tasks, coalesce_keeps_tasks, dispatch_keeps_tasks, enqueue_keeps_tasks,
    idle_least_is_any, no_tasks_are_sound, placement_keeps_tasks, split_keeps_tasks,
};
pub use progress::{advances_are_few, events_advance};
pub use room::{coalesce_shortens_queue, some_rule_applies, victim_is_legal, victim_makes_room};
pub use run_law::serial_machine;
