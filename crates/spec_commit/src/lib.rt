//! Tasks that leave the queues for good or for a while: a commit, a coalescing, a split, and the victim, which makes
//! way in a full queue.
//!
//! Each change of a state is as its definition says and keeps what the state's type keeps. What takes memory takes
//! it before its first change, so that the state stays as it was where memory runs out. Whether an event is allowed
//! is decided above. It stands on the state; `event_move`, `event_prelude` and the book call it. A commit with children
//! costs a look at each child where it was put, and at each slot of tasks only where the notes of children aren't
//! complete; events leave them complete.
#![tactic(auto)]

mod choosing;
mod coalescing;
mod committing;
mod least;
mod queue;
mod splitting;
mod telling;
mod victim;

pub use coalescing::coalesce;
pub use committing::commit_task;
pub use least::commit;
use spec_state::serial_machine;
pub use splitting::split;
pub use victim::{creator_of, room_victim, victim_of};
