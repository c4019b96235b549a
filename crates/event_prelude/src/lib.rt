//! What events ask of a state first: how a run ended, which task is the least one, and room in a task queue.
//!
//! A full task queue gets a free place by moving idle firm tasks into the tile's block, or, if the requester is the
//! least task, by aborting its victim, or else the victim's creator. The crates above decide whether there is a cause
//! to refuse an event, and what it changes where there is none. It uses the state and the crates that abort and spill
//! tasks; `event_move`, `event_step`, the book and `watch_play` call it. A query costs what `least` does.
#![tactic(auto)]

mod ending;
mod leasts;
mod rooming;

pub use ending::{end_of, end_with, least_going};
pub use event_basis::event_def;
use event_basis::event_def::spec_state;
use event_basis::event_def::spec_state::serial_machine;
pub use leasts::is_at;
pub use rooming::{make_room, may_return, stalls};
pub use spec_commit;
pub use spec_rollback;
