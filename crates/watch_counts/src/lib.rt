//! What is counted of a run that is watched: acts, events and rounds, work, accesses, tasks that were aborted by cause,
//! what stalled, where tasks are, and these by depth, by length and by tile.
//!
//! Counts are a fold over the entries of an event log, with the acts that pass and the ends of rounds: specs/Counts has
//! it on one page. Each number stops at 2^64 - 1, and its text says so. To count an act allocates no memory; one that
//! makes an event looks at each tile's queues and cores once, at the tasks that it aborted, and at the log of a task
//! that commits. The crate uses log entries and the readers of the machine; `watch_play` counts by it.
#![tactic(auto)]

mod accesses;
mod acts;
mod causes;
mod counts;
mod domains;
mod done;
mod noting;
mod numbers;
mod places;
mod stalls;
mod text;
mod tiles;
mod work;

pub use accesses::AccessCounts;
pub use acts::{ActCounts, ActKind};
pub use causes::{Cause, CauseCounts};
pub use counts::Counts;
pub use domains::DomainCounts;
pub use done::{Done, done_by};
pub use places::PlaceCounts;
pub use stalls::StallCounts;
pub use text::put_counts;
pub use tiles::TileCounts;
pub use watch_text;
use watch_text::step_script;
use watch_text::step_script::conflict_book;
use watch_text::step_script::conflict_book::event_step::event_prelude::event_def;
use watch_text::step_script::conflict_book::event_step::event_prelude::event_def::spec_state;
pub use work::WorkCounts;
