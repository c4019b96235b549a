//! The book of the speculative machine: a sound state, with the placers that pick tiles for its tasks and the taps that
//! note its events.
//!
//! Its type keeps that the state is sound. A book keeps its state beside the placers, so that to pick a tile costs one
//! call of a placer. It uses all crates of the machine, and the readings of a board, in whose form it reports how far
//! its run has come (`counts`); scripts, workers, runs, `watch_play`, `fractal_watch` and a bench call it, and saved
//! images take what it froze. An event costs a look at the least task beside its own change; no call copies the data.
#![tactic(auto)]

mod advancing;
mod applying;
mod book;
mod closing;
mod events;
mod freezing;
mod legless;
mod opening;
mod queries;

pub use book::{Book, SoundState};
pub use event_move;
pub use event_step;
use event_step::event_prelude;
use event_step::event_prelude::event_def::spec_state;
use event_step::event_prelude::event_def::spec_state::serial_machine;
pub use event_step::event_prelude::event_def::{Advance, Applied, Closed, Event, Halt, Reply};
use event_step::event_prelude::{event_def, spec_commit, spec_rollback};
use event_step::spec_access::spec_dispatch;
pub use freezing::Frozen;
pub use legless::Legless;
