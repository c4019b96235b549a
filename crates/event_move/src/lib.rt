//! The events that move tasks between queues, cores and blocks: dispatch, abort, commit, coalescing and split.
//!
//! Each call first finds the causes to refuse its event, in their order, then allocates memory for what it adds, aborts
//! what prevents it, and makes its one change. It answers with the record that taps note, or with the reply that
//! refuses the event, and then nothing has changed. The state's effect, which is clear before, then lists what the
//! event did beside its change: the tasks that it aborted, spilled and created. A call `make_..` makes an event that is
//! granted already; `has_idle` and `least_in` return what a dispatch would find. It uses `spec_dispatch`,
//! `spec_rollback`, `spec_commit` and `event_prelude`; the book and `watch_play` call it. A call costs what its change
//! does.
#![tactic(auto)]

mod aborting;
mod committing;
mod dispatching;
mod recording;
mod spilling;

pub use aborting::abort;
pub use committing::{commit, make_commit};
pub use dispatching::{dispatch, has_idle, least_in, make_dispatch};
use event_prelude::event_def::spec_state;
use event_prelude::{event_def, spec_commit, spec_rollback};
pub use spilling::{coalesce, make_split, split};
