//! The event of a running task: a leg of it, and what it asks for at the end of that.
//!
//! `step` and `make_step` are over a state and return the outcome of the event; their contract is that of the event in
//! a book of that state, whatever else the book has. `taker` returns the owner of a leg: the task that takes it. A step
//! finds the causes to refuse it, allocates its memory, forces what prevents it and makes one change. It allocates
//! first, so that nothing has changed where memory runs out, and never needs any afterwards. Its caller has cleared the
//! state's effect, in which the step then reports what it forced and which child it created. It uses `spec_access`,
//! `spec_rollback` and `event_prelude`; the book calls it, and `watch_text` calls `taker`. Beside its change a step
//! costs a look at each dispatched task where it is an access, one at each tile where it enqueues, looks at the tasks
//! of a queue that is full for it, and what it aborts; by `step` it also costs what `least` does.
#![tactic(auto)]

mod accesses;
mod calls;
mod ends;
mod enqueues;
mod legs;
mod recording;

pub use event_prelude;
use event_prelude::event_def::spec_state;
use event_prelude::{event_def, spec_rollback};
pub use legs::{make_step, step, taker};
pub use spec_access;
