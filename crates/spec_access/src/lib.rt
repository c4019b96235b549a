//! The forward changes of one running task: each does the one change that the task asks for at the end of its leg.
//!
//! What a change may wait for is forced before it: its caller has aborted what conflicts, and made a free place. A call
//! that adds to a log or to a list of children allocates the memory for it before its first change, and needs no memory
//! where that is spare; no other call allocates. None copies the data: an access costs one read or write of it, and a
//! child one candidate of the index. `read`, `write`, `spawn`, `make_sub`, `emit` and `keep` find out by
//! `request_of_task` what the task asks for; the calls beneath them get that from a caller that knows. It uses the
//! state, requests and logs; `event_step` calls it. It re-exports the dispatch, which begins a task, from
//! `spec_dispatch`.
#![tactic(auto)]

mod accessing;
mod calling;
mod calls;
mod child;
mod finishing;
mod requests;
mod spawning;

pub use accessing::{load_reserved, reserve_access, store_reserved};
pub use calling::{call_trap, end_quantum, open_sub, put_byte};
pub use calls::{emit, keep, make_sub, read, spawn, write};
pub use finishing::finish;
pub use requests::request_of_task;
pub use spawning::enqueue_child;
pub use spec_dispatch;
pub use spec_dispatch::dispatch;
