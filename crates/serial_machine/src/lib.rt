//! The serial meaning of a task program: a stack of bags of pending tasks, a memory, the output and a count of turns.
//!
//! A turn takes a task of least timestamp from the innermost bag that isn't empty and runs it whole. A turn costs
//! the instructions of its task and, for itself and each child, the logarithm of the number of tasks in a bag; no
//! data is copied, and the stores of a turn that is refused are rolled back. It uses `rv_core`, `task_request`,
//! logs and pending lists; `Serial` checks reports, the laws of runs, tasks, states and events cite its
//! definitions, and the speculative machine has its ends and limits from it.
#![tactic(auto)]

mod bag;
mod fault;
mod limits;
mod progress;
mod running;
mod serial;
mod stack;
mod turning;
mod whole_run;

pub use fault::TurnFault;
pub use limits::{MAX_BUDGET, MAX_COMMITS};
pub use pending_list::PendingTask;
pub use run_journal::{Bytes, End, Entry, Items, Journal};
pub use serial::Serial;
pub use whole_run::{SerialRun, run_image};
