//! The state of the speculative machine: its settings, its tasks and lists, and queries of them.
//!
//! State and tasks are kept in a form that is fast to change: the tasks in a slab, with four lists by tile. The
//! definitions say what contracts see of a state (`View`), what its readers promise, and what each change does to it,
//! for the crates that change it. A task is found by its id without a search, and nothing is copied to look at one. The
//! crate of its laws says when a view is sound, so that what changes a state depends on definitions alone. It uses the
//! parts of the machine: keys, index, queues, blocks, filters and logs. It is called by the crates that change it
//! (`spec_access`, `spec_dispatch`, `spec_rollback`, `spec_commit`), those of events, and the book, which makes and
//! ends it; the host gets settings and pending tasks from it, and `watch_text` and `watch_play` read it.
#![tactic(auto)]

mod adding;
mod arrival;
mod children;
mod conflicts;
mod context;
mod effect;
mod emitted;
mod firm;
mod fresh;
mod history;
mod latest;
mod leading;
mod leaving;
mod lists;
mod loads;
mod making;
mod numbers;
mod pending;
mod queries;
mod queued;
mod reserving;
mod settings;
mod state;
mod task;
mod touching;

pub use children::Children;
pub use context::Parts;
pub use effect::{Effect, MAX_TAKEN, SpilledTask, TakenTask};
pub use emitted::{Emitted, MAX_EMITTED};
pub use firm::name_given;
pub use fresh::Fresh;
pub use history::History;
pub use line_table::FilterKind;
pub use loads::{Loads, MAX_TILES};
pub use numbers::{DISPATCH_NUMBERS, MAX_NUMBERS_IN_USE};
pub use pending::{Pending, Pendings};
pub use reserving::{Buffers, MAX_MOVED};
pub use settings::Settings;
pub use state::State;
pub use task::{Creator, Spawns, Status, Task, TaskId, Where};
pub use task_law::serial_machine;
pub use touching::line_of;
