//! The queues of a tile: bounded lists of distinct ids, in the order in which they came.
//!
//! A queue allocates the memory for its whole capacity when it is made, and none afterwards. To put an id in costs a
//! push, to take one out a search and a move of those after it, and to take all marked ones out one pass over the
//! queue. It uses no other crate; the state keeps two for each tile.
#![tactic(auto)]

mod queue;

pub use queue::{CommitQueue, FinishedTasks, Queue, QueuedTasks, TaskQueue};
