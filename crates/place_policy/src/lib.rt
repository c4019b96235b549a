//! Placers: objects that pick the tile in which a new task is placed.
//!
//! A placer is a state that contracts see as a number, with two functions that no call changes: the tile that it
//! chooses from the state, a hint and the load of each tile, and the state after a task was placed. The list of the
//! placers of a machine is served by its first. A call costs at most one look at each load, and takes no memory. It
//! stands on nothing; the book and `event_step` call the placers that are handed in, and both programs and a bench
//! make three.
#![tactic(auto)]

mod by_hint;
mod least_loaded;
mod placer;
mod round_robin;
mod serving;

pub use by_hint::ByHint;
pub use least_loaded::LeastLoaded;
pub use placer::Placer;
pub use round_robin::RoundRobin;
pub use serving::{serving_pick, serving_placed};
