//! The commit arbiter: which task commits next (the global virtual time of Swarm and Fractal, the least key of
//! all). `least` finds it in a list of keys, by one `cmp` for each and with no memory. `Index` keeps the tasks of
//! all queues in the order of their keys: it takes its memory once, `first` costs one look, and `insert` and
//! `remove` cost comparisons in the logarithm of the length, for ids below the capacity; that an id isn't there is
//! found by a look at each task. It stands on fractal_vt; the state of the machine and a bench call it.
#![tactic(auto)]

mod arbiter;
mod candidate;
mod heap;
mod index;
mod laws;
mod slots;

pub use arbiter::{least, least_on};
pub use candidate::Candidate;
pub use index::Index;
pub use laws::index_order_is_one;
