//! The pending tasks of a domain, in the order of their arrival, with an index by name and one by timestamp.
//!
//! A task joins at the end, is found and leaves by its name, and the first of the least timestamp is at hand: a
//! join, a look by name and a leave cost the logarithm of the slots that there is memory for, and a leave a look at
//! each vacant slot that it drops besides; the look at the first costs the same however long the list is. It stands
//! on task descriptors; the serial machine calls it, and what speaks of its bags cites it.
#![tactic(auto)]

mod list;
mod slot;
mod task;
mod tournament;

pub use list::PendingList;
pub use task::PendingTask;
