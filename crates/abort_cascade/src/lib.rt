//! The least set of nodes that holds some of them, and with each node all that it pulls.
//!
//! A set is a slice of marks, one for each node. `close` grows any set in one walk and lists its members: it calls
//! `pulls` at most once for each member and each node, and wants a slice for the members beside the marks. Who finds
//! what a node pulls without a look at each node, and has listed the first ones, calls `close_listed`. `mark` finds the
//! set of one node with the marks alone, in rounds over the marked nodes until one marks nothing new. No call takes
//! memory. It stands on nothing. `spec_rollback` calls `close_listed`, with its own `Spreader`; the order, the state
//! and its laws cite closed sets. `Pulls`, `mark` and `close` are library: a bench calls `close`, and the machine
//! none.
#![tactic(auto)]

mod closing;
mod marking;
mod pulls;

pub use closing::{close, close_listed, closed_sets, list_marked};
pub use marking::mark;
pub use pulls::{Pulls, Spreader};
