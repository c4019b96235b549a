//! A run in lockstep gets on: a bound of its rounds by its commits.
//!
//! While a least task waits, rounds starve, and after so many it is advanced. Once it is dispatched, any event for
//! another task leaves it the least one and as it is, and each round brings it nearer to its commit. Each law is the
//! contract of a function that does nothing and costs nothing. They depend on the definition of rounds in `watch_play`
//! and on the laws of events; no crate calls them.
#![tactic(auto)]

mod laws;

pub use laws::{forced_gets_on, rounds_dispatch, rounds_get_on};
