//! The laws of the serial machine's runs, as the contract of a function that does nothing and costs nothing.
//!
//! They are definitions over an image, a budget, a journal and a state, and are proved once, of every run; whoever
//! holds a run states them of its own journal and state. It stands on the serial machine; the book, reports and both
//! programs state them, and the crates of laws above cite lemmas of this crate, not the laws.
#![tactic(auto)]

mod laws;

pub use laws::runs_are_lawful;
pub use serial_machine;
