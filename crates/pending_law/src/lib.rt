//! The pending tasks of a sound state are those of the serial machine.
//!
//! The uncommitted tasks that the image or a committed task made, queued and spilled, are the tasks of the serial
//! machine's bags after the state's journal: each once, with its name, depth, entry address, timestamp and arguments.
//! The law is the contract of a function that does nothing and costs nothing. It uses the laws of states and of runs;
//! the book's proof of a freeze cites the lemma that proves it, and saved images depend on that.
#![tactic(auto)]

mod laws;

pub use laws::pendings_are_serial;
