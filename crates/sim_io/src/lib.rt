//! Where bytes come from and where they go, each with a count of its faults: the traits of a source and a sink,
//! both over memory and over the standard streams, and the reading and writing of a whole text.
//! A call on a source or a sink copies its bytes once; only `read_all` and `MemSink::new` take memory.
//! It stands on nothing but the standard library; both programs, `program_call`, `watch_play` and the writers of
//! reports, replies and traces call it.
#![tactic(auto)]

mod memory;
mod standard;
mod streams;
mod whole;

pub use memory::{CleanSource, MemSink, MemSource};
pub use standard::{StdSink, StdSource};
pub use streams::{Failed, Sink, Source};
pub use whole::{ReadEnd, read_all, write_all};
