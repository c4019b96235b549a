//! The guest's data memory, and the logs by which the stores of a task are rolled back.
//!
//! A log keeps each access of its task in order, with the value that the memory had before. A load is one read of the
//! whole number, a store one read and one write of it, and each is one push to the log, which can use spare memory. To
//! undo a log costs one write for each store in it, and no memory. It uses only `spare_buffer`; each machine keeps a
//! single memory and a log for each task, the serial one of its stores alone, and `rv_core` reads and writes stacks by
//! it.
#![tactic(auto)]

mod access;
mod calls;
mod covered;
mod log;
mod memory;

pub use access::Access;
pub use calls::{load, store, undo, undo_restores};
pub use covered::{load_with, store_with};
pub use log::Log;
pub use memory::{Memory, number_in, write_in};
