//! What a closed book leaves: here, so that whoever writes reports needs no book.

use crate::journal::{Bytes, Journal};

/// What a book of events leaves once it is closed and its uncommitted tasks are aborted.
#[derive(Drop)]
pub struct Closed {
    /// The committed tasks, in the order of their commits.
    pub journal: Journal,
    /// The data memory after the last commit.
    pub memory: Bytes,
    /// The bytes of the committed tasks.
    pub output: Bytes,
    /// How many events were made, up to 2^64 - 1.
    pub steps: u64,
}
