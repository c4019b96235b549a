//! What an act was answered.

use crate::event_def::Reply;

/// What an act was answered, as far as its line needs it.
#[derive(Clone, Copy, Debug, PartialEq, Eq)]
pub struct Answer {
    /// The reply, or the word that was said in its place.
    pub reply: Reply,
    /// How many tasks were aborted.
    pub aborted: u32,
    /// How many events were made so far.
    pub events: u64,
    /// How many bytes were emitted before it.
    pub output: usize,
}
