//! The reply to each act that was played.

use crate::event_def::Reply;

/// The word for an act.
#[derive(Clone, Copy, Debug, PartialEq, Eq)]
pub enum Word {
    /// The reply to its event, or what the act answers instead; never `Memory`.
    Plain(Reply),
    /// `advance` made an event other than a commit.
    Moved,
    /// `advance` made a commit.
    Committed,
}

/// The reply to an act, and how many tasks it aborted.
#[derive(Clone, Copy, Debug, PartialEq, Eq)]
pub struct Said {
    /// The word.
    pub word: Word,
    /// How many tasks were aborted.
    pub aborted: u32,
}
