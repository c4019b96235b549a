//! What a run leaves: its journal, and bytes.

use crate::items::Items;
use task_desc::Name;

/// A task that took its turn.
#[derive(Clone, Copy, Debug, PartialEq, Eq)]
pub struct Entry {
    /// The task's name.
    pub name: Name,
    /// The depth of its domain: 1 for the root domain, at most 16.
    pub depth: u8,
    /// The timestamp at which it ran: 0 in an unordered domain.
    pub ts: u32,
}

/// The tasks that took their turns, in order.
pub type Journal = Items<Entry>;

/// Bytes: of the memory, or those that tasks emitted.
pub type Bytes = Items<u8>;
