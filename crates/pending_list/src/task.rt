//! A pending task.

use task_desc::Name;

/// A task that waits for its turn.
#[derive(Clone, Copy, Debug, PartialEq, Eq)]
pub struct PendingTask {
    /// Its name, which no other task of a run has.
    pub name: Name,
    /// Where it starts.
    pub entry: u32,
    /// Its timestamp: 0 in an unordered domain.
    pub ts: u32,
    /// Its arguments, which are in x10 to x12 at its start.
    pub args: [u32; 3],
}
