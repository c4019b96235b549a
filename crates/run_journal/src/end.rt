//! How a run ends.

use task_desc::Name;

/// How a run ends. Normal, Limit and Trap are tried in this order.
#[derive(Clone, Copy, Debug, PartialEq, Eq)]
pub enum End {
    /// No task is pending.
    Normal,
    /// A task that may take the next turn traps.
    Trap {
        /// The task's name.
        name: Name,
        /// The cause of the trap, 1 to 17.
        cause: u8,
        /// The address of the instruction that traps.
        pc: u32,
    },
    /// The journal has as many entries as the commit limit, and a task is pending.
    Limit,
    /// The journal is shorter than the commit limit, and a task is pending.
    Unfinished,
}
