//! Why a text isn't a report.

use thiserror::Error;

/// Why a text was not read as a report.
#[derive(Clone, Copy, Debug, PartialEq, Eq, Error)]
pub enum JournalFault {
    /// This line, counted from 1, is the first outside the grammar.
    #[error("line {line} is no line of a report")]
    Line {
        /// The number of the line, from 1 on.
        line: u32,
    },
    /// Out of memory.
    #[error("out of memory")]
    Memory,
}
