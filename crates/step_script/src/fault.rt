//! Why a text isn't a script.

use thiserror::Error;

/// Why a text was not read as a script.
#[derive(Clone, Copy, Debug, PartialEq, Eq, Error)]
pub enum ScriptFault {
    /// This line, counted from 1, is the first outside the grammar.
    #[error("line {line} is no line of a script")]
    Line {
        /// The number of the line, from 1 on.
        line: u32,
    },
    /// Out of memory.
    #[error("out of memory")]
    Memory,
}
