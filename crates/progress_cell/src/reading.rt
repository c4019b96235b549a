//! Readings.

/// How far a run has come.
#[derive(Clone, Copy, Debug, PartialEq, Eq)]
pub struct Reading {
    /// How many tasks were committed.
    pub commits: u32,
    /// How many bytes the committed tasks emitted.
    pub output: u64,
}
