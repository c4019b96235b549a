//! The limits of a run.

/// How many tasks may commit in one run, at most. A journal that is joined of two runs may be longer.
pub const MAX_COMMITS: u32 = 1_000_000;

/// How many instructions one task may execute, at most.
pub const MAX_BUDGET: u32 = 65_536;
