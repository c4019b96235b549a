//! The limits of a report's numbers.

/// The greatest number of entries.
pub const MAX_ENTRIES: u32 = 1_000_000;

/// The greatest depth of an entry, whatever its image allows; the least is 1.
pub const MAX_DEPTH: u32 = 16;

/// The greatest cause of a trap; the least is 1.
pub const MAX_CAUSE: u32 = 17;
