//! How many dispatch numbers there are, and how many are in use at most.

/// How many dispatch numbers there are. A number is the tiebreaker of a key, which has sixteen bits; where all are
/// given, those in use are renumbered from 0 on before the next dispatch.
pub const DISPATCH_NUMBERS: u64 = 65_536;

/// How many dispatch numbers are in use at most: one for each task in the task queues, of which each of 16 tiles has
/// 256 at most, and one for each level of the path, which has 16 at most. A table for a renumbering has memory for so
/// many.
pub const MAX_NUMBERS_IN_USE: usize = 4_112;
