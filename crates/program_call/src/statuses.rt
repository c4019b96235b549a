//! The statuses of an outcome and of the process of a program. The answers for each are in the `specs/Answers` of the
//! program.

/// A run ended with nothing pending, a report was accepted, acts were played and the run may continue, or the lists of
/// taps were written, whatever the run's end.
pub const DONE: u8 = 0;

/// The arguments are invalid.
pub const USAGE: u8 = 1;

/// The bytes begin with no image.
pub const IMAGE_FAULT: u8 = 2;

/// A run ended at a trap.
pub const TRAP: u8 = 3;

/// A run ended at its commit limit.
pub const LIMIT: u8 = 4;

/// Memory ran out.
pub const NO_MEMORY: u8 = 5;

/// The source failed.
pub const SOURCE_FAULT: u8 = 6;

/// The sink failed.
pub const SINK_FAULT: u8 = 7;

/// A report is refused.
pub const REPORT_FAULT: u8 = 8;

/// A script is refused.
pub const SCRIPT_FAULT: u8 = 9;

/// The source has more bytes than are read.
pub const LONG: u8 = 10;

/// A run can't be saved, since a pending task is in a subdomain.
pub const NESTED: u8 = 12;

/// A run can't be saved, since more tasks are pending than an image has.
pub const TOO_MANY: u8 = 13;
