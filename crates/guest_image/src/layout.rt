//! What an image's bytes begin with, and how many of them its header and each of its tasks have.

/// The bytes `FRAC`, read as a number.
pub(crate) const MAGIC: u32 = 0x4341_5246;

/// The bytes of the header.
pub(crate) const HEADER: usize = 32;

/// The bytes of a task.
pub(crate) const TASK: usize = 20;
