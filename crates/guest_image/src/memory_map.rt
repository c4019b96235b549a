//! Where a program's text and data and a task's stack lie among the addresses of its tasks.

/// The address of the first word of the text.
pub const TEXT_START: u32 = 0x0001_0000;

/// The address of the first byte of a task's stack.
pub const STACK_START: u32 = 0x2000_0000;

/// How many bytes a task's stack has.
pub const STACK_BYTES: u32 = 1024;

/// The address of the first byte of the data.
pub const DATA_START: u32 = 0x1000_0000;
