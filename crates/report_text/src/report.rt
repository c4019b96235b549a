//! What a report says.

use crate::serial_machine::{Bytes, End, Items, Journal};

/// A word of the window. In a report of a run the address is a multiple of 4 in the data, and the data has the word
/// there at the end; a report that was read may say anything.
#[derive(Clone, Copy, Debug, PartialEq, Eq)]
pub struct WindowWord {
    /// The address of the word in the guest.
    pub addr: u32,
    /// The four bytes there, read as a little-endian word.
    pub value: u32,
}

/// The words of a window, in the order of their lines: in a report of a run by rising address.
pub type Window = Items<WindowWord>;

/// The tasks that committed in order, the bytes that they emitted, the window of the memory at the
/// end, and how the run ended.
#[derive(Drop)]
pub struct Report {
    /// The tasks that committed, in order.
    pub journal: Journal,
    /// The bytes that they emitted, in the same order.
    pub output: Bytes,
    /// The words of the window at the end.
    pub window: Window,
    /// How the run ended.
    pub end: End,
}
