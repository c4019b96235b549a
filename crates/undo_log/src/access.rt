//! One load or store.

/// One load or store of a task, as its log keeps it.
///
/// The width is 1, 2 or 4 bytes, and the offset is a multiple of it: the type keeps neither, but the calls that note
/// an access ask for both.
#[derive(Clone, Copy, Debug, PartialEq, Eq)]
pub struct Access {
    /// The first byte, counted from the start of the data.
    pub offset: u32,
    /// The number of bytes.
    pub width: u8,
    /// The number that stood there before, the least byte first.
    pub old: u32,
    /// The number that was stored, of which the low `width` bytes were written. `None` for a load.
    pub new: Option<u32>,
}
