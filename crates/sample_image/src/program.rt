//! Programs with their data and tasks.

/// A program with its data and its tasks, each an entry address and a timestamp.
#[derive(Clone, Copy)]
pub struct Program {
    /// The words of the text.
    pub text: &'static [u32],
    /// The bytes with which the data begin.
    pub initial: &'static [u8],
    /// The size of the data in bytes.
    pub data_size: u32,
    /// The entry address and the timestamp of each task.
    pub tasks: &'static [(u32, u32)],
}

/// A reader at 0x00010000, at timestamp 2: it loads the first word of the data, stores it plus 1 into the second,
/// and enqueues a child at 0x00010024, which ends at once, as it does itself then. A writer at 0x0001002c, at
/// timestamp 1: it stores 7 into the first word.
pub const READER_AND_WRITER: Program = Program {
    text: &[
        0x1000_02b7,
        0x0002_a303,
        0x0013_0313,
        0x0062_a223,
        0x0010_0893,
        0x0001_0537,
        0x0245_0513,
        0x0006_8593,
        0x0000_0073,
        0x0000_0893,
        0x0000_0073,
        0x1000_02b7,
        0x0070_0313,
        0x0062_a023,
        0x0000_0893,
        0x0000_0073,
    ],
    initial: &[],
    data_size: 8,
    tasks: &[(0x0001_0000, 2), (0x0001_002c, 1)],
};

/// Makes 64 children at the timestamps 64 down to 1, each of which ends at once at 0x00010020.
pub const MAKER_TEXT: [u32; 10] = [
    0x0400_0493,
    0x0001_0537,
    0x0205_0513,
    0x0010_0893,
    0x0004_8593,
    0x0000_0073,
    0xfff4_8493,
    0xfe04_9ae3,
    0x0000_0893,
    0x0000_0073,
];

/// The maker at timestamp 0, and three tasks that end at once at the timestamps 1, 2 and 3.
pub const FIRST_MAKER: Program = Program {
    text: &MAKER_TEXT,
    initial: &[],
    data_size: 0,
    tasks: &[
        (0x0001_0000, 0),
        (0x0001_0020, 1),
        (0x0001_0020, 2),
        (0x0001_0020, 3),
    ],
};
