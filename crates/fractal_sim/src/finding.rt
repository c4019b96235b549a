//! What is found with an image before anything is written.

use crate::serial_machine::SerialRun;
use guest_image::Image;
use load_gen::Load;
use machine_run::{Played, Ran, Traced};

/// Which image is generated.
#[derive(Clone, Copy)]
pub(crate) struct Loading {
    /// What kind of image it is.
    pub(crate) load: Load,
    /// What its choices are drawn from.
    pub(crate) seed: u32,
    /// How large it is, in the range of its kind.
    pub(crate) size: u32,
}

/// What was made of the tasks that are pending when a run met its commit limit.
#[derive(Drop)]
pub(crate) enum Saving {
    /// The bytes of the image from which the run continues.
    Bytes(Vec<u8>),
    /// Nothing, since a task is pending this deep in another task's domain.
    Nested(u8),
    /// Nothing, since so many tasks are pending, more than an image has.
    TooMany(u32),
}

/// What is found with an image before anything is written. No memory is taken from then on. As with a run, which it may
/// have, it is handed on or taken apart.
pub(crate) enum Finding {
    /// Memory ran out before a run was made, or before a report was accepted or refused.
    Memory,
    /// The report is refused at this line.
    Refused(u32),
    /// The script is refused at this line.
    NoScript(u32),
    /// The report is accepted; this is its run.
    Accepted(SerialRun),
    /// The image that was read was run, by so many events where no workers made them.
    Ran(Image, Ran, Option<u64>),
    /// The image that was read was run to its commit limit, by so many events if no workers made them, and this was
    /// made of the pending tasks.
    Stopped(Ran, Option<u64>, Saving),
    /// The image that was generated was run, by so many events where no workers made them.
    Loaded(Loading, Image, Ran, Option<u64>),
    /// The script was played with this image.
    Played(Image, Played),
    /// The script was played, and the taps have these numbers.
    Traced(Traced),
}
