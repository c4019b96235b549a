//! Why a stopped run can't be saved.

ghost use Rattle.std.specs.Prelude.{◌≡◌};
ghost use Rattle.resume_image.specs.declared.fault.SaveFault.TheVariants.{Memory};

use std::alloc::AllocError;
use thiserror::Error;

/// Why a stopped run can't be saved. They are tried in this order.
#[derive(Clone, Copy, Debug, PartialEq, Eq, Error)]
pub enum SaveFault {
    /// A task is pending inside a domain of another task; an image has tasks of the root domain alone.
    #[error("a task pends at depth {depth}")]
    Nested {
        /// The greatest depth of a pending task: 2 to 16.
        depth: u8,
    },
    /// More than 65,536 tasks are pending, which is as many as an image may have.
    #[error("{count} tasks pend")]
    TooMany {
        /// How many they are, up to 4,294,967,295.
        count: u32,
    },
    /// Out of memory.
    #[error("out of memory")]
    Memory,
}

impl From<AllocError> for SaveFault {
    ghost from_gives = { λ _ e. e ≡ Memory };

    fn from(_: AllocError) -> Self {
        SaveFault::Memory
    }
}
