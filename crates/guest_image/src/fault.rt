//! Why bytes aren't an image.

ghost use Rattle.std.specs.Prelude.{◌≡◌};
ghost use Rattle.guest_image.specs.declared.fault.ImageFault.TheVariants.{Memory};

use std::alloc::{AllocError, AllocFailed};
use thiserror::Error;

/// Why bytes aren't an image, or values don't make one.
#[derive(Clone, Copy, Debug, PartialEq, Eq, Error)]
pub enum ImageFault {
    /// There are fewer bytes than the header has, or than the whole image has.
    #[error("an image of {need} bytes is cut short after {have}")]
    Short {
        /// How many bytes are needed.
        need: u64,
        /// How many there are.
        have: u64,
    },
    /// The first four bytes are not `FRAC`.
    #[error("no image begins here")]
    Magic,
    /// The version is none that is known.
    #[error("version {found} is not known")]
    Version {
        /// The version that was found.
        found: u16,
    },
    /// The kind of the root domain is neither 0 nor 1.
    #[error("{found} is no kind of a domain")]
    RootKind {
        /// The number that was found.
        found: u16,
    },
    /// A number of the header is above its limit.
    #[error("{value} is above the limit of the field at {field}")]
    Limit {
        /// The offset of the field in the header: 8, 12, 16, 24 or 28.
        field: u32,
        /// The number that was found.
        value: u32,
    },
    /// The window does not lie in the data, or does not begin at a multiple of 4.
    #[error("the window does not lie in the data")]
    Window,
    /// The image has no initial task.
    #[error("there is no initial task")]
    NoTask,
    /// Out of memory.
    #[error("out of memory")]
    Memory,
}

impl From<AllocError> for ImageFault {
    ghost from_gives = { λ _ e. e ≡ Memory };

    fn from(_: AllocError) -> Self {
        ImageFault::Memory
    }
}

impl<T: Drop> From<AllocFailed<T>> for ImageFault {
    ghost from_gives = { λ _ e. e ≡ Memory };

    fn from(_: AllocFailed<T>) -> Self {
        ImageFault::Memory
    }
}

impl ImageFault {
    ghost use Rattle.guest_image.specs.Fault.{fault_number, fault_offset};

    /// The fault's number, 1 to 7 in the order of the variants; 0 when out of memory.
    pub fn number(&self) -> u8
        ensures { result ≡ fault_number self.now }
    {
        match self {
            ImageFault::Short { .. } => 1,
            ImageFault::Magic => 2,
            ImageFault::Version { .. } => 3,
            ImageFault::RootKind { .. } => 4,
            ImageFault::Limit { .. } => 5,
            ImageFault::Window => 6,
            ImageFault::NoTask => 7,
            ImageFault::Memory => 0,
        }
    }

    /// The offset of the field at fault; for `Short` the number of bytes, and 0 when out of memory.
    pub fn offset(&self) -> u64
        ensures { result ≡ fault_offset self.now }
    {
        match self {
            ImageFault::Short { have, .. } => *have,
            ImageFault::Version { .. } => 4,
            ImageFault::RootKind { .. } => 6,
            ImageFault::Limit { field, .. } => u64::from(*field),
            ImageFault::Window => 20,
            ImageFault::NoTask => 28,
            ImageFault::Magic | ImageFault::Memory => 0,
        }
    }
}
