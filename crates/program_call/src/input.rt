//! The input is read, up to the image at its front.

ghost use Rattle.std.specs.Prelude.{IfErr, IfOk};
ghost use Rattle.program_call.specs.Reading.{GivesNoImage, OpensWithImage};

use guest_image::{Image, ImageFault, read_image};
use sim_io::{ReadEnd, Source, read_all};
use std::alloc::Global;

/// How many bytes an input has at most: 64 MiB. Of a longer one that many are taken, and one more.
pub const INPUT_LIMIT: usize = 67_108_864;

/// Why a call finds no image.
#[derive(Clone, Copy, Debug, PartialEq, Eq)]
pub enum FrontFault {
    /// The arguments are invalid.
    Usage,
    /// Out of memory.
    Memory,
    /// The source failed.
    Unread,
    /// The input is longer than what is read.
    Long,
    /// The input begins with no image.
    NoImage(ImageFault),
}

/// An input that begins with an image.
#[derive(Drop)]
pub struct Opened {
    /// All bytes of the input.
    pub bytes: Vec<u8>,
    /// The image at their front.
    pub image: Image,
    /// How many of the bytes are the image's.
    pub size: usize,
}

/// Reads a source to its end, and the image at the front of what it gives. It never answers `Usage`.
pub fn read_input<S: Source>(alloc: Global, source: &mut S) -> Result<Opened, FrontFault>
    ensures opened { IfOk result (OpensWithImage (S.state source.old) (S.state source.new)) }
    ensures fault { IfErr result (GivesNoImage (S.state source.old) (S.state source.new)) }
{
    let bytes = match read_all(alloc, source, INPUT_LIMIT) {
        Ok(bytes) => bytes,
        Err(ReadEnd::Failed) => return Err(FrontFault::Unread),
        Err(ReadEnd::Long) => return Err(FrontFault::Long),
        Err(ReadEnd::Memory) => return Err(FrontFault::Memory),
    };
    match read_image(alloc, &bytes) {
        Ok((image, size)) => Ok(Opened { bytes, image, size }),
        Err(ImageFault::Memory) => Err(FrontFault::Memory),
        Err(fault) => Err(FrontFault::NoImage(fault)),
    }
}
