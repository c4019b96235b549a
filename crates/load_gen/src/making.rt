//! The loads, and the making of their images.

ghost use Rattle.std.specs.Prelude.{◌≡◌, IfOk, length};
ghost use Rattle.guest_image.specs.ImageValue.{image_value};
ghost use Rattle.guest_image.specs.Limits.{AreInLimits};
ghost use Rattle.load_gen.specs.Generated.{IsSize, load_image};

use crate::nest::nest_image;
use crate::walk::walk_image;
use guest_image::{Image, ImageTask, Kind};
use std::alloc::{AllocError, Global};

/// What an image makes its machine do.
#[derive(Clone, Copy, Debug, PartialEq, Eq)]
pub enum Load {
    /// A breadth-first walk in an ordered root through a graph of `size` nodes. Each node has edges to its children in
    /// a binary heap, and one to a node that is not after it. A whole run has two commits for each node.
    Walk,
    /// `size` tasks in an unordered root, each of which adds an amount to two of eight cells by two tasks of a domain
    /// of its own. A whole run has three commits for each initial task.
    Nest,
}

/// An image of values that are within the limits.
#[tactic(auto, using(guest_image::proofs::Proved::made_is))]
pub(crate) fn image_of(
    kind: Kind,
    text: Vec<u32>,
    initial: Vec<u8>,
    data_size: u32,
    window_offset: u32,
    window_words: u32,
    tasks: Vec<ImageTask>,
) -> Image
    requires { AreInLimits
        (image_value kind text.items initial.items data_size window_offset window_words tasks.items) }
    ensures { result ≡ image_value kind text.items initial.items data_size window_offset window_words tasks.items }
{
    Image::new(
        kind,
        text,
        initial,
        data_size,
        window_offset,
        window_words,
        tasks,
    )
    .unwrap()
}

/// The image of a load of this seed and size. The size is 1 to 100,000 for a walk, and 1 to 10,000 for nested
/// additions.
pub fn make(alloc: Global, load: Load, seed: u32, size: u32) -> Result<Image, AllocError>
    requires size { IsSize load size }
    ensures image { IfOk result (λ image. image ≡ load_image load seed size) }
{
    match load {
        Load::Walk => walk_image(alloc, seed, size),
        Load::Nest => nest_image(alloc, seed, size),
    }
}
