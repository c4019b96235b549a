//! What the workers of one run share, beside the lock.

ghost use Rattle.std.specs.Prelude.{◌≡◌, ◌≤◌};

use crate::waiting::Bell;
use guest_image::Image;
use rv_core::{Decoded, Naming};
use std::alloc::Global;
use std::thread::{Threads, available_parallelism};

/// What the workers of one run share, beside the lock in which the book stands: the image, what ends their naps, the
/// gate that they pass, and how many they are. Their legs run on the decoded text where there is one, else on the text
/// itself.
#[derive(Drop)]
pub(crate) struct Crew<'a, N: Naming, G> {
    pub(crate) image: &'a Image,
    pub(crate) decoded: Option<Decoded<N>>,
    pub(crate) bell: Bell,
    pub(crate) gate: &'a G,
    pub(crate) workers: u32,
    ghost named: { image.now ≡ N.image },
    ghost some: { 1 ≤ workers },
    ghost few: { workers ≤ 16 },
}

impl<'a, N: Naming, G> Crew<'a, N, G> {
    /// A crew of so many workers. Where memory doesn't reach for a second decoded text, they run on the text itself.
    pub(crate) fn new<R: Threads>(
        rt: &R,
        alloc: Global,
        image: &'a Image,
        workers: u32,
        gate: &'a G,
    ) -> Crew<'a, N, G>
        requires image { image.now ≡ N.image }
        requires workers { (1 ≤ workers) × (workers ≤ 16) }
        ensures { result.workers ≡ workers }
    {
        Crew {
            image,
            decoded: Decoded::new(alloc, image).ok(),
            bell: Bell::new(is_crowded(rt, workers)),
            gate,
            workers,
        }
    }
}

/// Whether there are more workers than processors, as far as the system reports.
fn is_crowded<R: Threads>(rt: &R, workers: u32) -> bool {
    match available_parallelism(rt) {
        Ok(processors) => processors.get() < workers as usize,
        Err(_) => false,
    }
}
