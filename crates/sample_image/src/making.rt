//! The image of a program.

ghost use Rattle.std.specs.Prelude.{◌≡◌, ◌⊎◌, Err, IfOk, map};
ghost use Rattle.guest_image.specs.declared.fault.ImageFault.TheVariants as faults;
ghost use Rattle.guest_image.specs.Limits.{image_made};
ghost use Rattle.sample_image.specs.Samples.{first_task, value_of_program};

use crate::program::Program;
use guest_image::{Image, ImageFault, ImageTask, Kind};
use std::alloc::{AllocError, Global};

/// The task of this entry address and timestamp, without arguments.
fn first_task(entry: u32, ts: u32) -> ImageTask
    ensures { result ≡ first_task (entry, ts) }
{
    ImageTask {
        entry,
        ts,
        args: [0; 3],
    }
}

/// The tasks of a program.
fn tasks_of(alloc: Global, entries: &[(u32, u32)]) -> Result<Vec<ImageTask>, AllocError>
    ensures { IfOk result (λ tasks. tasks.items ≡ map first_task entries.now) }
{
    entries
        .iter()
        .map(|(entry, ts)| first_task(*entry, *ts))
        .collect(alloc)
}

/// The ordered image of a program, with no window; or the first of the limits of an image that it exceeds, or
/// `Memory` where memory runs out.
pub fn image_of(alloc: Global, program: &Program) -> Result<Image, ImageFault>
    ensures { (result ≡ Err faults.Memory) ⊎ (result ≡ image_made (value_of_program program.now)) }
{
    let text = program.text.to_vec(alloc)?;
    let initial = program.initial.to_vec(alloc)?;
    let tasks = tasks_of(alloc, program.tasks)?;
    Image::new(Kind::Ordered, text, initial, program.data_size, 0, 0, tasks)
}
