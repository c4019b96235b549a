//! The image from which a stopped run continues.

ghost use Rattle.std.specs.Prelude.{◌≡◌, ◌<◌, ◌≤◌, ◌↔◌, ◌-◌, ◌^◌, ℕ, All};
ghost use Rattle.std.specs.Prelude.{Any, length, map, min, IfOk, IfErr, IsOk, OnOk};
ghost use Rattle.guest_image.specs.declared.limits.TheConstants.{MAX_TASKS};
ghost use Rattle.guest_image.specs.ImageValue.{IsImage, IsVersion, image_value, in_version};
ghost use Rattle.guest_image.specs.Limits.{AreInLimits};
ghost use Rattle.conflict_book.specs.Frozen.{IsFrozenOf};
ghost use Rattle.resume_image.specs.Pendings.{AreOfRoot, IsGreatestDepth};
ghost use Rattle.resume_image.specs.Saved.{CannotSave, IsSavedOf, saved_task};

use crate::fault::SaveFault;
use crate::spec_state::Pending;
use conflict_book::Frozen;
use guest_image::{Image, ImageTask, Kind, MAX_TASKS};
use std::alloc::{AllocError, Global};

/// Law: a stopped run's memory is as long as the image's data, and no depth is 0.
fn frozen_fits(image: &Image, frozen: &Frozen)
    requires { (budget : ℕ) × IsFrozenOf image.now budget frozen.now }
    ensures memory { length frozen.now.closed.memory ≡ image.now.data_size }
    ensures limits { IsImage image.now }
    ensures deep { All (λ p. 1 ≤ p.depth) frozen.now.pending }
{
    let _ = image.tasks();
    let _ = frozen.pending.as_slice();
}

/// A number as a fault reports it.
fn fault_count(number: usize) -> u32
    ensures { result ≡ min number (2 ^ 32 - 1) }
{
    u32::try_from(number).unwrap_or(u32::MAX)
}

/// The greatest depth of the tasks.
fn greatest_depth(pending: &[Pending]) -> u8
    requires { 0 < length pending.now }
    ensures { IsGreatestDepth pending.now result }
{
    let mut depth = pending[0].depth;
    for task in pending {
        if task.depth > depth {
            depth = task.depth;
        }
    }
    depth
}

/// Whether an image can have these tasks.
fn check(pending: &[Pending]) -> Result<(), SaveFault>
    requires some { 0 < length pending.now }
    requires deep { All (λ p. 1 ≤ p.depth) pending.now }
    ensures ok { OnOk result (AreOfRoot pending.now × (length pending.now ≤ MAX_TASKS)) }
    ensures err { IfErr result (CannotSave pending.now) }
{
    let depth = greatest_depth(pending);
    if depth > 1 {
        return Err(SaveFault::Nested { depth });
    }
    if pending.len() > MAX_TASKS as usize {
        return Err(SaveFault::TooMany {
            count: fault_count(pending.len()),
        });
    }
    Ok(())
}

/// A pending task of the root domain, as a task of an image.
fn task_of(pending: &Pending) -> ImageTask
    ensures { result ≡ saved_task pending.now }
{
    ImageTask {
        entry: pending.entry,
        ts: pending.ts,
        args: pending.args,
    }
}

/// The pending tasks, as tasks of an image.
fn tasks_of(alloc: Global, pending: &[Pending]) -> Result<Vec<ImageTask>, AllocError>
    ensures { IfOk result (λ tasks. tasks.items ≡ map saved_task pending.now) }
{
    let mut tasks = Vec::with_capacity(alloc, pending.len())?;
    for task in pending {
        tasks.push(task_of(task))?;
    }
    Ok(tasks)
}

/// An image that was made, in a version.
fn at_version(image: Image, version: u16) -> Image
    requires known { IsVersion version }
    requires made { image.version ≡ 1 }
    ensures { result ≡ in_version version image }
{
    if version == 2 { image.upgrade() } else { image }
}

/// An image of version 1 of values that are within the limits.
#[tactic(auto, using(guest_image::proofs::Proved::made_is))]
fn first_of(
    kind: Kind,
    text: Vec<u32>,
    initial: Vec<u8>,
    data_size: u32,
    window: (u32, u32),
    tasks: Vec<ImageTask>,
) -> Image
    requires { AreInLimits (image_value kind text.items initial.items data_size window.0 window.1 tasks.items) }
    ensures { result ≡ image_value kind text.items initial.items data_size window.0 window.1 tasks.items }
{
    Image::new(kind, text, initial, data_size, window.0, window.1, tasks).unwrap()
}

/// An image of a version and of values that are within the limits.
pub(crate) fn image_of(
    version: u16,
    kind: Kind,
    text: Vec<u32>,
    initial: Vec<u8>,
    data_size: u32,
    window: (u32, u32),
    tasks: Vec<ImageTask>,
) -> Image
    requires version { IsVersion version }
    requires limits { AreInLimits (image_value kind text.items initial.items data_size window.0 window.1 tasks.items) }
    ensures { result ≡ in_version version
        (image_value kind text.items initial.items data_size window.0 window.1 tasks.items) }
{
    at_version(
        first_of(kind, text, initial, data_size, window, tasks),
        version,
    )
}

/// The image from which a stopped run of `image` continues: its data are the memory that the run left, and its tasks
/// the pending ones, in the order of their names.
///
/// It takes time and memory for a copy of the text, of the memory and of the tasks.
pub fn snapshot(alloc: Global, image: &Image, frozen: &Frozen) -> Result<Image, SaveFault>
    requires run { (budget : ℕ) × IsFrozenOf image.now budget frozen.now }
    requires some { 0 < length frozen.now.pending }
    ensures saved { IfOk result (λ saved. IsSavedOf image.now frozen.now saved) }
    ensures few { OnOk result (length frozen.now.pending ≤ MAX_TASKS) }
    ensures refused { IfErr result (CannotSave frozen.now.pending) }
{
    frozen_fits(image, frozen);
    let pending = frozen.pending.as_slice();
    check(pending)?;
    let text = image.text().to_vec(alloc)?;
    let memory = frozen.closed.memory.as_slice().to_vec(alloc)?;
    let tasks = tasks_of(alloc, pending)?;
    Ok(image_of(
        image.version(),
        image.kind(),
        text,
        memory,
        image.data_size(),
        image.window(),
        tasks,
    ))
}
