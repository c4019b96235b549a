//! From bytes to an image.

ghost use Rattle.std.specs.Prelude.{◌≡◌, ◌≢◌, ◌+◌, ◌*◌, ◌≤◌, length, IfErr, IfOk, OnOk};
ghost use Rattle.guest_image.specs.Numbers.{word_at, half_at};
ghost use Rattle.guest_image.specs.Reading.{GivesImage, image_of, header_fault, HeaderFits, whole_length};
ghost use Rattle.guest_image.specs.Reading.{image_task_at};
ghost use Rattle.guest_image.specs.Reading.{tasks_from, words_from, value_in_bytes, root_kind};

use crate::fault::ImageFault;
use crate::image::{Image, ImageTask, Kind};
use crate::layout::{HEADER, MAGIC, TASK};
use crate::limits::check_limits;
use byteorder::{ByteOrder, LittleEndian};
use std::alloc::{AllocError, Global};

/// The number in the 4 bytes from an offset on.
#[tactic(auto, unfolding(crate::specs::Numbers::word_at))]
fn word(bytes: &[u8], at: usize) -> u32
    requires { at + 4 ≤ length bytes.now }
    ensures { result ≡ word_at bytes.now at }
{
    LittleEndian::read_u32(bytes.split_at(at).1)
}

/// The number in the 2 bytes from an offset on.
#[tactic(auto, unfolding(crate::specs::Numbers::half_at))]
fn half(bytes: &[u8], at: usize) -> u16
    requires { at + 2 ≤ length bytes.now }
    ensures { result ≡ half_at bytes.now at }
{
    LittleEndian::read_u16(bytes.split_at(at).1)
}

/// The first fault of the header alone.
#[tactic(auto, unfolding(crate::specs::Reading::header_fault))]
fn check_header(bytes: &[u8]) -> Result<(), ImageFault>
    requires { 32 ≤ length bytes.now }
    ensures fault { result ≡ header_fault bytes.now }
    ensures own { IfErr result (λ fault. fault ≢ ImageFault.Memory) }
    ensures limits { OnOk result (HeaderFits bytes.now) }
{
    if word(bytes, 0) != MAGIC {
        return Err(ImageFault::Magic);
    }
    let found = half(bytes, 4);
    if found != 1 && found != 2 {
        return Err(ImageFault::Version { found });
    }
    let found = half(bytes, 6);
    if found > 1 {
        return Err(ImageFault::RootKind { found });
    }
    check_limits(
        word(bytes, 8),
        word(bytes, 12),
        word(bytes, 16),
        word(bytes, 20),
        word(bytes, 24),
        word(bytes, 28),
    )
}

/// As many words, one after another from an offset on.
#[tactic(auto, unfolding(crate::specs::Reading::words_from))]
fn words(alloc: Global, bytes: &[u8], at: usize, count: usize) -> Result<Vec<u32>, AllocError>
    requires { at + 4 * count ≤ length bytes.now }
    ensures { IfOk result (λ v. v.items ≡ words_from bytes.now at count) }
{
    (0..count).map(|k| word(bytes, at + 4 * k)).collect(alloc)
}

/// The task in the 20 bytes from an offset on.
#[tactic(auto, unfolding(crate::specs::Reading::image_task_at))]
fn task(bytes: &[u8], at: usize) -> ImageTask
    requires { at + 20 ≤ length bytes.now }
    ensures { result ≡ image_task_at bytes.now at }
{
    ImageTask {
        entry: word(bytes, at),
        ts: word(bytes, at + 4),
        args: [
            word(bytes, at + 8),
            word(bytes, at + 12),
            word(bytes, at + 16),
        ],
    }
}

/// As many tasks, one after another from an offset on.
#[tactic(auto, unfolding(crate::specs::Reading::tasks_from))]
fn tasks(alloc: Global, bytes: &[u8], at: usize, count: usize) -> Result<Vec<ImageTask>, AllocError>
    requires { at + 20 * count ≤ length bytes.now }
    ensures { IfOk result (λ v. v.items ≡ tasks_from bytes.now at count) }
{
    (0..count)
        .map(|k| task(bytes, at + TASK * k))
        .collect(alloc)
}

/// The kind of the root domain, by the header.
fn kind_of(bytes: &[u8]) -> Kind
    requires { 8 ≤ length bytes.now }
    ensures { result ≡ root_kind (half_at bytes.now 6) }
{
    if half(bytes, 6) == 0 {
        Kind::Unordered
    } else {
        Kind::Ordered
    }
}

/// The length of the image that the header describes, in bytes.
#[tactic(auto, unfolding(crate::specs::Reading::whole_length))]
fn length_of(bytes: &[u8]) -> usize
    requires { 32 ≤ length bytes.now }
    ensures { result ≡ whole_length bytes.now }
{
    HEADER
        + 4 * word(bytes, 8) as usize
        + word(bytes, 12) as usize
        + TASK * word(bytes, 28) as usize
}

/// The image that the bytes begin with.
fn whole(alloc: Global, bytes: &[u8]) -> Result<Image, AllocError>
    requires long { 32 + 4 * word_at bytes.now 8 + word_at bytes.now 12 + 20 * word_at bytes.now 28 ≤ length bytes.now }
    requires fits { HeaderFits bytes.now }
    ensures { IfOk result (λ image. image ≡ value_in_bytes bytes.now) }
{
    let text_words = word(bytes, 8) as usize;
    let initial_len = word(bytes, 12) as usize;
    let task_count = word(bytes, 28) as usize;
    let data_at = HEADER + 4 * text_words;
    let text = words(alloc, bytes, HEADER, text_words)?;
    let initial = Vec::from_slice(alloc, &bytes[data_at..data_at + initial_len])?;
    let first_tasks = tasks(alloc, bytes, data_at + initial_len, task_count)?;
    Ok(Image::from_parts(
        half(bytes, 4),
        kind_of(bytes),
        text,
        initial,
        word(bytes, 16),
        word(bytes, 20),
        word(bytes, 24),
        first_tasks,
    ))
}

/// The image at the front of the bytes, with its length, or the first fault in the order of the format's table. What
/// follows the image is not looked at. `Memory` comes only where the bytes begin with an image.
#[tactic(auto, unfolding(crate::specs::Reading::image_of, crate::specs::Reading::whole_length))]
pub fn read_image(alloc: Global, bytes: &[u8]) -> Result<(Image, usize), ImageFault>
    ensures { GivesImage result (image_of bytes.now) }
{
    if bytes.len() < HEADER {
        return Err(ImageFault::Short {
            need: HEADER as u64,
            have: bytes.len() as u64,
        });
    }
    check_header(bytes)?;
    let need = length_of(bytes);
    if bytes.len() < need {
        return Err(ImageFault::Short {
            need: need as u64,
            have: bytes.len() as u64,
        });
    }
    let image = whole(alloc, bytes)?;
    Ok((image, need))
}
