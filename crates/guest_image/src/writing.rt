//! From an image to bytes.

ghost use Rattle.std.specs.Prelude.{◌≡◌, ◌++◌, ◌∷◌, [], length, IfOk, OnOk, Ok, vec_len};
ghost use Rattle.std.specs.List.{flat_map};
ghost use Rattle.guest_image.specs.Numbers.{word_bytes, half_bytes};
ghost use Rattle.guest_image.specs.Reading.{image_of};
ghost use Rattle.guest_image.specs.Writing.{kind_number, header_bytes, task_bytes, image_bytes, ImageReadsBack};
ghost use Rattle.guest_image.specs.Writing.{header_numbers};

use crate::image::{Image, ImageTask, Kind};
use crate::layout::{HEADER, MAGIC, TASK};
use std::alloc::{AllocError, Global};

fn put_word(bytes: &mut Vec<u8>, word: u32) -> Result<(), AllocError>
    ensures { OnOk result (bytes.new.items ≡ bytes.old.items ++ word_bytes word) }
{
    bytes.extend_from_slice(&word.to_le_bytes())
}

fn put_half(bytes: &mut Vec<u8>, half: u16) -> Result<(), AllocError>
    ensures { OnOk result (bytes.new.items ≡ bytes.old.items ++ half_bytes half) }
{
    bytes.extend_from_slice(&half.to_le_bytes())
}

fn put_words(bytes: &mut Vec<u8>, words: &[u32]) -> Result<(), AllocError>
    ensures { OnOk result (bytes.new.items ≡ bytes.old.items ++ flat_map word_bytes words.now) }
{
    for word in words {
        put_word(bytes, *word)?;
    }
    Ok(())
}

fn put_task(bytes: &mut Vec<u8>, task: &ImageTask) -> Result<(), AllocError>
    ensures { OnOk result (bytes.new.items ≡ bytes.old.items ++ task_bytes task.now) }
{
    put_word(bytes, task.entry)?;
    put_word(bytes, task.ts)?;
    put_words(bytes, &task.args)
}

fn put_tasks(bytes: &mut Vec<u8>, tasks: &[ImageTask]) -> Result<(), AllocError>
    ensures { OnOk result (bytes.new.items ≡ bytes.old.items ++ flat_map task_bytes tasks.now) }
{
    for task in tasks {
        put_task(bytes, task)?;
    }
    Ok(())
}

fn number_of(kind: Kind) -> u16
    ensures { result ≡ kind_number kind }
{
    match kind {
        Kind::Unordered => 0,
        Kind::Ordered => 1,
    }
}

/// The six numbers of the header, in the order of their offsets.
fn numbers_of(image: &Image) -> [u32; 6]
    ensures { result ≡ header_numbers image.now }
{
    let task_count = image.tasks().len() as u32;
    let (window_offset, window_words) = image.window();
    [
        image.text().len() as u32,
        image.initial().len() as u32,
        image.data_size(),
        window_offset,
        window_words,
        task_count,
    ]
}

fn put_header(bytes: &mut Vec<u8>, image: &Image) -> Result<(), AllocError>
    ensures { OnOk result (bytes.new.items ≡ bytes.old.items ++ header_bytes image.now) }
{
    put_word(bytes, MAGIC)?;
    put_half(bytes, image.version())?;
    put_half(bytes, number_of(image.kind()))?;
    put_words(bytes, &numbers_of(image))
}

/// The bytes of an image, which read back as that image. They are made in one piece of memory.
#[tactic(auto, using(crate::proofs::ReadBack::read_back_alone), unfolding(crate::specs::Writing::image_bytes))]
pub fn write_image(alloc: Global, image: &Image) -> Result<Vec<u8>, AllocError>
    ensures bytes { IfOk result (λ v. v.items ≡ image_bytes image.now) }
    ensures back { IfOk result (λ v. image_of v.items ≡ Ok (image.now, vec_len v)) }
{
    let tasks = image.tasks();
    let length = HEADER + 4 * image.text().len() + image.initial().len() + TASK * tasks.len();
    let mut bytes = Vec::with_capacity(alloc, length)?;
    put_header(&mut bytes, image)?;
    put_words(&mut bytes, image.text())?;
    bytes.extend_from_slice(image.initial())?;
    put_tasks(&mut bytes, tasks)?;
    Ok(bytes)
}

/// An image that was written is read back, whatever follows its bytes.
#[tactic(auto, using(crate::proofs::ReadBack::read_back))]
pub fn written_images_read_back()
    ensures { ImageReadsBack }
{}
