//! Images of given words.

use guest_image::{Image, read_image};
use std::alloc::{AllocError, Global};
use std::test::Fail;

/// The first word of an image.
pub(crate) const FRAC: u32 = 0x4341_5246;

/// A text of which a task emits the byte 0x41 and ends: addi x10,x0,65; addi x17,x0,5; ecall; addi x17,x0,0; ecall.
pub(crate) const EMITTING: [u32; 5] = [
    0x0410_0513,
    0x0050_0893,
    0x0000_0073,
    0x0000_0893,
    0x0000_0073,
];

/// A task that begins at the first word of the text.
pub(crate) const TASK: [u32; 5] = [0x0001_0000, 0, 0, 0, 0];

/// Appends words, each with its lowest byte first.
fn put_words(bytes: &mut Vec<u8>, words: &[u32]) -> Result<(), AllocError> {
    for word in words {
        bytes.extend_from_slice(&word.to_le_bytes())?;
    }
    Ok(())
}

/// The bytes of some words.
pub(crate) fn bytes_of(alloc: Global, words: &[u32]) -> Result<Vec<u8>, AllocError> {
    let mut bytes = Vec::new(alloc);
    put_words(&mut bytes, words)?;
    Ok(bytes)
}

/// The image that bytes begin with.
pub(crate) fn image_in(alloc: Global, bytes: &[u8]) -> Result<Image, Fail> {
    match read_image(alloc, bytes) {
        Ok((image, _)) => Ok(image),
        Err(_) => Err(Fail::from("no image")),
    }
}

fn count_of(words: &[u32]) -> u32 {
    u32::try_from(words.len()).unwrap_or(u32::MAX)
}

/// An image of version 1 with an ordered root, these words of text, this data size and these tasks, of five words each.
pub(crate) fn image_with(
    alloc: Global,
    text: &[u32],
    data_size: u32,
    tasks: &[u32],
) -> Result<Image, Fail> {
    let task_count = count_of(tasks) / 5;
    let header = [
        FRAC,
        0x0001_0001,
        count_of(text),
        0,
        data_size,
        0,
        0,
        task_count,
    ];
    let mut bytes = bytes_of(alloc, &header)?;
    put_words(&mut bytes, text)?;
    put_words(&mut bytes, tasks)?;
    image_in(alloc, &bytes)
}
