//! Worked images, and each fault with its number and its offset.

use crate::image_bytes::{FRAC, bytes_of, image_in};
use guest_image::{
    Image, ImageFault, ImageTask, Kind, read_image, write_image, written_images_read_back,
};
use std::alloc::{AllocError, Global};
use std::process::Abort;
use std::test::Fail;

// One task that emits the byte 0x41.
static EMITTING: [u8; 72] = [
    0x46, 0x52, 0x41, 0x43, 0x01, 0x00, 0x01, 0x00, 0x05, 0x00, 0x00, 0x00, 0x00, 0x00, 0x00, 0x00,
    0x00, 0x00, 0x00, 0x00, 0x00, 0x00, 0x00, 0x00, 0x00, 0x00, 0x00, 0x00, 0x01, 0x00, 0x00, 0x00,
    0x13, 0x05, 0x10, 0x04, 0x93, 0x08, 0x50, 0x00, 0x73, 0x00, 0x00, 0x00, 0x93, 0x08, 0x00, 0x00,
    0x73, 0x00, 0x00, 0x00, 0x00, 0x00, 0x01, 0x00, 0x00, 0x00, 0x00, 0x00, 0x00, 0x00, 0x00, 0x00,
    0x00, 0x00, 0x00, 0x00, 0x00, 0x00, 0x00, 0x00,
];

// One word of text, the data bytes 5a and 01, and two tasks in an unordered root.
static TWO_TASKS: [u8; 78] = [
    0x46, 0x52, 0x41, 0x43, 0x01, 0x00, 0x00, 0x00, 0x01, 0x00, 0x00, 0x00, 0x02, 0x00, 0x00, 0x00,
    0x08, 0x00, 0x00, 0x00, 0x04, 0x00, 0x00, 0x00, 0x01, 0x00, 0x00, 0x00, 0x02, 0x00, 0x00, 0x00,
    0x73, 0x00, 0x10, 0x00, 0x5a, 0x01, 0x00, 0x00, 0x01, 0x00, 0x02, 0x00, 0x00, 0x00, 0x03, 0x00,
    0x00, 0x00, 0x04, 0x00, 0x00, 0x00, 0x05, 0x00, 0x00, 0x00, 0x1c, 0x00, 0x01, 0x00, 0xff, 0xff,
    0xff, 0xff, 0x00, 0x00, 0x00, 0x00, 0x00, 0x00, 0x00, 0x00, 0x00, 0x00, 0x00, 0x00,
];

const FIRST: ImageTask = ImageTask {
    entry: 0x0001_0000,
    ts: 2,
    args: [3, 4, 5],
};

const SECOND: ImageTask = ImageTask {
    entry: 0x0001_001c,
    ts: 0xffff_ffff,
    args: [0, 0, 0],
};

/// The words of a header, and the fault with its number and its offset. The second word has the version in its low
/// half and the kind of the root domain in the other.
static FAULTS: [([u32; 8], ImageFault, u8, u64); 19] = [
    (
        [0x4341_5247, 0x0001_0001, 5, 0, 0, 0, 0, 1],
        ImageFault::Magic,
        2,
        0,
    ),
    (
        [0x4341_5247, 0x0001_0003, 5, 0, 0, 0, 0, 1],
        ImageFault::Magic,
        2,
        0,
    ),
    (
        [FRAC, 0x0001_0003, 5, 0, 0, 0, 0, 1],
        ImageFault::Version { found: 3 },
        3,
        4,
    ),
    (
        [FRAC, 0x0001_0000, 5, 0, 0, 0, 0, 1],
        ImageFault::Version { found: 0 },
        3,
        4,
    ),
    (
        [FRAC, 0x0001_ffff, 5, 0, 0, 0, 0, 1],
        ImageFault::Version { found: 65_535 },
        3,
        4,
    ),
    (
        [FRAC, 0x0002_0003, 65_537, 9, 8, 2, 4097, 0],
        ImageFault::Version { found: 3 },
        3,
        4,
    ),
    (
        [FRAC, 0x0002_0000, 65_537, 9, 8, 2, 4097, 0],
        ImageFault::Version { found: 0 },
        3,
        4,
    ),
    (
        [FRAC, 0x0002_ffff, 65_537, 9, 8, 2, 4097, 0],
        ImageFault::Version { found: 65_535 },
        3,
        4,
    ),
    (
        [FRAC, 0x0002_0001, 5, 0, 0, 0, 0, 1],
        ImageFault::RootKind { found: 2 },
        4,
        6,
    ),
    (
        [FRAC, 0x0002_0002, 5, 0, 0, 0, 0, 1],
        ImageFault::RootKind { found: 2 },
        4,
        6,
    ),
    (
        [FRAC, 0x0001_0001, 65_537, 9, 0, 0, 4097, 1],
        ImageFault::Limit {
            field: 8,
            value: 65_537,
        },
        5,
        8,
    ),
    (
        [FRAC, 0x0001_0001, 5, 9, 16_777_217, 0, 4097, 1],
        ImageFault::Limit {
            field: 16,
            value: 16_777_217,
        },
        5,
        16,
    ),
    (
        [FRAC, 0x0001_0001, 5, 9, 8, 0, 4097, 1],
        ImageFault::Limit {
            field: 12,
            value: 9,
        },
        5,
        12,
    ),
    (
        [FRAC, 0x0001_0001, 5, 0, 0, 2, 4097, 65_537],
        ImageFault::Limit {
            field: 24,
            value: 4097,
        },
        5,
        24,
    ),
    (
        [FRAC, 0x0001_0001, 5, 0, 0, 2, 0, 65_537],
        ImageFault::Limit {
            field: 28,
            value: 65_537,
        },
        5,
        28,
    ),
    (
        [FRAC, 0x0001_0001, 5, 0, 8, 2, 1, 0],
        ImageFault::Window,
        6,
        20,
    ),
    (
        [FRAC, 0x0001_0001, 5, 0, 8, 4, 2, 0],
        ImageFault::Window,
        6,
        20,
    ),
    (
        [FRAC, 0x0001_0001, 5, 0, 8, 4, 1, 0],
        ImageFault::NoTask,
        7,
        28,
    ),
    (
        [FRAC, 0x0001_0002, 5, 0, 8, 4, 1, 0],
        ImageFault::NoTask,
        7,
        28,
    ),
];

/// Whether the bytes are refused by this fault.
fn is_refused(alloc: Global, bytes: &[u8], fault: &ImageFault) -> bool {
    match read_image(alloc, bytes) {
        Ok(_) => false,
        Err(found) => found == *fault,
    }
}

#[test]
fn each_fault_is_told_with_its_number_and_offset(rt: HostRuntime) -> Result<(), Fail> {
    let alloc = rt.alloc();
    for (words, fault, number, offset) in &FAULTS {
        let bytes = bytes_of(alloc, words)?;
        assert!(rt; is_refused(alloc, &bytes, fault), "{words:?}");
        assert!(rt;
            fault.number() == *number && fault.offset() == *offset,
            "{words:?}"
        );
    }
    Ok(())
}

/// How many bytes of an image there are, and how many it needs.
static SHORT: [(usize, u64); 4] = [(0, 32), (31, 32), (51, 72), (71, 72)];

/// Whether bytes are refused as too few, with their own number as the offset.
fn is_short(alloc: Global, bytes: &[u8], need: u64) -> bool {
    let have = bytes.len() as u64;
    let fault = ImageFault::Short { need, have };
    is_refused(alloc, bytes, &fault) && fault.number() == 1 && fault.offset() == have
}

#[test]
fn an_image_that_ends_early_is_short(rt: HostRuntime) -> Result<(), Fail> {
    for (have, need) in &SHORT {
        let bytes = EMITTING.get(..*have).ok_or("bytes of the image")?;
        assert!(rt; is_short(rt.alloc(), bytes, *need), "{have}");
    }
    Ok(())
}

/// Beginnings of headers: of version 0, of version 3, and of no image.
static BEGINNINGS: [&[u8]; 3] = [
    b"FRAC\x00\x00\x01\x00\x05\x00\x00\x00",
    b"FRAC\x03\x00\x02\x00",
    b"NONE\x01\x00",
];

#[test]
fn a_header_that_ends_early_has_no_other_fault(rt: HostRuntime) {
    for bytes in &BEGINNINGS {
        assert!(rt; is_short(rt.alloc(), bytes, 32));
    }
}

fn has_header(image: &Image, version: u16, kind: Kind, window: (u32, u32)) -> bool {
    image.version() == version && image.kind() == kind && image.window() == window
}

#[test]
fn the_text_of_a_worked_image_is_read(rt: HostRuntime) -> Result<(), Fail> {
    let (image, length) = read_image(rt.alloc(), &EMITTING)?;
    assert!(rt; length == 72 && has_header(&image, 1, Kind::Ordered, (0, 0)));
    assert_eq!(rt; image.fetch(0x0001_0004), Some(0x0050_0893));
    assert_eq!(rt; image.text_load(0x0001_0006, 2), Some(0x0050));
    Ok(())
}

/// An image and its length, read from bytes in which a text follows it.
fn image_before_text(alloc: Global) -> Result<(Image, usize), Fail> {
    let mut bytes = TWO_TASKS.to_vec(alloc)?;
    bytes.extend_from_slice(b"fractal 1\n")?;
    match read_image(alloc, &bytes) {
        Ok(found) => Ok(found),
        Err(_) => Err(Fail::from("no image")),
    }
}

#[test]
fn what_follows_an_image_is_not_read(rt: HostRuntime) -> Result<(), Fail> {
    let (image, length) = image_before_text(rt.alloc())?;
    assert!(rt; length == 78 && has_header(&image, 1, Kind::Unordered, (4, 1)));
    Ok(())
}

#[test]
fn the_parts_of_a_worked_image_are_read(rt: HostRuntime) -> Result<(), Fail> {
    let image = image_in(rt.alloc(), &TWO_TASKS)?;
    assert_eq!(rt; image.text(), [0x0010_0073].as_slice());
    assert!(rt; image.initial() == [0x5a, 1].as_slice() && image.data_size() == 8);
    assert_eq!(rt; image.tasks(), [FIRST, SECOND].as_slice());
    Ok(())
}

/// An image is written as these bytes.
fn assert_written<R: Abort + Alloc<A = Global>>(
    rt: &R,
    image: &Image,
    bytes: &[u8],
) -> Result<(), Fail> {
    let written = write_image(rt.alloc(), image)?;
    assert_eq!(rt; written.as_slice(), bytes);
    Ok(())
}

#[test]
fn worked_images_are_written_as_they_were_read(rt: HostRuntime) -> Result<(), Fail> {
    let emitting = image_in(rt.alloc(), &EMITTING)?;
    assert_written(&rt, &emitting, &EMITTING)?;
    let two_tasks = image_in(rt.alloc(), &TWO_TASKS)?;
    assert_written(&rt, &two_tasks, &TWO_TASKS)
}

/// Takes what may go to another thread, and what may be seen from one.
fn is_sent<T: Send + Sync>(_value: &T) {}

#[test]
fn an_image_may_be_seen_from_another_thread(rt: HostRuntime) -> Result<(), Fail> {
    written_images_read_back();
    is_sent(&image_in(rt.alloc(), &EMITTING)?);
    Ok(())
}

/// The bytes of an image in version 2: they differ in the version's field alone.
fn in_version_2(alloc: Global, bytes: &[u8]) -> Result<Vec<u8>, AllocError> {
    let mut changed = bytes.to_vec(alloc)?;
    if let Some(version) = changed.get_mut(4) {
        *version = 2;
    }
    Ok(changed)
}

/// An image that is read of bytes of version 1 and upgraded, and one that is read of bytes of version 2, are written
/// in version 2.
fn assert_upgraded<R: Abort + Alloc<A = Global>>(rt: &R, bytes: &[u8]) -> Result<(), Fail> {
    let changed = in_version_2(rt.alloc(), bytes)?;
    let upgraded = image_in(rt.alloc(), bytes)?.upgrade();
    assert_written(rt, &upgraded, &changed)?;
    let read = image_in(rt.alloc(), &changed)?;
    assert_written(rt, &read, &changed)?;
    assert_written(rt, &read.upgrade(), &changed)
}

#[test]
fn images_are_read_upgraded_and_written_in_version_2(rt: HostRuntime) -> Result<(), Fail> {
    assert_upgraded(&rt, &EMITTING)?;
    assert_upgraded(&rt, &TWO_TASKS)
}

#[test]
fn an_upgrade_changes_the_version_alone(rt: HostRuntime) -> Result<(), Fail> {
    let image = image_in(rt.alloc(), &TWO_TASKS)?.upgrade();
    assert!(rt; has_header(&image, 2, Kind::Unordered, (4, 1)));
    assert!(rt; image.initial() == [0x5a, 1].as_slice() && image.data_size() == 8);
    assert!(rt; image.tasks() == [FIRST, SECOND].as_slice());
    Ok(())
}

/// An image with the bytes 5a and 01 in its data.
fn with_data(alloc: Global, text: Vec<u32>, tasks: Vec<ImageTask>) -> Result<Image, Fail> {
    let initial = [0x5a, 1].to_vec(alloc)?;
    let image = Image::new(Kind::Unordered, text, initial, 8, 4, 1, tasks)?;
    Ok(image)
}

#[test]
fn given_values_make_an_image_of_version_1(rt: HostRuntime) -> Result<(), Fail> {
    let text = [0x0010_0073].to_vec(rt.alloc())?;
    let tasks = [FIRST, SECOND].to_vec(rt.alloc())?;
    let image = with_data(rt.alloc(), text, tasks)?;
    assert_written(&rt, &image, &TWO_TASKS)
}

/// How many initial bytes and tasks are given with 8 bytes of data and a window that doesn't lie in them, and the
/// fault.
static PAST_LIMITS: [(usize, usize, ImageFault); 3] = [
    (
        9,
        0,
        ImageFault::Limit {
            field: 12,
            value: 9,
        },
    ),
    (
        8,
        65_537,
        ImageFault::Limit {
            field: 28,
            value: 65_537,
        },
    ),
    (8, 65_536, ImageFault::Window),
];

/// Whether values are refused by this fault.
fn are_refused(alloc: Global, initial: Vec<u8>, tasks: Vec<ImageTask>, fault: &ImageFault) -> bool {
    match Image::new(Kind::Ordered, Vec::new(alloc), initial, 8, 8, 1, tasks) {
        Ok(_) => false,
        Err(found) => found == *fault,
    }
}

#[test]
fn values_past_a_limit_make_no_image(rt: HostRuntime) -> Result<(), Fail> {
    for (initial, tasks, fault) in &PAST_LIMITS {
        let initial = vec![in rt.alloc(); 0; *initial]?;
        let tasks = vec![in rt.alloc(); FIRST; *tasks]?;
        assert!(rt; are_refused(rt.alloc(), initial, tasks, fault));
    }
    Ok(())
}
