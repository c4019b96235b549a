//! The programs of sample_image.

use sample_image::{FIRST_MAKER, READER_AND_WRITER, image_of};
use std::test::Fail;

#[test]
fn the_reader_and_the_writer_have_an_image(rt: HostRuntime) -> Result<(), Fail> {
    let image = image_of(rt.alloc(), &READER_AND_WRITER)?;
    assert_eq!(rt; image.text().len(), 16);
    assert_eq!(rt; image.tasks().len(), 2);
    Ok(())
}

#[test]
fn the_maker_has_an_image(rt: HostRuntime) -> Result<(), Fail> {
    let image = image_of(rt.alloc(), &FIRST_MAKER)?;
    assert_eq!(rt; image.text().len(), 10);
    assert_eq!(rt; image.tasks().len(), 4);
    Ok(())
}
