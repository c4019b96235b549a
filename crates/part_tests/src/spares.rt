//! The memory of spare_buffer, into which a full list moves.

use spare_buffer::Buffer;
use std::test::Fail;

#[test]
fn a_full_list_changes_places_with_the_buffer(rt: HostRuntime) -> Result<(), Fail> {
    let mut list = [1, 2, 3].to_vec(rt.alloc())?;
    let mut buffer = Buffer::<u32>::new(rt.alloc());
    let wanted = list.len() + 8;
    buffer.reserve(wanted)?;
    if list.len() == 3 {
        buffer.lend_spare(&mut list, 8);
    }
    assert_eq!(rt; list.as_slice(), [1, 2, 3].as_slice());
    assert!(rt; list.capacity() >= 11);
    Ok(())
}
