//! The queues of a tile, by tile_queues.

use crate::sending::is_sent;
use std::process::Abort;
use std::test::Fail;
use tile_queues::{CommitQueue, Queue, TaskQueue};

/// Puts ids that are not there into a queue with room for them.
fn fill<Kind>(rt: &impl Abort, queue: &mut Queue<Kind>, ids: &[usize]) {
    for id in ids {
        assert!(rt; !queue.contains(*id));
        assert_eq!(rt; queue.put(*id), Ok(()));
    }
}

#[test]
fn a_full_queue_hands_the_id_back(rt: HostRuntime) -> Result<(), Fail> {
    let mut queue = TaskQueue::new(rt.alloc(), 1)?;
    assert_eq!(rt; queue.put(7), Ok(()));
    assert_eq!(rt; queue.put(8), Err(8));
    is_sent(&queue);
    Ok(())
}

#[test]
fn an_id_is_taken_once_it_was_put(rt: HostRuntime) -> Result<(), Fail> {
    let mut queue = TaskQueue::new(rt.alloc(), 1)?;
    assert_eq!(rt; queue.put(7), Ok(()));
    assert!(rt; !queue.take(8));
    assert!(rt; queue.take(7));
    assert_eq!(rt; queue.free(), 1);
    Ok(())
}

#[test]
fn marked_ids_leave_in_one_pass(rt: HostRuntime) -> Result<(), Fail> {
    let mut queue = TaskQueue::new(rt.alloc(), 4)?;
    fill(&rt, &mut queue, &[2, 0, 7, 1]);
    queue.take_marked(&[true, false, true]);
    assert_eq!(rt; queue.ids(), [7, 1].as_slice());
    assert!(rt; queue.contains(7) && !queue.contains(2));
    assert_eq!(rt; queue.capacity(), 4);
    Ok(())
}

#[test]
fn ids_stand_in_order_of_arrival(rt: HostRuntime) -> Result<(), Fail> {
    let mut queue = CommitQueue::new(rt.alloc(), 4)?;
    fill(&rt, &mut queue, &[5, 3, 9]);
    assert!(rt; queue.take(3));
    assert_eq!(rt; queue.ids(), [5, 9].as_slice());
    assert_eq!(rt; queue.free(), 2);
    is_sent(&queue);
    Ok(())
}
