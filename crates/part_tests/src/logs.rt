//! The guest's memory and the log of a task, by undo_log.

ghost use Rattle.std.specs.Prelude.{◌≡◌, length, IfOk};
ghost use Rattle.undo_log.specs.Undo.{AllAccessible};

use crate::sending::is_sent;
use std::alloc::{AllocError, Global};
use std::test::Fail;
use undo_log::{Access, Log, Memory, load, store, undo, undo_restores};

const INITIAL: [u8; 4] = [1, 2, 3, 4];

/// A store of a byte, a load of all, and a store of the lower half.
static ACCESSES: [Access; 3] = [
    Access {
        offset: 0,
        width: 1,
        old: 0x01,
        new: Some(0x09),
    },
    Access {
        offset: 0,
        width: 4,
        old: 0x0403_0209,
        new: None,
    },
    Access {
        offset: 0,
        width: 2,
        old: 0x0209,
        new: Some(0xffff),
    },
];

/// Four bytes and the log of those accesses to them.
fn overwritten(alloc: Global) -> Result<(Memory, Log), AllocError>
    ensures { IfOk result (λ both. AllAccessible (length both.0) both.1) }
{
    let mut memory = Memory::new(alloc, &INITIAL, 4)?;
    let mut log = Log::new(alloc);
    store(&mut memory, &mut log, 0, 1, 9)?;
    load(&memory, &mut log, 0, 4)?;
    store(&mut memory, &mut log, 0, 2, 0xffff)?;
    Ok((memory, log))
}

#[test]
fn a_load_gives_what_was_stored(rt: HostRuntime) -> Result<(), Fail> {
    let mut memory = Memory::new(rt.alloc(), &INITIAL, 4)?;
    let mut log = Log::new(rt.alloc());
    store(&mut memory, &mut log, 0, 1, 9)?;
    assert_eq!(rt; load(&memory, &mut log, 0, 4)?, 0x0403_0209);
    Ok(())
}

#[test]
fn each_access_is_logged_with_what_stood_there(rt: HostRuntime) -> Result<(), Fail> {
    let (memory, log) = overwritten(rt.alloc())?;
    assert_eq!(rt; log.accesses(), ACCESSES.as_slice());
    assert_eq!(rt; memory.as_slice(), [0xff, 0xff, 3, 4].as_slice());
    is_sent(&memory);
    is_sent(&log);
    Ok(())
}

#[test]
fn undo_gives_back_what_stores_overwrote(rt: HostRuntime) -> Result<(), Fail> {
    let (mut memory, log) = overwritten(rt.alloc())?;
    undo(&mut memory, &log);
    assert_eq!(rt; memory.as_slice(), INITIAL.as_slice());
    assert_eq!(rt; memory.into_vec().as_slice(), INITIAL.as_slice());
    undo_restores();
    Ok(())
}

#[test]
fn a_cleared_log_has_no_access(rt: HostRuntime) -> Result<(), Fail> {
    let (_, mut log) = overwritten(rt.alloc())?;
    log.clear();
    assert!(rt; log.accesses().is_empty());
    Ok(())
}

#[test]
fn memory_has_zeros_behind_the_initial_bytes(rt: HostRuntime) -> Result<(), Fail> {
    let memory = Memory::new(rt.alloc(), &[7], 3)?;
    assert_eq!(rt; memory.as_slice(), [7, 0, 0].as_slice());
    Ok(())
}
