//! The accesses of a task to memory, and their rollback. Both machines undo by it; the serial one stores by it, and the
//! speculative one loads and stores by `covered`.

ghost use Rattle.std.specs.Prelude.{◌≡◌, [], ◌∷◌, ◌++◌, length, IfOk, OnOk, OnErr};
ghost use Rattle.undo_log.specs.Number.{number_at, IsAccessible};
ghost use Rattle.undo_log.specs.Undo.{Load, Store, access_of, after_call, undone, AllAccessible, UndoRestores};

use crate::{Access, Log, Memory};
use std::alloc::AllocError;

/// Loads the number at an offset, and appends one access to the log.
///
/// The width is 1, 2 or 4, the offset is a multiple of it, and the access lies within the data.
pub fn load(memory: &Memory, log: &mut Log, offset: u32, width: u8) -> Result<u32, AllocError>
    requires { IsAccessible (length memory.now) offset width }
    ensures value { IfOk result (λ value. value ≡ number_at memory.now offset width) }
    ensures logged { OnOk result (log.new ≡ log.old ++ access_of memory.now (Load offset width) ∷ []) }
    ensures err { OnErr result (log.new ≡ log.old) }
{
    let old = memory.number(offset, width);
    log.push(Access {
        offset,
        width,
        old,
        new: None,
    })?;
    Ok(old)
}

/// Writes the low `width` bytes of the value, and adds one access at the log's end.
///
/// The width is 1, 2 or 4, the offset is a multiple of it, and the access lies within the data.
pub fn store(
    memory: &mut Memory,
    log: &mut Log,
    offset: u32,
    width: u8,
    value: u32,
) -> Result<(), AllocError>
    requires { IsAccessible (length memory.old) offset width }
    ensures stored { OnOk result (memory.new ≡ after_call memory.old (Store offset width value)) }
    ensures logged { OnOk result (log.new ≡ log.old ++ access_of memory.old (Store offset width value) ∷ []) }
    ensures size { length memory.new ≡ length memory.old }

    // What stood before the log was begun can still be had back.
    ensures kept { undone log.new memory.new ≡ undone log.old memory.old }

    // Running out of memory changes nothing.
    ensures err_memory { OnErr result (memory.new ≡ memory.old) }
    ensures err_log { OnErr result (log.new ≡ log.old) }
{
    let old = memory.number(offset, width);
    log.push(Access {
        offset,
        width,
        old,
        new: Some(value),
    })?;
    memory.write(offset, width, value);
    Ok(())
}

/// Takes the stores of the log back, the last one first. Each access of the log lies within the data.
pub fn undo(memory: &mut Memory, log: &Log)
    requires { AllAccessible (length memory.old) log.now }
    ensures undone { memory.new ≡ undone log.now memory.old }
    ensures size { length memory.new ≡ length memory.old }
{
    let mut left = log.accesses();
    while let Some((access, earlier)) = left.split_last() {
        if access.new.is_some() {
            memory.write(access.offset, access.width, access.old);
        }
        left = earlier;
    }
}

/// A law: to undo the log of any loads and stores, made one after another from an empty log, gives the memory
/// before them.
pub fn undo_restores()
    ensures { UndoRestores }
{}
