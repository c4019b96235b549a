//! Loads and stores of a task, for whose log memory was made spare before.

ghost use Rattle.std.specs.Prelude.{◌≡◌, ◌<◌, [], ◌∷◌, ◌++◌, length};
ghost use Rattle.undo_log.specs.Number.{number_at, IsAccessible};
ghost use Rattle.undo_log.specs.Undo.{Load, Store, access_of, after_call, undone};

use crate::{Access, Log, Memory};
use spare_buffer::Buffer;

/// What `load` does, by what is spare in the buffer where the log has none: it takes no memory.
pub fn load_with(
    memory: &Memory,
    log: &mut Log,
    spare: &mut Buffer<Access>,
    offset: u32,
    width: u8,
) -> u32
    requires within { IsAccessible (length memory.now) offset width }
    requires spare { length log.old < spare.old }
    ensures value { result ≡ number_at memory.now offset width }
    ensures logged { log.new ≡ log.old ++ access_of memory.now (Load offset width) ∷ [] }
{
    let old = memory.number(offset, width);
    log.push_with(
        spare,
        Access {
            offset,
            width,
            old,
            new: None,
        },
    );
    old
}

/// What `store` does, by what is spare in the buffer where the log has none: it takes no memory.
pub fn store_with(
    memory: &mut Memory,
    log: &mut Log,
    spare: &mut Buffer<Access>,
    offset: u32,
    width: u8,
    value: u32,
)
    requires within { IsAccessible (length memory.old) offset width }
    requires spare { length log.old < spare.old }
    ensures stored { memory.new ≡ after_call memory.old (Store offset width value) }
    ensures logged { log.new ≡ log.old ++ access_of memory.old (Store offset width value) ∷ [] }
    ensures size { length memory.new ≡ length memory.old }
    ensures kept { undone log.new memory.new ≡ undone log.old memory.old }
{
    let old = memory.number(offset, width);
    log.push_with(
        spare,
        Access {
            offset,
            width,
            old,
            new: Some(value),
        },
    );
    memory.write(offset, width, value);
}
