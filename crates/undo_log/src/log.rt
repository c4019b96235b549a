//! The accesses of one task.

ghost use Rattle.std.specs.Prelude.{◌≡◌, ◌<◌, [], ◌∷◌, ◌++◌, length, OnOk, OnErr};

use crate::Access;
use spare_buffer::Buffer;
use std::alloc::{AllocError, Global};
use std::marker::Model;

/// The accesses of one task, in order.
#[derive(Debug, Drop)]
pub struct Log {
    accesses: Vec<Access>,
}

impl Model for Log {
    ghost use Rattle.std.specs.Prelude.{List};
    ghost use Rattle.undo_log.specs.declared.access.Access.{Access};

    ghost Value = { List Access };

    ghost view = { λ log. log.accesses.items };
}

impl Log {
    /// An empty log, which grows in `alloc`.
    pub fn new(alloc: Global) -> Self
        ensures { result ≡ [] }
    {
        Log {
            accesses: Vec::new(alloc),
        }
    }

    /// The accesses, in order.
    pub fn accesses(&self) -> &[Access]
        ensures { result.now ≡ self.now }
    {
        self.accesses.as_slice()
    }

    /// Forgets all accesses, and keeps the memory for them.
    pub fn clear(&mut self)
        ensures { self.new ≡ [] }
    {
        self.accesses.clear();
    }

    /// Adds an access at the end. `AllocError` where memory runs out; the log is then as it was.
    pub(crate) fn push(&mut self, access: Access) -> Result<(), AllocError>
        ensures ok { OnOk result (self.new ≡ self.old ++ access ∷ []) }
        ensures err { OnErr result (self.new ≡ self.old) }
    {
        self.accesses.push(access)?;
        Ok(())
    }

    /// Adds an access at the end, by what is spare in the buffer where the log has none. It takes no memory.
    pub(crate) fn push_with(&mut self, spare: &mut Buffer<Access>, access: Access)
        requires { length self.old < spare.old }
        ensures { self.new ≡ self.old ++ access ∷ [] }
    {
        spare.lend_spare(&mut self.accesses, 1);
        match self.accesses.push(access) {
            Ok(()) => {}
            Err(_) => unreachable!(),
        }
    }
}
