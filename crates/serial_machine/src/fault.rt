//! Why a task does not take the next turn.

ghost use Rattle.std.specs.Prelude.{◌≡◌};
ghost use Rattle.serial_machine.specs.declared.fault.TurnFault.TheVariants.{Memory};

use std::alloc::{AllocError, AllocFailed};

/// Why a task takes no turn. The first four are tried in this order; `Memory` may come in place of another one.
#[derive(Clone, Copy, Debug, PartialEq, Eq)]
pub enum TurnFault {
    /// No bag holds a task of the name.
    NotPending,
    /// The task is not in the innermost bag that isn't empty.
    NotTop {
        /// The depth of that bag.
        depth: u8,
    },
    /// A task of that bag has a smaller timestamp.
    NotLeast {
        /// That timestamp.
        ts: u32,
    },
    /// The task's run ends in a trap.
    Trap {
        /// The cause of the trap, 1 to 17.
        cause: u8,
        /// The address of the instruction that traps.
        pc: u32,
    },
    /// Out of memory.
    Memory,
}

impl From<AllocError> for TurnFault {
    ghost from_gives = { λ _ e. e ≡ Memory };

    fn from(_: AllocError) -> Self {
        TurnFault::Memory
    }
}

impl<T: Drop> From<AllocFailed<T>> for TurnFault {
    ghost from_gives = { λ _ e. e ≡ Memory };

    fn from(_: AllocFailed<T>) -> Self {
        TurnFault::Memory
    }
}
