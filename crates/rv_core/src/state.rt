//! A task's core, and what a run of its plain instructions stops at.

ghost use Rattle.std.specs.Prelude.{◌≡◌, ◌<◌};
ghost use Rattle.rv_core.specs.Memory.{empty_stack, stack_top};
ghost use Rattle.rv_core.specs.Legs.{start_of};

use guest_image::{STACK_BYTES, STACK_START};
use rv_table::{LoadWidth, Reg, Regs, StoreWidth};

/// The core of a task in progress.
#[derive(Clone, Copy, Debug, PartialEq, Eq)]
pub struct Core {
    /// The address of the next instruction.
    pub pc: u32,
    /// The registers.
    pub regs: Regs,
    /// How many instructions the task has executed.
    pub used: u32,
    /// The bytes of its stack, which is at `STACK_START` in version 2. In version 1 no address reaches it.
    pub stack: [u8; 1024],
}

/// A core without its stack: what a run of plain instructions keeps at hand.
#[derive(Clone, Copy)]
pub(crate) struct Head {
    pub(crate) pc: u32,
    pub(crate) regs: Regs,
    pub(crate) used: u32,
}

impl Core {
    ghost use Rattle.std.specs.Prelude.{◌≡◌, ◌<◌};
    ghost use Rattle.rv_core.specs.Legs.{start_of};

    /// The core of a task that starts, in an image of a version: `x10` to `x12` are its arguments, `x13` is its
    /// timestamp, all other registers are 0, no instruction is used, and the stack is zero. In version 2 `x2` is the
    /// end of the stack.
    pub fn start(version: u16, entry: u32, ts: u32, args: [u32; 3]) -> Core
        ensures { result ≡ start_of version entry ts args }
    {
        Core {
            pc: entry,
            regs: start_regs(version, ts, args),
            used: 0,
            stack: no_bytes(),
        }
    }
}

/// The registers of a task that starts.
pub(crate) fn start_regs(version: u16, ts: u32, args: [u32; 3]) -> Regs
    ensures { result ≡ (start_of version 0 ts args).regs }
{
    let mut regs = Regs::zero();
    regs.set(register(2), top_of_stack(version));
    regs.set(register(10), args[0]);
    regs.set(register(11), args[1]);
    regs.set(register(12), args[2]);
    regs.set(register(13), ts);
    regs
}

/// What stands next where a run of plain instructions stops.
#[derive(Clone, Copy, Debug, PartialEq, Eq)]
pub enum Stop {
    /// A load from the data.
    Load {
        /// How many bytes it reads, and how they become a word.
        width: LoadWidth,
        /// The register that is written.
        rd: Reg,
        /// The address from which it reads.
        addr: u32,
    },
    /// A store to the data.
    Store {
        /// How many bytes it writes.
        width: StoreWidth,
        /// The address to which it writes.
        addr: u32,
        /// The word whose low bytes are written.
        value: u32,
    },
    /// An ECALL.
    Call,
    /// A trap. `pc` is the address of the instruction that would have been executed next.
    Trap {
        /// Why it traps: 1 to 8, or 17 where the budget is used up.
        cause: u8,
        /// The address of the instruction that would have been executed next.
        pc: u32,
    },
    /// Any instruction: the run did as many as it may.
    Quantum,
}

/// A run of plain instructions.
#[derive(Clone, Copy, Debug, PartialEq, Eq)]
pub struct Plain {
    /// The core after it.
    pub to: Core,
    /// How many instructions it has.
    pub steps: u32,
    /// What it stopped at.
    pub stop: Stop,
}

/// The stack of a task that starts.
#[tactic(auto, unfolding(crate::specs::Memory::empty_stack))]
pub(crate) fn no_bytes() -> [u8; 1024]
    ensures { result ≡ empty_stack }
{
    [0; 1024]
}

/// What `x2` is at the start of a task.
fn top_of_stack(version: u16) -> u32
    ensures { result ≡ stack_top version }
{
    if version == 2 {
        STACK_START + STACK_BYTES
    } else {
        0
    }
}

fn register(number: u8) -> Reg
    requires { number < 32 }
    ensures { result ≡ number }
{
    match Reg::new(number) {
        Some(reg) => reg,
        None => unreachable!(),
    }
}
