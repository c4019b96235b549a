//! Cores that stay in their places, and keep whether their stack is known to be empty: of a core that is put in the
//! place of another, the stack is copied only where one of both isn't.

ghost use Rattle.std.specs.Prelude.{◌≡◌, ◌+◌, ◌^◌, ◌-◌, ◌<◌, ◌≤◌, ◌↔◌, true, IsTrue};
ghost use Rattle.rv_core.specs.Legs.{IsLeg, StopIsInData, start_of, after_load_of, after_other_of};
ghost use Rattle.rv_core.specs.Memory.{empty_stack};

use crate::decoded::{Decoded, run_decoded};
use crate::legs::run_in_place;
use crate::naming::Naming;
use crate::state::{Core, Stop, no_bytes, start_regs};
use guest_image::Image;
use rv_table::{LoadWidth, Reg, loaded};
use std::marker::Model;

/// A core in its place, and whether its stack is known to be empty. Contracts see the core.
///
/// A core has 1,160 bytes, of which 1,024 are its stack. A task of version 1 has none. Where the stacks of both places
/// are known to be empty, 136 bytes are written; behind a run in version 2 that of a core isn't known to be.
#[derive(Drop)]
pub struct NotedCore {
    core: Core,
    is_empty: bool,
}

impl Model for NotedCore {
    ghost use Rattle.std.specs.Prelude.{◌≡◌, true};
    ghost use Rattle.rv_core.specs.declared.state.Core.{Core};
    ghost use Rattle.rv_core.specs.Memory.{empty_stack};

    ghost Value = { Core };

    ghost view = { λ n. n.core };

    ghost invariant = { λ n. n.is_empty ≡ true → n.core.stack ≡ empty_stack };
}

/// Whether a stack that was known to be empty is known to be so after a run of the image's instructions.
fn stays_empty(was_empty: bool, image: &Image) -> bool
    ensures { IsTrue result → (was_empty ≡ true) × (image.now.version ≡ 1) }
{
    was_empty && image.version() == 1
}

impl NotedCore {
    /// The core of a task that starts, as [`Core::start`] gives it.
    pub fn start(version: u16, entry: u32, ts: u32, args: [u32; 3]) -> NotedCore
        ensures { result ≡ start_of version entry ts args }
    {
        NotedCore {
            core: Core::start(version, entry, ts, args),
            is_empty: true,
        }
    }

    /// A core whose stack is looked at once.
    pub fn of(core: &Core) -> NotedCore
        ensures { result ≡ core.now }
    {
        NotedCore {
            core: *core,
            is_empty: core.stack == no_bytes(),
        }
    }

    /// A copy of this core.
    pub(crate) fn copy(&self) -> NotedCore
        ensures { result ≡ self.now }
    {
        NotedCore {
            core: self.core,
            is_empty: self.is_empty,
        }
    }

    /// The core.
    pub fn core(&self) -> &Core
        ensures { result.now ≡ self.now }
    {
        &self.core
    }

    /// Writes another stack over this one, with what is known of it.
    fn put_stack(&mut self, from: &NotedCore)
        ensures { self.new ≡ record self.old { stack = from.now.stack } }
    {
        self.core.stack = from.core.stack;
        self.is_empty = from.is_empty;
    }

    /// Empties the stack.
    fn clear_stack(&mut self)
        ensures { self.new ≡ record self.old { stack = empty_stack } }
    {
        self.core.stack = no_bytes();
        self.is_empty = true;
    }

    /// Puts a core in this place.
    pub fn put(&mut self, from: &NotedCore)
        ensures { self.new ≡ from.now }
    {
        if !(self.is_empty && from.is_empty) {
            self.put_stack(from);
        }
        self.core.pc = from.core.pc;
        self.core.regs = from.core.regs;
        self.core.used = from.core.used;
    }

    /// Puts the core of a task that starts in this place, as [`Core::start`] gives it.
    pub fn put_start(&mut self, version: u16, entry: u32, ts: u32, args: [u32; 3])
        ensures { self.new ≡ start_of version entry ts args }
    {
        if !self.is_empty {
            self.clear_stack();
        }
        self.core.pc = entry;
        self.core.regs = start_regs(version, ts, args);
        self.core.used = 0;
    }

    /// Replaces this core by the one after a load, as [`after_load`](crate::after_load) returns it.
    pub(crate) fn put_after_load(&mut self, from: &NotedCore, width: LoadWidth, rd: Reg, raw: u32)
        requires { from.now.used < 2 ^ 32 - 1 }
        ensures { self.new ≡ after_load_of from.now width rd raw }
    {
        self.put(from);
        self.core.regs.set(rd, loaded(width, raw));
        self.core.pc = from.core.pc.wrapping_add(4);
        self.core.used += 1;
    }

    /// Replaces this core by the one after an instruction that writes no register, as
    /// [`after_other`](crate::after_other) returns it.
    pub(crate) fn put_after_other(&mut self, from: &NotedCore)
        requires { from.now.used < 2 ^ 32 - 1 }
        ensures { self.new ≡ after_other_of from.now }
    {
        self.put(from);
        self.core.pc = from.core.pc.wrapping_add(4);
        self.core.used += 1;
    }

    /// Whether it is the same core. No stack is looked at where both are known to be empty.
    pub(crate) fn is(&self, other: &NotedCore) -> bool
        ensures { IsTrue result ↔ (self.now ≡ other.now) }
    {
        let (one, other_one) = (&self.core, &other.core);
        if self.is_empty && other.is_empty {
            one.pc == other_one.pc && one.used == other_one.used && one.regs == other_one.regs
        } else {
            one == other_one
        }
    }

    /// Runs plain instructions from this core on, in place: how many they were, and what the run stopped at.
    pub(crate) fn run(&mut self, image: &Image, quantum: u32, budget: u32) -> (u32, Stop)
        requires quantum { (1 ≤ quantum) × (quantum ≤ 1024) }
        requires used { self.old.used ≤ budget }
        ensures leg { IsLeg image.now image.now.data_size budget quantum self.old self.new result.0 result.1 }
        ensures inside { StopIsInData image.now.data_size result.1 }
        ensures used { (self.new.used ≡ self.old.used + result.0) × (self.new.used ≤ budget) }
    {
        let done = run_in_place(image, image.data_size(), &mut self.core, quantum, budget);
        self.is_empty = stays_empty(self.is_empty, image);
        done
    }

    /// Runs plain instructions from this core on, in place, at most `quantum` of them, on decoded text. It returns how
    /// many it ran and what it stopped at.
    pub(crate) fn run_decoded<N: Naming>(
        &mut self,
        decoded: &Decoded<N>,
        image: &Image,
        quantum: u32,
        budget: u32,
    ) -> (u32, Stop)
        requires image { image.now ≡ N.image }
        requires quantum { (1 ≤ quantum) × (quantum ≤ 1024) }
        requires used { self.old.used ≤ budget }
        ensures leg { IsLeg image.now image.now.data_size budget quantum self.old self.new result.0 result.1 }
        ensures inside { StopIsInData image.now.data_size result.1 }
        ensures used { (self.new.used ≡ self.old.used + result.0) × (self.new.used ≤ budget) }
    {
        let size = image.data_size();
        let done = run_decoded(decoded, image, size, &mut self.core, quantum, budget);
        self.is_empty = stays_empty(self.is_empty, image);
        done
    }
}
