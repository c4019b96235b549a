//! The instruction table of RV32I 2.1: what each 32-bit word stands for, what an instruction does to a pc and the
//! registers, and which word an instruction has. The definitions list the 40 instructions row by row as the manual
//! does; the code takes a word apart by its fields and looks at no list. A call costs a few tens of machine
//! instructions and takes no memory. It stands on nothing; `rv_core`, requests and the generated images call it, and
//! accesses hand on its types.
#![tactic(auto)]

mod acting;
mod decoding;
mod encoding;
mod instr;
mod laws;
mod reg;

pub use acting::{compute, effect, is_met, loaded};
pub use decoding::{decode, decode_at};
pub use encoding::{encode, is_valid};
pub use instr::{Cond, Effect, ImmOp, Instr, LoadWidth, RegOp, StoreWidth};
pub use laws::rows_are_apart;
pub use reg::{Reg, Regs, Target};
