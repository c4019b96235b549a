//! What an instruction does.

ghost use Rattle.std.specs.Prelude.{◌≡◌, ◌<◌, if◌then◌else◌};
ghost use Rattle.rv_table.specs.Exec.{acts_on, holds, op_value, with_register, jump, loaded_value, plus};
ghost use Rattle.rv_table.specs.Exec.{shift_signed, word};

use crate::instr::{Cond, Effect, ImmOp, Instr, LoadWidth, RegOp, StoreWidth};
use crate::reg::{Reg, Regs};

/// Whether a branch is taken.
pub fn is_met(cond: Cond, x: u32, y: u32) -> bool
    ensures { result ≡ holds cond x y }
{
    match cond {
        Cond::Eq => x == y,
        Cond::Ne => x != y,
        Cond::Lt => x.cast_signed() < y.cast_signed(),
        Cond::Ge => x.cast_signed() >= y.cast_signed(),
        Cond::Ltu => x < y,
        Cond::Geu => x >= y,
    }
}

/// A shift to the right that fills in copies of the sign.
fn shift_copying_sign(x: u32, by: u32) -> u32
    requires { by < 32 }
    ensures { result ≡ shift_signed x by }
{
    (x.cast_signed() >> by).cast_unsigned()
}

/// What an operation computes.
pub fn compute(op: RegOp, x: u32, y: u32) -> u32
    ensures { result ≡ op_value op x y }
{
    match op {
        RegOp::Add => x.wrapping_add(y),
        RegOp::Sub => x.wrapping_sub(y),
        RegOp::Sll => x << (y % 32),
        RegOp::Slt => u32::from(x.cast_signed() < y.cast_signed()),
        RegOp::Sltu => u32::from(x < y),
        RegOp::Xor => x ^ y,
        RegOp::Srl => x >> (y % 32),
        RegOp::Sra => shift_copying_sign(x, y % 32),
        RegOp::Or => x | y,
        RegOp::And => x & y,
    }
}

/// The operation on two registers that an operation with an immediate does.
fn register_form(op: ImmOp) -> RegOp
    ensures { result ≡ with_register op }
{
    match op {
        ImmOp::Add => RegOp::Add,
        ImmOp::Slt => RegOp::Slt,
        ImmOp::Sltu => RegOp::Sltu,
        ImmOp::Xor => RegOp::Xor,
        ImmOp::Or => RegOp::Or,
        ImmOp::And => RegOp::And,
        ImmOp::Sll => RegOp::Sll,
        ImmOp::Srl => RegOp::Srl,
        ImmOp::Sra => RegOp::Sra,
    }
}

/// The register that an instruction names where it writes none.
fn no_register() -> Reg
    ensures { result ≡ 0 }
{
    match Reg::new(0) {
        Some(reg) => reg,
        None => unreachable!(),
    }
}

/// The sum of a word and an immediate, which wraps.
fn offset(base: u32, imm: i32) -> u32
    ensures { result ≡ plus base (word imm) }
{
    base.wrapping_add(imm.cast_unsigned())
}

/// On to the next instruction, with a register written.
fn go_on(pc: u32, rd: Reg, value: u32) -> Effect
    ensures { result ≡ Effect.Plain (plus pc 4) rd value }
{
    Effect::Plain {
        pc: pc.wrapping_add(4),
        rd,
        value,
    }
}

/// A jump to a target, with a register written; misaligned, with none written, where the target isn't a multiple of 4.
fn jump_to(rd: Reg, value: u32, target: u32) -> Effect
    ensures { result ≡ jump rd value target }
{
    if target % 4 == 0 {
        Effect::Plain {
            pc: target,
            rd,
            value,
        }
    } else {
        Effect::Misaligned
    }
}

/// To a target if the branch is taken.
fn branch(pc: u32, is_taken: bool, imm: i32) -> Effect
    ensures { result ≡ (if is_taken then jump 0 0 (plus pc (word imm)) else Effect.Plain (plus pc 4) 0 0) }
{
    if is_taken {
        jump_to(no_register(), 0, offset(pc, imm))
    } else {
        go_on(pc, no_register(), 0)
    }
}

/// A load from an offset of a base address.
fn load(width: LoadWidth, rd: Reg, base: u32, imm: i32) -> Effect
    ensures { result ≡ Effect.Load width rd (plus base (word imm)) }
{
    Effect::Load {
        width,
        rd,
        addr: offset(base, imm),
    }
}

/// A store at an offset of a base address.
fn store(width: StoreWidth, base: u32, imm: i32, value: u32) -> Effect
    ensures { result ≡ Effect.Store width (plus base (word imm)) value }
{
    Effect::Store {
        width,
        addr: offset(base, imm),
        value,
    }
}

/// What an instruction does at a pc with these registers.
pub fn effect(pc: u32, regs: &Regs, instr: &Instr) -> Effect
    ensures { result ≡ acts_on pc regs.now instr.now }
{
    match *instr {
        Instr::Lui { rd, imm } => go_on(pc, rd, imm),
        Instr::Auipc { rd, imm } => go_on(pc, rd, pc.wrapping_add(imm)),
        Instr::Jal { rd, imm } => jump_to(rd, pc.wrapping_add(4), offset(pc, imm)),
        Instr::Jalr { rd, rs1, imm } => {
            jump_to(rd, pc.wrapping_add(4), offset(regs.get(rs1), imm) / 2 * 2)
        }
        Instr::Branch {
            cond,
            rs1,
            rs2,
            imm,
        } => branch(pc, is_met(cond, regs.get(rs1), regs.get(rs2)), imm),
        Instr::Load {
            width,
            rd,
            rs1,
            imm,
        } => load(width, rd, regs.get(rs1), imm),
        Instr::Store {
            width,
            rs1,
            rs2,
            imm,
        } => store(width, regs.get(rs1), imm, regs.get(rs2)),
        Instr::OpImm { op, rd, rs1, imm } => {
            let value = compute(register_form(op), regs.get(rs1), imm.cast_unsigned());
            go_on(pc, rd, value)
        }
        Instr::Op { op, rd, rs1, rs2 } => go_on(pc, rd, compute(op, regs.get(rs1), regs.get(rs2))),
        Instr::Fence => go_on(pc, no_register(), 0),
        Instr::Ecall => Effect::Call,
        Instr::Ebreak => Effect::Break,
    }
}

/// The low byte, sign-extended.
fn sign_extended_byte(raw: u32) -> u32
    ensures { result ≡ loaded_value LoadWidth.B raw }
{
    ((raw << 24).cast_signed() >> 24).cast_unsigned()
}

/// The low two bytes, sign-extended.
fn sign_extended_half(raw: u32) -> u32
    ensures { result ≡ loaded_value LoadWidth.H raw }
{
    ((raw << 16).cast_signed() >> 16).cast_unsigned()
}

/// What a load writes to its register, where the bytes that it read are the low ones of `raw`, the first the lowest.
/// The other bytes of `raw` play no part.
pub fn loaded(width: LoadWidth, raw: u32) -> u32
    ensures { result ≡ loaded_value width raw }
{
    match width {
        LoadWidth::B => sign_extended_byte(raw),
        LoadWidth::H => sign_extended_half(raw),
        LoadWidth::W => raw,
        LoadWidth::Bu => raw & 0xff,
        LoadWidth::Hu => raw & 0xffff,
    }
}
