//! Operations: instructions with one tag, made from the words of a text once.

ghost use Rattle.std.specs.Prelude.{◌≡◌, ◌<◌, ◌%◌, ◌^◌, ℕ, List, Some, slice_index, if◌then◌else◌};
ghost use Rattle.guest_image.specs.declared.memory_map.TheConstants.{TEXT_START};
ghost use Rattle.rv_table.specs.Exec.{plus, word, op_value, with_register, shift_signed, holds};
ghost use Rattle.rv_table.specs.Regs.{set_word};
ghost use Rattle.rv_table.specs.Table.{instr_of_word};
ghost use Rattle.rv_core.specs.Ops.{Shape, shape, in_words, instr_shape, word_shape, address, cursor, cursor_after_put};
ghost use Rattle.rv_core.specs.Ops.{jump_to, written, shape_next, access, shape_stop, cursor_led, point_led, point};
ghost use Rattle.rv_core.specs.Ops.{is_stack_access, stack_load, stack_store, stack_next};

use crate::legs::{is_in, is_in_stack, width_of_load, width_of_store};
use crate::state::Stop;
use guest_image::{DATA_START, STACK_START, TEXT_START};
use rv_table::{
    Cond, ImmOp, Instr, LoadWidth, Reg, RegOp, Regs, StoreWidth, Target, compute, decode_at,
    is_met, loaded,
};
use undo_log::{number_in, write_in};

/// An instruction with one tag. Immediates are words, and offsets of jumps and branches count words of the text.
#[derive(Clone, Copy)]
pub enum Op {
    /// An operation that needs its word.
    Slow,
    /// FENCE, and what would write `x0` and does nothing else.
    Fence,
    /// ECALL
    Ecall,
    /// LB, LH, LW, LBU, LHU
    Load {
        width: LoadWidth,
        rd: Reg,
        rs1: Reg,
        imm: u32,
    },
    /// SB, SH, SW
    Store {
        width: StoreWidth,
        rs1: Reg,
        rs2: Reg,
        imm: u32,
    },
    /// LUI, AUIPC
    Put {
        rd: Target,
        value: u32,
    },
    Jal {
        rd: Reg,
        words: u32,
    },
    Jalr {
        rd: Reg,
        rs1: Reg,
        imm: u32,
    },
    Addi {
        rd: Target,
        rs1: Reg,
        imm: u32,
    },
    Slti {
        rd: Target,
        rs1: Reg,
        imm: u32,
    },
    Sltiu {
        rd: Target,
        rs1: Reg,
        imm: u32,
    },
    Xori {
        rd: Target,
        rs1: Reg,
        imm: u32,
    },
    Ori {
        rd: Target,
        rs1: Reg,
        imm: u32,
    },
    Andi {
        rd: Target,
        rs1: Reg,
        imm: u32,
    },
    Slli {
        rd: Target,
        rs1: Reg,
        imm: u32,
    },
    Srli {
        rd: Target,
        rs1: Reg,
        imm: u32,
    },
    Srai {
        rd: Target,
        rs1: Reg,
        imm: u32,
    },
    Add {
        rd: Target,
        rs1: Reg,
        rs2: Reg,
    },
    Sub {
        rd: Target,
        rs1: Reg,
        rs2: Reg,
    },
    Sll {
        rd: Target,
        rs1: Reg,
        rs2: Reg,
    },
    Slt {
        rd: Target,
        rs1: Reg,
        rs2: Reg,
    },
    Sltu {
        rd: Target,
        rs1: Reg,
        rs2: Reg,
    },
    Xor {
        rd: Target,
        rs1: Reg,
        rs2: Reg,
    },
    Srl {
        rd: Target,
        rs1: Reg,
        rs2: Reg,
    },
    Sra {
        rd: Target,
        rs1: Reg,
        rs2: Reg,
    },
    Or {
        rd: Target,
        rs1: Reg,
        rs2: Reg,
    },
    And {
        rd: Target,
        rs1: Reg,
        rs2: Reg,
    },
    Beq {
        rs1: Reg,
        rs2: Reg,
        words: u32,
    },
    Bne {
        rs1: Reg,
        rs2: Reg,
        words: u32,
    },
    Blt {
        rs1: Reg,
        rs2: Reg,
        words: u32,
    },
    Bge {
        rs1: Reg,
        rs2: Reg,
        words: u32,
    },
    Bltu {
        rs1: Reg,
        rs2: Reg,
        words: u32,
    },
    Bgeu {
        rs1: Reg,
        rs2: Reg,
        words: u32,
    },
    /// ADDI to the register that it reads. This and what follows do what the compressed instruction set has short
    /// forms for, as programs do it most: they read and write one register, or compare one with 0.
    AddiOwn {
        rd: Target,
        imm: u32,
    },
    AndiOwn {
        rd: Target,
        imm: u32,
    },
    SlliOwn {
        rd: Target,
        imm: u32,
    },
    SrliOwn {
        rd: Target,
        imm: u32,
    },
    SraiOwn {
        rd: Target,
        imm: u32,
    },
    AddOwn {
        rd: Target,
        rs2: Reg,
    },
    SubOwn {
        rd: Target,
        rs2: Reg,
    },
    XorOwn {
        rd: Target,
        rs2: Reg,
    },
    OrOwn {
        rd: Target,
        rs2: Reg,
    },
    AndOwn {
        rd: Target,
        rs2: Reg,
    },
    Beqz {
        rs1: Reg,
        words: u32,
    },
    Bnez {
        rs1: Reg,
        words: u32,
    },
}

fn imm_op(op: ImmOp, rd: Target, rs1: Reg, imm: u32) -> Op
    ensures { shape result ≡ Shape.Imm (with_register op) rd rs1 imm }
{
    match op {
        ImmOp::Add => Op::Addi { rd, rs1, imm },
        ImmOp::Slt => Op::Slti { rd, rs1, imm },
        ImmOp::Sltu => Op::Sltiu { rd, rs1, imm },
        ImmOp::Xor => Op::Xori { rd, rs1, imm },
        ImmOp::Or => Op::Ori { rd, rs1, imm },
        ImmOp::And => Op::Andi { rd, rs1, imm },
        ImmOp::Sll => Op::Slli { rd, rs1, imm },
        ImmOp::Srl => Op::Srli { rd, rs1, imm },
        ImmOp::Sra => Op::Srai { rd, rs1, imm },
    }
}

/// The operation of an immediate that writes the register that it reads.
fn own_imm_op(op: ImmOp, rd: Target, imm: u32) -> Op
    ensures { shape result ≡ Shape.Imm (with_register op) rd rd imm }
{
    match op {
        ImmOp::Add => Op::AddiOwn { rd, imm },
        ImmOp::And => Op::AndiOwn { rd, imm },
        ImmOp::Sll => Op::SlliOwn { rd, imm },
        ImmOp::Srl => Op::SrliOwn { rd, imm },
        ImmOp::Sra => Op::SraiOwn { rd, imm },
        _ => imm_op(op, rd, rd.reg(), imm),
    }
}

fn reg_op(op: RegOp, rd: Target, rs1: Reg, rs2: Reg) -> Op
    ensures { shape result ≡ Shape.Two op rd rs1 rs2 }
{
    match op {
        RegOp::Add => Op::Add { rd, rs1, rs2 },
        RegOp::Sub => Op::Sub { rd, rs1, rs2 },
        RegOp::Sll => Op::Sll { rd, rs1, rs2 },
        RegOp::Slt => Op::Slt { rd, rs1, rs2 },
        RegOp::Sltu => Op::Sltu { rd, rs1, rs2 },
        RegOp::Xor => Op::Xor { rd, rs1, rs2 },
        RegOp::Srl => Op::Srl { rd, rs1, rs2 },
        RegOp::Sra => Op::Sra { rd, rs1, rs2 },
        RegOp::Or => Op::Or { rd, rs1, rs2 },
        RegOp::And => Op::And { rd, rs1, rs2 },
    }
}

/// The operation of two registers that writes the one that it reads first.
fn own_reg_op(op: RegOp, rd: Target, rs2: Reg) -> Op
    ensures { shape result ≡ Shape.Two op rd rd rs2 }
{
    match op {
        RegOp::Add => Op::AddOwn { rd, rs2 },
        RegOp::Sub => Op::SubOwn { rd, rs2 },
        RegOp::Xor => Op::XorOwn { rd, rs2 },
        RegOp::Or => Op::OrOwn { rd, rs2 },
        RegOp::And => Op::AndOwn { rd, rs2 },
        _ => reg_op(op, rd, rd.reg(), rs2),
    }
}

fn branch_op(cond: Cond, rs1: Reg, rs2: Reg, words: u32) -> Op
    ensures { shape result ≡ Shape.Branch cond rs1 rs2 words }
{
    match cond {
        Cond::Eq => Op::Beq { rs1, rs2, words },
        Cond::Ne => Op::Bne { rs1, rs2, words },
        Cond::Lt => Op::Blt { rs1, rs2, words },
        Cond::Ge => Op::Bge { rs1, rs2, words },
        Cond::Ltu => Op::Bltu { rs1, rs2, words },
        Cond::Geu => Op::Bgeu { rs1, rs2, words },
    }
}

/// The operation of a branch by two registers, of which the second may be `x0`.
fn branch_on(cond: Cond, rs1: Reg, rs2: Reg, words: u32) -> Op
    ensures { shape result ≡ Shape.Branch cond rs1 rs2 words }
{
    if rs2.number() != 0 {
        return branch_op(cond, rs1, rs2, words);
    }
    match cond {
        Cond::Eq => Op::Beqz { rs1, words },
        Cond::Ne => Op::Bnez { rs1, words },
        _ => branch_op(cond, rs1, rs2, words),
    }
}

/// An offset in bytes as one in words, for a multiple of 4.
fn words_of(offset: u32) -> u32
    ensures { result ≡ shift_signed (offset % 2 ^ 32) 2 }
{
    (offset.cast_signed() >> 2).cast_unsigned()
}

fn jal_op(rd: Reg, imm: i32) -> Op
    ensures { shape result ≡ in_words (word imm) (Shape.Jump rd) }
{
    let offset = imm.cast_unsigned();
    if offset % 4 == 0 {
        Op::Jal {
            rd,
            words: words_of(offset),
        }
    } else {
        Op::Slow
    }
}

fn jalr_op(rd: Reg, rs1: Reg, imm: i32) -> Op
    ensures { shape result ≡ Shape.JumpTo rd rs1 (word imm) }
{
    Op::Jalr {
        rd,
        rs1,
        imm: imm.cast_unsigned(),
    }
}

fn load_op(width: LoadWidth, rd: Reg, rs1: Reg, imm: i32) -> Op
    ensures { shape result ≡ Shape.Load width rd rs1 (word imm) }
{
    Op::Load {
        width,
        rd,
        rs1,
        imm: imm.cast_unsigned(),
    }
}

fn store_op(width: StoreWidth, rs1: Reg, rs2: Reg, imm: i32) -> Op
    ensures { shape result ≡ Shape.Store width rs1 rs2 (word imm) }
{
    Op::Store {
        width,
        rs1,
        rs2,
        imm: imm.cast_unsigned(),
    }
}

fn branch_by(cond: Cond, rs1: Reg, rs2: Reg, imm: i32) -> Op
    ensures { shape result ≡ in_words (word imm) (Shape.Branch cond rs1 rs2) }
{
    let offset = imm.cast_unsigned();
    if offset % 4 == 0 {
        branch_on(cond, rs1, rs2, words_of(offset))
    } else {
        Op::Slow
    }
}

/// A write of a value. Where it goes to `x0`, it only goes on, as do the next two.
fn put_by(rd: Reg, value: u32) -> Op
    ensures { shape result ≡ written rd (Shape.Put rd value) }
{
    match rd.target() {
        Some(rd) => Op::Put { rd, value },
        None => Op::Fence,
    }
}

fn imm_by(op: ImmOp, rd: Reg, rs1: Reg, imm: u32) -> Op
    ensures { shape result ≡ written rd (Shape.Imm (with_register op) rd rs1 imm) }
{
    match rd.target() {
        Some(to) if rs1.number() == rd.number() => own_imm_op(op, to, imm),
        Some(to) => imm_op(op, to, rs1, imm),
        None => Op::Fence,
    }
}

fn reg_by(op: RegOp, rd: Reg, rs1: Reg, rs2: Reg) -> Op
    ensures { shape result ≡ written rd (Shape.Two op rd rs1 rs2) }
{
    match rd.target() {
        Some(to) if rs1.number() == rd.number() => own_reg_op(op, to, rs2),
        Some(to) => reg_op(op, to, rs1, rs2),
        None => Op::Fence,
    }
}

/// The operation of an instruction at a pc.
fn instr_op(instr: Instr, pc: u32) -> Op
    ensures { shape result ≡ instr_shape pc instr }
{
    match instr {
        Instr::Lui { rd, imm } => put_by(rd, imm),
        Instr::Auipc { rd, imm } => put_by(rd, pc.wrapping_add(imm)),
        Instr::Jal { rd, imm } => jal_op(rd, imm),
        Instr::Jalr { rd, rs1, imm } => jalr_op(rd, rs1, imm),
        Instr::Branch {
            cond,
            rs1,
            rs2,
            imm,
        } => branch_by(cond, rs1, rs2, imm),
        Instr::Load {
            width,
            rd,
            rs1,
            imm,
        } => load_op(width, rd, rs1, imm),
        Instr::Store {
            width,
            rs1,
            rs2,
            imm,
        } => store_op(width, rs1, rs2, imm),
        Instr::OpImm { op, rd, rs1, imm } => imm_by(op, rd, rs1, imm.cast_unsigned()),
        Instr::Op { op, rd, rs1, rs2 } => reg_by(op, rd, rs1, rs2),
        Instr::Fence => Op::Fence,
        Instr::Ecall => Op::Ecall,
        Instr::Ebreak => Op::Slow,
    }
}

/// The operation of a word at a pc.
pub(crate) fn op_of(word: u32, pc: u32) -> Op
    ensures { shape result ≡ word_shape pc (instr_of_word word) }
{
    match decode_at::<1>(word) {
        Some(instr) => instr_op(instr, pc),
        None => Op::Slow,
    }
}

/// The address of a word of the text.
pub(crate) fn address_of(index: u32) -> u32
    ensures { result ≡ address index }
{
    index.wrapping_mul(4).wrapping_add(TEXT_START)
}

/// The address behind a word of the text.
fn address_behind(index: u32) -> u32
    ensures { result ≡ plus (address index) 4 }
{
    index.wrapping_mul(4).wrapping_add(TEXT_START + 4)
}

/// Where an operation leads.
#[derive(Clone, Copy)]
pub(crate) enum Way {
    /// On to the next word.
    On,
    /// To this word.
    To(u32),
    /// Nowhere: nothing is changed.
    Nowhere,
}

/// On to the next word, with a register written.
fn go_on(regs: &mut Regs, rd: Target, value: u32) -> Way
    ensures on { result ≡ Way.On }
    ensures put { regs.new ≡ set_word regs.old rd value }
{
    regs.put(rd, value);
    Way::On
}

/// An operation with an immediate.
fn by_imm(op: RegOp, regs: &mut Regs, rd: Target, rs1: Reg, imm: u32) -> Way
    ensures on { result ≡ Way.On }
    ensures put { regs.new ≡ set_word regs.old rd (op_value op (slice_index regs.old rs1) imm) }
{
    let value = compute(op, regs.get(rs1), imm);
    go_on(regs, rd, value)
}

/// An operation on two registers.
fn by_two(op: RegOp, regs: &mut Regs, rd: Target, rs1: Reg, rs2: Reg) -> Way
    ensures on { result ≡ Way.On }
    ensures put { regs.new ≡ set_word regs.old rd (op_value op (slice_index regs.old rs1) (slice_index regs.old rs2)) }
{
    let value = compute(op, regs.get(rs1), regs.get(rs2));
    go_on(regs, rd, value)
}

/// A branch, which is taken or not.
fn branch_if(is_taken: bool, index: u32, words: u32) -> Way
    ensures { (regs : List ℕ)
        → cursor_led result index regs ≡ Some (cursor (plus index (if is_taken then words else 1)) regs) }
{
    if is_taken {
        Way::To(index.wrapping_add(words))
    } else {
        Way::On
    }
}

/// A branch by two registers.
fn by_cond(cond: Cond, index: u32, regs: &Regs, rs1: Reg, rs2: Reg, words: u32) -> Way
    ensures { cursor_led result index regs.now ≡ shape_next (Shape.Branch cond rs1 rs2 words) (cursor index regs.now) }
{
    branch_if(is_met(cond, regs.get(rs1), regs.get(rs2)), index, words)
}

/// JAL
fn jump(index: u32, regs: &mut Regs, rd: Reg, words: u32) -> Way
    ensures { cursor_led result index regs.new ≡ shape_next (Shape.Jump rd words) (cursor index regs.old) }
{
    regs.set(rd, address_behind(index));
    Way::To(index.wrapping_add(words))
}

/// JALR, to an aligned target.
fn jump_by(index: u32, regs: &mut Regs, rd: Reg, rs1: Reg, imm: u32) -> Way
    ensures next { cursor_led result index regs.new ≡ shape_next (Shape.JumpTo rd rs1 imm) (cursor index regs.old) }
    ensures stays { result ≡ Way.Nowhere → regs.new ≡ regs.old }
{
    let target = regs.get(rs1).wrapping_add(imm) / 2 * 2;
    if target % 4 == 0 {
        regs.set(rd, address_behind(index));
        Way::To(target.wrapping_sub(TEXT_START) / 4)
    } else {
        Way::Nowhere
    }
}

/// Does an operation that touches registers alone: where it leads, or nowhere and no change. One match has them all, so
/// that each is found by one jump.
pub(crate) fn act(op: &Op, index: u32, regs: &mut Regs) -> Way
    ensures next { cursor_led result index regs.new ≡ shape_next (shape op.now) (cursor index regs.old) }
    ensures stays { result ≡ Way.Nowhere → regs.new ≡ regs.old }
{
    match *op {
        Op::Fence => Way::On,
        Op::Put { rd, value } => go_on(regs, rd, value),
        Op::Jal { rd, words } => jump(index, regs, rd, words),
        Op::Jalr { rd, rs1, imm } => jump_by(index, regs, rd, rs1, imm),
        Op::Addi { rd, rs1, imm } => by_imm(RegOp::Add, regs, rd, rs1, imm),
        Op::Slti { rd, rs1, imm } => by_imm(RegOp::Slt, regs, rd, rs1, imm),
        Op::Sltiu { rd, rs1, imm } => by_imm(RegOp::Sltu, regs, rd, rs1, imm),
        Op::Xori { rd, rs1, imm } => by_imm(RegOp::Xor, regs, rd, rs1, imm),
        Op::Ori { rd, rs1, imm } => by_imm(RegOp::Or, regs, rd, rs1, imm),
        Op::Andi { rd, rs1, imm } => by_imm(RegOp::And, regs, rd, rs1, imm),
        Op::Slli { rd, rs1, imm } => by_imm(RegOp::Sll, regs, rd, rs1, imm),
        Op::Srli { rd, rs1, imm } => by_imm(RegOp::Srl, regs, rd, rs1, imm),
        Op::Srai { rd, rs1, imm } => by_imm(RegOp::Sra, regs, rd, rs1, imm),
        Op::Add { rd, rs1, rs2 } => by_two(RegOp::Add, regs, rd, rs1, rs2),
        Op::Sub { rd, rs1, rs2 } => by_two(RegOp::Sub, regs, rd, rs1, rs2),
        Op::Sll { rd, rs1, rs2 } => by_two(RegOp::Sll, regs, rd, rs1, rs2),
        Op::Slt { rd, rs1, rs2 } => by_two(RegOp::Slt, regs, rd, rs1, rs2),
        Op::Sltu { rd, rs1, rs2 } => by_two(RegOp::Sltu, regs, rd, rs1, rs2),
        Op::Xor { rd, rs1, rs2 } => by_two(RegOp::Xor, regs, rd, rs1, rs2),
        Op::Srl { rd, rs1, rs2 } => by_two(RegOp::Srl, regs, rd, rs1, rs2),
        Op::Sra { rd, rs1, rs2 } => by_two(RegOp::Sra, regs, rd, rs1, rs2),
        Op::Or { rd, rs1, rs2 } => by_two(RegOp::Or, regs, rd, rs1, rs2),
        Op::And { rd, rs1, rs2 } => by_two(RegOp::And, regs, rd, rs1, rs2),
        Op::Beq { rs1, rs2, words } => by_cond(Cond::Eq, index, regs, rs1, rs2, words),
        Op::Bne { rs1, rs2, words } => by_cond(Cond::Ne, index, regs, rs1, rs2, words),
        Op::Blt { rs1, rs2, words } => by_cond(Cond::Lt, index, regs, rs1, rs2, words),
        Op::Bge { rs1, rs2, words } => by_cond(Cond::Ge, index, regs, rs1, rs2, words),
        Op::Bltu { rs1, rs2, words } => by_cond(Cond::Ltu, index, regs, rs1, rs2, words),
        Op::Bgeu { rs1, rs2, words } => by_cond(Cond::Geu, index, regs, rs1, rs2, words),
        Op::AddiOwn { rd, imm } => by_imm(RegOp::Add, regs, rd, rd.reg(), imm),
        Op::AndiOwn { rd, imm } => by_imm(RegOp::And, regs, rd, rd.reg(), imm),
        Op::SlliOwn { rd, imm } => by_imm(RegOp::Sll, regs, rd, rd.reg(), imm),
        Op::SrliOwn { rd, imm } => by_imm(RegOp::Srl, regs, rd, rd.reg(), imm),
        Op::SraiOwn { rd, imm } => by_imm(RegOp::Sra, regs, rd, rd.reg(), imm),
        Op::AddOwn { rd, rs2 } => by_two(RegOp::Add, regs, rd, rd.reg(), rs2),
        Op::SubOwn { rd, rs2 } => by_two(RegOp::Sub, regs, rd, rd.reg(), rs2),
        Op::XorOwn { rd, rs2 } => by_two(RegOp::Xor, regs, rd, rd.reg(), rs2),
        Op::OrOwn { rd, rs2 } => by_two(RegOp::Or, regs, rd, rd.reg(), rs2),
        Op::AndOwn { rd, rs2 } => by_two(RegOp::And, regs, rd, rd.reg(), rs2),
        Op::Beqz { rs1, words } => branch_if(regs.is_zero(rs1), index, words),
        Op::Bnez { rs1, words } => branch_if(!regs.is_zero(rs1), index, words),
        Op::Slow | Op::Ecall | Op::Load { .. } | Op::Store { .. } => Way::Nowhere,
    }
}

/// Whether an access is aligned and lies in the stack.
fn is_stack_access(version: u16, addr: u32, len: u32) -> bool
    requires { 0 < len }
    ensures { result ≡ is_stack_access version addr len }
{
    addr % len == 0 && is_in_stack(version, addr, len)
}

/// An aligned load from the stack: where it leads, or nowhere and no change.
fn load_stack(
    version: u16,
    width: LoadWidth,
    rd: Reg,
    addr: u32,
    regs: &mut Regs,
    stack: &[u8; 1024],
) -> Way
    ensures next { (index : ℕ) → let from = point index regs.old stack.now in
        point_led result index regs.new stack.now ≡ stack_load version width rd addr from }
    ensures stays { result ≡ Way.Nowhere → regs.new ≡ regs.old }
{
    let bytes = width_of_load(width);
    if is_stack_access(version, addr, u32::from(bytes)) {
        let raw = number_in(stack, (addr - STACK_START) as usize, bytes);
        regs.set(rd, loaded(width, raw));
        Way::On
    } else {
        Way::Nowhere
    }
}

/// An aligned store to the stack: where it leads, or nowhere and no change.
fn store_stack(
    version: u16,
    width: StoreWidth,
    addr: u32,
    value: u32,
    regs: &Regs,
    stack: &mut [u8; 1024],
) -> Way
    ensures next { (index : ℕ) → let from = point index regs.now stack.old in
        point_led result index regs.now stack.new ≡ stack_store version width addr value from }
    ensures stays { result ≡ Way.Nowhere → stack.new ≡ stack.old }
{
    let bytes = width_of_store(width);
    if is_stack_access(version, addr, u32::from(bytes)) {
        write_in(stack, (addr - STACK_START) as usize, bytes, value);
        Way::On
    } else {
        Way::Nowhere
    }
}

/// Does an access of the stack: where it leads, or nowhere and no change.
pub(crate) fn act_on_stack(op: &Op, version: u16, regs: &mut Regs, stack: &mut [u8; 1024]) -> Way
    ensures next { (index : ℕ) → let from = point index regs.old stack.old in
        point_led result index regs.new stack.new ≡ stack_next version (shape op.now) from }
    ensures stays { result ≡ Way.Nowhere → (regs.new ≡ regs.old) × (stack.new ≡ stack.old) }
{
    match *op {
        Op::Load {
            width,
            rd,
            rs1,
            imm,
        } => {
            let addr = regs.get(rs1).wrapping_add(imm);
            load_stack(version, width, rd, addr, regs, stack)
        }
        Op::Store {
            width,
            rs1,
            rs2,
            imm,
        } => {
            let addr = regs.get(rs1).wrapping_add(imm);
            let value = regs.get(rs2);
            store_stack(version, width, addr, value, regs, stack)
        }
        _ => Way::Nowhere,
    }
}

/// What an access stops at, where it is aligned and in the data below the stack.
fn stop_in(data_size: u32, addr: u32, len: u32, stop: Stop) -> Option<Stop>
    requires { 0 < len }
    ensures { result ≡ access data_size addr len stop }
{
    if addr % len == 0 && addr < STACK_START && is_in(DATA_START, data_size, addr, len) {
        Some(stop)
    } else {
        None
    }
}

/// What an operation stops at, where it is a call or an access to the data that doesn't trap.
pub(crate) fn stop_of(op: &Op, data_size: u32, regs: &Regs) -> Option<Stop>
    ensures { result ≡ shape_stop data_size (shape op.now) regs.now }
{
    match *op {
        Op::Ecall => Some(Stop::Call),
        Op::Load {
            width,
            rd,
            rs1,
            imm,
        } => {
            let addr = regs.get(rs1).wrapping_add(imm);
            let len = u32::from(width_of_load(width));
            stop_in(data_size, addr, len, Stop::Load { width, rd, addr })
        }
        Op::Store {
            width,
            rs1,
            rs2,
            imm,
        } => {
            let addr = regs.get(rs1).wrapping_add(imm);
            let len = u32::from(width_of_store(width));
            let value = regs.get(rs2);
            stop_in(data_size, addr, len, Stop::Store { width, addr, value })
        }
        _ => None,
    }
}
