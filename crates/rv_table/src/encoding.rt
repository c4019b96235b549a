//! From an instruction to its word.

ghost use Rattle.std.specs.Prelude.{◌≡◌, ◌<◌, ◌^◌, ◌%◌, pos, Some, IsTrue};
ghost use Rattle.rv_table.specs.Fields as field;
ghost use Rattle.rv_table.specs.Table.{instr_of_word};
ghost use Rattle.rv_table.specs.Valid.{valid, is_branch_offset, is_even as even, is_jump_offset};
ghost use Rattle.rv_table.specs.Valid.{is_operand as operand, is_twelve_bits as twelve_bits};

use crate::instr::{Cond, ImmOp, Instr, LoadWidth, RegOp, StoreWidth};
use crate::reg::Reg;

/// Whether an instruction has a word: its immediate is in the range that its variant names.
pub fn is_valid(instr: &Instr) -> bool
    ensures { result ≡ valid instr.now }
{
    match *instr {
        Instr::Lui { imm, .. } | Instr::Auipc { imm, .. } => imm % 4096 == 0,
        Instr::Jal { imm, .. } => is_even(imm) && -1_048_576 <= imm && imm <= 1_048_574,
        Instr::Branch { imm, .. } => is_even(imm) && -4096 <= imm && imm <= 4094,
        Instr::Jalr { imm, .. } | Instr::Load { imm, .. } | Instr::Store { imm, .. } =>
            is_twelve_bits(imm),
        Instr::OpImm { op, imm, .. } => is_operand(op, imm),
        Instr::Op { .. } | Instr::Fence | Instr::Ecall | Instr::Ebreak => true,
    }
}

fn is_even(imm: i32) -> bool
    ensures { result ≡ even imm }
{
    imm.cast_unsigned() % 2 == 0
}

fn is_twelve_bits(imm: i32) -> bool
    ensures { result ≡ twelve_bits imm }
{
    -2048 <= imm && imm <= 2047
}

fn is_operand(op: ImmOp, imm: i32) -> bool
    ensures { result ≡ operand op imm }
{
    match op {
        ImmOp::Sll | ImmOp::Srl | ImmOp::Sra => 0 <= imm && imm <= 31,
        _ => is_twelve_bits(imm),
    }
}

/// The word with these six fields, from the right to the left.
fn word_of(opcode: u32, rd: u32, funct3: u32, rs1: u32, rs2: u32, funct7: u32) -> u32
    requires functions { (opcode < 2 ^ 7) × (funct3 < 2 ^ 3) × (funct7 < 2 ^ 7) }
    requires registers { (rd < 2 ^ 5) × (rs1 < 2 ^ 5) × (rs2 < 2 ^ 5) }
    ensures opcode { field.opcode result ≡ opcode }
    ensures rd { field.rd result ≡ rd }
    ensures funct3 { field.funct3 result ≡ funct3 }
    ensures rs1 { field.rs1 result ≡ rs1 }
    ensures rs2 { field.rs2 result ≡ rs2 }
    ensures funct7 { field.funct7 result ≡ funct7 }
{
    opcode | rd << 7 | funct3 << 12 | rs1 << 15 | rs2 << 20 | funct7 << 25
}

/// An R-type word of an operation on two registers.
fn r_type(funct7: u32, funct3: u32, rd: Reg, rs1: Reg, rs2: Reg) -> u32
    requires { (funct7 < 2 ^ 7) × (funct3 < 2 ^ 3) }
    ensures functions { (field.funct7 result ≡ funct7) × (field.funct3 result ≡ funct3) }
    ensures opcode { field.opcode result ≡ 0b0110011 }
    ensures registers { (field.rd result ≡ rd) × (field.rs1 result ≡ rs1) × (field.rs2 result ≡ rs2) }
{
    word_of(
        0b011_0011,
        u32::from(rd.number()),
        funct3,
        u32::from(rs1.number()),
        u32::from(rs2.number()),
        funct7,
    )
}

/// An I-type word.
fn i_type(funct3: u32, opcode: u32, rd: Reg, rs1: Reg, imm: i32) -> u32
    requires fixed { (funct3 < 2 ^ 3) × (opcode < 2 ^ 7) }
    requires imm { IsTrue (twelve_bits imm) }
    ensures fixed { (field.funct3 result ≡ funct3) × (field.opcode result ≡ opcode) }
    ensures registers { (field.rd result ≡ rd) × (field.rs1 result ≡ rs1) }
    ensures imm { field.i_immediate result ≡ imm }
{
    let bits = imm.cast_unsigned() % 4096;
    word_of(
        opcode,
        u32::from(rd.number()),
        funct3,
        u32::from(rs1.number()),
        bits % 32,
        bits / 32,
    )
}

/// An S-type word: a store.
fn s_type(funct3: u32, rs1: Reg, rs2: Reg, imm: i32) -> u32
    requires fixed { funct3 < 2 ^ 3 }
    requires imm { IsTrue (twelve_bits imm) }
    ensures fixed { (field.funct3 result ≡ funct3) × (field.opcode result ≡ 0b0100011) }
    ensures registers { (field.rs1 result ≡ rs1) × (field.rs2 result ≡ rs2) }
    ensures imm { field.s_immediate result ≡ imm }
{
    let bits = imm.cast_unsigned() % 4096;
    word_of(
        0b010_0011,
        bits % 32,
        funct3,
        u32::from(rs1.number()),
        u32::from(rs2.number()),
        bits / 32,
    )
}

/// A B-type word: a branch.
fn b_type(funct3: u32, rs1: Reg, rs2: Reg, imm: i32) -> u32
    requires fixed { funct3 < 2 ^ 3 }
    requires imm { IsTrue (is_branch_offset imm) }
    ensures fixed { (field.funct3 result ≡ funct3) × (field.opcode result ≡ 0b1100011) }
    ensures registers { (field.rs1 result ≡ rs1) × (field.rs2 result ≡ rs2) }
    ensures imm { field.b_immediate result ≡ imm }
{
    let bits = imm.cast_unsigned() % 8192;
    word_of(
        0b110_0011,
        bits / 2 % 16 * 2 + bits / 2048 % 2,
        funct3,
        u32::from(rs1.number()),
        u32::from(rs2.number()),
        bits / 4096 * 64 + bits / 32 % 64,
    )
}

/// A U-type word.
fn u_type(opcode: u32, rd: Reg, imm: u32) -> u32
    requires fixed { opcode < 2 ^ 7 }
    requires imm { imm % 2 ^ 12 ≡ 0 }
    ensures fixed { field.opcode result ≡ opcode }
    ensures registers { field.rd result ≡ rd }
    ensures imm { field.u_immediate result ≡ imm }
{
    imm + u32::from(rd.number()) * 128 + opcode
}

/// A J-type word: JAL.
fn j_type(rd: Reg, imm: i32) -> u32
    requires { IsTrue (is_jump_offset imm) }
    ensures fixed { field.opcode result ≡ 0b1101111 }
    ensures registers { field.rd result ≡ rd }
    ensures imm { field.j_immediate result ≡ imm }
{
    let bits = imm.cast_unsigned() % 0x20_0000;
    word_of(
        0b110_1111,
        u32::from(rd.number()),
        bits / 0x1000 % 8,
        bits / 0x8000 % 32,
        bits / 2 % 16 * 2 + bits / 0x800 % 2,
        bits / 0x10_0000 * 64 + bits / 32 % 64,
    )
}

fn encode_branch(cond: Cond, rs1: Reg, rs2: Reg, imm: i32) -> u32
    requires { IsTrue (is_branch_offset imm) }
    ensures { instr_of_word result ≡ Some (Instr.Branch cond rs1 rs2 imm) }
{
    match cond {
        Cond::Eq => b_type(0b000, rs1, rs2, imm),
        Cond::Ne => b_type(0b001, rs1, rs2, imm),
        Cond::Lt => b_type(0b100, rs1, rs2, imm),
        Cond::Ge => b_type(0b101, rs1, rs2, imm),
        Cond::Ltu => b_type(0b110, rs1, rs2, imm),
        Cond::Geu => b_type(0b111, rs1, rs2, imm),
    }
}

fn encode_load(width: LoadWidth, rd: Reg, rs1: Reg, imm: i32) -> u32
    requires { IsTrue (twelve_bits imm) }
    ensures { instr_of_word result ≡ Some (Instr.Load width rd rs1 imm) }
{
    match width {
        LoadWidth::B => i_type(0b000, 0b000_0011, rd, rs1, imm),
        LoadWidth::H => i_type(0b001, 0b000_0011, rd, rs1, imm),
        LoadWidth::W => i_type(0b010, 0b000_0011, rd, rs1, imm),
        LoadWidth::Bu => i_type(0b100, 0b000_0011, rd, rs1, imm),
        LoadWidth::Hu => i_type(0b101, 0b000_0011, rd, rs1, imm),
    }
}

fn encode_store(width: StoreWidth, rs1: Reg, rs2: Reg, imm: i32) -> u32
    requires { IsTrue (twelve_bits imm) }
    ensures { instr_of_word result ≡ Some (Instr.Store width rs1 rs2 imm) }
{
    match width {
        StoreWidth::B => s_type(0b000, rs1, rs2, imm),
        StoreWidth::H => s_type(0b001, rs1, rs2, imm),
        StoreWidth::W => s_type(0b010, rs1, rs2, imm),
    }
}

/// The word of a shift by a constant.
fn shift(funct7: u32, funct3: u32, rd: Reg, rs1: Reg, shamt: i32) -> u32
    requires fixed { (funct7 < 2 ^ 7) × (funct3 < 2 ^ 3) }
    requires shamt { IsTrue (operand ImmOp.Sll shamt) }
    ensures functions { (field.funct7 result ≡ funct7) × (field.funct3 result ≡ funct3) }
    ensures opcode { field.opcode result ≡ 0b0010011 }
    ensures registers { (field.rd result ≡ rd) × (field.rs1 result ≡ rs1) }
    ensures shamt { pos (field.shamt result) ≡ shamt }
{
    word_of(
        0b001_0011,
        u32::from(rd.number()),
        funct3,
        u32::from(rs1.number()),
        shamt as u32,
        funct7,
    )
}

fn encode_op_imm(op: ImmOp, rd: Reg, rs1: Reg, imm: i32) -> u32
    requires { IsTrue (operand op imm) }
    ensures { instr_of_word result ≡ Some (Instr.OpImm op rd rs1 imm) }
{
    match op {
        ImmOp::Add => i_type(0b000, 0b001_0011, rd, rs1, imm),
        ImmOp::Slt => i_type(0b010, 0b001_0011, rd, rs1, imm),
        ImmOp::Sltu => i_type(0b011, 0b001_0011, rd, rs1, imm),
        ImmOp::Xor => i_type(0b100, 0b001_0011, rd, rs1, imm),
        ImmOp::Or => i_type(0b110, 0b001_0011, rd, rs1, imm),
        ImmOp::And => i_type(0b111, 0b001_0011, rd, rs1, imm),
        ImmOp::Sll => shift(0b000_0000, 0b001, rd, rs1, imm),
        ImmOp::Srl => shift(0b000_0000, 0b101, rd, rs1, imm),
        ImmOp::Sra => shift(0b010_0000, 0b101, rd, rs1, imm),
    }
}

fn encode_op(op: RegOp, rd: Reg, rs1: Reg, rs2: Reg) -> u32
    ensures { instr_of_word result ≡ Some (Instr.Op op rd rs1 rs2) }
{
    match op {
        RegOp::Add => r_type(0b000_0000, 0b000, rd, rs1, rs2),
        RegOp::Sub => r_type(0b010_0000, 0b000, rd, rs1, rs2),
        RegOp::Sll => r_type(0b000_0000, 0b001, rd, rs1, rs2),
        RegOp::Slt => r_type(0b000_0000, 0b010, rd, rs1, rs2),
        RegOp::Sltu => r_type(0b000_0000, 0b011, rd, rs1, rs2),
        RegOp::Xor => r_type(0b000_0000, 0b100, rd, rs1, rs2),
        RegOp::Srl => r_type(0b000_0000, 0b101, rd, rs1, rs2),
        RegOp::Sra => r_type(0b010_0000, 0b101, rd, rs1, rs2),
        RegOp::Or => r_type(0b000_0000, 0b110, rd, rs1, rs2),
        RegOp::And => r_type(0b000_0000, 0b111, rd, rs1, rs2),
    }
}

/// The word of an instruction. `decode` gives the instruction back, and FENCE has several words, of which this is
/// 0x0000000F.
pub fn encode(instr: &Instr) -> u32
    requires { IsTrue (valid instr.now) }
    ensures decodes { instr_of_word result ≡ Some instr.now }
    ensures fence { instr.now ≡ Instr.Fence → result ≡ 0x0000000F }
{
    match *instr {
        Instr::Lui { rd, imm } => u_type(0b011_0111, rd, imm),
        Instr::Auipc { rd, imm } => u_type(0b001_0111, rd, imm),
        Instr::Jal { rd, imm } => j_type(rd, imm),
        Instr::Jalr { rd, rs1, imm } => i_type(0b000, 0b110_0111, rd, rs1, imm),
        Instr::Branch {
            cond,
            rs1,
            rs2,
            imm,
        } => encode_branch(cond, rs1, rs2, imm),
        Instr::Load {
            width,
            rd,
            rs1,
            imm,
        } => encode_load(width, rd, rs1, imm),
        Instr::Store {
            width,
            rs1,
            rs2,
            imm,
        } => encode_store(width, rs1, rs2, imm),
        Instr::OpImm { op, rd, rs1, imm } => encode_op_imm(op, rd, rs1, imm),
        Instr::Op { op, rd, rs1, rs2 } => encode_op(op, rd, rs1, rs2),
        Instr::Fence => 0x0000_000f,
        Instr::Ecall => 0x0000_0073,
        Instr::Ebreak => 0x0010_0073,
    }
}
