//! From a word to its instruction, by its opcode and then by its other fixed fields.

ghost use Rattle.std.specs.Prelude.{◌≡◌, ◌<◌, pos};
ghost use Rattle.rv_table.specs.Fields as field;
ghost use Rattle.rv_table.specs.Table.{instr_of_word};

use crate::instr::{Cond, ImmOp, Instr, LoadWidth, RegOp, StoreWidth};
use crate::reg::Reg;

/// The register of a number.
fn register(number: u32) -> Reg
    requires { number < 32 }
    ensures { result ≡ number }
{
    match Reg::new(number as u8) {
        Some(reg) => reg,
        None => unreachable!(),
    }
}

/// The field rd.
fn rd(word: u32) -> Reg
    ensures { result ≡ field.rd word }
{
    register(word >> 7 & 31)
}

/// The field rs1.
fn rs1(word: u32) -> Reg
    ensures { result ≡ field.rs1 word }
{
    register(word >> 15 & 31)
}

/// The field rs2.
fn rs2(word: u32) -> Reg
    ensures { result ≡ field.rs2 word }
{
    register(word >> 20 & 31)
}

/// The field funct3.
fn funct3(word: u32) -> u32
    ensures { result ≡ field.funct3 word }
{
    word >> 12 & 7
}

/// The field funct7.
fn funct7(word: u32) -> u32
    ensures { result ≡ field.funct7 word }
{
    word >> 25
}

/// The I-immediate. The shift copies the sign.
fn i_immediate(word: u32) -> i32
    ensures { result ≡ field.i_immediate word }
{
    word.cast_signed() >> 20
}

/// The field shamt.
fn shamt(word: u32) -> i32
    ensures { result ≡ pos (field.shamt word) }
{
    (word >> 20 & 31) as i32
}

/// The S-immediate.
fn s_immediate(word: u32) -> i32
    ensures { result ≡ field.s_immediate word }
{
    (word.cast_signed() >> 25) * 32 + (word >> 7 & 31) as i32
}

/// The B-immediate.
fn b_immediate(word: u32) -> i32
    ensures { result ≡ field.b_immediate word }
{
    let low = (word >> 7 & 1) * 2048 + (word >> 25 & 63) * 32 + (word >> 8 & 15) * 2;
    (word.cast_signed() >> 31) * 4096 + low as i32
}

/// The J-immediate.
fn j_immediate(word: u32) -> i32
    ensures { result ≡ field.j_immediate word }
{
    let low = (word >> 12 & 255) * 4096 + (word >> 20 & 1) * 2048 + (word >> 21 & 1023) * 2;
    (word.cast_signed() >> 31) * 0x10_0000 + low as i32
}

/// The U-immediate.
fn u_immediate(word: u32) -> u32
    ensures { result ≡ field.u_immediate word }
{
    (word >> 12) << 12
}

fn jalr_of(word: u32) -> Instr
    ensures { result ≡ Instr.Jalr (field.rd word) (field.rs1 word) (field.i_immediate word) }
{
    Instr::Jalr {
        rd: rd(word),
        rs1: rs1(word),
        imm: i_immediate(word),
    }
}

fn branch_of(cond: Cond, word: u32) -> Instr
    ensures { result ≡ Instr.Branch cond (field.rs1 word) (field.rs2 word) (field.b_immediate word) }
{
    Instr::Branch {
        cond,
        rs1: rs1(word),
        rs2: rs2(word),
        imm: b_immediate(word),
    }
}

fn load_of(width: LoadWidth, word: u32) -> Instr
    ensures { result ≡ Instr.Load width (field.rd word) (field.rs1 word) (field.i_immediate word) }
{
    Instr::Load {
        width,
        rd: rd(word),
        rs1: rs1(word),
        imm: i_immediate(word),
    }
}

fn store_of(width: StoreWidth, word: u32) -> Instr
    ensures { result ≡ Instr.Store width (field.rs1 word) (field.rs2 word) (field.s_immediate word) }
{
    Instr::Store {
        width,
        rs1: rs1(word),
        rs2: rs2(word),
        imm: s_immediate(word),
    }
}

fn op_imm_of(op: ImmOp, word: u32) -> Instr
    ensures { result ≡ Instr.OpImm op (field.rd word) (field.rs1 word) (field.i_immediate word) }
{
    Instr::OpImm {
        op,
        rd: rd(word),
        rs1: rs1(word),
        imm: i_immediate(word),
    }
}

fn shift_of(op: ImmOp, word: u32) -> Instr
    ensures { result ≡ Instr.OpImm op (field.rd word) (field.rs1 word) (pos (field.shamt word)) }
{
    Instr::OpImm {
        op,
        rd: rd(word),
        rs1: rs1(word),
        imm: shamt(word),
    }
}

fn op_of(op: RegOp, word: u32) -> Instr
    ensures { result ≡ Instr.Op op (field.rd word) (field.rs1 word) (field.rs2 word) }
{
    Instr::Op {
        op,
        rd: rd(word),
        rs1: rs1(word),
        rs2: rs2(word),
    }
}

fn decode_jalr(word: u32) -> Option<Instr>
    requires { field.opcode word ≡ 0b1100111 }
    ensures { result ≡ instr_of_word word }
{
    match funct3(word) {
        0b000 => Some(jalr_of(word)),
        _ => None,
    }
}

fn decode_branch(word: u32) -> Option<Instr>
    requires { field.opcode word ≡ 0b1100011 }
    ensures { result ≡ instr_of_word word }
{
    match funct3(word) {
        0b000 => Some(branch_of(Cond::Eq, word)),
        0b001 => Some(branch_of(Cond::Ne, word)),
        0b100 => Some(branch_of(Cond::Lt, word)),
        0b101 => Some(branch_of(Cond::Ge, word)),
        0b110 => Some(branch_of(Cond::Ltu, word)),
        0b111 => Some(branch_of(Cond::Geu, word)),
        _ => None,
    }
}

fn decode_load(word: u32) -> Option<Instr>
    requires { field.opcode word ≡ 0b0000011 }
    ensures { result ≡ instr_of_word word }
{
    match funct3(word) {
        0b000 => Some(load_of(LoadWidth::B, word)),
        0b001 => Some(load_of(LoadWidth::H, word)),
        0b010 => Some(load_of(LoadWidth::W, word)),
        0b100 => Some(load_of(LoadWidth::Bu, word)),
        0b101 => Some(load_of(LoadWidth::Hu, word)),
        _ => None,
    }
}

fn decode_store(word: u32) -> Option<Instr>
    requires { field.opcode word ≡ 0b0100011 }
    ensures { result ≡ instr_of_word word }
{
    match funct3(word) {
        0b000 => Some(store_of(StoreWidth::B, word)),
        0b001 => Some(store_of(StoreWidth::H, word)),
        0b010 => Some(store_of(StoreWidth::W, word)),
        _ => None,
    }
}

fn decode_op_imm(word: u32) -> Option<Instr>
    requires { field.opcode word ≡ 0b0010011 }
    ensures { result ≡ instr_of_word word }
{
    match funct3(word) {
        0b000 => Some(op_imm_of(ImmOp::Add, word)),
        0b010 => Some(op_imm_of(ImmOp::Slt, word)),
        0b011 => Some(op_imm_of(ImmOp::Sltu, word)),
        0b100 => Some(op_imm_of(ImmOp::Xor, word)),
        0b110 => Some(op_imm_of(ImmOp::Or, word)),
        0b111 => Some(op_imm_of(ImmOp::And, word)),
        0b001 if funct7(word) == 0b000_0000 => Some(shift_of(ImmOp::Sll, word)),
        0b101 if funct7(word) == 0b000_0000 => Some(shift_of(ImmOp::Srl, word)),
        0b101 if funct7(word) == 0b010_0000 => Some(shift_of(ImmOp::Sra, word)),
        _ => None,
    }
}

fn decode_op(word: u32) -> Option<Instr>
    requires { field.opcode word ≡ 0b0110011 }
    ensures { result ≡ instr_of_word word }
{
    match (funct3(word), funct7(word)) {
        (0b000, 0b000_0000) => Some(op_of(RegOp::Add, word)),
        (0b000, 0b010_0000) => Some(op_of(RegOp::Sub, word)),
        (0b001, 0b000_0000) => Some(op_of(RegOp::Sll, word)),
        (0b010, 0b000_0000) => Some(op_of(RegOp::Slt, word)),
        (0b011, 0b000_0000) => Some(op_of(RegOp::Sltu, word)),
        (0b100, 0b000_0000) => Some(op_of(RegOp::Xor, word)),
        (0b101, 0b000_0000) => Some(op_of(RegOp::Srl, word)),
        (0b101, 0b010_0000) => Some(op_of(RegOp::Sra, word)),
        (0b110, 0b000_0000) => Some(op_of(RegOp::Or, word)),
        (0b111, 0b000_0000) => Some(op_of(RegOp::And, word)),
        _ => None,
    }
}

fn decode_fence(word: u32) -> Option<Instr>
    requires { field.opcode word ≡ 0b0001111 }
    ensures { result ≡ instr_of_word word }
{
    match funct3(word) {
        0b000 => Some(Instr::Fence),
        _ => None,
    }
}

fn decode_system(word: u32) -> Option<Instr>
    requires { field.opcode word ≡ 0b1110011 }
    ensures { result ≡ instr_of_word word }
{
    match word {
        0x0000_0073 => Some(Instr::Ecall),
        0x0010_0073 => Some(Instr::Ebreak),
        _ => None,
    }
}

/// The instruction that a word stands for: none exactly where it is none of the 40 of RV32I 2.1.
pub fn decode(word: u32) -> Option<Instr>
    ensures { result ≡ instr_of_word word }
{
    decode_at::<0>(word)
}

/// The instruction that a word stands for, as `decode` returns it. Each `CALLER` gets machine code of its own: LLVM
/// inlines a function of this size only where it has a single call.
pub fn decode_at<const CALLER: usize>(word: u32) -> Option<Instr>
    ensures { result ≡ instr_of_word word }
{
    match word & 0x7f {
        0b011_0111 => Some(Instr::Lui {
            rd: rd(word),
            imm: u_immediate(word),
        }),
        0b001_0111 => Some(Instr::Auipc {
            rd: rd(word),
            imm: u_immediate(word),
        }),
        0b110_1111 => Some(Instr::Jal {
            rd: rd(word),
            imm: j_immediate(word),
        }),
        0b110_0111 => decode_jalr(word),
        0b110_0011 => decode_branch(word),
        0b000_0011 => decode_load(word),
        0b010_0011 => decode_store(word),
        0b001_0011 => decode_op_imm(word),
        0b011_0011 => decode_op(word),
        0b000_1111 => decode_fence(word),
        0b111_0011 => decode_system(word),
        _ => None,
    }
}
