//! The words of the instructions that the programs are made of, in the operand order of the assembler.

ghost use Rattle.std.specs.Prelude.{◌≡◌, ◌<◌, ◌^◌, ◌%◌, pos, Some, IsTrue};
ghost use Rattle.rv_table.specs.Table.{instr_of_word};
ghost use Rattle.rv_table.specs.Valid.{is_branch_offset, is_twelve_bits};

use rv_table::{Cond, ImmOp, Instr, LoadWidth, Reg, RegOp, StoreWidth, encode};

/// The register of a number.
fn reg(number: u8) -> Reg
    requires { number < 32 }
    ensures { result ≡ number }
{
    Reg::new(number).unwrap()
}

/// `lui rd, imm / 4096`
pub(crate) fn lui(rd: u8, imm: u32) -> u32
    requires register { rd < 32 }
    requires imm { imm % 2 ^ 12 ≡ 0 }
    ensures { instr_of_word result ≡ Some (Instr.Lui rd imm) }
{
    encode(&Instr::Lui { rd: reg(rd), imm })
}

/// `addi rd, rs1, imm`
pub(crate) fn addi(rd: u8, rs1: u8, imm: i32) -> u32
    requires registers { (rd < 32) × (rs1 < 32) }
    requires imm { IsTrue (is_twelve_bits imm) }
    ensures { instr_of_word result ≡ Some (Instr.OpImm ImmOp.Add rd rs1 imm) }
{
    encode(&Instr::OpImm {
        op: ImmOp::Add,
        rd: reg(rd),
        rs1: reg(rs1),
        imm,
    })
}

/// `slli rd, rs1, amount`
pub(crate) fn slli(rd: u8, rs1: u8, amount: u8) -> u32
    requires registers { (rd < 32) × (rs1 < 32) }
    requires amount { amount < 32 }
    ensures { instr_of_word result ≡ Some (Instr.OpImm ImmOp.Sll rd rs1 (pos amount)) }
{
    encode(&Instr::OpImm {
        op: ImmOp::Sll,
        rd: reg(rd),
        rs1: reg(rs1),
        imm: i32::from(amount),
    })
}

/// `add rd, rs1, rs2`
pub(crate) fn add(rd: u8, rs1: u8, rs2: u8) -> u32
    requires { (rd < 32) × (rs1 < 32) × (rs2 < 32) }
    ensures { instr_of_word result ≡ Some (Instr.Op RegOp.Add rd rs1 rs2) }
{
    encode(&Instr::Op {
        op: RegOp::Add,
        rd: reg(rd),
        rs1: reg(rs1),
        rs2: reg(rs2),
    })
}

/// `lw rd, 0(rs1)`
pub(crate) fn lw(rd: u8, rs1: u8) -> u32
    requires { (rd < 32) × (rs1 < 32) }
    ensures { instr_of_word result ≡ Some (Instr.Load LoadWidth.W rd rs1 (pos 0)) }
{
    encode(&Instr::Load {
        width: LoadWidth::W,
        rd: reg(rd),
        rs1: reg(rs1),
        imm: 0,
    })
}

/// `sw rs2, 0(rs1)`
pub(crate) fn sw(rs2: u8, rs1: u8) -> u32
    requires { (rs2 < 32) × (rs1 < 32) }
    ensures { instr_of_word result ≡ Some (Instr.Store StoreWidth.W rs1 rs2 (pos 0)) }
{
    encode(&Instr::Store {
        width: StoreWidth::W,
        rs1: reg(rs1),
        rs2: reg(rs2),
        imm: 0,
    })
}

/// A branch on a condition by an offset in bytes, such as `bne rs1, rs2, imm`.
pub(crate) fn branch(cond: Cond, rs1: u8, rs2: u8, imm: i32) -> u32
    requires registers { (rs1 < 32) × (rs2 < 32) }
    requires imm { IsTrue (is_branch_offset imm) }
    ensures { instr_of_word result ≡ Some (Instr.Branch cond rs1 rs2 imm) }
{
    encode(&Instr::Branch {
        cond,
        rs1: reg(rs1),
        rs2: reg(rs2),
        imm,
    })
}

/// `ecall`
pub(crate) fn ecall() -> u32
    ensures { instr_of_word result ≡ Some Instr.Ecall }
{
    encode(&Instr::Ecall)
}
