//! The instructions and what they do, as data.

use crate::reg::Reg;

/// When a branch is taken: a comparison of the registers `rs1` and `rs2`.
#[derive(Clone, Copy, Debug, PartialEq, Eq)]
pub enum Cond {
    /// They are equal.
    Eq,
    /// They differ.
    Ne,
    /// `rs1` is less, both read as signed.
    Lt,
    /// `rs1` is not less, both read as signed.
    Ge,
    /// `rs1` is less, both read as unsigned.
    Ltu,
    /// `rs1` is not less, both read as unsigned.
    Geu,
}

/// How many bytes a load reads, and how it extends them to a word.
#[derive(Clone, Copy, Debug, PartialEq, Eq)]
pub enum LoadWidth {
    /// One byte, sign-extended.
    B,
    /// Two bytes, sign-extended.
    H,
    /// Four bytes.
    W,
    /// One byte, zero-extended.
    Bu,
    /// Two bytes, zero-extended.
    Hu,
}

/// How many low bytes of a register a store writes.
#[derive(Clone, Copy, Debug, PartialEq, Eq)]
pub enum StoreWidth {
    /// One byte.
    B,
    /// Two bytes.
    H,
    /// Four bytes.
    W,
}

/// An operation on a register and an immediate. Each computes what the `RegOp` of its name does with the immediate
/// as a word.
#[derive(Clone, Copy, Debug, PartialEq, Eq)]
pub enum ImmOp {
    /// ADDI
    Add,
    /// SLTI
    Slt,
    /// SLTIU: an unsigned comparison with the sign-extended immediate.
    Sltu,
    /// XORI
    Xor,
    /// ORI
    Or,
    /// ANDI
    And,
    /// SLLI
    Sll,
    /// SRLI
    Srl,
    /// SRAI
    Sra,
}

/// An operation on two registers. Sums and differences wrap, and a shift uses the low 5 bits of `rs2`.
#[derive(Clone, Copy, Debug, PartialEq, Eq)]
pub enum RegOp {
    /// The sum.
    Add,
    /// The difference.
    Sub,
    /// A shift to the left.
    Sll,
    /// 1 where `rs1` is less, both read as signed, else 0.
    Slt,
    /// 1 where `rs1` is less, both read as unsigned, else 0.
    Sltu,
    /// The bitwise exclusive or.
    Xor,
    /// A shift to the right that fills in zeros.
    Srl,
    /// A shift to the right that fills in copies of the sign.
    Sra,
    /// The bitwise or.
    Or,
    /// The bitwise and.
    And,
}

/// An instruction of RV32I 2.1 with its fields. Immediates are as the program means them: sign-extended, offsets in
/// bytes.
#[derive(Clone, Copy, Debug, PartialEq, Eq)]
pub enum Instr {
    /// LUI. `imm` is a multiple of 4,096.
    Lui {
        /// The register that is written.
        rd: Reg,
        /// The word that is written.
        imm: u32,
    },
    /// AUIPC. `imm` is a multiple of 4,096.
    Auipc {
        /// The register that is written.
        rd: Reg,
        /// What is added to the pc.
        imm: u32,
    },
    /// JAL. `imm` is even, -1,048,576 to 1,048,574.
    Jal {
        /// The register that is written with the address behind the jump.
        rd: Reg,
        /// The offset of the target from the pc, in bytes.
        imm: i32,
    },
    /// JALR. `imm` is -2,048 to 2,047.
    Jalr {
        /// The register that is written with the address behind the jump.
        rd: Reg,
        /// The register with the base of the target.
        rs1: Reg,
        /// The offset of the target from the base, in bytes.
        imm: i32,
    },
    /// BEQ, BNE, BLT, BGE, BLTU, BGEU. `imm` is even, -4,096 to 4,094.
    Branch {
        /// When it is taken.
        cond: Cond,
        /// The first register that is compared.
        rs1: Reg,
        /// The second register that is compared.
        rs2: Reg,
        /// The offset of the target from the pc, in bytes.
        imm: i32,
    },
    /// LB, LH, LW, LBU, LHU. `imm` is -2,048 to 2,047.
    Load {
        /// How many bytes it reads, and how they become a word.
        width: LoadWidth,
        /// The register that is written.
        rd: Reg,
        /// The register with the base of the address.
        rs1: Reg,
        /// The offset of the address from the base, in bytes.
        imm: i32,
    },
    /// SB, SH, SW. `imm` is -2,048 to 2,047.
    Store {
        /// How many bytes it writes.
        width: StoreWidth,
        /// The register with the base of the address.
        rs1: Reg,
        /// The register whose low bytes are written.
        rs2: Reg,
        /// The offset of the address from the base, in bytes.
        imm: i32,
    },
    /// An operation with an immediate. `imm` is 0 to 31 for a shift, else -2,048 to 2,047.
    OpImm {
        /// The operation.
        op: ImmOp,
        /// The register that is written.
        rd: Reg,
        /// The register that is read.
        rs1: Reg,
        /// The second operand.
        imm: i32,
    },
    /// An operation on two registers.
    Op {
        /// The operation.
        op: RegOp,
        /// The register that is written.
        rd: Reg,
        /// The first register that is read.
        rs1: Reg,
        /// The second register that is read.
        rs2: Reg,
    },
    /// FENCE, whatever its other fields say.
    Fence,
    /// ECALL
    Ecall,
    /// EBREAK
    Ebreak,
}

/// What an instruction does, as far as the pc and the registers alone determine it.
#[derive(Clone, Copy, Debug, PartialEq, Eq)]
pub enum Effect {
    /// It goes to `pc` and writes `value` to `rd`; `rd` and `value` are 0 where it writes no register.
    Plain {
        /// The address of the next instruction.
        pc: u32,
        /// The register that is written, or 0.
        rd: Reg,
        /// The word that is written, or 0.
        value: u32,
    },
    /// It loads from `addr` into `rd`.
    Load {
        /// How many bytes it reads, and how they become a word.
        width: LoadWidth,
        /// The register that is written.
        rd: Reg,
        /// The address from which it reads.
        addr: u32,
    },
    /// It stores the low bytes of `value` at `addr`.
    Store {
        /// How many bytes it writes.
        width: StoreWidth,
        /// The address to which it writes.
        addr: u32,
        /// The word whose low bytes are written.
        value: u32,
    },
    /// It calls the environment.
    Call,
    /// It is a breakpoint.
    Break,
    /// It is a jump or a taken branch to a target that isn't a multiple of 4, and writes no register.
    Misaligned,
}
