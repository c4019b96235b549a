//! Words from a listing of GNU `as` 2.40, and what a few of them do.

use rv_table::{
    Cond, Effect, ImmOp, Instr, LoadWidth, Reg, RegOp, Regs, StoreWidth, decode, effect, encode,
    is_valid, loaded,
};
use std::alloc::{AllocError, Global};
use std::test::Fail;

/// Words of `riscv64-linux-gnu-as -march=rv32i -mabi=ilp32` with the lines that it read: each instruction, and each
/// form of immediate at its least and its greatest. The three words of FENCE differ in the fields that are ignored,
/// and have one line here; the last two are `fence r,w` and `fence.tso`.
static LISTING: [(u32, &str); 93] = [
    (0x0000_00b7, "lui x1,0x0"),
    (0xffff_ffb7, "lui x31,0xfffff"),
    (0x1234_52b7, "lui x5,0x12345"),
    (0x8000_0117, "auipc x2,0x80000"),
    (0x7fff_ff17, "auipc x30,0x7ffff"),
    (0x7fff_f0ef, "jal x1,.+1048574"),
    (0x8000_006f, "jal x0,.-1048576"),
    (0x0010_0fef, "jal x31,.+2048"),
    (0xffff_f2ef, "jal x5,.-2"),
    (0x2aba_a0ef, "jal x1,.+699050"),
    (0x5545_50ef, "jal x1,.+349524"),
    (0x8001_00e7, "jalr x1,-2048(x2)"),
    (0x7fff_8067, "jalr x0,2047(x31)"),
    (0x0000_82e7, "jalr x5,0(x1)"),
    (0x7e20_8fe3, "beq x1,x2,.+4094"),
    (0x800f_8063, "beq x31,x0,.-4096"),
    (0x0041_90e3, "bne x3,x4,.+2048"),
    (0xfff0_1fe3, "bne x0,x31,.-2"),
    (0x2b55_05e3, "beq x10,x21,.+2730"),
    (0x54aa_9a63, "bne x21,x10,.+1364"),
    (0x8062_c063, "blt x5,x6,.-4096"),
    (0x7e83_cfe3, "blt x7,x8,.+4094"),
    (0x00a4_df63, "bge x9,x10,.+30"),
    (0xfec5_df63, "bge x11,x12,.-2050"),
    (0x7ee6_efe3, "bltu x13,x14,.+4094"),
    (0xff07_e0e3, "bltu x15,x16,.-32"),
    (0x8128_f063, "bgeu x17,x18,.-4096"),
    (0x0149_f163, "bgeu x19,x20,.+2"),
    (0x800b_0a83, "lb x21,-2048(x22)"),
    (0x7ffc_0b83, "lb x23,2047(x24)"),
    (0x800d_1c83, "lh x25,-2048(x26)"),
    (0x7ffe_1d83, "lh x27,2047(x28)"),
    (0x800f_2e83, "lw x29,-2048(x30)"),
    (0x7ff0_af83, "lw x31,2047(x1)"),
    (0x8001_c103, "lbu x2,-2048(x3)"),
    (0x7ff2_c203, "lbu x4,2047(x5)"),
    (0x8003_d303, "lhu x6,-2048(x7)"),
    (0x7ff4_d403, "lhu x8,2047(x9)"),
    (0x80a5_8023, "sb x10,-2048(x11)"),
    (0x7ec6_8fa3, "sb x12,2047(x13)"),
    (0x80e7_9023, "sh x14,-2048(x15)"),
    (0x7f08_9fa3, "sh x16,2047(x17)"),
    (0x8129_a023, "sw x18,-2048(x19)"),
    (0x7f4a_afa3, "sw x20,2047(x21)"),
    (0x01ff_2fa3, "sw x31,31(x30)"),
    (0xfe11_2023, "sw x1,-32(x2)"),
    (0x800b_8b13, "addi x22,x23,-2048"),
    (0x7ffc_8c13, "addi x24,x25,2047"),
    (0x0000_0013, "addi x0,x0,0"),
    (0x800d_ad13, "slti x26,x27,-2048"),
    (0x7ffe_ae13, "slti x28,x29,2047"),
    (0xfff3_3293, "sltiu x5,x6,-1"),
    (0x800f_bf13, "sltiu x30,x31,-2048"),
    (0x7ff1_3093, "sltiu x1,x2,2047"),
    (0xfff2_4193, "xori x3,x4,-1"),
    (0x8003_4293, "xori x5,x6,-2048"),
    (0x7ff4_4393, "xori x7,x8,2047"),
    (0x8005_6493, "ori x9,x10,-2048"),
    (0x7ff6_6593, "ori x11,x12,2047"),
    (0x8007_7693, "andi x13,x14,-2048"),
    (0x7ff8_7793, "andi x15,x16,2047"),
    (0x0009_1893, "slli x17,x18,0"),
    (0x01fa_1993, "slli x19,x20,31"),
    (0x000b_5a93, "srli x21,x22,0"),
    (0x01fc_5b93, "srli x23,x24,31"),
    (0x400d_5c93, "srai x25,x26,0"),
    (0x41fe_5d93, "srai x27,x28,31"),
    (0x4033_5293, "srai x5,x6,3"),
    (0x0031_00b3, "add x1,x2,x3"),
    (0x01f0_0fb3, "add x31,x0,x31"),
    (0x4062_8233, "sub x4,x5,x6"),
    (0x400f_8033, "sub x0,x31,x0"),
    (0x0094_13b3, "sll x7,x8,x9"),
    (0x01ff_9fb3, "sll x31,x31,x31"),
    (0x00c5_a533, "slt x10,x11,x12"),
    (0x01f0_2fb3, "slt x31,x0,x31"),
    (0x00f7_36b3, "sltu x13,x14,x15"),
    (0x000f_b033, "sltu x0,x31,x0"),
    (0x0128_c833, "xor x16,x17,x18"),
    (0x01ff_cfb3, "xor x31,x31,x31"),
    (0x015a_59b3, "srl x19,x20,x21"),
    (0x01f0_5fb3, "srl x31,x0,x31"),
    (0x418b_db33, "sra x22,x23,x24"),
    (0x400f_d033, "sra x0,x31,x0"),
    (0x01bd_6cb3, "or x25,x26,x27"),
    (0x01ff_efb3, "or x31,x31,x31"),
    (0x01ee_fe33, "and x28,x29,x30"),
    (0x01f0_7fb3, "and x31,x0,x31"),
    (0x0000_0073, "ecall"),
    (0x0010_0073, "ebreak"),
    (0x0ff0_000f, "fence"),
    (0x0210_000f, "fence"),
    (0x8330_000f, "fence"),
];

/// Words outside the table: of other extensions, by the same assembler; all zeros and all ones; and words of the table
/// with one field changed.
static OUTSIDE: [(u32, &str); 56] = [
    (0x0003_3283, "ld x5,0(x6)"),
    (0x0003_6283, "lwu x5,0(x6)"),
    (0x0053_3023, "sd x5,0(x6)"),
    (0x0013_029b, "addiw x5,x6,1"),
    (0x0073_02bb, "addw x5,x6,x7"),
    (0x0203_1293, "slli x5,x6,32"),
    (0x43f3_5293, "srai x5,x6,63"),
    (0x0273_02b3, "mul x5,x6,x7"),
    (0x0273_32b3, "mulhu x5,x6,x7"),
    (0x0273_72b3, "remu x5,x6,x7"),
    (0x0000_100f, "fence.i"),
    (0x3003_12f3, "csrrw x5,mstatus,x6"),
    (0xc000_22f3, "csrrs x5,cycle,x0"),
    (0x3020_0073, "mret"),
    (0x1020_0073, "sret"),
    (0x1050_0073, "wfi"),
    (0x0063_a2af, "amoadd.w x5,x6,(x7)"),
    (0x1003_22af, "lr.w x5,(x6)"),
    (0x0003_2287, "flw f5,0(x6)"),
    (0x0053_2027, "fsw f5,0(x6)"),
    (0x0073_72d3, "fadd.s f5,f6,f7"),
    (0x4073_72b3, "andn x5,x6,x7"),
    (0x6073_12b3, "rol x5,x6,x7"),
    (0x2073_22b3, "sh1add x5,x6,x7"),
    (0x6003_1293, "clz x5,x6"),
    (0x0a73_42b3, "min x5,x6,x7"),
    (0x0000_0000, "all zeros"),
    (0xffff_ffff, "all ones"),
    (0x0000_00b6, "lui with a low bit of its opcode changed"),
    (0x0000_00b5, "lui with the other low bit changed"),
    (0x0000_1067, "jalr with funct3 1"),
    (0x0000_7067, "jalr with funct3 7"),
    (0x0000_2063, "a branch with funct3 2"),
    (0x0000_3063, "a branch with funct3 3"),
    (0x0000_7003, "a load with funct3 7"),
    (0x0000_4023, "a store with funct3 4"),
    (0x0000_7023, "a store with funct3 7"),
    (0x0200_1013, "slli with funct7 1"),
    (0x8000_1013, "slli with the top bit of funct7"),
    (0x4000_1013, "slli with the funct7 of srai"),
    (0x0200_5013, "srli with funct7 1"),
    (0x4200_5013, "srai with one more bit of funct7"),
    (0xc000_5013, "srai with the top bit of funct7"),
    (0x4000_1033, "sll with the funct7 of sub"),
    (0x4000_2033, "slt with the funct7 of sub"),
    (0x4000_3033, "sltu with the funct7 of sub"),
    (0x4000_4033, "xor with the funct7 of sub"),
    (0x4000_6033, "or with the funct7 of sub"),
    (0x4200_0033, "sub with one more bit of funct7"),
    (0x8000_0033, "add with the top bit of funct7"),
    (0x0000_200f, "fence with funct3 2"),
    (0x0000_00f3, "ecall with rd 1"),
    (0x0000_8073, "ecall with rs1 1"),
    (0x0020_0073, "ecall with immediate 2"),
    (0x0010_00f3, "ebreak with rd 1"),
    (0x0000_4073, "ecall with funct3 4"),
];

fn branch_name(cond: Cond) -> &'static str {
    match cond {
        Cond::Eq => "beq",
        Cond::Ne => "bne",
        Cond::Lt => "blt",
        Cond::Ge => "bge",
        Cond::Ltu => "bltu",
        Cond::Geu => "bgeu",
    }
}

fn load_name(width: LoadWidth) -> &'static str {
    match width {
        LoadWidth::B => "lb",
        LoadWidth::H => "lh",
        LoadWidth::W => "lw",
        LoadWidth::Bu => "lbu",
        LoadWidth::Hu => "lhu",
    }
}

fn store_name(width: StoreWidth) -> &'static str {
    match width {
        StoreWidth::B => "sb",
        StoreWidth::H => "sh",
        StoreWidth::W => "sw",
    }
}

fn imm_op_name(op: ImmOp) -> &'static str {
    match op {
        ImmOp::Add => "addi",
        ImmOp::Slt => "slti",
        ImmOp::Sltu => "sltiu",
        ImmOp::Xor => "xori",
        ImmOp::Or => "ori",
        ImmOp::And => "andi",
        ImmOp::Sll => "slli",
        ImmOp::Srl => "srli",
        ImmOp::Sra => "srai",
    }
}

fn reg_op_name(op: RegOp) -> &'static str {
    match op {
        RegOp::Add => "add",
        RegOp::Sub => "sub",
        RegOp::Sll => "sll",
        RegOp::Slt => "slt",
        RegOp::Sltu => "sltu",
        RegOp::Xor => "xor",
        RegOp::Srl => "srl",
        RegOp::Sra => "sra",
        RegOp::Or => "or",
        RegOp::And => "and",
    }
}

/// An offset with its sign, as it follows the dot, which is the current address.
fn offset_text(alloc: Global, imm: i32) -> Result<String, AllocError> {
    if imm < 0 {
        format!(in alloc; ".{imm}")
    } else {
        format!(in alloc; ".+{imm}")
    }
}

fn upper_line(alloc: Global, name: &str, rd: Reg, imm: u32) -> Result<String, AllocError> {
    format!(in alloc; "{name} x{},0x{:x}", rd.number(), imm >> 12)
}

fn jump_line(alloc: Global, rd: Reg, imm: i32) -> Result<String, AllocError> {
    let offset = offset_text(alloc, imm)?;
    format!(in alloc; "jal x{},{}", rd.number(), offset.as_str())
}

fn branch_line(
    alloc: Global,
    name: &str,
    first: Reg,
    second: Reg,
    imm: i32,
) -> Result<String, AllocError> {
    let offset = offset_text(alloc, imm)?;
    format!(in alloc;
        "{name} x{},x{},{}",
        first.number(),
        second.number(),
        offset.as_str()
    )
}

/// The line of an instruction that adds an immediate to a base.
fn based_line(
    alloc: Global,
    name: &str,
    reg: Reg,
    imm: i32,
    base: Reg,
) -> Result<String, AllocError> {
    format!(in alloc; "{name} x{},{imm}(x{})", reg.number(), base.number())
}

fn immediate_line(
    alloc: Global,
    name: &str,
    rd: Reg,
    first: Reg,
    imm: i32,
) -> Result<String, AllocError> {
    format!(in alloc; "{name} x{},x{},{imm}", rd.number(), first.number())
}

fn register_line(
    alloc: Global,
    name: &str,
    rd: Reg,
    first: Reg,
    second: Reg,
) -> Result<String, AllocError> {
    format!(in alloc;
        "{name} x{},x{},x{}",
        rd.number(),
        first.number(),
        second.number()
    )
}

/// The line that an assembler reads for an instruction.
fn line_of(alloc: Global, instr: &Instr) -> Result<String, AllocError> {
    match *instr {
        Instr::Lui { rd, imm } => upper_line(alloc, "lui", rd, imm),
        Instr::Auipc { rd, imm } => upper_line(alloc, "auipc", rd, imm),
        Instr::Jal { rd, imm } => jump_line(alloc, rd, imm),
        Instr::Jalr { rd, rs1, imm } => based_line(alloc, "jalr", rd, imm, rs1),
        Instr::Branch {
            cond,
            rs1,
            rs2,
            imm,
        } => branch_line(alloc, branch_name(cond), rs1, rs2, imm),
        Instr::Load {
            width,
            rd,
            rs1,
            imm,
        } => based_line(alloc, load_name(width), rd, imm, rs1),
        Instr::Store {
            width,
            rs1,
            rs2,
            imm,
        } => based_line(alloc, store_name(width), rs2, imm, rs1),
        Instr::OpImm { op, rd, rs1, imm } => immediate_line(alloc, imm_op_name(op), rd, rs1, imm),
        Instr::Op { op, rd, rs1, rs2 } => register_line(alloc, reg_op_name(op), rd, rs1, rs2),
        Instr::Fence => String::from_str(alloc, "fence"),
        Instr::Ecall => String::from_str(alloc, "ecall"),
        Instr::Ebreak => String::from_str(alloc, "ebreak"),
    }
}

#[test]
fn words_stand_for_the_lines_of_the_assembler(rt: HostRuntime) -> Result<(), Fail> {
    for (word, line) in &LISTING {
        let instr = decode(*word).ok_or("a word of the table")?;
        let text = line_of(rt.alloc(), &instr)?;
        assert_eq!(rt; text.as_str(), *line);
    }
    Ok(())
}

/// Whether a word is FENCE, whose fields are ignored.
fn is_fence(word: u32) -> bool {
    word & 0x7f == 0x0f
}

#[test]
fn instructions_are_encoded_as_by_the_assembler(rt: HostRuntime) -> Result<(), Fail> {
    for (word, line) in &LISTING {
        let instr = decode(*word).ok_or("a word of the table")?;
        assert!(rt; is_valid(&instr), "{line}");
        assert!(rt; is_fence(*word) || encode(&instr) == *word, "{line}");
    }
    Ok(())
}

#[test]
fn words_outside_the_table_stand_for_nothing(rt: HostRuntime) {
    for (word, what) in &OUTSIDE {
        assert!(rt; decode(*word).is_none(), "{what}");
    }
}

/// A word at a pc with values of x5 and x6, and the pc, the register and its value that come.
static GOING_ON: [(u32, u32, u32, u32, u32, u8, u32); 6] = [
    // sltiu x5,x6,-1
    (0xfff3_3293, 0x0001_0000, 0, 5, 0x0001_0004, 5, 1),
    (0xfff3_3293, 0x0001_0000, 0, 0xffff_ffff, 0x0001_0004, 5, 0),
    (0xfff3_3293, 0x0001_0000, 0, 4096, 0x0001_0004, 5, 1),
    // jalr x1,1(x5)
    (
        0x0012_80e7,
        0x0001_0008,
        0x0001_0010,
        0,
        0x0001_0010,
        1,
        0x0001_000c,
    ),
    // bne x0,x0,.+6
    (0x0000_1363, 0x0001_0000, 0, 0, 0x0001_0004, 0, 0),
    // srai x5,x6,3
    (
        0x4033_5293,
        0x0001_0000,
        0,
        0x8000_0000,
        0x0001_0004,
        5,
        0xf000_0000,
    ),
];

/// A word at a pc with a value of x5, whose target is misaligned.
static MISALIGNED: [(u32, u32, u32); 2] = [
    // jalr x1,2(x5)
    (0x0022_80e7, 0x0001_0008, 0x0001_0010),
    // beq x0,x0,.+6
    (0x0000_0363, 0x0001_0000, 0),
];

/// Registers with these values in x5 and x6.
fn registers(first: u32, second: u32) -> Option<Regs> {
    let mut regs = Regs::zero();
    regs.set(Reg::new(5)?, first);
    regs.set(Reg::new(6)?, second);
    Some(regs)
}

fn effect_of(word: u32, pc: u32, first: u32, second: u32) -> Option<Effect> {
    let regs = registers(first, second)?;
    let instr = decode(word)?;
    Some(effect(pc, &regs, &instr))
}

fn goes_on(found: &Effect, next: u32, number: u8, word: u32) -> bool {
    match *found {
        Effect::Plain { pc, rd, value } => pc == next && rd.number() == number && value == word,
        _ => false,
    }
}

#[test]
fn instructions_act_as_the_manual_says(rt: HostRuntime) -> Result<(), Fail> {
    for (word, pc, first, second, next, number, value) in &GOING_ON {
        let found = effect_of(*word, *pc, *first, *second).ok_or("a word of the table")?;
        assert!(rt; goes_on(&found, *next, *number, *value), "{word}");
    }
    Ok(())
}

#[test]
fn misaligned_targets_are_told(rt: HostRuntime) -> Result<(), Fail> {
    for (word, pc, first) in &MISALIGNED {
        let found = effect_of(*word, *pc, *first, 0).ok_or("a word of the table")?;
        assert!(rt; matches!(found, Effect::Misaligned), "{word}");
    }
    Ok(())
}

static LOADED: [(LoadWidth, u32, u32); 7] = [
    (LoadWidth::B, 0x1234_567f, 0x0000_007f),
    (LoadWidth::B, 0x1234_5680, 0xffff_ff80),
    (LoadWidth::H, 0x1234_7fff, 0x0000_7fff),
    (LoadWidth::H, 0x1234_8000, 0xffff_8000),
    (LoadWidth::W, 0x8765_4321, 0x8765_4321),
    (LoadWidth::Bu, 0xffff_ff80, 0x0000_0080),
    (LoadWidth::Hu, 0xffff_8000, 0x0000_8000),
];

#[test]
fn loads_extend_the_bytes_that_they_read(rt: HostRuntime) {
    for (width, raw, value) in &LOADED {
        assert_eq!(rt; loaded(*width, *raw), *value);
    }
}

#[test]
fn register_0_stays_0(rt: HostRuntime) -> Result<(), Fail> {
    let mut regs = Regs::zero();
    let zero = Reg::new(0).ok_or("x0")?;
    regs.set(zero, 7);
    assert_eq!(rt; regs.get(zero), 0);
    assert!(rt; Reg::new(32).is_none());
    Ok(())
}
