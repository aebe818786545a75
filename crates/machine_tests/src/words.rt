//! Words from outside the program. The tables with an assembler's text hold what the GNU assembler
//! 2.40 made of that text with `-march=rv32im_zifencei`; its disassembler reads each word back as the
//! same instruction, but for the fences of other fields, which it was given field by field.

use crate::expecting::expect_eq;
use rv32_words::{Insn, decode, encode};
use std::process::Abort;

/// Rows of a table: a word and its instruction.
macro_rules! rows {
    ($($word:literal => $insn:expr,)*) => {
        [$(($word, $insn)),*]
    };
}

const REGISTERS: [(u32, Insn); 19] = rows! {
    0x01f0_0fb3 => Insn::Add { rd: 31, rs1: 0, rs2: 31 }, // add x31,x0,x31
    0x401f_8033 => Insn::Sub { rd: 0, rs1: 31, rs2: 1 }, // sub x0,x31,x1
    0x000f_90b3 => Insn::Sll { rd: 1, rs1: 31, rs2: 0 }, // sll x1,x31,x0
    0x01ff_afb3 => Insn::Slt { rd: 31, rs1: 31, rs2: 31 }, // slt x31,x31,x31
    0x0044_3833 => Insn::Sltu { rd: 16, rs1: 8, rs2: 4 }, // sltu x16,x8,x4
    0x01f0_4fb3 => Insn::Xor { rd: 31, rs1: 0, rs2: 31 }, // xor x31,x0,x31
    0x001f_d033 => Insn::Srl { rd: 0, rs1: 31, rs2: 1 }, // srl x0,x31,x1
    0x400f_d0b3 => Insn::Sra { rd: 1, rs1: 31, rs2: 0 }, // sra x1,x31,x0
    0x01ff_efb3 => Insn::Or { rd: 31, rs1: 31, rs2: 31 }, // or x31,x31,x31
    0x0044_7833 => Insn::And { rd: 16, rs1: 8, rs2: 4 }, // and x16,x8,x4
    0x03f0_0fb3 => Insn::Mul { rd: 31, rs1: 0, rs2: 31 }, // mul x31,x0,x31
    0x021f_9033 => Insn::Mulh { rd: 0, rs1: 31, rs2: 1 }, // mulh x0,x31,x1
    0x020f_a0b3 => Insn::Mulhsu { rd: 1, rs1: 31, rs2: 0 }, // mulhsu x1,x31,x0
    0x03ff_bfb3 => Insn::Mulhu { rd: 31, rs1: 31, rs2: 31 }, // mulhu x31,x31,x31
    0x0244_4833 => Insn::Div { rd: 16, rs1: 8, rs2: 4 }, // div x16,x8,x4
    0x03f0_5fb3 => Insn::Divu { rd: 31, rs1: 0, rs2: 31 }, // divu x31,x0,x31
    0x021f_e033 => Insn::Rem { rd: 0, rs1: 31, rs2: 1 }, // rem x0,x31,x1
    0x020f_f0b3 => Insn::Remu { rd: 1, rs1: 31, rs2: 0 }, // remu x1,x31,x0
    0x0031_00b3 => Insn::Add { rd: 1, rs1: 2, rs2: 3 }, // add x1,x2,x3
};

const IMMEDIATES: [(u32, Insn); 18] = rows! {
    0x8000_0f93 => Insn::Addi { rd: 31, rs1: 0, imm: -2048 }, // addi x31,x0,-2048
    0x7fff_a013 => Insn::Slti { rd: 0, rs1: 31, imm: 2047 }, // slti x0,x31,2047
    0xffff_b093 => Insn::Sltiu { rd: 1, rs1: 31, imm: -1 }, // sltiu x1,x31,-1
    0x000f_cf93 => Insn::Xori { rd: 31, rs1: 31, imm: 0 }, // xori x31,x31,0
    0x0014_6813 => Insn::Ori { rd: 16, rs1: 8, imm: 1 }, // ori x16,x8,1
    0x8000_7f93 => Insn::Andi { rd: 31, rs1: 0, imm: -2048 }, // andi x31,x0,-2048
    0x0000_0013 => Insn::Addi { rd: 0, rs1: 0, imm: 0 }, // addi x0,x0,0
    0x01f0_9f93 => Insn::Slli { rd: 31, rs1: 1, shamt: 31 }, // slli x31,x1,31
    0x000f_9093 => Insn::Slli { rd: 1, rs1: 31, shamt: 0 }, // slli x1,x31,0
    0x01ff_d013 => Insn::Srli { rd: 0, rs1: 31, shamt: 31 }, // srli x0,x31,31
    0x0010_5f93 => Insn::Srli { rd: 31, rs1: 0, shamt: 1 }, // srli x31,x0,1
    0x41ff_df93 => Insn::Srai { rd: 31, rs1: 31, shamt: 31 }, // srai x31,x31,31
    0x4001_5093 => Insn::Srai { rd: 1, rs1: 2, shamt: 0 }, // srai x1,x2,0
    0xffff_ffb7 => Insn::Lui { rd: 31, imm: 0xfffff000 }, // lui x31,0xfffff
    0x0000_0037 => Insn::Lui { rd: 0, imm: 0 }, // lui x0,0x0
    0x8000_00b7 => Insn::Lui { rd: 1, imm: 0x80000000 }, // lui x1,0x80000
    0x1234_5097 => Insn::Auipc { rd: 1, imm: 0x12345000 }, // auipc x1,0x12345
    0x0000_1f97 => Insn::Auipc { rd: 31, imm: 0x00001000 }, // auipc x31,0x1
};

const LOADS_AND_STORES: [(u32, Insn); 11] = rows! {
    0x7fff_8003 => Insn::Lb { rd: 0, rs1: 31, imm: 2047 }, // lb x0,2047(x31)
    0xffff_9083 => Insn::Lh { rd: 1, rs1: 31, imm: -1 }, // lh x1,-1(x31)
    0x000f_af83 => Insn::Lw { rd: 31, rs1: 31, imm: 0 }, // lw x31,0(x31)
    0x0014_4803 => Insn::Lbu { rd: 16, rs1: 8, imm: 1 }, // lbu x16,1(x8)
    0x8000_5f83 => Insn::Lhu { rd: 31, rs1: 0, imm: -2048 }, // lhu x31,-2048(x0)
    0x800f_8023 => Insn::Sb { rs1: 31, rs2: 0, imm: -2048 }, // sb x0,-2048(x31)
    0x7ff0_0fa3 => Insn::Sb { rs1: 0, rs2: 31, imm: 2047 }, // sb x31,2047(x0)
    0xfff0_9fa3 => Insn::Sh { rs1: 1, rs2: 31, imm: -1 }, // sh x31,-1(x1)
    0x001f_9fa3 => Insn::Sh { rs1: 31, rs2: 1, imm: 31 }, // sh x1,31(x31)
    0x0281_2023 => Insn::Sw { rs1: 2, rs2: 8, imm: 32 }, // sw x8,32(x2)
    0xfe24_2023 => Insn::Sw { rs1: 8, rs2: 2, imm: -32 }, // sw x2,-32(x8)
};

const JUMPS_AND_BRANCHES: [(u32, Insn); 15] = rows! {
    0x800f_80e7 => Insn::Jalr { rd: 1, rs1: 31, imm: -2048 }, // jalr x1,-2048(x31)
    0x0000_8067 => Insn::Jalr { rd: 0, rs1: 1, imm: 0 }, // jalr x0,0(x1)
    0x7ff0_0fe7 => Insn::Jalr { rd: 31, rs1: 0, imm: 2047 }, // jalr x31,2047(x0)
    0x81f0_0063 => Insn::Beq { rs1: 0, rs2: 31, imm: -4096 }, // beq x0,x31,.-4096
    0x7e0f_9fe3 => Insn::Bne { rs1: 31, rs2: 0, imm: 4094 }, // bne x31,x0,.+4094
    0x0020_c0e3 => Insn::Blt { rs1: 1, rs2: 2, imm: 2048 }, // blt x1,x2,.+2048
    0xffff_dfe3 => Insn::Bge { rs1: 31, rs2: 31, imm: -2 }, // bge x31,x31,.-2
    0x8088_60e3 => Insn::Bltu { rs1: 16, rs2: 8, imm: -2048 }, // bltu x16,x8,.-2048
    0x0104_7863 => Insn::Bgeu { rs1: 8, rs2: 16, imm: 16 }, // bgeu x8,x16,.+16
    0x8000_0fef => Insn::Jal { rd: 31, imm: -1048576 }, // jal x31,.-1048576
    0x7fff_f06f => Insn::Jal { rd: 0, imm: 1048574 }, // jal x0,.+1048574
    0x0010_00ef => Insn::Jal { rd: 1, imm: 2048 }, // jal x1,.+2048
    0xffff_f0ef => Insn::Jal { rd: 1, imm: -2 }, // jal x1,.-2
    0x0000_12ef => Insn::Jal { rd: 5, imm: 4096 }, // jal x5,.+4096
    0x0000_006f => Insn::Jal { rd: 0, imm: 0 }, // jal x0,.+0
};

const FENCES_AND_CALLS: [(u32, Insn); 8] = rows! {
    0x0ff0_000f => Insn::Fence { rd: 0, rs1: 0, imm: 255 }, // fence iorw,iorw
    0x0310_000f => Insn::Fence { rd: 0, rs1: 0, imm: 49 }, // fence rw,w
    0x8330_000f => Insn::Fence { rd: 0, rs1: 0, imm: -1997 }, // fence.tso
    0x8000_8f8f => Insn::Fence { rd: 31, rs1: 1, imm: -2048 }, // .insn i MISC_MEM, 0, x31, x1, -2048
    0x0000_100f => Insn::FenceI { rd: 0, rs1: 0, imm: 0 }, // fence.i
    0x7fff_908f => Insn::FenceI { rd: 1, rs1: 31, imm: 2047 }, // .insn i MISC_MEM, 1, x1, x31, 2047
    0x0000_0073 => Insn::Ecall, // ecall
    0x0010_0073 => Insn::Ebreak, // ebreak
};

/// The code of the first program that the kernel runs: it maps the console and stores one byte.
const FIRST_PROGRAM: [(u32, Insn); 9] = rows! {
    0x0020_0513 => Insn::Addi { rd: 10, rs1: 0, imm: 2 },
    0xf000_05b7 => Insn::Lui { rd: 11, imm: 0xf000_0000 },
    0x0000_0613 => Insn::Addi { rd: 12, rs1: 0, imm: 0 },
    0x0000_16b7 => Insn::Lui { rd: 13, imm: 0x1000 },
    0x0060_0713 => Insn::Addi { rd: 14, rs1: 0, imm: 6 },
    0x0000_0073 => Insn::Ecall,
    0x0680_0793 => Insn::Addi { rd: 15, rs1: 0, imm: 0x68 },
    0x00f5_8023 => Insn::Sb { rs1: 11, rs2: 15, imm: 0 },
    0x0000_006f => Insn::Jal { rd: 0, imm: 0 },
};

const TABLES: [&[(u32, Insn)]; 6] = [
    &REGISTERS,
    &IMMEDIATES,
    &LOADS_AND_STORES,
    &JUMPS_AND_BRANCHES,
    &FENCES_AND_CALLS,
    &FIRST_PROGRAM,
];

/// Each word decodes to its instruction, and that encodes to the word.
fn both_ways(rt: &impl Abort, rows: &[(u32, Insn)]) {
    for (word, insn) in rows {
        let found = decode(*word);
        expect_eq(rt, (*word, found), (*word, Some(*insn)));
        if let Some(i) = found {
            expect_eq(rt, encode(i), *word);
        }
    }
}

#[test]
fn words_and_instructions(rt: HostRuntime) {
    for rows in TABLES {
        both_ways(&rt, rows);
    }
}

const OUTSIDE_THE_TABLE: [u32; 26] = [
    0x0000_0000, // all bits 0
    0xffff_ffff, // all bits 1
    0x0000_0001, // C.NOP, compressed
    0x0000_3003, // LD, of RV64
    0x0000_6003, // LWU, of RV64
    0x0000_3023, // SD, of RV64
    0x0000_2063, // BRANCH with funct3 010
    0x0000_3063, // BRANCH with funct3 011
    0x0000_1067, // JALR with funct3 001
    0x0200_1013, // SLLI with a shift amount of 32
    0x0200_d013, // SRLI with a shift amount of 32
    0x4200_d013, // SRAI with a shift amount of 32
    0x4000_1013, // SLLI with the funct7 of SRAI
    0x4000_1033, // SLL with funct7 0100000
    0x4000_4033, // XOR with funct7 0100000
    0x0400_0033, // OP with funct7 0000010
    0x0000_003b, // ADDW, of RV64
    0x0000_200f, // MISC-MEM with funct3 010
    0x0000_00f3, // ECALL with rd 1
    0x0000_8073, // ECALL with rs1 1
    0x0010_00f3, // EBREAK with rd 1
    0x0020_0073, // SYSTEM with funct12 2
    0x3000_1073, // CSRRW
    0x1050_0073, // WFI
    0x0000_202f, // AMOADD.W
    0x0000_2007, // FLW
];

#[test]
fn words_outside_the_table(rt: HostRuntime) {
    for word in OUTSIDE_THE_TABLE {
        expect_eq(&rt, (word, decode(word)), (word, None));
    }
}
