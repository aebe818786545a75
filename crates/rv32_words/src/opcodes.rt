//! The codes that stand in a word's opcode and funct7 (RISC-V Unprivileged ISA, chapter "RV32/64G
//! Instruction Set Listings").

pub const LOAD: u32 = 0b000_0011;

pub const MISC_MEM: u32 = 0b000_1111;

pub const OP_IMM: u32 = 0b001_0011;

pub const AUIPC: u32 = 0b001_0111;

pub const STORE: u32 = 0b010_0011;

pub const OP: u32 = 0b011_0011;

pub const LUI: u32 = 0b011_0111;

pub const BRANCH: u32 = 0b110_0011;

pub const JALR: u32 = 0b110_0111;

pub const JAL: u32 = 0b110_1111;

pub const SYSTEM: u32 = 0b111_0011;

/// The funct7 of most instructions.
pub const BASE: u32 = 0b000_0000;
/// The funct7 of SUB, SRA and SRAI.
pub const ALTERNATE: u32 = 0b010_0000;
/// The funct7 of the M extension.
pub const MULDIV: u32 = 0b000_0001;

/// The word of ECALL.
pub const ECALL: u32 = 0x0000_0073;
/// The word of EBREAK.
pub const EBREAK: u32 = 0x0010_0073;
