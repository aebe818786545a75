//! The fields of an atomic instruction's word (RISC-V Unprivileged ISA, chapter "A").

ghost use Rattle.std.specs.Prelude.{◌≡◌};
ghost use Rattle.rv32_atomics.specs.Reading.{fields_at};
ghost use Rattle.rv32_atomics.specs.Table.{fields_of};

use crate::atomic::Atomic;

/// LR.
pub const LR: u32 = 0b00010;
/// SC.
pub const SC: u32 = 0b00011;

pub const AMOSWAP: u32 = 0b00001;

pub const AMOADD: u32 = 0b00000;

pub const AMOXOR: u32 = 0b00100;

pub const AMOAND: u32 = 0b01100;

pub const AMOOR: u32 = 0b01000;

pub const AMOMIN: u32 = 0b10000;

pub const AMOMAX: u32 = 0b10100;

pub const AMOMINU: u32 = 0b11000;

pub const AMOMAXU: u32 = 0b11100;

/// The fields besides the opcode and funct3. LR has 0 in place of rs2.
#[derive(Clone, Copy, Debug, PartialEq, Eq)]
pub struct Fields {
    pub funct5: u32,
    pub aq: bool,
    pub rl: bool,
    pub rs2: u8,
    pub rs1: u8,
    pub rd: u8,
}

/// What stands in the fields of a word.
pub fn fields_at(word: u32) -> Fields
    ensures { result ≡ fields_at word }
{
    Fields {
        funct5: word >> 27,
        aq: (word >> 26) & 1 == 1,
        rl: (word >> 25) & 1 == 1,
        rs2: ((word >> 20) & 0x1f) as u8,
        rs1: ((word >> 15) & 0x1f) as u8,
        rd: ((word >> 7) & 0x1f) as u8,
    }
}

/// The fields of an instruction.
pub fn fields_of(atomic: Atomic) -> Fields
    ensures { result ≡ fields_of atomic }
{
    match atomic {
        Atomic::Lr { rd, rs1, aq, rl } => Fields {
            funct5: LR,
            aq,
            rl,
            rs2: 0,
            rs1,
            rd,
        },
        Atomic::Sc {
            rd,
            rs1,
            rs2,
            aq,
            rl,
        } => Fields {
            funct5: SC,
            aq,
            rl,
            rs2,
            rs1,
            rd,
        },
        Atomic::AmoSwap {
            rd,
            rs1,
            rs2,
            aq,
            rl,
        } => Fields {
            funct5: AMOSWAP,
            aq,
            rl,
            rs2,
            rs1,
            rd,
        },
        Atomic::AmoAdd {
            rd,
            rs1,
            rs2,
            aq,
            rl,
        } => Fields {
            funct5: AMOADD,
            aq,
            rl,
            rs2,
            rs1,
            rd,
        },
        Atomic::AmoXor {
            rd,
            rs1,
            rs2,
            aq,
            rl,
        } => Fields {
            funct5: AMOXOR,
            aq,
            rl,
            rs2,
            rs1,
            rd,
        },
        Atomic::AmoAnd {
            rd,
            rs1,
            rs2,
            aq,
            rl,
        } => Fields {
            funct5: AMOAND,
            aq,
            rl,
            rs2,
            rs1,
            rd,
        },
        Atomic::AmoOr {
            rd,
            rs1,
            rs2,
            aq,
            rl,
        } => Fields {
            funct5: AMOOR,
            aq,
            rl,
            rs2,
            rs1,
            rd,
        },
        Atomic::AmoMin {
            rd,
            rs1,
            rs2,
            aq,
            rl,
        } => Fields {
            funct5: AMOMIN,
            aq,
            rl,
            rs2,
            rs1,
            rd,
        },
        Atomic::AmoMax {
            rd,
            rs1,
            rs2,
            aq,
            rl,
        } => Fields {
            funct5: AMOMAX,
            aq,
            rl,
            rs2,
            rs1,
            rd,
        },
        Atomic::AmoMinu {
            rd,
            rs1,
            rs2,
            aq,
            rl,
        } => Fields {
            funct5: AMOMINU,
            aq,
            rl,
            rs2,
            rs1,
            rd,
        },
        Atomic::AmoMaxu {
            rd,
            rs1,
            rs2,
            aq,
            rl,
        } => Fields {
            funct5: AMOMAXU,
            aq,
            rl,
            rs2,
            rs1,
            rd,
        },
    }
}
