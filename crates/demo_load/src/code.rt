//! The two programs of the load.

ghost use Rattle.std.specs.Prelude.{◌≡◌, ◌++◌, All, OnOk};
ghost use Rattle.rv32_words.specs.Table.{IsInRange};
ghost use Rattle.demo_load.specs.Code.{client_code, code_bytes, server_code};

use rv32_words::{Insn, encode};
use xk_base::limits::PAGE_SIZE;
use xk_base::{NoMemory, Row};

const ZERO: u8 = 0;

const T0: u8 = 5;

const S0: u8 = 8;

const S1: u8 = 9;

const A0: u8 = 10;

const A1: u8 = 11;

const A2: u8 = 12;

const A3: u8 = 13;

const A4: u8 = 14;

const A5: u8 = 15;

const A6: u8 = 16;

const A7: u8 = 17;

const S2: u8 = 18;

/// The server takes one message after another, and adds one to the first word of what it is lent.
const SERVER: [Insn; 22] = [
    // A server of the number 1, 2, 3, 4 is made.
    Insn::Addi {
        rd: A0,
        rs1: ZERO,
        imm: 14,
    },
    Insn::Addi {
        rd: A1,
        rs1: ZERO,
        imm: 1,
    },
    Insn::Addi {
        rd: A2,
        rs1: ZERO,
        imm: 2,
    },
    Insn::Addi {
        rd: A3,
        rs1: ZERO,
        imm: 3,
    },
    Insn::Addi {
        rd: A4,
        rs1: ZERO,
        imm: 4,
    },
    Insn::Ecall,
    // The loop: a message is taken.
    Insn::Addi {
        rd: A0,
        rs1: ZERO,
        imm: 15,
    },
    Insn::Addi {
        rd: A1,
        rs1: ZERO,
        imm: 1,
    },
    Insn::Addi {
        rd: A2,
        rs1: ZERO,
        imm: 2,
    },
    Insn::Addi {
        rd: A3,
        rs1: ZERO,
        imm: 3,
    },
    Insn::Addi {
        rd: A4,
        rs1: ZERO,
        imm: 4,
    },
    Insn::Ecall,
    // The first word of what was lent is one more.
    Insn::Lw {
        rd: T0,
        rs1: A4,
        imm: 0,
    },
    Insn::Addi {
        rd: T0,
        rs1: T0,
        imm: 1,
    },
    Insn::Sw {
        rs1: A4,
        rs2: T0,
        imm: 0,
    },
    // It is given back.
    Insn::Add {
        rd: A2,
        rs1: A4,
        rs2: ZERO,
    },
    Insn::Add {
        rd: A3,
        rs1: A5,
        rs2: ZERO,
    },
    Insn::Add {
        rd: A4,
        rs1: A6,
        rs2: ZERO,
    },
    Insn::Add {
        rd: A5,
        rs1: A7,
        rs2: ZERO,
    },
    Insn::Addi {
        rd: A0,
        rs1: ZERO,
        imm: 20,
    },
    Insn::Ecall,
    Insn::Jal { rd: ZERO, imm: -60 },
];

/// A client lends its page to the server a hundred times, and ends with the page's first word.
const CLIENT: [Insn; 26] = [
    // It connects to that server.
    Insn::Addi {
        rd: A0,
        rs1: ZERO,
        imm: 17,
    },
    Insn::Addi {
        rd: A1,
        rs1: ZERO,
        imm: 1,
    },
    Insn::Addi {
        rd: A2,
        rs1: ZERO,
        imm: 2,
    },
    Insn::Addi {
        rd: A3,
        rs1: ZERO,
        imm: 3,
    },
    Insn::Addi {
        rd: A4,
        rs1: ZERO,
        imm: 4,
    },
    Insn::Ecall,
    Insn::Add {
        rd: S0,
        rs1: A1,
        rs2: ZERO,
    },
    // It gets a page.
    Insn::Addi {
        rd: A0,
        rs1: ZERO,
        imm: 10,
    },
    Insn::Lui {
        rd: A1,
        imm: PAGE_SIZE,
    },
    Insn::Ecall,
    Insn::Add {
        rd: S1,
        rs1: A1,
        rs2: ZERO,
    },
    Insn::Addi {
        rd: S2,
        rs1: ZERO,
        imm: 100,
    },
    // The loop: the page is lent, and may be changed.
    Insn::Addi {
        rd: A0,
        rs1: ZERO,
        imm: 16,
    },
    Insn::Add {
        rd: A1,
        rs1: S0,
        rs2: ZERO,
    },
    Insn::Addi {
        rd: A2,
        rs1: ZERO,
        imm: 1,
    },
    Insn::Addi {
        rd: A3,
        rs1: ZERO,
        imm: 7,
    },
    Insn::Add {
        rd: A4,
        rs1: S1,
        rs2: ZERO,
    },
    Insn::Lui {
        rd: A5,
        imm: PAGE_SIZE,
    },
    Insn::Addi {
        rd: A6,
        rs1: ZERO,
        imm: 0,
    },
    Insn::Addi {
        rd: A7,
        rs1: ZERO,
        imm: 0,
    },
    Insn::Ecall,
    Insn::Addi {
        rd: S2,
        rs1: S2,
        imm: -1,
    },
    Insn::Bne {
        rs1: S2,
        rs2: ZERO,
        imm: -40,
    },
    // It ends, with the first word of the page.
    Insn::Lw {
        rd: A1,
        rs1: S1,
        imm: 0,
    },
    Insn::Addi {
        rd: A0,
        rs1: ZERO,
        imm: 22,
    },
    Insn::Ecall,
];

/// The size of the server's code in bytes.
pub const SERVER_SIZE: u32 = 88;

/// The size of a client's code in bytes.
pub const CLIENT_SIZE: u32 = 104;

/// Appends the words of a program.
#[tactic(auto, unfolding(crate::specs::Code::code_bytes))]
fn append_code(image: &mut Row<u8>, code: &[Insn]) -> Result<(), NoMemory>
    requires { All IsInRange code.now }
    ensures { OnOk result (image.new ≡ image.old ++ code_bytes code.now) }
{
    for insn in code {
        image.extend_from_slice(&encode(*insn).to_le_bytes())?;
    }
    Ok(())
}

/// Appends the code of the server and that of the clients.
pub fn append_codes(image: &mut Row<u8>) -> Result<(), NoMemory>
    ensures { OnOk result (image.new ≡ image.old ++ (code_bytes server_code ++ code_bytes client_code)) }
{
    append_code(image, &SERVER)?;
    append_code(image, &CLIENT)
}
