//! What stands in the fields of an instruction's word (RISC-V Unprivileged ISA, 2.2 and 2.3).

ghost use Rattle.std.specs.Prelude.{◌≡◌, ◌<◌, ◌^◌};
ghost use Rattle.xk_base.specs.Numbers.Fields.{sign_extended};
ghost use Rattle.rv32_words.specs.Reading.{opcode_of, funct3_of, funct7_of, rd_of, rs1_of, rs2_of, i_bits, s_bits, b_bits, j_bits, u_bits};

use crate::bits::{joined, sign_extend};

/// Bits 6 to 0.
pub fn opcode(word: u32) -> u32
    ensures { result ≡ opcode_of word }
{
    word & 0x7f
}

/// Bits 14 to 12.
pub fn funct3(word: u32) -> u32
    ensures { result ≡ funct3_of word }
{
    (word >> 12) & 0x7
}

/// Bits 31 to 25.
pub fn funct7(word: u32) -> u32
    ensures { result ≡ funct7_of word }
{
    word >> 25
}

/// Bits 11 to 7.
pub fn rd(word: u32) -> u8
    ensures { result ≡ rd_of word }
{
    ((word >> 7) & 0x1f) as u8
}

/// Bits 19 to 15.
pub fn rs1(word: u32) -> u8
    ensures { result ≡ rs1_of word }
{
    ((word >> 15) & 0x1f) as u8
}

/// Bits 24 to 20.
pub fn rs2(word: u32) -> u8
    ensures { result ≡ rs2_of word }
{
    ((word >> 20) & 0x1f) as u8
}

/// Bits 31 to 20, a signed number.
pub fn i_immediate(word: u32) -> i32
    ensures { result ≡ sign_extended 12 (i_bits word) }
{
    sign_extend(word >> 20, 12)
}

/// Bits 31 to 25 and 11 to 7, a signed number.
pub fn s_immediate(word: u32) -> i32
    ensures { result ≡ sign_extended 12 (s_bits word) }
{
    sign_extend(joined(word >> 25, 5, (word >> 7) & 0x1f), 12)
}

/// Bits 31, 7, 30 to 25 and 11 to 8 of the word, then a 0.
fn branch_bits(word: u32) -> u32
    ensures value { result ≡ b_bits word }
    ensures fits { result < 2 ^ 13 }
{
    let top = joined(word >> 31, 1, (word >> 7) & 0x1);
    let high = joined(top, 6, (word >> 25) & 0x3f);
    joined(high, 4, (word >> 8) & 0xf) << 1
}

/// Bits 31, 7, 30 to 25 and 11 to 8 of the word, then a 0: a signed number.
pub fn b_immediate(word: u32) -> i32
    ensures { result ≡ sign_extended 13 (b_bits word) }
{
    sign_extend(branch_bits(word), 13)
}

/// Bits 31 to 12, in place.
pub fn u_immediate(word: u32) -> u32
    ensures { result ≡ u_bits word }
{
    word & 0xffff_f000
}

/// Bits 31, 19 to 12, 20 and 30 to 21 of the word, then a 0.
fn jump_bits(word: u32) -> u32
    ensures value { result ≡ j_bits word }
    ensures fits { result < 2 ^ 21 }
{
    let top = joined(word >> 31, 8, (word >> 12) & 0xff);
    let high = joined(top, 1, (word >> 20) & 0x1);
    joined(high, 10, (word >> 21) & 0x3ff) << 1
}

/// Bits 31, 19 to 12, 20 and 30 to 21 of the word, then a 0: a signed number.
pub fn j_immediate(word: u32) -> i32
    ensures { result ≡ sign_extended 21 (j_bits word) }
{
    sign_extend(jump_bits(word), 21)
}
