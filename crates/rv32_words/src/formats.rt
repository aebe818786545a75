//! A word of each instruction format from what stands in its fields (RISC-V Unprivileged ISA, 2.2 and
//! 2.3), put together from bit 31 down.

ghost use Rattle.std.specs.Prelude.{◌≡◌, ◌<◌, ◌^◌, [], ◌∷◌};
ghost use Rattle.xk_base.specs.Numbers.Fields.{word_of, bits_of, FitsBits};
ghost use Rattle.rv32_words.specs.Formats.{RType, IType, ShiftType, SType, BType, UType, JType, drawing, FieldsFit, imm_bits};

use crate::bits::joined;

/// The lower part that five formats share: rs1, funct3, five bits that are rd in most, and the
/// opcode, below twelve bits.
fn with_low_part(high: u32, rs1: u8, funct3: u32, low: u32, opcode: u32) -> u32
    requires high { high < 2 ^ 12 }
    requires rs1 { rs1 < 2 ^ 5 }
    requires funct3 { funct3 < 2 ^ 3 }
    requires low { low < 2 ^ 5 }
    requires opcode { opcode < 2 ^ 7 }
    ensures { result ≡ word_of ((12, high) ∷ (5, rs1) ∷ (3, funct3) ∷ (5, low) ∷ (7, opcode) ∷ []) }
{
    let codes = joined(joined(high, 5, u32::from(rs1)), 3, funct3);
    joined(joined(codes, 5, low), 7, opcode)
}

/// An instruction of two source registers, or a shift by a constant, which stands where rs2 is.
pub fn r_type(opcode: u32, funct3: u32, funct7: u32, rd: u8, rs1: u8, rs2: u8) -> u32
    requires opcode { opcode < 2 ^ 7 }
    requires funct3 { funct3 < 2 ^ 3 }
    requires funct7 { funct7 < 2 ^ 7 }
    requires fields { FieldsFit (RType opcode funct3 funct7 rd rs1 rs2) }
    ensures { result ≡ word_of (drawing (RType opcode funct3 funct7 rd rs1 rs2)) }
{
    with_low_part(
        joined(funct7, 5, u32::from(rs2)),
        rs1,
        funct3,
        u32::from(rd),
        opcode,
    )
}

/// An instruction of one source register and an immediate of 12 bits.
pub fn i_type(opcode: u32, funct3: u32, rd: u8, rs1: u8, imm: i32) -> u32
    requires opcode { opcode < 2 ^ 7 }
    requires funct3 { funct3 < 2 ^ 3 }
    requires fields { FieldsFit (IType opcode funct3 rd rs1 imm) }
    ensures { result ≡ word_of (drawing (IType opcode funct3 rd rs1 imm)) }
{
    with_low_part(
        imm.cast_unsigned() & 0xfff,
        rs1,
        funct3,
        u32::from(rd),
        opcode,
    )
}

/// A store: two source registers and an immediate of 12 bits in two parts.
pub fn s_type(opcode: u32, funct3: u32, rs1: u8, rs2: u8, imm: i32) -> u32
    requires opcode { opcode < 2 ^ 7 }
    requires funct3 { funct3 < 2 ^ 3 }
    requires fields { FieldsFit (SType opcode funct3 rs1 rs2 imm) }
    ensures { result ≡ word_of (drawing (SType opcode funct3 rs1 rs2 imm)) }
{
    let bits = imm.cast_unsigned();
    let high = joined((bits >> 5) & 0x7f, 5, u32::from(rs2));
    with_low_part(high, rs1, funct3, bits & 0x1f, opcode)
}

/// A branch: two source registers and an even immediate of 13 bits in four parts.
pub fn b_type(opcode: u32, funct3: u32, rs1: u8, rs2: u8, imm: i32) -> u32
    requires opcode { opcode < 2 ^ 7 }
    requires funct3 { funct3 < 2 ^ 3 }
    requires fields { FieldsFit (BType opcode funct3 rs1 rs2 imm) }
    ensures { result ≡ word_of (drawing (BType opcode funct3 rs1 rs2 imm)) }
{
    let bits = imm.cast_unsigned();
    let high = joined((bits >> 12) & 0x1, 6, (bits >> 5) & 0x3f);
    let low = joined((bits >> 1) & 0xf, 1, (bits >> 11) & 0x1);
    with_low_part(joined(high, 5, u32::from(rs2)), rs1, funct3, low, opcode)
}

/// An instruction of the upper 20 bits of an immediate.
pub fn u_type(opcode: u32, rd: u8, imm: u32) -> u32
    requires opcode { opcode < 2 ^ 7 }
    requires fields { FieldsFit (UType opcode rd imm) }
    ensures { result ≡ word_of (drawing (UType opcode rd imm)) }
{
    joined(joined(imm >> 12, 5, u32::from(rd)), 7, opcode)
}

/// A jump: an even immediate of 21 bits in four parts.
pub fn j_type(opcode: u32, rd: u8, imm: i32) -> u32
    requires opcode { opcode < 2 ^ 7 }
    requires fields { FieldsFit (JType opcode rd imm) }
    ensures { result ≡ word_of (drawing (JType opcode rd imm)) }
{
    let bits = imm.cast_unsigned();
    let high = joined((bits >> 20) & 0x1, 10, (bits >> 1) & 0x3ff);
    let parts = joined(joined(high, 1, (bits >> 11) & 0x1), 8, (bits >> 12) & 0xff);
    joined(joined(parts, 5, u32::from(rd)), 7, opcode)
}
