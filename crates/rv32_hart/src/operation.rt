//! An instruction with its operands read.

ghost use Rattle.std.specs.Prelude.{◌≡◌, ◌-◌, ◌%◌};
ghost use Rattle.xk_base.specs.UserMemory.{Memory};
ghost use Rattle.xk_base.specs.Calls.Registers.{reg_at};
ghost use Rattle.rv32_words.specs.Formats.{IsRegister};
ghost use Rattle.rv32_words.specs.Table.{IsInRange};
ghost use Rattle.machine_model.specs.Hart.Instructions.{effect, as_word, address_of, sum_of};
ghost use Rattle.rv32_hart.specs.Operations.{effect_of, WritesRegister};

use self::Operation::{Branch, Break, Call, Fence, Jump, Load, Store, Write};
use crate::arithmetic::{
    add_immediate, divide, divide_unsigned, is_signed_below, multiply_high, multiply_high_mixed,
    multiply_high_unsigned, remainder, remainder_unsigned, set_less_than, set_less_than_unsigned,
    shift_left, shift_right, shift_right_signed, word,
};
use rv32_words::Insn;
use xk_base::{Regs, Width};

/// What an instruction does, with its sources read.
#[derive(Clone, Copy, Debug, PartialEq, Eq)]
pub enum Operation {
    /// The register gets the value.
    Write(u8, u32),
    /// A jump to the target. The register gets the pc of the instruction that follows.
    Jump(u8, u32),
    /// A branch by the offset in bytes, where it is taken.
    Branch(bool, i32),
    /// The register gets what stands at the address, its sign extended if it is a signed number.
    Load(u8, u32, Width, bool),
    /// The low bytes of the value go to the address.
    Store(u32, Width, u32),
    /// Nothing.
    Fence,
    /// ECALL.
    Call,
    /// EBREAK.
    Break,
}

/// The operation of an instruction that stands at `pc`, where the registers are `x`. All its sources
/// are read here, before anything is written.
#[inline(always)]
pub fn operation_of(insn: Insn, x: &Regs, pc: u32) -> Operation
    requires { IsInRange insn }
    ensures is { (mem : Memory) → effect_of mem x.now pc result ≡ effect mem x.now pc insn }
    ensures register { WritesRegister result }
{
    match insn {
        Insn::Lui { rd, imm } => Write(rd, imm),
        Insn::Auipc { rd, imm } => Write(rd, pc.wrapping_add(imm)),
        Insn::Jal { rd, imm } => Jump(rd, add_immediate(pc, imm)),
        Insn::Jalr { rd, rs1, imm } => Jump(rd, even(address(x, rs1, imm))),
        Insn::Beq { rs1, rs2, imm } => Branch(x.get(rs1) == x.get(rs2), imm),
        Insn::Bne { rs1, rs2, imm } => Branch(x.get(rs1) != x.get(rs2), imm),
        Insn::Blt { rs1, rs2, imm } => Branch(is_signed_below(x.get(rs1), x.get(rs2)), imm),
        Insn::Bge { rs1, rs2, imm } => Branch(!is_signed_below(x.get(rs1), x.get(rs2)), imm),
        Insn::Bltu { rs1, rs2, imm } => Branch(x.get(rs1) < x.get(rs2), imm),
        Insn::Bgeu { rs1, rs2, imm } => Branch(x.get(rs1) >= x.get(rs2), imm),
        Insn::Lb { rd, rs1, imm } => Load(rd, address(x, rs1, imm), Width::Byte, true),
        Insn::Lh { rd, rs1, imm } => Load(rd, address(x, rs1, imm), Width::Half, true),
        Insn::Lw { rd, rs1, imm } => Load(rd, address(x, rs1, imm), Width::Word, false),
        Insn::Lbu { rd, rs1, imm } => Load(rd, address(x, rs1, imm), Width::Byte, false),
        Insn::Lhu { rd, rs1, imm } => Load(rd, address(x, rs1, imm), Width::Half, false),
        Insn::Sb { rs1, rs2, imm } => Store(address(x, rs1, imm), Width::Byte, x.get(rs2)),
        Insn::Sh { rs1, rs2, imm } => Store(address(x, rs1, imm), Width::Half, x.get(rs2)),
        Insn::Sw { rs1, rs2, imm } => Store(address(x, rs1, imm), Width::Word, x.get(rs2)),
        Insn::Addi { rd, rs1, imm } => Write(rd, add_immediate(x.get(rs1), imm)),
        Insn::Slti { rd, rs1, imm } => Write(rd, set_less_than(x.get(rs1), word(imm))),
        Insn::Sltiu { rd, rs1, imm } => Write(rd, set_less_than_unsigned(x.get(rs1), word(imm))),
        Insn::Xori { rd, rs1, imm } => Write(rd, x.get(rs1) ^ word(imm)),
        Insn::Ori { rd, rs1, imm } => Write(rd, x.get(rs1) | word(imm)),
        Insn::Andi { rd, rs1, imm } => Write(rd, x.get(rs1) & word(imm)),
        Insn::Slli { rd, rs1, shamt } => Write(rd, shift_left(x.get(rs1), shamt as u32)),
        Insn::Srli { rd, rs1, shamt } => Write(rd, shift_right(x.get(rs1), shamt as u32)),
        Insn::Srai { rd, rs1, shamt } => Write(rd, shift_right_signed(x.get(rs1), shamt as u32)),
        Insn::Add { rd, rs1, rs2 } => Write(rd, x.get(rs1).wrapping_add(x.get(rs2))),
        Insn::Sub { rd, rs1, rs2 } => Write(rd, x.get(rs1).wrapping_sub(x.get(rs2))),
        Insn::Sll { rd, rs1, rs2 } => Write(rd, shift_left(x.get(rs1), x.get(rs2))),
        Insn::Slt { rd, rs1, rs2 } => Write(rd, set_less_than(x.get(rs1), x.get(rs2))),
        Insn::Sltu { rd, rs1, rs2 } => Write(rd, set_less_than_unsigned(x.get(rs1), x.get(rs2))),
        Insn::Xor { rd, rs1, rs2 } => Write(rd, x.get(rs1) ^ x.get(rs2)),
        Insn::Srl { rd, rs1, rs2 } => Write(rd, shift_right(x.get(rs1), x.get(rs2))),
        Insn::Sra { rd, rs1, rs2 } => Write(rd, shift_right_signed(x.get(rs1), x.get(rs2))),
        Insn::Or { rd, rs1, rs2 } => Write(rd, x.get(rs1) | x.get(rs2)),
        Insn::And { rd, rs1, rs2 } => Write(rd, x.get(rs1) & x.get(rs2)),
        Insn::Mul { rd, rs1, rs2 } => Write(rd, x.get(rs1).wrapping_mul(x.get(rs2))),
        Insn::Mulh { rd, rs1, rs2 } => Write(rd, multiply_high(x.get(rs1), x.get(rs2))),
        Insn::Mulhsu { rd, rs1, rs2 } => Write(rd, multiply_high_mixed(x.get(rs1), x.get(rs2))),
        Insn::Mulhu { rd, rs1, rs2 } => Write(rd, multiply_high_unsigned(x.get(rs1), x.get(rs2))),
        Insn::Div { rd, rs1, rs2 } => Write(rd, divide(x.get(rs1), x.get(rs2))),
        Insn::Divu { rd, rs1, rs2 } => Write(rd, divide_unsigned(x.get(rs1), x.get(rs2))),
        Insn::Rem { rd, rs1, rs2 } => Write(rd, remainder(x.get(rs1), x.get(rs2))),
        Insn::Remu { rd, rs1, rs2 } => Write(rd, remainder_unsigned(x.get(rs1), x.get(rs2))),
        Insn::Fence { .. } | Insn::FenceI { .. } => Fence,
        Insn::Ecall => Call,
        Insn::Ebreak => Break,
    }
}

/// The address of a load, a store or a JALR.
#[inline(always)]
fn address(x: &Regs, rs1: u8, imm: i32) -> u32
    requires { IsRegister rs1 }
    ensures { result ≡ address_of x.now rs1 imm }
{
    add_immediate(x.get(rs1), imm)
}

/// The address with bit 0 cleared.
#[inline(always)]
fn even(address: u32) -> u32
    ensures { result ≡ address - address % 2 }
{
    address - address % 2
}
