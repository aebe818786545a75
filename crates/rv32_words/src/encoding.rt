//! The word of an instruction.

ghost use Rattle.std.specs.Prelude.{◌≡◌};
ghost use Rattle.rv32_words.specs.Table.{spelling, IsInRange};

use crate::formats::{b_type, i_type, j_type, r_type, s_type, u_type};
use crate::insn::Insn;
use crate::opcodes::{
    ALTERNATE, AUIPC, BASE, BRANCH, EBREAK, ECALL, JAL, JALR, LOAD, LUI, MISC_MEM, MULDIV, OP,
    OP_IMM, STORE,
};

/// The word of the instruction, from which `decode` reads it back.
pub fn encode(i: Insn) -> u32
    requires { IsInRange i }
    ensures { result ≡ spelling i }
{
    match i {
        Insn::Lui { rd, imm } => u_type(LUI, rd, imm),
        Insn::Auipc { rd, imm } => u_type(AUIPC, rd, imm),
        Insn::Jal { rd, imm } => j_type(JAL, rd, imm),
        Insn::Jalr { rd, rs1, imm } => i_type(JALR, 0b000, rd, rs1, imm),
        Insn::Beq { rs1, rs2, imm } => b_type(BRANCH, 0b000, rs1, rs2, imm),
        Insn::Bne { rs1, rs2, imm } => b_type(BRANCH, 0b001, rs1, rs2, imm),
        Insn::Blt { rs1, rs2, imm } => b_type(BRANCH, 0b100, rs1, rs2, imm),
        Insn::Bge { rs1, rs2, imm } => b_type(BRANCH, 0b101, rs1, rs2, imm),
        Insn::Bltu { rs1, rs2, imm } => b_type(BRANCH, 0b110, rs1, rs2, imm),
        Insn::Bgeu { rs1, rs2, imm } => b_type(BRANCH, 0b111, rs1, rs2, imm),
        Insn::Lb { rd, rs1, imm } => i_type(LOAD, 0b000, rd, rs1, imm),
        Insn::Lh { rd, rs1, imm } => i_type(LOAD, 0b001, rd, rs1, imm),
        Insn::Lw { rd, rs1, imm } => i_type(LOAD, 0b010, rd, rs1, imm),
        Insn::Lbu { rd, rs1, imm } => i_type(LOAD, 0b100, rd, rs1, imm),
        Insn::Lhu { rd, rs1, imm } => i_type(LOAD, 0b101, rd, rs1, imm),
        Insn::Sb { rs1, rs2, imm } => s_type(STORE, 0b000, rs1, rs2, imm),
        Insn::Sh { rs1, rs2, imm } => s_type(STORE, 0b001, rs1, rs2, imm),
        Insn::Sw { rs1, rs2, imm } => s_type(STORE, 0b010, rs1, rs2, imm),
        Insn::Addi { rd, rs1, imm } => i_type(OP_IMM, 0b000, rd, rs1, imm),
        Insn::Slti { rd, rs1, imm } => i_type(OP_IMM, 0b010, rd, rs1, imm),
        Insn::Sltiu { rd, rs1, imm } => i_type(OP_IMM, 0b011, rd, rs1, imm),
        Insn::Xori { rd, rs1, imm } => i_type(OP_IMM, 0b100, rd, rs1, imm),
        Insn::Ori { rd, rs1, imm } => i_type(OP_IMM, 0b110, rd, rs1, imm),
        Insn::Andi { rd, rs1, imm } => i_type(OP_IMM, 0b111, rd, rs1, imm),
        Insn::Slli { rd, rs1, shamt } => r_type(OP_IMM, 0b001, BASE, rd, rs1, shamt),
        Insn::Srli { rd, rs1, shamt } => r_type(OP_IMM, 0b101, BASE, rd, rs1, shamt),
        Insn::Srai { rd, rs1, shamt } => r_type(OP_IMM, 0b101, ALTERNATE, rd, rs1, shamt),
        Insn::Add { rd, rs1, rs2 } => r_type(OP, 0b000, BASE, rd, rs1, rs2),
        Insn::Sub { rd, rs1, rs2 } => r_type(OP, 0b000, ALTERNATE, rd, rs1, rs2),
        Insn::Sll { rd, rs1, rs2 } => r_type(OP, 0b001, BASE, rd, rs1, rs2),
        Insn::Slt { rd, rs1, rs2 } => r_type(OP, 0b010, BASE, rd, rs1, rs2),
        Insn::Sltu { rd, rs1, rs2 } => r_type(OP, 0b011, BASE, rd, rs1, rs2),
        Insn::Xor { rd, rs1, rs2 } => r_type(OP, 0b100, BASE, rd, rs1, rs2),
        Insn::Srl { rd, rs1, rs2 } => r_type(OP, 0b101, BASE, rd, rs1, rs2),
        Insn::Sra { rd, rs1, rs2 } => r_type(OP, 0b101, ALTERNATE, rd, rs1, rs2),
        Insn::Or { rd, rs1, rs2 } => r_type(OP, 0b110, BASE, rd, rs1, rs2),
        Insn::And { rd, rs1, rs2 } => r_type(OP, 0b111, BASE, rd, rs1, rs2),
        Insn::Mul { rd, rs1, rs2 } => r_type(OP, 0b000, MULDIV, rd, rs1, rs2),
        Insn::Mulh { rd, rs1, rs2 } => r_type(OP, 0b001, MULDIV, rd, rs1, rs2),
        Insn::Mulhsu { rd, rs1, rs2 } => r_type(OP, 0b010, MULDIV, rd, rs1, rs2),
        Insn::Mulhu { rd, rs1, rs2 } => r_type(OP, 0b011, MULDIV, rd, rs1, rs2),
        Insn::Div { rd, rs1, rs2 } => r_type(OP, 0b100, MULDIV, rd, rs1, rs2),
        Insn::Divu { rd, rs1, rs2 } => r_type(OP, 0b101, MULDIV, rd, rs1, rs2),
        Insn::Rem { rd, rs1, rs2 } => r_type(OP, 0b110, MULDIV, rd, rs1, rs2),
        Insn::Remu { rd, rs1, rs2 } => r_type(OP, 0b111, MULDIV, rd, rs1, rs2),
        Insn::Fence { rd, rs1, imm } => i_type(MISC_MEM, 0b000, rd, rs1, imm),
        Insn::FenceI { rd, rs1, imm } => i_type(MISC_MEM, 0b001, rd, rs1, imm),
        Insn::Ecall => ECALL,
        Insn::Ebreak => EBREAK,
    }
}
