//! The instruction of a word: first by its opcode, then by its function codes.

ghost use Rattle.std.specs.Prelude.{◌≡◌, MatchOption};
ghost use Rattle.rv32_words.specs.declared.insn.Insn.{Insn};
ghost use Rattle.rv32_words.specs.Table.{Spells};
ghost use Rattle.rv32_words.specs.Reading.{insn_at, branch_at, load_at, store_at, op_imm_at, shift_left_at, shift_right_at, op_at};
ghost use Rattle.rv32_words.specs.Reading.{base_op_at, alternate_op_at, muldiv_at, misc_mem_at, jalr_at, system_at};

use crate::fields::{
    b_immediate, funct3, funct7, i_immediate, j_immediate, opcode, rd, rs1, rs2, s_immediate,
    u_immediate,
};
use crate::insn::Insn;
use crate::opcodes::{
    ALTERNATE, AUIPC, BASE, BRANCH, EBREAK, ECALL, JAL, JALR, LOAD, LUI, MISC_MEM, MULDIV, OP,
    OP_IMM, STORE, SYSTEM,
};

/// The instruction of a word; none for a word outside the table.
#[inline(always)]
pub fn decode(word: u32) -> Option<Insn>
    ensures is { result ≡ insn_at word }
    // The answer spells the word with its fields in range, and None says that nothing does.
    ensures found { MatchOption result ((i : Insn) → ¬ Spells i word) (λ i. Spells i word) }
    // Whatever spells the word is the answer: `decode` reads back what `encode` wrote.
    ensures only { (i : Insn) → Spells i word → result ≡ Some i }
{
    by_opcode(word)
}

/// The table, read by the word's opcode.
#[inline(always)]
#[tactic(auto, unfolding(crate::specs::Reading::insn_at))]
fn by_opcode(word: u32) -> Option<Insn>
    ensures { result ≡ insn_at word }
{
    match opcode(word) {
        LUI => Some(Insn::Lui {
            rd: rd(word),
            imm: u_immediate(word),
        }),
        AUIPC => Some(Insn::Auipc {
            rd: rd(word),
            imm: u_immediate(word),
        }),
        JAL => Some(Insn::Jal {
            rd: rd(word),
            imm: j_immediate(word),
        }),
        JALR => decode_jalr(word),
        BRANCH => decode_branch(word),
        LOAD => decode_load(word),
        STORE => decode_store(word),
        OP_IMM => decode_op_imm(word),
        OP => decode_op(word),
        MISC_MEM => decode_misc_mem(word),
        SYSTEM => decode_system(word),
        _ => None,
    }
}

/// A word of opcode JALR.
fn decode_jalr(word: u32) -> Option<Insn>
    ensures { result ≡ jalr_at word }
{
    let rd = rd(word);
    let rs1 = rs1(word);
    let imm = i_immediate(word);
    match funct3(word) {
        0b000 => Some(Insn::Jalr { rd, rs1, imm }),
        _ => None,
    }
}

/// A word of opcode BRANCH.
fn decode_branch(word: u32) -> Option<Insn>
    ensures { result ≡ branch_at word }
{
    let rs1 = rs1(word);
    let rs2 = rs2(word);
    let imm = b_immediate(word);
    match funct3(word) {
        0b000 => Some(Insn::Beq { rs1, rs2, imm }),
        0b001 => Some(Insn::Bne { rs1, rs2, imm }),
        0b100 => Some(Insn::Blt { rs1, rs2, imm }),
        0b101 => Some(Insn::Bge { rs1, rs2, imm }),
        0b110 => Some(Insn::Bltu { rs1, rs2, imm }),
        0b111 => Some(Insn::Bgeu { rs1, rs2, imm }),
        _ => None,
    }
}

/// A word of opcode LOAD.
fn decode_load(word: u32) -> Option<Insn>
    ensures { result ≡ load_at word }
{
    let rd = rd(word);
    let rs1 = rs1(word);
    let imm = i_immediate(word);
    match funct3(word) {
        0b000 => Some(Insn::Lb { rd, rs1, imm }),
        0b001 => Some(Insn::Lh { rd, rs1, imm }),
        0b010 => Some(Insn::Lw { rd, rs1, imm }),
        0b100 => Some(Insn::Lbu { rd, rs1, imm }),
        0b101 => Some(Insn::Lhu { rd, rs1, imm }),
        _ => None,
    }
}

/// A word of opcode STORE.
fn decode_store(word: u32) -> Option<Insn>
    ensures { result ≡ store_at word }
{
    let rs1 = rs1(word);
    let rs2 = rs2(word);
    let imm = s_immediate(word);
    match funct3(word) {
        0b000 => Some(Insn::Sb { rs1, rs2, imm }),
        0b001 => Some(Insn::Sh { rs1, rs2, imm }),
        0b010 => Some(Insn::Sw { rs1, rs2, imm }),
        _ => None,
    }
}

/// A word of opcode OP-IMM.
fn decode_op_imm(word: u32) -> Option<Insn>
    ensures { result ≡ op_imm_at word }
{
    let rd = rd(word);
    let rs1 = rs1(word);
    let imm = i_immediate(word);
    match funct3(word) {
        0b000 => Some(Insn::Addi { rd, rs1, imm }),
        0b001 => decode_shift_left(word),
        0b010 => Some(Insn::Slti { rd, rs1, imm }),
        0b011 => Some(Insn::Sltiu { rd, rs1, imm }),
        0b100 => Some(Insn::Xori { rd, rs1, imm }),
        0b101 => decode_shift_right(word),
        0b110 => Some(Insn::Ori { rd, rs1, imm }),
        0b111 => Some(Insn::Andi { rd, rs1, imm }),
        _ => None,
    }
}

/// A word of opcode OP-IMM with the funct3 of SLLI.
fn decode_shift_left(word: u32) -> Option<Insn>
    ensures { result ≡ shift_left_at word }
{
    let rd = rd(word);
    let rs1 = rs1(word);
    let shamt = rs2(word);
    match funct7(word) {
        BASE => Some(Insn::Slli { rd, rs1, shamt }),
        _ => None,
    }
}

/// A word of opcode OP-IMM with the funct3 of SRLI and SRAI.
fn decode_shift_right(word: u32) -> Option<Insn>
    ensures { result ≡ shift_right_at word }
{
    let rd = rd(word);
    let rs1 = rs1(word);
    let shamt = rs2(word);
    match funct7(word) {
        BASE => Some(Insn::Srli { rd, rs1, shamt }),
        ALTERNATE => Some(Insn::Srai { rd, rs1, shamt }),
        _ => None,
    }
}

/// A word of opcode OP.
fn decode_op(word: u32) -> Option<Insn>
    ensures { result ≡ op_at word }
{
    match funct7(word) {
        BASE => decode_base_op(word),
        ALTERNATE => decode_alternate_op(word),
        MULDIV => decode_muldiv(word),
        _ => None,
    }
}

/// A word of opcode OP with funct7 0000000.
fn decode_base_op(word: u32) -> Option<Insn>
    ensures { result ≡ base_op_at word }
{
    let rd = rd(word);
    let rs1 = rs1(word);
    let rs2 = rs2(word);
    match funct3(word) {
        0b000 => Some(Insn::Add { rd, rs1, rs2 }),
        0b001 => Some(Insn::Sll { rd, rs1, rs2 }),
        0b010 => Some(Insn::Slt { rd, rs1, rs2 }),
        0b011 => Some(Insn::Sltu { rd, rs1, rs2 }),
        0b100 => Some(Insn::Xor { rd, rs1, rs2 }),
        0b101 => Some(Insn::Srl { rd, rs1, rs2 }),
        0b110 => Some(Insn::Or { rd, rs1, rs2 }),
        0b111 => Some(Insn::And { rd, rs1, rs2 }),
        _ => None,
    }
}

/// A word of opcode OP with funct7 0100000.
fn decode_alternate_op(word: u32) -> Option<Insn>
    ensures { result ≡ alternate_op_at word }
{
    let rd = rd(word);
    let rs1 = rs1(word);
    let rs2 = rs2(word);
    match funct3(word) {
        0b000 => Some(Insn::Sub { rd, rs1, rs2 }),
        0b101 => Some(Insn::Sra { rd, rs1, rs2 }),
        _ => None,
    }
}

/// A word of opcode OP with funct7 0000001: the M extension.
fn decode_muldiv(word: u32) -> Option<Insn>
    ensures { result ≡ muldiv_at word }
{
    let rd = rd(word);
    let rs1 = rs1(word);
    let rs2 = rs2(word);
    match funct3(word) {
        0b000 => Some(Insn::Mul { rd, rs1, rs2 }),
        0b001 => Some(Insn::Mulh { rd, rs1, rs2 }),
        0b010 => Some(Insn::Mulhsu { rd, rs1, rs2 }),
        0b011 => Some(Insn::Mulhu { rd, rs1, rs2 }),
        0b100 => Some(Insn::Div { rd, rs1, rs2 }),
        0b101 => Some(Insn::Divu { rd, rs1, rs2 }),
        0b110 => Some(Insn::Rem { rd, rs1, rs2 }),
        0b111 => Some(Insn::Remu { rd, rs1, rs2 }),
        _ => None,
    }
}

/// A word of opcode MISC-MEM. All its fields are kept.
fn decode_misc_mem(word: u32) -> Option<Insn>
    ensures { result ≡ misc_mem_at word }
{
    let rd = rd(word);
    let rs1 = rs1(word);
    let imm = i_immediate(word);
    match funct3(word) {
        0b000 => Some(Insn::Fence { rd, rs1, imm }),
        0b001 => Some(Insn::FenceI { rd, rs1, imm }),
        _ => None,
    }
}

/// A word of opcode SYSTEM. There are only two, with all fields 0 but bit 20.
fn decode_system(word: u32) -> Option<Insn>
    ensures { result ≡ system_at word }
{
    match word {
        ECALL => Some(Insn::Ecall),
        EBREAK => Some(Insn::Ebreak),
        _ => None,
    }
}
