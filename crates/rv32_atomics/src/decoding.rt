//! The atomic instruction of a word.

ghost use Rattle.std.specs.Prelude.{◌≡◌, ◌==◌, if◌then◌else◌, MatchOption, None};
ghost use Rattle.std.specs.Option.{option_map};
ghost use Rattle.machine_model.specs.Hart.Atomics.{atomic_at};
ghost use Rattle.rv32_words.specs.Reading.{funct3_of};
ghost use Rattle.rv32_atomics.specs.declared.atomic.Atomic.{Atomic};
ghost use Rattle.rv32_atomics.specs.Meaning.{meaning};
ghost use Rattle.rv32_atomics.specs.Reading.{fields_at, reading, variant};
ghost use Rattle.rv32_atomics.specs.Table.{Spells};

use crate::atomic::Atomic;
use crate::fields::{
    AMOADD, AMOAND, AMOMAX, AMOMAXU, AMOMIN, AMOMINU, AMOOR, AMOSWAP, AMOXOR, Fields, LR, SC,
    fields_at,
};

/// The opcode of all atomic instructions.
pub const AMO: u32 = 0b010_1111;

/// The funct3 of accesses of a word.
pub const WORD: u32 = 0b010;

/// The atomic instruction of a word; none for a word outside the table.
#[inline(always)]
pub fn decode_atomic(word: u32) -> Option<Atomic>
    // The answer spells the word with its registers in range, and None says that nothing does.
    ensures found { MatchOption result ((a : Atomic) → ¬ Spells a word) (λ a. Spells a word) }
    // Whatever spells the word is the answer: `decode_atomic` reads back what `encode_atomic` wrote.
    ensures only { (a : Atomic) → Spells a word → result ≡ Some a }
    // It is the instruction that the machine does.
    ensures means { option_map meaning result ≡ atomic_at word }
{
    read(word)
}

/// The table, read by the word's fields. The opcode is looked at by itself: where it is another one, and
/// so for most words, no more is done.
#[inline(always)]
#[tactic(auto, unfolding(crate::specs::Reading::reading))]
fn read(word: u32) -> Option<Atomic>
    ensures { result ≡ reading word }
{
    if word & 0x7f == AMO {
        by_width(word)
    } else {
        None
    }
}

/// A word of opcode AMO.
#[inline(never)]
fn by_width(word: u32) -> Option<Atomic>
    ensures { result ≡ (if funct3_of word == 0b010 then variant (fields_at word) else None) }
{
    if (word >> 12) & 0x7 == WORD {
        variant(fields_at(word))
    } else {
        None
    }
}

/// The instruction of these fields.
fn variant(f: Fields) -> Option<Atomic>
    ensures { result ≡ variant f }
{
    let Fields {
        funct5,
        aq,
        rl,
        rs2,
        rs1,
        rd,
    } = f;
    match funct5 {
        LR if rs2 == 0 => Some(Atomic::Lr { rd, rs1, aq, rl }),
        SC => Some(Atomic::Sc {
            rd,
            rs1,
            rs2,
            aq,
            rl,
        }),
        AMOSWAP => Some(Atomic::AmoSwap {
            rd,
            rs1,
            rs2,
            aq,
            rl,
        }),
        AMOADD => Some(Atomic::AmoAdd {
            rd,
            rs1,
            rs2,
            aq,
            rl,
        }),
        AMOXOR => Some(Atomic::AmoXor {
            rd,
            rs1,
            rs2,
            aq,
            rl,
        }),
        AMOAND => Some(Atomic::AmoAnd {
            rd,
            rs1,
            rs2,
            aq,
            rl,
        }),
        AMOOR => Some(Atomic::AmoOr {
            rd,
            rs1,
            rs2,
            aq,
            rl,
        }),
        AMOMIN => Some(Atomic::AmoMin {
            rd,
            rs1,
            rs2,
            aq,
            rl,
        }),
        AMOMAX => Some(Atomic::AmoMax {
            rd,
            rs1,
            rs2,
            aq,
            rl,
        }),
        AMOMINU => Some(Atomic::AmoMinu {
            rd,
            rs1,
            rs2,
            aq,
            rl,
        }),
        AMOMAXU => Some(Atomic::AmoMaxu {
            rd,
            rs1,
            rs2,
            aq,
            rl,
        }),
        _ => None,
    }
}
