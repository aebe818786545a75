//! The instruction words of RV32IM with `FENCE` and `FENCE.I`, both ways: a word decodes to its
//! instruction, and an instruction encodes to its word. The table is `specs/Table.antt`, after the
//! RISC-V Unprivileged ISA: RV32I 2.1, M 2.0 and Zifencei 2.0.
#![tactic(auto)]

mod bits;
mod decoding;
mod encoding;
mod fields;
mod formats;
mod insn;
mod opcodes;

pub use decoding::decode;
pub use encoding::encode;
pub use insn::Insn;
