//! The atomic instructions, both ways between a word and its instruction, and any instruction of
//! RV32IMA and Zifencei over any memory of a process. The A extension is version 2.1 of the RISC-V
//! Unprivileged ISA.
#![tactic(auto)]

mod accesses;
mod atomic;
mod causes;
mod decoding;
mod encoding;
mod execute;
mod fields;
mod kind;
mod laws;
mod run;

pub use atomic::Atomic;
pub use decoding::decode_atomic;
pub use encoding::encode_atomic;
pub use laws::tables_are_apart;
pub use run::{run_any, run_or_leave};
