//! The hart: one instruction of RV32IM and Zifencei, over any memory of a process.
#![tactic(auto)]

mod arithmetic;
mod causes;
mod execute;
mod jumps;
mod loads;
mod operation;
mod ran;
mod run;
mod stores;

pub use ran::Ran;
pub use run::{run_one, run_word};
