//! One instruction.

ghost use Rattle.std.specs.Prelude.{◌≡◌, ◌%◌};
ghost use Rattle.machine_model.specs.Hart.Instructions.{execute_base};
ghost use Rattle.rv32_hart.specs.Running.{DoesExecute, Executes, LeavesRegisters, UsesMemory, view_of};

use crate::causes::{FETCH_PAGE_FAULT, ILLEGAL_INSTRUCTION};
use crate::execute::execute;
use crate::ran::Ran;
use rv32_words::decode;
use xk_base::{Failed, Regs, UserMemory};

/// Executes the instruction at `pc`, which is a multiple of 4, over a memory that is fit for use.
///
/// It fetches once, and moves bytes at most once. On a trap, an ECALL and a failure the registers
/// are as before, and so they are where a store goes to a device, since a store writes none. `Failed`
/// comes only where the count of faults of `mem` rose, and `mem` isn't fit then; on every other answer
/// it stays fit.
pub fn run_one<U: UserMemory>(regs: &mut Regs, pc: u32, mem: &mut U) -> Ran
    requires aligned { pc % 4 ≡ 0 }
    requires fit { U.fit mem.old }
    ensures executes { let before = view_of U.UserMemory mem.old in
        let after = view_of U.UserMemory mem.new in
        Executes before after regs.old regs.new pc result }
    ensures leaves { LeavesRegisters regs.old regs.new result }
    ensures rest { U.same_rest mem.old mem.new }
    ensures uses { UsesMemory U.UserMemory mem.old mem.new result }
{
    match mem.fetch(pc) {
        Ok(Some(word)) => run_word(word, regs, pc, mem),
        Ok(None) => Ran::Trap {
            cause: FETCH_PAGE_FAULT,
            value: pc,
        },
        Err(Failed) => Ran::Failed,
    }
}

/// Executes the instruction that a word spells, which was fetched at `pc`, a multiple of 4, over a memory
/// that is fit for use. A word that spells none is a trap. Registers and memory are left as by `run_one`.
#[inline(always)]
pub fn run_word<U: UserMemory>(word: u32, regs: &mut Regs, pc: u32, mem: &mut U) -> Ran
    requires aligned { pc % 4 ≡ 0 }
    requires fit { U.fit mem.old }
    ensures executes { let before = view_of U.UserMemory mem.old in
        let after = view_of U.UserMemory mem.new in
        DoesExecute (execute_base regs.old pc word) before after regs.old regs.new result }
    ensures leaves { LeavesRegisters regs.old regs.new result }
    ensures rest { (before : U) → U.same_rest before mem.old → U.same_rest before mem.new }
    ensures uses { UsesMemory U.UserMemory mem.old mem.new result }
{
    match decode(word) {
        Some(insn) => execute(insn, regs, pc, mem),
        None => Ran::Trap {
            cause: ILLEGAL_INSTRUCTION,
            value: word,
        },
    }
}
