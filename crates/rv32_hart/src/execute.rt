//! Instructions, each by its kind.

ghost use Rattle.std.specs.Prelude.{◌≡◌, ◌%◌};
ghost use Rattle.rv32_words.specs.Table.{IsInRange};
ghost use Rattle.machine_model.specs.Hart.Instructions.{effect};
ghost use Rattle.rv32_hart.specs.Operations.{effect_of, WritesRegister};
ghost use Rattle.rv32_hart.specs.Running.{DoesExecute, LeavesRegisters, UsesMemory, view_of};

use crate::causes::BREAKPOINT;
use crate::jumps::{branch, following, jump};
use crate::loads::load;
use crate::operation::{Operation, operation_of};
use crate::ran::Ran;
use crate::stores::store;
use rv32_words::Insn;
use xk_base::{Regs, UserMemory};

/// Executes an instruction that stands at `pc`.
#[inline(always)]
pub fn execute<U: UserMemory>(insn: Insn, regs: &mut Regs, pc: u32, mem: &mut U) -> Ran
    requires fields { IsInRange insn }
    requires aligned { pc % 4 ≡ 0 }
    requires fit { U.fit mem.old }
    ensures executes { let before = view_of U.UserMemory mem.old in
        let after = view_of U.UserMemory mem.new in
        DoesExecute (λ mem. effect mem regs.old pc insn) before after regs.old regs.new result }
    ensures leaves { LeavesRegisters regs.old regs.new result }
    ensures rest { (before : U) → U.same_rest before mem.old → U.same_rest before mem.new }
    ensures uses { UsesMemory U.UserMemory mem.old mem.new result }
{
    let operation = operation_of(insn, regs, pc);
    perform(operation, regs, pc, mem)
}

/// Does what an instruction that stands at `pc` does, with its sources read.
#[inline(always)]
fn perform<U: UserMemory>(operation: Operation, regs: &mut Regs, pc: u32, mem: &mut U) -> Ran
    requires register { WritesRegister operation }
    requires aligned { pc % 4 ≡ 0 }
    requires fit { U.fit mem.old }
    ensures executes { let before = view_of U.UserMemory mem.old in
        let after = view_of U.UserMemory mem.new in
        DoesExecute (λ mem. effect_of mem regs.old pc operation) before after regs.old regs.new result }
    ensures leaves { LeavesRegisters regs.old regs.new result }
    ensures rest { (before : U) → U.same_rest before mem.old → U.same_rest before mem.new }
    ensures uses { UsesMemory U.UserMemory mem.old mem.new result }
{
    match operation {
        Operation::Write(rd, value) => {
            regs.set(rd, value);
            Ran::Next(following(pc))
        }
        Operation::Jump(rd, target) => jump(regs, pc, rd, target),
        Operation::Branch(taken, offset) => branch(pc, taken, offset),
        Operation::Load(rd, address, width, signed) => {
            load(mem, regs, pc, rd, address, width, signed)
        }
        Operation::Store(address, width, value) => store(mem, pc, address, width, value),
        Operation::Fence => Ran::Next(following(pc)),
        Operation::Call => Ran::Ecall,
        Operation::Break => Ran::Trap {
            cause: BREAKPOINT,
            value: pc,
        },
    }
}
