//! Atomic instructions, each by its kind.

ghost use Rattle.std.specs.Prelude.{◌≡◌, ◌%◌};
ghost use Rattle.machine_model.specs.Hart.Atomics.{atomic_effect};
ghost use Rattle.rv32_hart.specs.Running.{DoesExecute, UsesMemory, view_of};
ghost use Rattle.rv32_atomics.specs.Meaning.{meaning};
ghost use Rattle.rv32_atomics.specs.Performing.{LeavesRegistersUnlessDone};
ghost use Rattle.rv32_atomics.specs.Table.{IsInRange};

use crate::accesses::{load, operate, store_conditionally};
use crate::atomic::Atomic;
use crate::fields::fields_of;
use crate::kind::{Kind, kind_of};
use rv32_hart::Ran;
use xk_base::{Regs, UserMemory};

/// Executes an atomic instruction that stands at `pc`, whose thread has reserved this address. Its
/// sources are read before anything is written.
pub fn execute<U: UserMemory>(
    atomic: Atomic,
    regs: &mut Regs,
    pc: u32,
    reserved: Option<u32>,
    mem: &mut U,
) -> Ran
    requires fields { IsInRange atomic }
    requires aligned { pc % 4 ≡ 0 }
    requires fit { U.fit mem.old }
    ensures executes { let before = view_of U.UserMemory mem.old in
        let after = view_of U.UserMemory mem.new in
        DoesExecute (λ mem. atomic_effect mem regs.old pc reserved (meaning atomic)) before after regs.old regs.new result }
    ensures leaves { LeavesRegistersUnlessDone regs.old regs.new result }
    ensures rest { (before : U) → U.same_rest before mem.old → U.same_rest before mem.new }
    ensures uses { UsesMemory U.UserMemory mem.old mem.new result }
{
    let f = fields_of(atomic);
    let address = regs.get(f.rs1);
    let operand = regs.get(f.rs2);
    match kind_of(atomic) {
        Kind::LoadReserved => load(mem, regs, pc, f.rd, address),
        Kind::StoreConditional => {
            store_conditionally(mem, regs, pc, f.rd, address, reserved, operand)
        }
        Kind::Amo(operation) => operate(mem, regs, pc, f.rd, address, operation, operand),
    }
}
